//! The place of a node among entries by ascending node number. Serves `Row::find`; decided by `IsPlaceOf`.
ghost use Rattle.std.specs.Prelude.{◌≡◌, ◌<◌, ◌≤◌, ℕ, length, None, MatchOption};
ghost use Rattle.bounded_table.specs.Finding.{AllAbove, AllBelow, IsPlaceOf};
ghost use Rattle.bounded_table.specs.Table.{RisesFrom, entry_in};

use crate::table_row::Entry;
use road_network::NodeId;

/// At most this many entries are read one after another. Halving them further would save reads, but cost the
/// processor more wrong guesses. Speed only: any value is right.
const FEW: usize = 16;

/// As `place_between`, reading one entry after another.
fn place_by_reading(entries: &[Entry], first: usize, past: usize, n: NodeId) -> Option<usize>
    requires rising { RisesFrom 0 entries.now }
    requires places { (first ≤ past) × (past ≤ length entries.now) }
    requires below { AllBelow entries.now first n.0 }
    requires above { AllAbove entries.now past n.0 }
    ensures { MatchOption result (entry_in entries.now n.0 ≡ None) (IsPlaceOf entries.now n.0) }
{
    for place in first..past {
        if entries[place].node == n {
            return Some(place);
        }
    }
    None
}

/// The place of a node that is neither before `first` nor at `past` or later.
pub fn place_between(entries: &[Entry], first: usize, past: usize, n: NodeId) -> Option<usize>
    requires rising { RisesFrom 0 entries.now }
    requires places { (first ≤ past) × (past ≤ length entries.now) }
    requires below { AllBelow entries.now first n.0 }
    requires above { AllAbove entries.now past n.0 }
    ensures { MatchOption result (entry_in entries.now n.0 ≡ None) (IsPlaceOf entries.now n.0) }
{
    let mut low = first;
    let mut count = past - first;
    while count > FEW {
        let half = count / 2;
        low = if entries[low + half].node <= n {
            low + half
        } else {
            low
        };
        count -= half;
    }
    place_by_reading(entries, low, low + count, n)
}

/// The place of a node, searched from the place of another, `here`: two entries are at most as far apart as their node
/// numbers differ. Most numbers between two nodes are missing, so the nearest quarter of these places is tried first.
// Each case makes its own call. With one call for all, the compiler selects its bounds without a branch, and the search
// waits for the entry that decides; a branch lets the processor guess, and read the next entries meanwhile.
pub fn place_from(entries: &[Entry], start: usize, here: NodeId, n: NodeId) -> Option<usize>
    requires rising { RisesFrom 0 entries.now }
    requires start { IsPlaceOf entries.now here.0 start }
    ensures { MatchOption result (entry_in entries.now n.0 ≡ None) (IsPlaceOf entries.now n.0) }
{
    if n.0 < here.0 {
        let far = start.min((here.0 - n.0) as usize);
        let near = start - far / 4;
        if entries[near].node <= n {
            return place_between(entries, near, start, n);
        }
        place_between(entries, start - far, near, n)
    } else {
        let far = (entries.len() - 1 - start).min((n.0 - here.0) as usize);
        let near = start + far / 4;
        if entries[near].node > n {
            return place_between(entries, start, near, n);
        }
        place_between(entries, near, start + far + 1, n)
    }
}
