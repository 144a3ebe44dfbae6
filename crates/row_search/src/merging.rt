//! Uses the known row of a node in a search. Serves `Workspace::leave`; decided by `MergesAll`. A known row is
//! closed: every edge out of a listed node, within the bound, leads to an entry that is no worse. So after the
//! merge every edge out of a merged node was tried from the merged distance, and the node need not wait. A node
//! with a better label keeps it: it was processed, or still waits.
ghost use Rattle.std.specs.Prelude.{◌≡◌, ◌<◌, ◌≤◌, ℕ, length};
ghost use Rattle.std.specs.List.{All};
ghost use Rattle.std.specs.Option.{IsSome};
ghost use Rattle.row_search.specs.inside.Marked.{AreListsFor, IsSized, lists_of};
ghost use Rattle.row_search.specs.inside.Merging.{MarksAlso, MergesAll, merged, merged_entry};
ghost use Rattle.bounded_table.specs.Table.{RisesFrom};

use crate::dijkstra::Workspace;
use crate::marks::mark_after;
use bounded_table::label_words::{least_word, word_of};
use bounded_table::{Entry, Row};

/// Gives the node of an entry the entry's label, `distance` farther, if that is better than its own.
fn merge_entry(words: &mut [u64], distance: u32, entry: Entry)
    requires distance { (distance ≤ 10_000_000) × (entry.distance ≤ 10_000_000) }
    requires node { entry.node.0 < length words.old }
    ensures words { (bound : ℕ) → words.new ≡ merged_entry bound distance entry words.old }
    ensures count { length words.new ≡ length words.old }
{
    let word = least_word(distance) + word_of(entry.distance, entry.last);
    let place = entry.node.0 as usize;
    words[place] = words[place].min(word);
}

/// Entries by rising node number, each with a last edge, to be merged at a distance in cm.
#[derive(Clone, Copy)]
struct Merged<'e> {
    entries: &'e [Entry],
    distance: u32,
}

/// Merges entries, one by one: marks the node of each, and gives it the entry's label.
// Over slices, so that the loop keeps the arrays' addresses in registers.
fn merge_entries(
    words: &mut [u64],
    octets: &mut [u8],
    regions: &mut [u8],
    areas: &mut [u8],
    row: Merged<'_>,
)
    requires distance { row.distance ≤ 10_000_000 }
    requires entries { RisesFrom 0 row.entries.now
        × All (λ x. (x.node.0 < length words.old) × (x.distance ≤ 10_000_000) × IsSome x.last) row.entries.now }
    requires sized { AreListsFor (length words.old) (lists_of octets.old regions.old areas.old) }
    ensures words { (bound : ℕ) → words.new ≡ merged bound row.entry.distance row.entry.entries.now words.old }
    ensures marks { MarksAlso row.entry.entries.now
        (lists_of octets.old regions.old areas.old) (lists_of octets.new regions.new areas.new) }
{
    let mut end = 0;
    for entry in row.entries {
        let Some(edge) = entry.last else {
            unreachable!()
        };
        // Built anew with the edge that was just tested, so that its word needs no conditional move for an entry
        // without one. The compare and the branch, which is never taken, remain.
        let entry = Entry {
            node: entry.node,
            distance: entry.distance,
            last: Some(edge),
        };
        end = mark_after(octets, regions, areas, end, entry.node);
        merge_entry(words, row.distance, entry);
    }
}

impl Workspace {
    /// Merges the row of a node at this distance (in cm): marks the nodes of its entries, and gives each node the
    /// entry's label, `distance` farther, if that is better than its own. Allocates nothing, and no node waits
    /// because of it.
    pub(crate) fn merge(&mut self, row: &Row, distance: u32)
        requires distance { distance ≤ 10_000_000 }
        requires sized { IsSized (length self.old.words.items) self.old }
        requires inside { All (λ x. (x.node.0 < length self.old.words.items) × (x.distance ≤ 10_000_000)) row.now.entries }
        ensures { MergesAll distance row.now.entries self.old self.new }
    {
        row.invariants();
        let middle = row.middle();
        let entries = row.entries();
        let own = entries[middle];
        let words = self.words.as_mut_slice();
        let octets = self.marks.octets.as_mut_slice();
        let regions = self.marks.regions.as_mut_slice();
        let areas = self.marks.areas.as_mut_slice();
        let before = Merged {
            entries: &entries[..middle],
            distance,
        };
        merge_entries(words, octets, regions, areas, before);
        mark_after(octets, regions, areas, 0, own.node);
        merge_entry(words, distance, own);
        let after = Merged {
            entries: &entries[middle + 1..],
            distance,
        };
        merge_entries(words, octets, regions, areas, after);
    }
}
