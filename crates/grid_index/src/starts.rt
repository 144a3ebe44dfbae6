//! Where the entries of each slot begin, among entries sorted by slot. Serves `Table`; decided by
//! `AreStarts`.
ghost use Rattle.std.specs.Prelude.{◌≡◌, ℕ, ◌+◌, ◌≤◌, ◌<◌, length, slice_index, IfOk};
ghost use Rattle.std.specs.List.Sorted.{IsNonDecreasingBy};
ghost use Rattle.grid_index.specs.inside.Starts.{AreBefore, AreStarts, IsStart};

use crate::entries::Entry;
use std::alloc::{AllocError, Global};

/// The index of the first entry from an index on whose slot is not below this one.
fn first_from(entries: &[Entry], from: usize, slot: u32) -> usize
    requires sorted { IsNonDecreasingBy (λ e. e.slot) entries.now }
    requires within { from ≤ length entries.now }
    requires before { AreBefore entries.now from slot }
    ensures { IsStart entries.now slot result }
{
    let mut place = from;
    while place < entries.len() && entries[place].slot < slot {
        place += 1;
    }
    place
}

/// For each slot the index of its first entry, or where that would be; then the end of all. A start has
/// four bytes; `Entries` enters no more runs than that allows.
pub(crate) fn starts_of(
    alloc: Global,
    entries: &[Entry],
    slots: u32,
) -> Result<Vec<u32>, AllocError>
    requires { IsNonDecreasingBy (λ e. e.slot) entries.now }
    ensures { IfOk result (λ starts. AreStarts entries.now starts.items (slots + 1)) }
{
    if entries.len() > u32::MAX as usize {
        return Err(AllocError);
    }
    let mut starts = Vec::with_capacity(alloc, slots as usize + 1)?;
    starts.push(0)?;
    let mut place = 0;
    for slot in 0..slots {
        place = first_from(entries, place, slot + 1);
        starts.push(place as u32)?;
    }
    Ok(starts)
}
