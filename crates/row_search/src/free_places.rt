//! Free places at the end of a list, so that code can write there without a branch. Serves `WaitingList` and
//! `FoundEntries`.
ghost use Rattle.std.specs.Prelude.{◌≡◌, ◌≤◌, ◌<◌, length, take, OnOk};

use std::alloc::AllocError;

/// Grows to at least this many places. New ones contain `free`.
// Inlined, and what is rare is not, so that callers keep the places in registers.
#[inline(always)]
pub fn make_places<T: Copy + Drop>(
    places: &mut Vec<T>,
    count: usize,
    free: T,
) -> Result<(), AllocError>
    ensures enough { OnOk result (count ≤ length places.new.items) }
    ensures more { length places.old.items ≤ length places.new.items }
    ensures same { take (length places.old.items) places.new.items ≡ places.old.items }
{
    if count <= places.len() {
        return Ok(());
    }
    add_places(places, count, free)
}

/// Doubles the number of places.
#[cold]
#[inline(never)]
fn add_places<T: Copy + Drop>(places: &mut Vec<T>, count: usize, free: T) -> Result<(), AllocError>
    requires { length places.old.items < count }
    ensures enough { OnOk result (count ≤ length places.new.items) }
    ensures more { length places.old.items ≤ length places.new.items }
    ensures same { take (length places.old.items) places.new.items ≡ places.old.items }
{
    places.resize(count.saturating_mul(2), free)
}
