//! Near rows that leave nothing out, in the table's slots too. Serves `Reader::near_row`; decided by `IsRow`.
ghost use Rattle.std.specs.Prelude.{◌≡◌, IfOk};
ghost use Rattle.road_network.specs.Net.{HasNode};

use crate::vouched::VouchedSlots;
use crate::vouchers::VoucherSeat;
use bounded_table::{Row, check_row};
use plain_list::List;
use road_network::NodeId;
use std::alloc::{AllocError, Global};

/// A copy of this row.
fn copy_of(alloc: Global, row: &Row) -> Result<Row, AllocError>
    ensures { IfOk result (λ copy. copy ≡ row.now) }
{
    row.invariants();
    let entries = row.entries();
    let mut copied = List::from_vec(Vec::with_capacity(alloc, entries.len())?);
    copied.extend_from_slice(entries)?;
    let Some(copy) = Row::of(row.origin(), copied) else {
        unreachable!()
    };
    Ok(copy)
}

/// Puts a copy of this row into the slot of n, if that is empty and this is the row of n within the bound of these slots.
///
/// If it is not, an edge leads out of it, which is most often found at one of its first entries.
pub fn share_whole<'s>(
    vouched: &'s VouchedSlots<'s>,
    n: NodeId,
    row: &Row,
) -> Result<(), AllocError>
    requires { HasNode vouched.now.network n.0 }
{
    let slots = &vouched.slots;
    let cell = &slots.cells[n.0 as usize];
    if cell.get().is_some() || !check_row(slots.network, slots.bound, n, row) {
        return Ok(());
    }
    let copy = Box::new(slots.alloc, copy_of(slots.alloc, row)?)?;
    let mut note = cell.note();
    if cell.set_as(copy, &mut note).is_ok() {
        let mut seat = VoucherSeat::open(slots, &vouched.vouchers);
        seat.leave(n, &mut note);
    }
    Ok(())
}
