//! Slots with vouchers beside them. Serves `RowStore`; decided by `SlotSet`.
ghost use Rattle.std.specs.Prelude.{◌≡◌, ◌≤◌, IfOk, length};

use crate::slots::Slots;
use crate::vouchers::{Vouchers, open_vouchers};
use road_network::Network;
use std::alloc::{AllocError, Global};
use std::marker::Model;

/// A slot for the row of each node of a network within a bound, and a place for a voucher that this row is right.
pub struct VouchedSlots<'n> {
    pub(crate) slots: Slots<'n>,
    pub(crate) vouchers: Vouchers,
}

// By hand, so that the functions that drop one call this.
impl<'n> Drop for VouchedSlots<'n> {
    fn drop(self) {
        let VouchedSlots {
            slots: _,
            vouchers: _,
        } = self;
    }
}

impl<'n> Model for VouchedSlots<'n> {
    ghost use Rattle.row_store.specs.Store.{SlotSet};
    ghost use Rattle.row_store.specs.inside.Vouchers.{IsTableFor};

    ghost Value = { SlotSet };

    ghost view = { λ v. v.slots };

    ghost invariant = { λ v. IsTableFor v.slots v.vouchers.shared.key v.vouchers.shared.table_id };
}

impl<'n> VouchedSlots<'n> {
    /// An empty slot for each node of this network, for rows with a bound in cm of at most 10,000,000, and no voucher.
    pub fn open(
        alloc: Global,
        network: &'n Network,
        bound: u32,
    ) -> Result<VouchedSlots<'n>, AllocError>
        requires { bound ≤ 10_000_000 }
        ensures { IfOk result (λ s. (s.network ≡ network.now) × (s.bound ≡ bound)
            × (length s.cells ≡ length network.now.nodes)) }
    {
        let slots = Slots::open(alloc, network, bound)?;
        let vouchers = open_vouchers(&slots)?;
        Ok(VouchedSlots { slots, vouchers })
    }
}
