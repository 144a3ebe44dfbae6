//! The right rows that a search may use. Serves `Judge::row_from`; decided by `IsRow`.
ghost use Rattle.std.specs.Prelude.{◌≡◌, length};
ghost use Rattle.row_store.specs.inside.Views.{AllFit};

use crate::place::Place;
use crate::vouchers::VoucherSeat;
use bounded_table::Row;
use road_network::NodeId;
use row_search::KnownRows;
use std::marker::Model;

/// The right rows among those that a view shows or that were made for it, with a place for each node, and the rows in
/// other slots that somebody vouches for. The view does not show these afterwards either.
pub struct Accepted<'a, 's> {
    vouchers: &'a VoucherSeat<'s>,
    places: &'a [Place<'s>],
}

// By hand, so that the functions that drop one call this.
impl<'a, 's> Drop for Accepted<'a, 's> {
    fn drop(self) {
        let Accepted {
            vouchers: _,
            places: _,
        } = self;
    }
}

impl<'a, 's> Model for Accepted<'a, 's> {
    ghost use Rattle.std.specs.Prelude.{◌≡◌, length};
    ghost use Rattle.bounded_table.specs.Table.{BoundedTable};
    ghost use Rattle.row_store.specs.inside.Views.{AllFit};

    ghost Value = { BoundedTable };

    ghost view = { λ a. record { network = a.vouchers.now.network; bound = a.vouchers.now.bound } };

    ghost invariant = { λ a. (length a.places.now ≡ length a.vouchers.now.network.nodes)
        × AllFit a.vouchers.now a.places.now };
}

impl<'a, 's> Accepted<'a, 's> {
    /// The accepted rows among these places, and those with a voucher.
    pub fn of(vouchers: &'a VoucherSeat<'s>, places: &'a [Place<'s>]) -> Accepted<'a, 's>
        requires count { length places.now ≡ length vouchers.now.network.nodes }
        requires fit { AllFit vouchers.now places.now }
        ensures { result ≡ record { network = vouchers.now.network; bound = vouchers.now.bound } }
    {
        Accepted { vouchers, places }
    }
}

impl<'a, 's> KnownRows for Accepted<'a, 's> {
    ghost table = { λ accepted. accepted };

    fn known_row(&self, n: NodeId) -> Option<&Row> {
        if let Some(row) = self.places[n.0 as usize].right_row() {
            return Some(row);
        }
        self.vouchers.row(n)
    }
}
