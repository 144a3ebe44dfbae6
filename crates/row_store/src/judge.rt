//! What one thread finds rows with, and decides whether a row is right. Serves `Place`; decided by `IsRow`.
ghost use Rattle.std.specs.Prelude.{◌≡◌, ◌↔◌, ◌<◌, IfOk, IsTrue, Some, length, slice_index};
ghost use Rattle.road_network.specs.Net.{HasNode};
ghost use Rattle.bounded_table.specs.Table.{IsRow};
ghost use Rattle.row_store.specs.inside.Views.{AllFit};

use crate::accepted::Accepted;
use crate::place::Place;
use crate::vouched::VouchedSlots;
use crate::vouchers::VoucherSeat;
use bounded_table::Row;
use once_cell::race::Note;
use road_network::NodeId;
use row_search::{Fans, KnownRows, Searcher};
use std::alloc::AllocError;
use std::marker::Model;

/// The arrays of a search, and a seat at the vouchers of some slots.
pub struct Judge<'s> {
    vouchers: VoucherSeat<'s>,
    searcher: Searcher<'s>,
}

// By hand, so that the functions that drop one call this.
impl<'s> Drop for Judge<'s> {
    fn drop(self) {
        let Judge {
            vouchers: _,
            searcher: _,
        } = self;
    }
}

impl<'s> Model for Judge<'s> {
    ghost use Rattle.row_store.specs.Store.{SlotSet};
    ghost use Rattle.row_store.specs.inside.Places.{IsSearcherOf};

    ghost Value = { SlotSet };

    ghost view = { λ j. j.vouchers };

    ghost invariant = { λ j. IsSearcherOf j.vouchers j.searcher };
}

impl<'s> Judge<'s> {
    /// A judge of the rows in these slots.
    pub fn open(slots: &'s VouchedSlots<'s>, fans: &'s Fans<'s>) -> Result<Judge<'s>, AllocError>
        requires fans { fans.now ≡ slots.now.network }
        requires some { 0 < length slots.now.network.nodes }
        ensures { IfOk result (λ j. j ≡ slots.now) }
    {
        let inner = &slots.slots;
        let searcher = Searcher::open_with(inner.alloc, inner.network, fans, inner.bound)?;
        let vouchers = VoucherSeat::open(inner, &slots.vouchers);
        Ok(Judge { vouchers, searcher })
    }

    /// The row of n.
    pub fn row(&mut self, n: NodeId) -> Result<Row, AllocError>
        requires { HasNode self.old.network n.0 }
        ensures same { self.new ≡ self.old }
        ensures row { IfOk result (IsRow self.old.network self.old.bound n.0) }
    {
        self.searcher.row(n)
    }

    /// The row of n, found with the help of the right rows among these places, and of those with a voucher.
    pub fn row_from(&mut self, places: &[Place<'s>], n: NodeId) -> Result<Row, AllocError>
        requires count { length places.now ≡ length self.old.network.nodes }
        requires fit { AllFit self.old places.now }
        requires node { HasNode self.old.network n.0 }
        ensures same { self.new ≡ self.old }
        ensures row { IfOk result (IsRow self.old.network self.old.bound n.0) }
    {
        let known = Accepted::of(&self.vouchers, places);
        self.searcher.row_from(&known, n)
    }

    /// Tells other threads that the row in the slot of n, which this note knows, is the row of n.
    pub fn vouch(&mut self, n: NodeId, _row: &Row, note: &mut Note<Row>)
        requires node { HasNode self.old.network n.0 }
        requires note { (note.old.cell ≡ slice_index self.old.cells n.0) × (note.old.known ≡ Some _row.now) }
        requires right { IsRow self.old.network self.old.bound n.0 _row.now }
        ensures same { (self.new ≡ self.old) × (note.new ≡ note.old) }
    {
        self.vouchers.leave(n, note);
    }

    /// Whether the row in the slot of n, which this note knows, is the row of n. It is not checked if another thread
    /// vouches for it.
    pub fn is_right(&mut self, n: NodeId, row: &Row, note: &mut Note<Row>) -> bool
        requires node { HasNode self.old.network n.0 }
        requires note { (note.old.cell ≡ slice_index self.old.cells n.0) × (note.old.known ≡ Some row.now) }
        ensures same { (self.new ≡ self.old) × (note.new ≡ note.old) }
        ensures right { IsTrue result ↔ IsRow self.old.network self.old.bound n.0 row.now }
    {
        self.vouchers.has(n, note, row) || self.searcher.check(n, row)
    }

    /// The same if it is not known yet.
    pub fn is_right_or(&mut self, known: bool, n: NodeId, row: &Row, note: &mut Note<Row>) -> bool
        requires known { IsTrue known → IsRow self.old.network self.old.bound n.0 row.now }
        requires node { HasNode self.old.network n.0 }
        requires note { (note.old.cell ≡ slice_index self.old.cells n.0) × (note.old.known ≡ Some row.now) }
        ensures same { (self.new ≡ self.old) × (note.new ≡ note.old) }
        ensures right { IsTrue result ↔ IsRow self.old.network self.old.bound n.0 row.now }
    {
        if known {
            return true;
        }
        self.is_right(n, row, note)
    }
}
