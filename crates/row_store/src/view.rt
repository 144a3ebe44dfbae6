//! What one thread has seen of the slots for one bound. Serves `Reader`; decided by `Viewing`.
ghost use Rattle.std.specs.Prelude.{◌≡◌, ◌↔◌, ◌<◌, length, IfOk, IsOk, OnOk, OnErr, slice_get, Some};
ghost use Rattle.road_network.specs.Net.{HasNode};
ghost use Rattle.bounded_table.specs.Table.{TableRow, IsRow};
ghost use Rattle.row_store.specs.Sights.{row_seen, IsTable};
ghost use Rattle.row_store.specs.Store.{IsSeen, Sees, SeesRow, fresh_view, is_seen};
ghost use Rattle.row_store.specs.inside.Views.{Fills, HasRow, IsView, IsViewAt, IsViewOf, StaysView, viewing_of};

use crate::judge::Judge;
use crate::place::{Place, Seen};
use crate::sight::Sight;
use crate::slots::Slots;
use crate::vouched::VouchedSlots;
use bounded_table::Row;
use road_network::NodeId;
use row_search::Fans;
use std::alloc::AllocError;

/// What one thread has seen of some slots and found out about it: a place for each node, and what finds and judges rows.
pub struct View<'s> {
    pub slots: &'s Slots<'s>,
    pub judge: Judge<'s>,
    pub places: Vec<Place<'s>>,
}

// By hand, so that the functions that drop one call this.
impl<'s> Drop for View<'s> {
    fn drop(self) {
        let View {
            slots: _,
            judge: _,
            places: _,
        } = self;
    }
}

impl<'s> View<'s> {
    /// A view of these slots, of which nothing is seen yet.
    pub fn open(vouched: &'s VouchedSlots<'s>, fans: &'s Fans<'s>) -> Result<View<'s>, AllocError>
        requires fans { fans.now ≡ vouched.now.network }
        requires some { 0 < length vouched.now.network.nodes }
        ensures of { IfOk result (IsViewOf vouched.now) }
        ensures fresh { IfOk result (λ view. viewing_of view ≡ fresh_view vouched.now) }
    {
        let judge = Judge::open(vouched, fans)?;
        View::with(&vouched.slots, judge)
    }

    fn with(slots: &'s Slots<'s>, judge: Judge<'s>) -> Result<View<'s>, AllocError>
        requires { judge ≡ slots.now }
        ensures of { IfOk result (IsViewOf slots.now) }
        ensures fresh { IfOk result (λ view. viewing_of view ≡ fresh_view slots.now) }
    {
        let mut places = Vec::with_capacity(slots.alloc, slots.cells.len())?;
        for cell in &slots.cells {
            places.push(Place::empty(cell))?;
        }
        Ok(View {
            slots,
            judge,
            places,
        })
    }

    /// Whether a row was seen in the slot of node n. Allocates nothing.
    pub fn knows(&self, n: NodeId) -> bool
        requires { IsViewAt self.now n.0 }
        ensures { result ≡ is_seen (viewing_of self.now) n.0 }
    {
        self.places[n.0 as usize].is_known()
    }

    /// The row of n, found with the help of rows that are known to be right.
    fn find(&mut self, n: NodeId) -> Result<Row, AllocError>
        requires { IsViewAt self.old n.0 }
        ensures same { self.new ≡ self.old }
        ensures row { IfOk result (IsRow self.old.slots.now.network self.old.slots.now.bound n.0) }
    {
        self.judge.row_from(self.places.as_slice(), n)
    }

    /// Sees the row in the slot of n. An empty slot is filled with the row of n.
    fn settle(&mut self, n: NodeId) -> Result<(), AllocError>
        requires { IsViewAt self.old n.0 }
        ensures stays { StaysView self.old self.new }
        ensures seen { OnOk result ((row : TableRow) × Sees (viewing_of self.old) n.0 row (viewing_of self.new)) }
        ensures err { OnErr result (viewing_of self.new ≡ viewing_of self.old) }
        ensures again { IsSeen (viewing_of self.old) n.0 → IsOk result }
    {
        let slots = self.slots;
        let place = &mut self.places[n.0 as usize];
        let held = place.look(slots, &mut self.judge, n);
        if held {
            return Ok(());
        }
        let row = self.find(n)?;
        self.settle_right(n, row)
    }

    /// Sees the row in the slot of n; it is this row if the slot was empty.
    fn settle_with(&mut self, n: NodeId, row: Row) -> Result<(), AllocError>
        requires { IsViewAt self.old n.0 }
        ensures stays { StaysView self.old self.new }
        ensures seen { OnOk result ((row : TableRow) × Sees (viewing_of self.old) n.0 row (viewing_of self.new)) }
        ensures err { OnErr result (viewing_of self.new ≡ viewing_of self.old) }
        ensures again { IsSeen (viewing_of self.old) n.0 → IsOk result }
    {
        let slots = self.slots;
        let place = &mut self.places[n.0 as usize];
        place.offer(slots, &mut self.judge, n, row)
    }

    /// Sees the row in the slot of n; it is this row if the slot was empty.
    fn settle_right(&mut self, n: NodeId, row: Row) -> Result<(), AllocError>
        requires at { IsViewAt self.old n.0 }
        requires right { IsRow self.old.slots.now.network self.old.slots.now.bound n.0 row }
        ensures stays { StaysView self.old self.new }
        ensures seen { OnOk result ((row : TableRow) × Sees (viewing_of self.old) n.0 row (viewing_of self.new)) }
        ensures err { OnErr result (viewing_of self.new ≡ viewing_of self.old) }
        ensures again { IsSeen (viewing_of self.old) n.0 → IsOk result }
    {
        let slots = self.slots;
        let place = &mut self.places[n.0 as usize];
        place.offer_right(slots, &mut self.judge, n, row)
    }

    /// What was seen for node n.
    fn sight(&self, n: NodeId) -> Sight<'s>
        requires { IsViewAt self.now n.0 × IsSeen (viewing_of self.now) n.0 }
        ensures row { slice_get (viewing_of self.now).places n.0 ≡ Some (Some (row_seen result)) }
        ensures table { IsTable result
            ↔ IsRow self.now.slots.now.network self.now.slots.now.bound n.0 (row_seen result) }
    {
        match &self.places[n.0 as usize].seen {
            Seen::Right(row) => Sight::Table(*row),
            Seen::Foreign(row) => Sight::Foreign(*row),
            Seen::Replaced(replacement) => Sight::Foreign(replacement.foreign),
            Seen::Nothing => unreachable!(),
        }
    }

    /// The row that was seen for node n.
    pub fn seen(&self, n: NodeId) -> &'s Row
        requires { IsViewAt self.now n.0 × IsSeen (viewing_of self.now) n.0 }
        ensures { slice_get (viewing_of self.now).places n.0 ≡ Some (Some result.now) }
    {
        match self.sight(n) {
            Sight::Table(row) => row,
            Sight::Foreign(row) => row,
        }
    }

    /// Sees the row in the slot of n, as `Reader::look` returns it.
    pub fn look(&mut self, n: NodeId) -> Result<Sight<'s>, AllocError>
        requires { IsViewAt self.old n.0 }
        ensures stays { StaysView self.old self.new }
        ensures seen { IfOk result (λ s. Sees (viewing_of self.old) n.0 (row_seen s) (viewing_of self.new)) }
        ensures table { IfOk result (λ s. IsTable s
            ↔ IsRow self.old.slots.now.network self.old.slots.now.bound n.0 (row_seen s)) }
        ensures err { OnErr result (viewing_of self.new ≡ viewing_of self.old) }
        ensures again { IsSeen (viewing_of self.old) n.0 → IsOk result }
    {
        self.settle(n)?;
        Ok(self.sight(n))
    }

    /// Offers a row to the slot of n, as `Reader::offer` does.
    pub fn offer(&mut self, n: NodeId, row: Row) -> Result<&'s Row, AllocError>
        requires { IsViewAt self.old n.0 }
        ensures stays { StaysView self.old self.new }
        ensures seen { IfOk result (λ r. Sees (viewing_of self.old) n.0 r.now (viewing_of self.new)) }
        ensures err { OnErr result (viewing_of self.new ≡ viewing_of self.old) }
        ensures again { IsSeen (viewing_of self.old) n.0 → IsOk result }
    {
        self.settle_with(n, row)?;
        Ok(self.seen(n))
    }

    /// Offers the row of n to the slot of n, as `Reader::offer_right` does.
    pub fn offer_right(&mut self, n: NodeId, row: Row) -> Result<&'s Row, AllocError>
        requires at { IsViewAt self.old n.0 }
        requires right { IsRow self.old.slots.now.network self.old.slots.now.bound n.0 row }
        ensures stays { StaysView self.old self.new }
        ensures seen { IfOk result (λ r. Sees (viewing_of self.old) n.0 r.now (viewing_of self.new)) }
        ensures err { OnErr result (viewing_of self.new ≡ viewing_of self.old) }
        ensures again { IsSeen (viewing_of self.old) n.0 → IsOk result }
    {
        self.settle_right(n, row)?;
        Ok(self.seen(n))
    }

    /// Sees the row in the slot of n, and makes the row of n if that is another and it was not made yet.
    ///
    /// If the row of n was seen, the call is Ok, even if memory is refused.
    pub fn fill(&mut self, n: NodeId) -> Result<(), AllocError>
        requires { IsViewAt self.old n.0 }
        ensures stays { StaysView self.old self.new }
        ensures fills { Fills (viewing_of self.old) n.0 result (viewing_of self.new) }
        ensures row { OnOk result (HasRow self.new n.0) }
        ensures again { SeesRow (viewing_of self.old) n.0 → IsOk result }
    {
        self.settle(n)?;
        self.make_own(n)
    }

    /// Makes the row of n, if another was seen and it was not made yet.
    fn make_own(&mut self, n: NodeId) -> Result<(), AllocError>
        requires { IsViewAt self.old n.0 × IsSeen (viewing_of self.old) n.0 }
        ensures stays { StaysView self.old self.new }
        ensures same { viewing_of self.new ≡ viewing_of self.old }
        ensures row { OnOk result (HasRow self.new n.0) }
        ensures again { SeesRow (viewing_of self.old) n.0 → IsOk result }
    {
        let slots = self.slots;
        let place = &mut self.places[n.0 as usize];
        place.make_own(slots, &mut self.judge, n)
    }

    /// The row of n, which is at hand.
    pub fn lend(&self, n: NodeId) -> &Row
        requires { IsView self.now × HasRow self.now n.0 }
        ensures { IsRow self.now.slots.now.network self.now.slots.now.bound n.0 result.now }
    {
        self.places[n.0 as usize].lend(self.slots, n)
    }

    /// Compares what two views of the same slots know of node n.
    pub fn compare(&mut self, other: &mut View<'s>, n: NodeId)
        requires slots { self.old.slots.now ≡ other.old.slots.now }
        requires at { IsViewAt self.old n.0 × IsViewAt other.old n.0 }
        requires seen { IsSeen (viewing_of self.old) n.0 × IsSeen (viewing_of other.old) n.0 }
        ensures stays { StaysView self.old self.new × StaysView other.old other.new }
        ensures same { (viewing_of self.new ≡ viewing_of self.old) × (viewing_of other.new ≡ viewing_of other.old) }
        ensures agree { slice_get (viewing_of self.old).places n.0 ≡ slice_get (viewing_of other.old).places n.0 }
    {
        let mine = &mut self.places[n.0 as usize];
        let theirs = &mut other.places[n.0 as usize];
        mine.compare(theirs);
    }
}
