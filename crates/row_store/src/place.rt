//! What a reader stores for one node. Serves `Reader`; decided by `Fits`.
ghost use Rattle.std.specs.Prelude.{◌≡◌, ℕ, ◌<◌, slice_index, ◌⊎◌, ◌↔◌, OnErr, OnOk, IfSome, IsOk, IsTrue, Some, None, IsSome, is_some, length};
ghost use Rattle.road_network.specs.Net.{Net};
ghost use Rattle.once_cell.specs.Once.{cell_name, Agrees};
ghost use Rattle.bounded_table.specs.Table.{IsRow};
ghost use Rattle.row_store.specs.inside.Places.{Fits, IsCheckedFor, IsPlaceOf, IsReady, KeepsSight, StaysBlind, row_in};
ghost use Rattle.row_store.specs.declared.place.Seen.TheVariants.{Nothing};

use crate::judge::Judge;
use crate::slots::Slots;
use bounded_table::Row;
use once_cell::race::{Note, OnceBox};
use road_network::NodeId;
use std::alloc::AllocError;

/// What is known of a cell. Few cells have a foreign row, so the node's own row is in a box.
#[derive(Drop)]
pub enum Seen<'s> {
    Nothing,
    /// The cell contains the node's row.
    Right(&'s Row),
    /// The cell contains another row.
    Foreign(&'s Row),
    /// The cell contains another row, and the node's row was made here.
    Replaced(Box<Replacement<'s>>),
}

/// The foreign row of a cell, and the node's row.
#[derive(Drop)]
pub struct Replacement<'s> {
    pub foreign: &'s Row,
    pub own: Row,
}

impl<'s> Seen<'s> {
    /// A row of a cell that was checked.
    fn checked(row: &'s Row, right: bool) -> Seen<'s>
        ensures row { row_in result ≡ Some row.now }
        ensures fits { (net : Net) (bound v : ℕ) → (IsTrue right ↔ IsRow net bound v row.now)
            → IsCheckedFor net bound v result }
    {
        if right {
            Seen::Right(row)
        } else {
            Seen::Foreign(row)
        }
    }
}

/// The note of the cell, and what is known of it.
#[derive(Drop)]
pub struct Place<'s> {
    pub note: Note<Row>,
    pub seen: Seen<'s>,
}

impl<'s> Place<'s> {
    /// The initial state: nothing is known of the cell.
    pub fn empty(cell: &OnceBox<Row>) -> Place<'s>
        ensures note { (result.note.cell ≡ cell_name cell.now) × (result.note.known ≡ None) }
        ensures seen { result.seen ≡ Nothing }
    {
        Place {
            note: cell.note(),
            seen: Seen::Nothing,
        }
    }

    /// Whether a row of the cell is known.
    pub fn is_known(&self) -> bool
        ensures { result ≡ is_some (row_in self.now.seen) }
    {
        !matches!(self.seen, Seen::Nothing)
    }

    /// Tells other threads that the known row is right, if it is.
    fn vouch(&mut self, _slots: &Slots<'_>, judge: &mut Judge<'s>, n: NodeId)
        requires { IsPlaceOf _slots.now n.0 judge.old self.old }
        ensures same { (self.new ≡ self.old) × (judge.new ≡ judge.old) }
    {
        if let Seen::Right(row) = self.seen {
            judge.vouch(n, row, &mut self.note);
        }
    }

    /// Reads the cell. False if it is empty; then nothing is known.
    pub fn look(&mut self, slots: &'s Slots<'s>, judge: &mut Judge<'s>, n: NodeId) -> bool
        requires { IsPlaceOf slots.now n.0 judge.old self.old }
        ensures place { IsPlaceOf slots.now n.0 judge.new self.new }
        ensures seen { IsTrue result → KeepsSight self.old.note.known self.new.note.known }
        ensures empty { IsTrue result ⊎ StaysBlind self.old.note.known self.new.note.known }
    {
        if self.is_known() {
            return true;
        }
        let cell = &slots.cells[n.0 as usize];
        let Some(row) = cell.get_as(&mut self.note) else {
            return false;
        };
        let right = judge.is_right(n, row, &mut self.note);
        self.seen = Seen::checked(row, right);
        self.vouch(slots, judge, n);
        true
    }

    /// Offers a row to the cell, and reads what it then contains.
    pub fn offer(
        &mut self,
        slots: &'s Slots<'s>,
        judge: &mut Judge<'s>,
        n: NodeId,
        row: Row,
    ) -> Result<(), AllocError>
        requires { IsPlaceOf slots.now n.0 judge.old self.old }
        ensures place { IsPlaceOf slots.now n.0 judge.new self.new }
        ensures seen { OnOk result (KeepsSight self.old.note.known self.new.note.known) }
        ensures err { OnErr result (StaysBlind self.old.note.known self.new.note.known) }
    {
        if self.is_known() {
            return Ok(());
        }
        let cell = &slots.cells[n.0 as usize];
        let offered = Box::new(slots.alloc, row)?;
        let held = cell.get_or_init_as(move || offered, &mut self.note);
        let right = judge.is_right(n, held, &mut self.note);
        self.seen = Seen::checked(held, right);
        self.vouch(slots, judge, n);
        Ok(())
    }

    /// Offers the node's row, which is known to be right, to the cell, and reads what it then contains. A row that
    /// this call put there is right; any other is checked.
    pub fn offer_right(
        &mut self,
        slots: &'s Slots<'s>,
        judge: &mut Judge<'s>,
        n: NodeId,
        row: Row,
    ) -> Result<(), AllocError>
        requires place { IsPlaceOf slots.now n.0 judge.old self.old }
        requires right { IsRow slots.now.network slots.now.bound n.0 row }
        ensures place { IsPlaceOf slots.now n.0 judge.new self.new }
        ensures seen { OnOk result (KeepsSight self.old.note.known self.new.note.known) }
        ensures err { OnErr result (StaysBlind self.old.note.known self.new.note.known) }
    {
        if self.is_known() {
            return Ok(());
        }
        let cell = &slots.cells[n.0 as usize];
        let made = Box::new(slots.alloc, row)?;
        let first = cell.set_as(made, &mut self.note).is_ok();
        let Some(held) = cell.get_as(&mut self.note) else {
            unreachable!()
        };
        let right = judge.is_right_or(first, n, held, &mut self.note);
        self.seen = Seen::checked(held, right);
        self.vouch(slots, judge, n);
        Ok(())
    }

    /// Makes the node's row, if the cell contains another and it was not made yet. Otherwise the call is Ok
    /// and changes nothing.
    pub fn make_own(
        &mut self,
        slots: &'s Slots<'s>,
        judge: &mut Judge<'s>,
        n: NodeId,
    ) -> Result<(), AllocError>
        requires { IsPlaceOf slots.now n.0 judge.old self.old }
        ensures place { IsPlaceOf slots.now n.0 judge.new self.new }
        ensures same { self.new.note.known ≡ self.old.note.known }
        ensures ready { OnOk result (IsReady self.new.seen) }
        ensures again { IsReady self.old.seen → IsOk result × (self.new ≡ self.old) }
    {
        if let Seen::Foreign(foreign) = self.seen {
            let own = judge.row(n)?;
            self.seen = Seen::Replaced(Box::new(slots.alloc, Replacement { foreign, own })?);
        }
        Ok(())
    }

    /// The node's row, if it was made here or the known row is right.
    pub fn right_row(&self) -> Option<&Row>
        ensures { (net : Net) (bound v name : ℕ) → Fits net bound v name self.now → IfSome result (λ row. IsRow net bound v row.now) }
    {
        match &self.seen {
            Seen::Right(row) => Some(*row),
            Seen::Replaced(replacement) => Some(&replacement.own),
            Seen::Nothing | Seen::Foreign(_) => None,
        }
    }

    /// The node's row: its own if it has one, and otherwise the known one.
    pub fn lend(&self, slots: &Slots<'_>, n: NodeId) -> &Row
        requires fits { Fits slots.now.network slots.now.bound n.0
            (slice_index slots.now.cells n.0) self.now }
        requires known { IsSome self.now.note.known }
        requires ready { IsReady self.now.seen }
        ensures { IsRow slots.now.network slots.now.bound n.0 result.now }
    {
        match &self.seen {
            Seen::Right(row) => row,
            Seen::Replaced(replacement) => &replacement.own,
            Seen::Nothing | Seen::Foreign(_) => unreachable!(),
        }
    }

    /// Two notes of one cell know the same row.
    pub fn compare(&mut self, other: &mut Place<'s>)
        requires { self.old.note.cell ≡ other.old.note.cell }
        ensures same { (self.new ≡ self.old) × (other.new ≡ other.old) }
        ensures agree { IfSome other.old.note.known (Agrees self.old.note.known) }
    {
        self.note.compare(other.note.again());
    }
}
