//! Notes of right rows, beside the slots that contain these rows. Serves `Judge`; decided by `Vouched`. A reader
//! takes a note out, compares it with its own and puts it back: two notes of one cell know the same row. No call
//! waits: while a note is out, the row is checked.
ghost use Rattle.std.specs.Prelude.{◌≡◌, ◌<◌, ◌∷◌, [], IfOk, IfSome, IsTrue, Some, length, slice_index};
ghost use Rattle.road_network.specs.Net.{HasNode};
ghost use Rattle.bounded_table.specs.Table.{IsRow};
ghost use Rattle.row_store.specs.inside.Vouchers.{IsTableFor, IsVoucher};

use crate::slots::Slots;
use atomic_table::{Badge, Play, Seat, Table, TableRule};
use bounded_table::Row;
use once_cell::race::Note;
use road_network::{Network, NodeId};
use std::alloc::{AllocError, Global};
use std::collections::LinkedList;
use std::marker::Model;

/// What a contract sees of some slots, in a type with no lifetime: as a type argument a lifetime would tie the table to it.
/// No value of this type is made.
pub struct SlotsShown {
    network: Network,
    bound: u32,
    cells: LinkedList<u64>,
}

impl Model for SlotsShown {
    ghost use Rattle.row_store.specs.Store.{SlotSet};

    ghost Value = { SlotSet };

    ghost view = { λ s. record {
      network = s.network;
      bound = s.bound;
      cells = s.cells;
    } };
}

/// The slots that a table of notes is for, as a ghost value of no bytes.
pub type SlotsName = Badge<SlotsShown>;

/// For each slot a word, and a note of that slot if somebody knows that it contains the row of its node.
pub type Vouchers = Table<Option<Note<Row>>, SlotsName, SlotsName, Vouching, Global>;

// The words.
const NONE: u64 = 0;

const HERE: u64 = 1;

const TAKEN: u64 = 2;

/// The rule: where the word says that a note is here, it is a note of its slot, which contains the row of its node.
pub struct Vouching;

impl TableRule<Option<Note<Row>>, SlotsName, SlotsName> for Vouching {
    ghost use Rattle.row_store.specs.inside.Vouchers.{Vouched};

    ghost holds = { Vouched };

    ghost first = { λ name. name };
}

/// A new seat, whose view is the name.
struct Arrive;

impl Play<Option<Note<Row>>, SlotsName> for Arrive {
    ghost use Rattle.std.specs.Prelude.{◌≡◌};

    ghost then = { λ _ before _ new. new.0 ≡ before.0 };
}

/// Taking what is in the place, if the word is the one expected.
struct Take;

impl Play<Option<Note<Row>>, SlotsName> for Take {
    ghost use Rattle.row_store.specs.inside.Vouchers.{Takes};

    ghost then = { λ step me found new. Takes step.first step.word me found new };
}

/// Putting a note into the place it was taken from.
struct Give;

impl Play<Option<Note<Row>>, SlotsName> for Give {
    ghost use Rattle.std.specs.Prelude.{◌≡◌};
    ghost use Rattle.atomic_table.specs.Table.{rest};

    ghost then = { λ _ me _ new. new ≡ (me.0, rest me.1) };
}

// The table whose first seat tells the name of the slots. It has no word and no slot.
struct Naming;

impl<'n> TableRule<u8, SlotsShown, Slots<'n>> for Naming {
    ghost holds = { λ _ _. Unit {0} };

    ghost first = { λ slots. slots };
}

type NameTable<'n> = Table<u8, SlotsShown, Slots<'n>, Naming, Global>;

fn name_of(slots: &Slots<'_>) -> Result<SlotsName, AllocError>
    ensures { IfOk result (λ name. name.views ≡ slots.now ∷ []) }
{
    let (_table, seat) = NameTable::of_words(slots.alloc, &[], slots)?;
    Ok(seat.into_badge())
}

/// No notes, for these slots.
pub fn open_vouchers(slots: &Slots<'_>) -> Result<Vouchers, AllocError>
    ensures { IfOk result (λ t. IsTableFor slots.now t.shared.key t.shared.table_id) }
{
    let name = name_of(slots)?;
    let count = slots.cells.len();
    let words = Vec::from_elem(slots.alloc, NONE, count)?;
    let (table, _seat) = Table::vacant(slots.alloc, words.as_slice(), count, &name)?;
    Ok(table)
}

/// What one thread reads and leaves vouchers with.
pub struct VoucherSeat<'s> {
    slots: &'s Slots<'s>,
    vouchers: &'s Vouchers,
    seat: Seat<Option<Note<Row>>, SlotsName>,
}

// By hand, so that the functions that drop one call this.
impl<'s> Drop for VoucherSeat<'s> {
    fn drop(self) {
        let VoucherSeat {
            slots: _,
            vouchers: _,
            seat: _,
        } = self;
    }
}

impl<'s> Model for VoucherSeat<'s> {
    ghost use Rattle.row_store.specs.Store.{SlotSet};
    ghost use Rattle.row_store.specs.inside.Vouchers.{IsSeated};

    ghost Value = { SlotSet };

    ghost view = { λ v. v.slots.now };

    ghost invariant = { λ v. IsSeated v.slots.now v.vouchers.now.shared.key v.vouchers.now.shared.table_id
        v.seat.table_id v.seat.me };
}

impl<'s> VoucherSeat<'s> {
    /// A new seat at these vouchers.
    pub fn open(slots: &'s Slots<'s>, vouchers: &'s Vouchers) -> VoucherSeat<'s>
        requires table { IsTableFor slots.now vouchers.now.shared.key vouchers.now.shared.table_id }
        requires some { 0 < length slots.now.network.nodes }
        ensures { result ≡ slots.now }
    {
        let (_, seat) = vouchers.shared.load_new_seat::<Arrive>(0);
        VoucherSeat {
            slots,
            vouchers,
            seat,
        }
    }

    /// Leaves a copy of this note, which knows that the slot of n contains the row of n. It does nothing if there is a
    /// note or somebody has taken it.
    pub fn leave(&mut self, n: NodeId, note: &mut Note<Row>)
        requires node { HasNode self.old.network n.0 }
        requires right { IsVoucher self.old n.0 note.old }
        ensures same { (self.new ≡ self.old) × (note.new ≡ note.old) }
    {
        let place = n.0 as usize;
        let shared = &self.vouchers.shared;
        if shared.peek(place) != NONE {
            return;
        }
        if shared.compare_exchange::<Take>(&mut self.seat, place, NONE, TAKEN) != NONE {
            return;
        }
        shared.exchange(&mut self.seat, place, Some(note.again()));
        shared.store::<Give>(&mut self.seat, place, HERE);
    }

    /// Whether somebody left a note for n. Then the row that this note knows is the row of n.
    pub fn has(&mut self, n: NodeId, note: &mut Note<Row>, _row: &Row) -> bool
        requires node { HasNode self.old.network n.0 }
        requires note { (note.old.cell ≡ slice_index self.old.cells n.0) × (note.old.known ≡ Some _row.now) }
        ensures same { (self.new ≡ self.old) × (note.new ≡ note.old) }
        ensures right { IsTrue result → IsRow self.old.network self.old.bound n.0 _row.now }
    {
        let place = n.0 as usize;
        let shared = &self.vouchers.shared;
        if shared.peek(place) != HERE {
            return false;
        }
        if shared.compare_exchange::<Take>(&mut self.seat, place, HERE, TAKEN) != HERE {
            return false;
        }
        let Some(left) = shared.exchange(&mut self.seat, place, Some(note.again())) else {
            unreachable!()
        };
        note.compare(left);
        shared.store::<Give>(&mut self.seat, place, HERE);
        true
    }

    /// The row in the slot of n, if somebody vouches for it. Allocates nothing.
    pub fn row(&self, n: NodeId) -> Option<&'s Row>
        requires { HasNode self.now.network n.0 }
        ensures { IfSome result (λ row. IsRow self.now.network self.now.bound n.0 row.now) }
    {
        let slots = self.slots;
        let cell = &slots.cells[n.0 as usize];
        let mut note = cell.note();
        let row = cell.get_as(&mut note)?;
        let mut seat = VoucherSeat::open(slots, self.vouchers);
        if seat.has(n, &mut note, row) {
            Some(row)
        } else {
            None
        }
    }
}
