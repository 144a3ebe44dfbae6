//! The rule of the counter, and its steps. Serves `Claims`; decided by `Dealt`.

use atomic_table::{Join, Play, Split, TableRule};
use std::collections::LinkedList;

/// What a seat knows: the numbers that it drew, its share of the right to draw, and up to which number
/// it has seen. Ghost only: no value of this type is made.
pub struct Hand {
    pub numbers: LinkedList<u64>,
    pub share: u64,
    pub seen: u64,
}

/// How many numbers there are to draw, and how many shares.
#[derive(Drop)]
pub struct Limits {
    pub count: u64,
    pub seats: u64,
}

/// The rule: each number below the counter is in exactly one view, once.
pub struct Numbers;

impl TableRule<u8, Hand, Limits> for Numbers {
    ghost use Rattle.std.specs.Prelude.{[]};
    ghost use Rattle.tickets.specs.Tickets.{Dealt, hand};

    ghost holds = { λ k s. Dealt k.count k.seats s.words s.views };

    ghost first = { λ k. hand [] k.seats 0 };
}

/// A draw: the counter grows by one, and its old value joins the view.
pub struct Draw;

impl Play<u8, Hand> for Draw {
    ghost use Rattle.std.specs.Prelude.{◌≡◌, ◌≤◌};
    ghost use Rattle.tickets.specs.Tickets.{drew};

    ghost then = { λ _ me found new. (me.0.seen ≤ found) × (new ≡ (drew me.0 found, me.1)) };
}

/// Opening: one share goes to a new seat.
pub struct Opening;

impl Split<Hand> for Opening {
    ghost use Rattle.std.specs.Prelude.{◌-◌, []};
    ghost use Rattle.tickets.specs.Tickets.{hand};

    ghost left = { λ v. hand v.numbers (v.share - 1) v.seen };

    ghost right = { λ v. hand [] 1 v.seen };
}

/// What a seat has seen goes to a new seat that cannot draw.
pub struct Note;

impl Split<Hand> for Note {
    ghost use Rattle.std.specs.Prelude.{[]};
    ghost use Rattle.tickets.specs.Tickets.{hand};

    ghost left = { λ v. v };

    ghost right = { λ v. hand [] 0 v.seen };
}

impl Join<Hand> for Note {
    ghost use Rattle.std.specs.Prelude.{[]};
    ghost use Rattle.tickets.specs.Tickets.{hand, taken_in};

    ghost both = { taken_in };

    ghost spent = { hand [] 0 0 };
}
