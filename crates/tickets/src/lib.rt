//! Numbers that threads draw, each number once. [`Claims`] have one shared counter, from which each
//! [`Ticket`] draws by one `fetch_add`. No call waits.
//!
//! The views of all tickets follow one rule (`Dealt` in `specs/Tickets.antt`): together they contain
//! the numbers below the counter, each once ([`each_number_is_drawn_once`]). So gathering all tickets
//! shows that no number below the count was lost or drawn twice. Read the clause of [`Claims::gather`]
//! first.
#![tactic(auto)]

ghost use Rattle.std.specs.Prelude.{◌≡◌, ℕ, ◌+◌, ◌<◌, ◌≤◌, ◌^◌, All, IfOk, IfErr, MatchOption, [], length, sum_by};
ghost use Rattle.tickets.specs.Tickets.{times, hand, fresh_ticket, with_sight, IsOpenTicket, HasEnded, Draws};

mod laws;
mod rule;

use crate::rule::{Draw, Hand, Limits, Note, Numbers, Opening};
use atomic_table::{Seat, Table};
pub use laws::each_number_is_drawn_once;
use plain_list::List;
use std::alloc::{AllocError, Global};
use std::marker::Model;

/// A shared counter from which tickets draw numbers. A contract sees its name, how many numbers there
/// are to draw, and how many tickets.
#[derive(Drop)]
pub struct Claims {
    table: Table<u8, Hand, Limits, Numbers, Global>,
    count: u64,
}

impl Model for Claims {
    ghost use Rattle.std.specs.Prelude.{◌≡◌, ◌≤◌, ◌^◌};
    ghost use Rattle.tickets.specs.Tickets.{Opened};

    ghost Value = { Opened };

    ghost view = { λ c. record {
      name = c.table.shared.table_id;
      count = c.count;
      seats = c.table.shared.key.seats;
    } };

    ghost invariant = { λ c. (c.table.shared.table_id.words ≡ 1)
        × (c.table.shared.table_id.slots ≡ 0)
        × (c.count ≡ c.table.shared.key.count)
        × (c.count ≤ 2 ^ 32)
        × (1 ≤ c.table.shared.key.seats)
        × (c.table.shared.key.seats ≤ 64) };
}

/// What one thread draws with. A contract sees the claims it belongs to, the numbers that it drew,
/// and up to which number it has seen.
#[derive(Drop)]
pub struct Ticket {
    seat: Seat<u8, Hand>,
}

impl Model for Ticket {
    ghost use Rattle.std.specs.Prelude.{◌≡◌, []};
    ghost use Rattle.tickets.specs.Tickets.{Drawn};

    ghost Value = { Drawn };

    ghost view = { λ t. record {
      claims = t.seat.table_id;
      numbers = t.seat.me.0.numbers;
      seen = t.seat.me.0.seen;
    } };

    ghost invariant = { λ t. (t.seat.me.1 ≡ []) × (t.seat.me.0.share ≡ 1) };
}

/// Makes this many tickets from a seat that holds all shares.
fn deal(
    alloc: Global,
    claims: &Claims,
    mut seat: Seat<u8, Hand>,
    seats: u32,
) -> Result<List<Ticket>, AllocError>
    requires own { (seat.table_id ≡ claims.now.name) × (seat.me ≡ (hand [] seats 0, [])) }
    requires some { 1 ≤ seats }
    ensures { IfOk result (λ v. (length v ≡ seats) × All (λ t. t ≡ fresh_ticket claims.now.name) v) }
{
    let mut tickets = List::new(alloc);
    for _ in 1..seats {
        let other = claims.table.shared.split_seat::<Opening>(&mut seat);
        tickets.push(Ticket { seat: other })?;
    }
    tickets.push(Ticket { seat })?;
    Ok(tickets)
}

/// Collects all tickets.
fn take_in(claims: &Claims, seat: &mut Seat<u8, Hand>, mut tickets: List<Ticket>)
    requires own { seat.old.table_id ≡ claims.now.name }
    requires all { All (λ t. t.claims ≡ claims.now.name) tickets }
    ensures same { (seat.new.table_id ≡ seat.old.table_id) × (seat.new.id ≡ seat.old.id)
        × (seat.new.me.1 ≡ seat.old.me.1) }
    ensures shares { seat.new.me.0.share ≡ seat.old.me.0.share + length tickets }
    ensures numbers { (h : ℕ → ℕ) → sum_by h seat.new.me.0.numbers
        ≡ sum_by h seat.old.me.0.numbers + sum_by (λ t. sum_by h t.numbers) tickets }
{
    while let Some(ticket) = tickets.pop() {
        let Ticket { seat: other } = ticket;
        claims.table.shared.join_seat::<Note>(seat, other);
    }
}

impl Claims {
    /// Claims on the numbers below `count`, and `seats` tickets (1 to 64). None of them has ended.
    pub fn open(alloc: Global, count: u64, seats: u32) -> Result<(Claims, List<Ticket>), AllocError>
        requires count { count ≤ 2 ^ 32 }
        requires seats { (1 ≤ seats) × (seats ≤ 64) }
        ensures claims { IfOk result (λ r. (r.0.count ≡ count) × (r.0.seats ≡ seats)) }
        ensures tickets { IfOk result
            (λ r. (length r.1 ≡ seats) × All (λ t. t ≡ fresh_ticket r.0.name) r.1) }
    {
        let limits = Limits {
            count,
            seats: u64::from(seats),
        };
        let (table, seat) = Table::of_words(alloc, &[0], &limits)?;
        let claims = Claims { table, count };
        let tickets = deal(alloc, &claims, seat, seats)?;
        Ok((claims, tickets))
    }

    /// Lets `to` see what `from` has seen. `Err` means out of memory.
    pub fn meet(&self, from: &mut Ticket, to: &mut Ticket) -> Result<(), AllocError>
        requires own { (from.old.claims ≡ self.now.name) × (to.old.claims ≡ self.now.name) }
        ensures from { from.new ≡ from.old }
        ensures to { IfOk result (λ _. to.new ≡ with_sight from.old to.old) }
        ensures same { IfErr result (λ _. to.new ≡ to.old) }
    {
        let note = self.table.shared.split_seat::<Note>(&mut from.seat);
        self.table.shared.join_seat::<Note>(&mut to.seat, note);
        Ok(())
    }

    /// The numbers that the tickets drew contain, taken together, each number below the count once.
    /// Allocates nothing.
    pub fn gather(self, mut tickets: List<Ticket>)
        requires all { length tickets ≡ self.seats }
        requires own { All (λ t. t.claims ≡ self.name) tickets }
        requires ended { All (HasEnded self.count) tickets }
        ensures { (x : ℕ) → x < self.count → sum_by (λ t. times x t.numbers) tickets ≡ 1 }
    {
        let _ = &self.count;
        let Some(first) = tickets.pop() else {
            unreachable!()
        };
        let Ticket { mut seat } = first;
        take_in(&self, &mut seat, tickets);
        let Claims { table, count: _ } = self;
        let closed = table.close_with(seat);
        closed.free();
    }

    /// Draws the next number by one `fetch_add`. Returns `None` exactly if that number is not below the
    /// count; the ticket has then ended. Allocates nothing.
    pub fn draw(&self, ticket: &mut Ticket) -> Option<u64>
        requires own { ticket.old.claims ≡ self.now.name }
        requires open { IsOpenTicket self.now.count ticket.old }
        ensures number { Draws self.now.count ticket.old ticket.new result }
        ensures claims { ticket.new.claims ≡ ticket.old.claims }
        ensures then { MatchOption result (HasEnded self.now.count ticket.new)
            (λ _. IsOpenTicket self.now.count ticket.new) }
    {
        let number = self.table.shared.fetch_add::<Draw>(&mut ticket.seat, 0, 1);
        if number < self.count {
            Some(number)
        } else {
            None
        }
    }
}
