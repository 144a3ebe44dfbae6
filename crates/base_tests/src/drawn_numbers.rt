//! Numbers drawn by one ticket and by two.
ghost use Rattle.std.specs.Prelude.{◌≡◌, ◌≤◌, ◌^◌, IfSome};
ghost use Rattle.tickets.specs.Tickets.{HasEnded, IsOpenTicket, IsTicketOf};

use plain_list::List;
use std::alloc::{AllocError, Global};
use tickets::{Claims, Ticket};

/// Claims with one ticket. None if out of memory.
fn one_ticket(alloc: Global, count: u64) -> Option<(Claims, Ticket)>
    requires { count ≤ 2 ^ 32 }
    ensures { IfSome result (λ r. IsTicketOf count 1 r.0 r.1) }
{
    let Ok((claims, mut tickets)) = Claims::open(alloc, count, 1) else {
        return None;
    };
    let ticket = tickets.pop()?;
    Some((claims, ticket))
}

/// Gathers the one ticket.
fn gather_one(alloc: Global, claims: Claims, ticket: Ticket) -> Result<(), AllocError>
    requires seats { claims.seats ≡ 1 }
    requires own { ticket.claims ≡ claims.name }
    requires ended { HasEnded claims.count ticket }
{
    let mut tickets = List::new(alloc);
    tickets.push(ticket)?;
    claims.gather(tickets);
    Ok(())
}

/// Gathers two tickets.
fn gather_two(alloc: Global, claims: Claims, a: Ticket, b: Ticket) -> Result<(), AllocError>
    requires seats { claims.seats ≡ 2 }
    requires own { (a.claims ≡ claims.name) × (b.claims ≡ claims.name) }
    requires ended { HasEnded claims.count a × HasEnded claims.count b }
{
    let mut tickets = List::new(alloc);
    tickets.push(a)?;
    tickets.push(b)?;
    claims.gather(tickets);
    Ok(())
}

/// Claims on two numbers with two tickets. None if out of memory.
fn two_tickets(alloc: Global) -> Option<(Claims, Ticket, Ticket)>
    ensures { IfSome result (λ r. IsTicketOf 2 2 r.0 r.1 × IsTicketOf 2 2 r.0 r.2) }
{
    let Ok((claims, mut tickets)) = Claims::open(alloc, 2, 2) else {
        return None;
    };
    let a = tickets.pop()?;
    let b = tickets.pop()?;
    Some((claims, a, b))
}

// The two numbers of a ticket that then ends.
fn draw_two(claims: &Claims, ticket: &mut Ticket) -> Option<[u64; 2]>
    requires own { ticket.old.claims ≡ claims.now.name }
    requires open { IsOpenTicket claims.now.count ticket.old }
    ensures own { ticket.new.claims ≡ claims.now.name }
    ensures ended { IfSome result (λ _. HasEnded claims.now.count ticket.new) }
{
    let first = claims.draw(&mut *ticket)?;
    let second = claims.draw(&mut *ticket)?;
    let None = claims.draw(&mut *ticket) else {
        return None;
    };
    Some([first, second])
}

fn drawn_by_one(alloc: Global) -> Option<[u64; 2]> {
    let (claims, mut ticket) = one_ticket(alloc, 2)?;
    let numbers = draw_two(&claims, &mut ticket)?;
    gather_one(alloc, claims, ticket).ok()?;
    Some(numbers)
}

#[test]
fn one_ticket_draws_each_number(rt: HostRuntime) {
    assert_eq!(rt; drawn_by_one(rt.alloc()), Some([0, 1]));
}

fn none_is_drawn(alloc: Global) -> Option<bool> {
    let (claims, mut ticket) = one_ticket(alloc, 0)?;
    let None = claims.draw(&mut ticket) else {
        return Some(false);
    };
    gather_one(alloc, claims, ticket).ok()?;
    Some(true)
}

#[test]
fn of_no_numbers_none_is_drawn(rt: HostRuntime) {
    assert_eq!(rt; none_is_drawn(rt.alloc()), Some(true));
}

// The number of the first ticket, and that of the second after they met. Then both end.
fn draw_in_turn(claims: &Claims, a: &mut Ticket, b: &mut Ticket) -> Option<[u64; 2]>
    requires own { (a.old.claims ≡ claims.now.name) × (b.old.claims ≡ claims.now.name) }
    requires open { IsOpenTicket claims.now.count a.old × IsOpenTicket claims.now.count b.old }
    ensures own { IfSome result
        (λ _. (a.new.claims ≡ claims.now.name) × (b.new.claims ≡ claims.now.name)) }
    ensures ended { IfSome result
        (λ _. HasEnded claims.now.count a.new × HasEnded claims.now.count b.new) }
{
    let first = claims.draw(&mut *a)?;
    let Ok(()) = claims.meet(&mut *a, &mut *b) else {
        return None;
    };
    let second = claims.draw(&mut *b)?;
    let None = claims.draw(&mut *a) else {
        return None;
    };
    let None = claims.draw(&mut *b) else {
        return None;
    };
    Some([first, second])
}

fn drawn_by_two(alloc: Global) -> Option<[u64; 2]> {
    let (claims, mut a, mut b) = two_tickets(alloc)?;
    let numbers = draw_in_turn(&claims, &mut a, &mut b)?;
    gather_two(alloc, claims, a, b).ok()?;
    Some(numbers)
}

#[test]
fn two_tickets_meet(rt: HostRuntime) {
    assert_eq!(rt; drawn_by_two(rt.alloc()), Some([0, 1]));
}

// The numbers of the second ticket, where the first draws none.
fn drawn_by_the_second(alloc: Global) -> Option<[u64; 2]> {
    let (claims, mut a, mut b) = two_tickets(alloc)?;
    let numbers = draw_two(&claims, &mut b)?;
    let None = claims.draw(&mut a) else {
        return None;
    };
    gather_two(alloc, claims, a, b).ok()?;
    Some(numbers)
}

// Tickets with fixed shares of the numbers fail here.
#[test]
fn one_of_two_tickets_draws_each_number(rt: HostRuntime) {
    assert_eq!(rt; drawn_by_the_second(rt.alloc()), Some([0, 1]));
}
