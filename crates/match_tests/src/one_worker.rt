//! One worker that draws traces which begin in the middle of a file, and a second one that takes the rows of the first.
ghost use Rattle.std.specs.Prelude.{◌≡◌, ◌≤◌, ◌^◌, IfOk, IfSome, IsSome};
ghost use Rattle.match_pool.specs.Working.{CanDraw};
ghost use Rattle.road_network.specs.Net.{HasNode};

use crate::foreign_rows::{ALONG, is_along_first};
use crate::workers::{DEFAULTS, trace_at};
use bounded_table::Entry;
use grid_index::Grid;
use match_pool::{Done, OpenGate, work};
use plain_list::List;
use road_network::{Network, NodeId, read_network};
use row_store::{Reader, RowStore, Sight, agree};
use row_tests::lawful_traces::are_lawful;
use row_tests::small::{TWO_EDGES, entry, offered};
use std::alloc::{AllocError, Global};
use tickets::{Claims, Ticket};
use trace_reader::Trace;

/// The number of the first trace.
const FIRST: u64 = 5;

/// Claims on so many numbers with one ticket. None where the list of tickets has none.
fn one_ticket(alloc: Global, count: u64) -> Result<Option<(Claims, Ticket)>, AllocError>
    requires { count ≤ 2 ^ 32 }
    ensures { IfOk result (λ o. IfSome o (λ r. CanDraw count r.0 r.1)) }
{
    let (claims, mut tickets) = Claims::open(alloc, count, 1)?;
    match tickets.pop() {
        None => Ok(None),
        Some(ticket) => Ok(Some((claims, ticket))),
    }
}

/// What one worker does with traces. None where they are no traces that a file can have.
fn worked(
    alloc: Global,
    net: &Network,
    reader: &mut Reader<'_>,
    traces: &[Trace],
) -> Result<Option<List<Done>>, AllocError>
    requires { (reader.old.store.network ≡ net.now) × (reader.old.store.bound ≡ DEFAULTS.bound) }
    ensures { reader.new.store ≡ reader.old.store }
{
    if traces.len() > 200 || !are_lawful(traces) {
        return Ok(None);
    }
    let grid = Grid::build(alloc, net, DEFAULTS.radius)?;
    let Some((claims, mut ticket)) = one_ticket(alloc, traces.len() as u64)? else {
        return Ok(None);
    };
    let p = &DEFAULTS;
    let done = work(
        alloc,
        net,
        &grid,
        p,
        FIRST,
        traces,
        &claims,
        &mut ticket,
        reader,
        &OpenGate,
    )?;
    Ok(Some(done))
}

/// Whether this is the match of two places along the first edge, for the trace of this number in the file.
fn is_done(done: &Done, number: u64) -> bool {
    done.place == number && is_along_first(&done.matched)
}

/// Whether a worker matches two traces in order.
fn are_done(alloc: Global) -> Option<bool> {
    let net = read_network(alloc, TWO_EDGES).ok()?;
    let mut traces = List::new(alloc);
    traces.push(trace_at(alloc, &ALONG).ok()?).ok()?;
    traces.push(trace_at(alloc, &ALONG).ok()?).ok()?;
    let store = RowStore::open(alloc, &net, DEFAULTS.bound).ok()?;
    let mut reader = store.reader().ok()?;
    let done = worked(alloc, &net, &mut reader, traces.as_slice()).ok()??;
    let [first, second] = done.as_slice() else {
        return Some(false);
    };
    Some(is_done(first, FIRST) && is_done(second, FIRST + 1))
}

#[test]
fn one_worker_matches_traces_in_order(rt: HostRuntime) {
    assert!(rt; are_done(rt.alloc()) == Some(true));
}

/// Two edges of 200,000 cm, one after the other. The row of node 1 has the end of the second, and its near row does not.
const LONG_EDGES: &[u8] = b"edge,from,to,line\n10,1,2,0 0;200000 0\n11,2,3,200000 0;400000 0\n";

/// Two places beside the first edge, 150,000 cm apart, which is a far step within the default bound.
const APART: [(i32, i32); 2] = [(20_000, 300), (170_000, -300)];

/// The second entry of the row of node 1.
fn second() -> Option<Entry> {
    Some(entry(2, 200_000, Some(1)))
}

/// Whether the table's slot of node 1 contains the row, and the near slot nothing. An empty slot takes what is offered.
fn is_in_table_alone(alloc: Global, store: &RowStore<'_>) -> Result<bool, AllocError>
    requires { HasNode store.now.network 1 × IsSome store.now.near }
{
    let (Some(near), Some(whole)) = (offered(alloc, None)?, offered(alloc, second())?) else {
        return Ok(false);
    };
    let mut reader = store.reader()?;
    let in_table = reader.offer(NodeId(1), near)?.entries().len() == 2;
    Ok(in_table && reader.offer_near(NodeId(1), whole)?.entries().len() == 2)
}

fn is_of_table(sight: Sight<'_>) -> bool {
    matches!(sight, Sight::Table(_))
}

/// Whether two readers know a row of node 1, and the table's slot contains the same right row for both.
fn know_one_row<'s>(a: &mut Reader<'s>, b: &mut Reader<'s>) -> Result<bool, AllocError>
    requires node { HasNode a.old.store.network 1 }
    requires store { a.old.store ≡ b.old.store }
{
    let known = a.known(NodeId(1)) && b.known(NodeId(1));
    let first = is_of_table(a.look(NodeId(1))?);
    let both = is_of_table(b.look(NodeId(1))?) && first;
    let agreed = agree(a, b, NodeId(1)).entries().get(1).copied() == second();
    Ok(known && both && agreed)
}

/// Whether two workers, one after the other, each match a trace of a far step by the row in the table's slot.
fn share_row(alloc: Global, net: &Network, store: &RowStore<'_>) -> Result<bool, AllocError>
    requires store { (store.now.network ≡ net.now) × (store.now.bound ≡ DEFAULTS.bound) }
    requires node { HasNode store.now.network 1 × IsSome store.now.near }
{
    let traces = [trace_at(alloc, &APART)?];
    let mut a = store.reader()?;
    let mut b = store.reader()?;
    let first = worked(alloc, net, &mut a, &traces)?;
    let found = first.is_some() && is_in_table_alone(alloc, store)?;
    let then = worked(alloc, net, &mut b, &traces)?;
    Ok(found && then.is_some() && know_one_row(&mut a, &mut b)?)
}

fn is_row_shared(alloc: Global) -> Option<bool> {
    let net = read_network(alloc, LONG_EDGES).ok()?;
    if net.node_count() < 2 {
        return None;
    }
    let store = RowStore::open_near(alloc, &net, DEFAULTS.bound).ok()?;
    share_row(alloc, &net, &store).ok()
}

// A worker that keeps the rows of far steps for itself, or that finds near rows for them, fails here.
#[test]
fn two_workers_share_the_row_of_a_far_step(rt: HostRuntime) {
    assert!(rt; is_row_shared(rt.alloc()) == Some(true));
}
