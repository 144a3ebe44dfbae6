//! Two traces whose positions are interleaved, worked out by hand.
use crate::sessions::{Told, append_told};
use cost_model::Params;
use grid_index::Grid;
use online_commit::Item;
use plain_list::List;
use road_network::read_network;
use row_search::RefusingRows;
use row_tests::small::TWO_EDGES;
use std::alloc::{AllocError, Global};
use trace_reader::Fix;
use trace_sessions::{SessionFault, Sessions};

const NEAR: Params = Params {
    radius: 500,
    ..Params::DEFAULT
};

/// A position at this x for an id, or its end, over rows of its own, which refuse this call.
fn call(
    alloc: Global,
    sessions: &mut Sessions,
    id: u32,
    x: Option<u16>,
    refused: u64,
) -> Result<List<Item>, SessionFault> {
    let mut refuse = List::new(alloc);
    refuse.push(refused)?;
    let bound = sessions.params().bound;
    if bound > 10_000_000 {
        return Err(SessionFault::Memory);
    }
    let mut rows = RefusingRows::open(alloc, sessions.network(), bound, refuse)?;
    match x {
        Some(x) => {
            let fix = Fix {
                x: i32::from(x),
                y: 0,
                time: 0,
            };
            sessions.feed(id, fix, &mut rows)
        }
        None => sessions.close(id, &mut rows),
    }
}

/// Whether these calls hand out these items, in numbers.
fn hands_out(
    alloc: Global,
    sessions: &mut Sessions,
    calls: &[(u32, Option<u16>)],
    items: &[Told],
) -> Option<bool> {
    let mut told = Vec::new(alloc);
    for (id, x) in calls {
        let items = call(alloc, sessions, *id, *x, 0).ok()?;
        append_told(&items, &mut told).ok()?;
    }
    Some(told.as_slice() == items)
}

/// Whether this call is refused for this reason where its rows refuse this call.
fn is_refused(
    alloc: Global,
    sessions: &mut Sessions,
    id: u32,
    x: Option<u16>,
    refused: u64,
    fault: SessionFault,
) -> bool {
    call(alloc, sessions, id, x, refused).err() == Some(fault)
}

/// Whether the ids 1 and 2 have sessions, with two positions and one.
fn has_both(sessions: &Sessions) -> bool {
    let ids = (sessions.id_at(0), sessions.id_at(1), sessions.id_at(2));
    let lengths = (sessions.length(1), sessions.length(2), sessions.length(3));
    sessions.count() == 2 && ids == (Some(1), Some(2), None) && lengths == (Some(2), Some(1), None)
}

/// Whether both ids get their labels, and the first its second position again after it was refused.
fn are_fed(alloc: Global, sessions: &mut Sessions) -> Option<bool> {
    let calls = [(1, Some(1_000)), (2, Some(9_000))];
    let first = hands_out(
        alloc,
        sessions,
        &calls,
        &[(0, 0, 0, 1_000), (0, 0, 0, 9_000)],
    )?;
    let refused = is_refused(alloc, sessions, 1, Some(2_000), 1, SessionFault::Memory);
    let again = hands_out(alloc, sessions, &[(1, Some(2_000))], &[(0, 1, 0, 2_000)])?;
    Some(first && refused && again)
}

/// Whether each id gets its own piece, and the second is left when the first is closed.
fn are_closed(alloc: Global, sessions: &mut Sessions) -> Option<bool> {
    let first = hands_out(alloc, sessions, &[(1, None)], &[(2, 0, 1, 0), (3, 0, 0, 0)])?;
    let left = (sessions.count(), sessions.id_at(0)) == (1, Some(2));
    let second = hands_out(alloc, sessions, &[(2, None)], &[(2, 0, 0, 0), (3, 0, 0, 0)])?;
    Some(first && left && second)
}

/// Whether ids have sessions of their own.
fn are_apart(alloc: Global) -> Option<bool> {
    let net = read_network(alloc, TWO_EDGES).ok()?;
    let grid = Grid::build(alloc, &net, 10_000).ok()?;
    let mut sessions = Sessions::open(alloc, &net, &grid, &NEAR);
    let fault = SessionFault::NotOpen(5);
    let refused = is_refused(alloc, &mut sessions, 5, None, 0, fault);
    let fed = are_fed(alloc, &mut sessions)?;
    let both = has_both(&sessions);
    Some(refused && fed && both && are_closed(alloc, &mut sessions)?)
}

#[test]
fn ids_have_sessions_of_their_own(rt: HostRuntime) {
    assert!(rt; are_apart(rt.alloc()) == Some(true));
}
