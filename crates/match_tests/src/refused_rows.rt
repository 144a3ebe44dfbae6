//! Matches over rows that refuse a call.
ghost use Rattle.std.specs.Prelude.{◌≡◌, IfOk};
ghost use Rattle.bounded_table.specs.Rows.{no_rows};

use crate::workers::{DEFAULTS, trace_at};
use grid_index::Grid;
use match_pool::match_one;
use plain_list::List;
use road_network::{Network, read_network};
use row_search::RefusingRows;
use row_tests::lawful_traces::is_lawful;
use row_tests::small::TWO_EDGES;
use std::alloc::{AllocError, Global};
use trace_reader::Trace;
use trace_sessions::{Basis, follow_trace};

/// Two places on the first edge, the second one behind: the match continues on the next edge.
const BEHIND: [(i32, i32); 2] = [(9_000, 0), (1_000, 0)];

/// The calls for a row: for the near and the whole row of both candidates of the first place, and for the near row
/// that the walk is rebuilt from.
const CALLS: u64 = 5;

const FOLLOWED: &[u8] =
    b"trace 7\nfix 0\nfix 1\nat 0 edge 10 offset 9000 d2 0\nat 1 edge 11 offset 0 d2 81000000\nfinish\npiece 0 1 cost 47500 route 10 11\nend 7\n";

/// Rows that refuse the call of this number.
fn rows_refusing(alloc: Global, net: &Network, call: u64) -> Result<RefusingRows<'_>, AllocError>
    ensures { IfOk result (λ rows. rows.rows ≡ no_rows net.now DEFAULTS.bound) }
{
    let mut calls = List::new(alloc);
    calls.push(call)?;
    RefusingRows::open(alloc, net, DEFAULTS.bound, calls)
}

fn is_matched(alloc: Global, net: &Network, trace: &Trace, call: u64) -> Option<bool> {
    if !is_lawful(trace) {
        return None;
    }
    let grid = Grid::build(alloc, net, DEFAULTS.radius).ok()?;
    let mut rows = rows_refusing(alloc, net, call).ok()?;
    Some(match_one(alloc, net, &grid, &DEFAULTS, &mut rows, trace).is_ok())
}

fn is_followed(alloc: Global, net: &Network, trace: &Trace, call: u64) -> Option<bool> {
    if !is_lawful(trace) {
        return None;
    }
    let grid = Grid::build(alloc, net, DEFAULTS.radius).ok()?;
    let mut rows = rows_refusing(alloc, net, call).ok()?;
    let on = Basis {
        net,
        grid: &grid,
        params: &DEFAULTS,
    };
    let mut text = List::new(alloc);
    let pieces = follow_trace(alloc, &on, &mut rows, trace, &mut text).ok();
    Some(pieces == Some(1) && text.as_slice() == FOLLOWED)
}

/// Whether the trace is matched, and whether it is followed, where this call for a row is refused.
fn outcome(alloc: Global, call: u64) -> Option<(bool, bool)> {
    let net = read_network(alloc, TWO_EDGES).ok()?;
    let trace = trace_at(alloc, &BEHIND).ok()?;
    let matched = is_matched(alloc, &net, &trace, call)?;
    let followed = is_followed(alloc, &net, &trace, call)?;
    Some((matched, followed))
}

#[test]
fn a_refused_row_ends_the_match(rt: HostRuntime) {
    for call in 1..CALLS + 1 {
        assert!(rt;
            outcome(rt.alloc(), call) == Some((false, false)),
            "call {call}"
        );
    }
    assert!(rt;
        outcome(rt.alloc(), CALLS + 1) == Some((true, true)),
        "no such call"
    );
}
