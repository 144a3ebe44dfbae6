//! The cost of reaching a candidate through a cell of the previous position. Serves `plain_ways`; decided by `way`.
ghost use Rattle.std.specs.Prelude.{◌≡◌, ◌<◌, ◌-◌, length};
ghost use Rattle.cert_checker.specs.Case.{layer, way, ways, width};
ghost use Rattle.cert_checker.specs.inside.CaseSeen.{IsPositionReady, case_seen};
ghost use Rattle.bounded_table.specs.Table.{IsRow};
ghost use Rattle.matching.specs.Layers.{end_of, trellis};

use crate::trace_case::TraceCase;
use bounded_table::Row;
use cost_model::{emission, transition};
use polyline_geometry::straight;
use trellis::link;

/// The cost of the transition from candidate a of the previous position to candidate j of position i, by the row of
/// the node where the edge of a ends. `None` if there is no route.
fn transition_by_row(case: &TraceCase, i: usize, a: usize, j: usize, row: &Row) -> Option<u64>
    requires ready { IsPositionReady (case_seen case.now) i }
    requires a { a < width (case_seen case.now) (i - 1) }
    requires j { j < width (case_seen case.now) i }
    requires row { IsRow case.now.net.now case.now.params.now.bound
        (end_of case.now.net.now (layer (case_seen case.now) (i - 1)) a) row.now }
    ensures { result ≡ (trellis case.now.net.now case.now.params.now).transition
        (layer (case_seen case.now) (i - 1)) a (layer (case_seen case.now) i) j }
{
    case.net.invariants();
    let (from, to) = (case.candidate(i - 1, a), case.candidate(i, j));
    let route = link(case.net, case.params, row, &from, &to)?;
    let apart = straight(case.layer(i - 1).point, case.layer(i).point);
    Some(transition(case.params, route.length, apart))
}

/// The cost of reaching candidate j of position i through cell a of the previous position, if that is live and has
/// a route to j. It may not fit 64 bits.
pub fn way(case: &TraceCase, i: usize, a: usize, j: usize) -> Option<u128>
    requires ready { IsPositionReady (case_seen case.now) i }
    requires a { a < width (case_seen case.now) (i - 1) }
    requires j { j < width (case_seen case.now) i }
    ensures { result ≡ way (case_seen case.now) i a j }
{
    case.net.invariants();
    let cost = case.table(i - 1)[a].cost?;
    let end = case.net.to(case.candidate(i - 1, a).edge);
    let place = case.rows.place(end)?;
    let moved = transition_by_row(case, i, a, j, case.rows.at(place))?;
    let own = emission(case.params, case.candidate(i, j).d2);
    Some(u128::from(cost) + u128::from(moved) + u128::from(own))
}

/// Fills a column with the ways to candidate j of position i.
pub fn fill_column(case: &TraceCase, i: usize, j: usize, column: &mut [Option<u128>])
    requires ready { IsPositionReady (case_seen case.now) i }
    requires count { length column.old ≡ width (case_seen case.now) (i - 1) }
    requires j { j < width (case_seen case.now) i }
    ensures { column.new ≡ ways (case_seen case.now) i j }
{
    for a in 0..column.len() {
        column[a] = way(case, i, a, j);
    }
}
