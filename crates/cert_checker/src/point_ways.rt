//! What the ways to the candidates of a position show about its cells. Serves `check_trace`; decided by
//! `AreWaysOf`.
ghost use Rattle.std.specs.Prelude.{◌≡◌, ◌-◌, IfOk, length};
ghost use Rattle.cert_checker.specs.Case.{width};
ghost use Rattle.cert_checker.specs.inside.CaseSeen.{IsPositionReady, case_seen};
ghost use Rattle.cert_checker.specs.inside.Columns.{AreWaysOf, with_column};
ghost use Rattle.trellis.specs.Pairs.{pairs_of};

use crate::cell_tests::{has_way, is_first_pointer, is_relaxed, is_tight};
use crate::step_ways::ways_by_step;
use crate::trace_case::TraceCase;
use crate::ways::fill_column;
use matching::Cell;
use std::alloc::{AllocError, Global};
use trellis::PairMemory;

/// What the ways to the candidates of a position show about its cells.
#[derive(Clone, Copy)]
pub struct PointWays {
    /// Some live cell of the previous position has a route to some candidate.
    pub any: bool,
    /// No cell costs more than a way to it.
    pub relaxed: bool,
    /// Each live cell has the cost of the way that its pointer names.
    pub tight: bool,
    /// Each pointer names the first way of its cost.
    pub least: bool,
}

/// The result for the first cells and one more, with the ways to it.
fn with_column(found: PointWays, column: &[Option<u128>], cell: Cell) -> PointWays
    ensures { result ≡ with_column found column.now cell }
{
    PointWays {
        any: found.any || has_way(column),
        relaxed: found.relaxed && is_relaxed(column, cell),
        tight: found.tight && is_tight(column, cell),
        least: found.least && is_first_pointer(column, cell),
    }
}

/// The result for all candidates, one column after the other.
fn ways_by_columns(case: &TraceCase, i: usize, column: &mut [Option<u128>]) -> PointWays
    requires ready { IsPositionReady (case_seen case.now) i }
    requires count { length column.old ≡ width (case_seen case.now) (i - 1) }
    ensures { AreWaysOf (case_seen case.now) i (width (case_seen case.now) i) result }
{
    let mut found = PointWays {
        any: false,
        relaxed: true,
        tight: true,
        least: true,
    };
    let cells = case.table(i);
    for j in 0..cells.len() {
        fill_column(case, i, j, column);
        found = with_column(found, column, cells[j]);
    }
    found
}

/// What the ways to the candidates of a position show about its cells. Remembers lookups of pairs of nodes.
pub fn point_ways(
    alloc: Global,
    case: &TraceCase,
    pairs: &mut PairMemory,
    i: usize,
) -> Result<PointWays, AllocError>
    requires ready { IsPositionReady (case_seen case.now) i }
    requires pairs { pairs.old ≡ pairs_of case.now.net.now case.now.params.now.bound }
    ensures ways { IfOk result (AreWaysOf (case_seen case.now) i (width (case_seen case.now) i)) }
    ensures same { pairs.new ≡ pairs.old }
{
    if let Some(found) = ways_by_step(alloc, case, pairs, i) {
        return Ok(found);
    }
    let mut column = vec![in alloc; None; case.width(i - 1)]?;
    Ok(ways_by_columns(case, i, &mut column))
}
