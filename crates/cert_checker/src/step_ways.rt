//! The ways to the cells of a position, if these are the cells of a step from the previous position. Serves
//! `point_ways`; decided by `AreWaysOf`.
ghost use Rattle.std.specs.Prelude.{◌≡◌, ◌-◌, ◌^◌, None, IfSome, is_some};
ghost use Rattle.std.specs.Bool.{OnTrue};
ghost use Rattle.std.specs.List.{list_any};
ghost use Rattle.cert_checker.specs.Case.{width};
ghost use Rattle.cert_checker.specs.inside.CaseSeen.{IsPositionReady, case_seen};
ghost use Rattle.cert_checker.specs.inside.Columns.{AreWaysOf};
ghost use Rattle.cert_checker.specs.Rows.{first_bad_row};
ghost use Rattle.matching.specs.Growth.{CostAtMost};
ghost use Rattle.trellis.specs.Pairs.{pairs_of};
ghost use Rattle.trellis.specs.Steps.{AreFilled, pairs_for};

use crate::placed_rows::PlacedRows;
use crate::point_ways::PointWays;
use crate::trace_case::TraceCase;
use matching::Cell;
use polyline_geometry::straight;
use std::alloc::Global;
use trellis::{PairMemory, Potentials, Step, add_emissions, empty_cells, offer_by_row};

/// The greatest cost to which the costs of one position are added without a test: 2^64 - 2^43.
const SMALL: u64 = 18_446_735_277_616_529_408;

/// Whether no cost is too great for a step.
fn are_small(cells: &[Cell]) -> bool
    ensures { OnTrue result (CostAtMost (2 ^ 64 - 2 ^ 43) cells.now) }
{
    for cell in cells {
        if cell.cost.is_some_and(|cost| cost > SMALL) {
            return false;
        }
    }
    true
}

/// Whether some cell is live.
fn has_live(cells: &[Cell]) -> bool
    ensures { result ≡ list_any (λ cell. is_some cell.cost) cells.now }
{
    cells.iter().any(|cell| cell.cost.is_some())
}

/// Whether two lists of cells are equal.
fn are_same(cells: &[Cell], others: &[Cell]) -> bool
    ensures { OnTrue result (cells.now ≡ others.now) }
{
    cells == others
}

/// The cells of a position, by a step from the previous position, with the rows of a certificate. `None` if a row
/// is missing, or when out of memory.
fn cells_by_rows(
    alloc: Global,
    rows: &PlacedRows,
    pairs: &mut PairMemory,
    step: &Step,
) -> Option<Potentials>
    requires rows { first_bad_row step.now.net.now step.now.params.now.bound rows.now ≡ None }
    requires pairs { pairs.old ≡ pairs_for step.now }
    ensures cells { IfSome result (AreFilled step.now) }
    ensures same { pairs.new ≡ pairs.old }
{
    step.net.invariants();
    let Ok(mut cells) = empty_cells(alloc, step) else {
        return None;
    };
    for rank in 0..step.costs.len() {
        let Some(from) = step.origin(rank) else {
            continue;
        };
        let place = rows.place(from.node())?;
        offer_by_row(&from, rows.at(place), pairs, cells.as_mut_slice());
    }
    Some(add_emissions(step, cells))
}

/// What the ways show, if each cell of the position has the least way, as in a lawful certificate: then a step
/// finds the same cells. `None` if it does not, or when out of memory.
pub fn ways_by_step(
    alloc: Global,
    case: &TraceCase,
    pairs: &mut PairMemory,
    i: usize,
) -> Option<PointWays>
    requires ready { IsPositionReady (case_seen case.now) i }
    requires pairs { pairs.old ≡ pairs_of case.now.net.now case.now.params.now.bound }
    ensures ways { IfSome result (AreWaysOf (case_seen case.now) i (width (case_seen case.now) i)) }
    ensures same { pairs.new ≡ pairs.old }
{
    case.net.invariants();
    let costs = case.table(i - 1);
    if !are_small(costs) {
        return None;
    }
    let (before, layer) = (case.layer(i - 1), case.layer(i));
    let step = Step {
        net: case.net,
        params: case.params,
        before,
        costs,
        layer,
        apart: straight(before.point, layer.point),
    };
    let cells = cells_by_rows(alloc, case.rows, pairs, &step)?;
    let own = case.table(i);
    if !are_same(cells.as_slice(), own) {
        return None;
    }
    Some(PointWays {
        any: has_live(own),
        relaxed: true,
        tight: true,
        least: true,
    })
}
