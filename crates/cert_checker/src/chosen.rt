//! The chosen ranks of a piece. Serves `check_trace`; decided by `is_chosen`.
ghost use Rattle.std.specs.Prelude.{◌≡◌};
ghost use Rattle.std.specs.List.{list_any};
ghost use Rattle.cert_checker.specs.Case.{rank, table};
ghost use Rattle.cert_checker.specs.inside.CaseSeen.{case_seen};
ghost use Rattle.cert_checker.specs.Cells.{is_below, is_cost, is_least_rank, pointer_of};
ghost use Rattle.cert_checker.specs.Verdicts.{follows_pointers, is_chosen};

use crate::trace_case::TraceCase;
use match_text::Routed;
use matching::Cell;

/// Whether one of these cells costs less.
fn costs_less(cells: &[Cell], cost: u64) -> bool
    ensures { result ≡ list_any (λ cell. is_below cost (cell.cost)) cells.now }
{
    cells
        .iter()
        .any(|cell| cell.cost.is_some_and(|other| other < cost))
}

/// Whether one of these cells has this cost.
fn costs_same(cells: &[Cell], cost: u64) -> bool
    ensures { result ≡ list_any (λ cell. is_cost cost (cell.cost)) cells.now }
{
    cells
        .iter()
        .any(|cell| cell.cost.is_some_and(|other| other == cost))
}

/// Whether a rank is the least one of least cost, and that cost is `cost`.
fn is_least_rank(cells: &[Cell], rank: Option<u32>, cost: u64) -> bool
    ensures { result ≡ is_least_rank cells.now rank cost }
{
    let Some(rank) = rank else {
        return false;
    };
    let Some(cell) = cells.get(rank as usize) else {
        return false;
    };
    cell.cost.is_some_and(|own| own == cost)
        && !costs_less(cells, cost)
        && !costs_same(&cells[..rank as usize], cost)
}

/// The pointer of the chosen cell of a position.
fn pointer(case: &TraceCase, i: usize) -> Option<u32>
    ensures { result ≡ pointer_of (table (case_seen case.now) i) (rank (case_seen case.now) i) }
{
    let rank = case.rank(i)?;
    match case.table(i).get(rank as usize) {
        Some(cell) => cell.from,
        None => None,
    }
}

/// Whether at each position of a piece except the last the chosen rank is the pointer of the next chosen cell.
fn follows_pointers(case: &TraceCase, piece: &Routed) -> bool
    ensures { result ≡ follows_pointers (case_seen case.now) piece.now }
{
    for i in piece.first as usize..piece.last as usize {
        if case.rank(i) != pointer(case, i + 1) {
            return false;
        }
    }
    true
}

/// Whether the chosen ranks of a piece are those of its cells, and its cost is the least.
pub fn is_chosen(case: &TraceCase, piece: &Routed) -> bool
    ensures { result ≡ is_chosen (case_seen case.now) piece.now }
{
    let last = piece.last as usize;
    is_least_rank(case.table(last), case.rank(last), piece.cost) && follows_pointers(case, piece)
}
