//! The conditions of a position that need no way: its table and its rank, the rows that its transitions rely on,
//! and the costs of the first cells of a piece.
ghost use Rattle.std.specs.Prelude.{◌≡◌, ◌<◌, ◌-◌, length, true};
ghost use Rattle.cert_checker.specs.Case.{width};
ghost use Rattle.cert_checker.specs.inside.CaseSeen.{IsCheckable, case_seen};
ghost use Rattle.cert_checker.specs.inside.Columns.{are_first_cells, has_row_of, is_first_at};
ghost use Rattle.cert_checker.specs.Verdicts.{has_candidates, has_rows, is_rank_of};

use crate::cell_tests::is_first_cell;
use crate::trace_case::TraceCase;
use cost_model::emission;

/// Whether the rank is below `width`, or `None` if `width` is 0.
fn is_rank_of(width: usize, rank: Option<u32>) -> bool
    ensures { result ≡ is_rank_of width rank }
{
    match rank {
        Some(rank) => (rank as usize) < width,
        None => width == 0,
    }
}

/// Whether a position has a table of the size of its candidates and a rank of them, with nothing after the last
/// position.
pub fn has_candidates(case: &TraceCase, i: usize) -> bool
    requires { i < length case.now.layers.now }
    ensures { result ≡ has_candidates (case_seen case.now) i }
{
    let (ranks, tables) = (case.proof.ranks.len(), case.proof.tables.len());
    i < ranks
        && i < tables
        && case.table(i).len() == case.width(i)
        && is_rank_of(case.width(i), case.rank(i))
        && (i + 1 != case.layers.len() || (ranks <= i + 1 && tables <= i + 1))
}

/// Whether cell a of the position before is not live, or the certificate has its row.
fn has_row_of(case: &TraceCase, i: usize, a: usize) -> bool
    requires checkable { IsCheckable (case_seen case.now) }
    requires point { (0 < i) × (i < length case.now.layers.now) }
    requires a { a < width (case_seen case.now) (i - 1) }
    ensures { result ≡ has_row_of (case_seen case.now) i a }
{
    case.net.invariants();
    match case.table(i - 1).get(a) {
        Some(cell) if cell.cost.is_some() => {
            let end = case.net.to(case.candidate(i - 1, a).edge);
            case.rows.place(end).is_some()
        }
        _ => true,
    }
}

/// Whether the certificate has the row of each live cell of the previous position, if transitions from there are
/// checked.
pub fn has_rows(case: &TraceCase, i: usize) -> bool
    requires checkable { IsCheckable (case_seen case.now) }
    requires point { i < length case.now.layers.now }
    ensures { result ≡ has_rows (case_seen case.now) i }
{
    if !case.is_looked_at(i) {
        return true;
    }
    for a in 0..case.width(i - 1) {
        if !has_row_of(case, i, a) {
            return false;
        }
    }
    true
}

/// Whether cell j of a position has the cost of its candidate, without a pointer.
fn is_first_at(case: &TraceCase, i: usize, j: usize) -> bool
    requires checkable { IsCheckable (case_seen case.now) }
    requires point { i < length case.now.layers.now }
    requires table { has_candidates (case_seen case.now) i ≡ true }
    requires j { j < width (case_seen case.now) i }
    ensures { result ≡ is_first_at (case_seen case.now) i j }
{
    let own = emission(case.params, case.candidate(i, j).d2);
    is_first_cell(own, case.table(i)[j])
}

/// Whether the cells of a position are those of the first position of a piece.
pub fn are_first_cells(case: &TraceCase, i: usize) -> bool
    requires checkable { IsCheckable (case_seen case.now) }
    requires point { i < length case.now.layers.now }
    requires table { has_candidates (case_seen case.now) i ≡ true }
    ensures { result ≡ are_first_cells (case_seen case.now) i }
{
    for j in 0..case.width(i) {
        if !is_first_at(case, i, j) {
            return false;
        }
    }
    true
}
