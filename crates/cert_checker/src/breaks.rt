//! The pieces at a position: where they begin and end, and the conditions on the piece that ends there. Serves
//! `check_trace`; decided by `has_breaks` and `each_ended`.
ghost use Rattle.std.specs.Prelude.{◌≡◌, ◌&&◌, ◌∷◌, [], IfOk};
ghost use Rattle.cert_checker.specs.Case.{has_way, is_looked_at};
ghost use Rattle.cert_checker.specs.inside.CaseSeen.{case_seen};
ghost use Rattle.cert_checker.specs.inside.Checked.{IsAtEnd, IsNextPosition};
ghost use Rattle.cert_checker.specs.Verdicts.{breaks_right, first_failing, has_breaks, holds};

use crate::chosen::is_chosen;
use crate::pieces::{begins, ending, ends_after, goes_on, is_in_any};
use crate::routes::has_route;
use crate::trace_case::TraceCase;
use crate::verdict::Condition;
use match_text::Routed;
use std::alloc::{AllocError, Global};

/// Whether the position begins a piece, continues one or is in none, as its transitions require.
fn breaks_right(case: &TraceCase, left: &[Routed], i: usize, is_reached: bool) -> bool
    requires point { IsNextPosition (case_seen case.now) i left.now }
    requires reached { is_reached
        ≡ (is_looked_at (case_seen case.now) i && has_way (case_seen case.now) i) }
    ensures { result ≡ breaks_right (case_seen case.now) i }
{
    if case.width(i) == 0 {
        return !is_in_any(left, i);
    }
    if is_reached {
        goes_on(left, i)
    } else {
        begins(left, i)
    }
}

/// Whether the pieces at a position are as its transitions require. `left` are the pieces that end at the position
/// or later, and `is_reached` says whether some live cell of the previous position has a route to it.
pub fn has_breaks(case: &TraceCase, left: &[Routed], i: usize, is_reached: bool) -> bool
    requires point { IsNextPosition (case_seen case.now) i left.now }
    requires reached { is_reached
        ≡ (is_looked_at (case_seen case.now) i && has_way (case_seen case.now) i) }
    ensures { result ≡ has_breaks (case_seen case.now) i }
{
    breaks_right(case, left, i, is_reached) && (i + 1 != case.layers.len() || !ends_after(left, i))
}

/// The first failing condition of the piece that ends with a position.
pub fn failing_end(
    alloc: Global,
    case: &TraceCase,
    left: &[Routed],
    i: usize,
) -> Result<Option<Condition>, AllocError>
    requires { IsAtEnd (case_seen case.now) i left.now }
    ensures { IfOk result (λ found. found ≡ first_failing (holds (case_seen case.now) i)
        (Condition.Chosen ∷ Condition.Route ∷ [])) }
{
    case.net.invariants();
    let Some(piece) = ending(left, i) else {
        return Ok(None);
    };
    if !is_chosen(case, piece) {
        return Ok(Some(Condition::Chosen));
    }
    if !has_route(alloc, case, piece)? {
        return Ok(Some(Condition::Route));
    }
    Ok(None)
}
