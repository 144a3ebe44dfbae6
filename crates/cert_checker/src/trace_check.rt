//! The verdict on one trace. Decided by `trace_verdict`.
ghost use Rattle.std.specs.Prelude.{◌≡◌, ◌<◌, ◌∷◌, [], IfOk, None, false, length, true};
ghost use Rattle.cost_model.specs.Options.{IsAccepted};
ghost use Rattle.trace_reader.specs.Trace.{IsLawfulTrace};
ghost use Rattle.trellis.specs.Pairs.{pairs_of};
ghost use Rattle.cert_checker.specs.inside.CaseSeen.{IsCheckable, case_seen};
ghost use Rattle.cert_checker.specs.inside.Checked.{IsMet, IsNextPosition, TellsWays, of_cells};
ghost use Rattle.cert_checker.specs.Pieces.{rise_from};
ghost use Rattle.cert_checker.specs.Rows.{first_bad_row};
ghost use Rattle.cert_checker.specs.Verdicts.{case_of, first_failing, has_candidates, holds, order, trace_verdict};

use crate::breaks::{failing_end, has_breaks};
use crate::pieces::{begins, goes_on, left_after, pieces_rise};
use crate::point_ways::{PointWays, point_ways};
use crate::points::{are_first_cells, has_candidates, has_rows};
use crate::trace_case::TraceCase;
use crate::verdict::{Condition, Verdict};
use match_text::Routed;
use std::alloc::{AllocError, Global};
use trellis::PairMemory;

/// What the ways show about the cells of a position; nothing against them if no transition is checked.
fn ways_to(
    alloc: Global,
    case: &TraceCase,
    pairs: &mut PairMemory,
    i: usize,
) -> Result<PointWays, AllocError>
    requires met { IsMet (case_seen case.now) i }
    requires pairs { pairs.old ≡ pairs_of case.now.net.now case.now.params.now.bound }
    ensures ways { IfOk result (TellsWays (case_seen case.now) i) }
    ensures same { pairs.new ≡ pairs.old }
{
    if case.is_looked_at(i) {
        pairs.make_room(alloc)?;
        return point_ways(alloc, case, pairs, i);
    }
    Ok(PointWays {
        any: false,
        relaxed: true,
        tight: true,
        least: true,
    })
}

/// The first failing condition of the pieces and the cells at a position.
fn failing_cells(case: &TraceCase, left: &[Routed], i: usize, ways: PointWays) -> Option<Condition>
    requires point { IsNextPosition (case_seen case.now) i left.now }
    requires candidates { has_candidates (case_seen case.now) i ≡ true }
    requires ways { TellsWays (case_seen case.now) i ways }
    ensures { result ≡ first_failing (holds (case_seen case.now) i) of_cells }
{
    if !has_breaks(case, left, i, ways.any) {
        return Some(Condition::Break);
    }
    if begins(left, i) && !are_first_cells(case, i) {
        return Some(Condition::FirstCost);
    }
    if !goes_on(left, i) {
        return None;
    }
    if !ways.relaxed {
        return Some(Condition::Relaxed);
    }
    if !ways.tight {
        return Some(Condition::Tight);
    }
    if !ways.least {
        return Some(Condition::Pointer);
    }
    None
}

/// The first failing condition at a position.
fn failing(
    alloc: Global,
    case: &TraceCase,
    pairs: &mut PairMemory,
    left: &[Routed],
    i: usize,
) -> Result<Option<Condition>, AllocError>
    requires point { IsNextPosition (case_seen case.now) i left.now }
    requires pairs { pairs.old ≡ pairs_of case.now.net.now case.now.params.now.bound }
    ensures found { IfOk result
        (λ found. found ≡ first_failing (holds (case_seen case.now) i) order) }
    ensures same { pairs.new ≡ pairs.old }
{
    if !has_candidates(case, i) {
        return Ok(Some(Condition::Candidates));
    }
    if !has_rows(case, i) {
        return Ok(Some(Condition::Row));
    }
    let ways = ways_to(alloc, case, pairs, i)?;
    if let Some(condition) = failing_cells(case, left, i, ways) {
        return Ok(Some(condition));
    }
    failing_end(alloc, case, left, i)
}

/// The verdict on a trace whose pieces do not ascend.
fn verdict_without_order(case: &TraceCase, number: u64) -> Verdict
    requires some { 0 < length case.now.layers.now }
    requires pieces { rise_from 0 case.now.proof.now.pieces ≡ false }
    ensures { result ≡ trace_verdict number (case_seen case.now) }
{
    let condition = if has_candidates(case, 0) {
        Condition::Break
    } else {
        Condition::Candidates
    };
    Verdict::Refused {
        condition,
        trace: number,
        place: 0,
    }
}

/// The verdict on a trace with its proof: the first failing condition, position by position.
pub fn trace_verdict(alloc: Global, case: &TraceCase, number: u64) -> Result<Verdict, AllocError>
    requires checkable { IsCheckable (case_seen case.now) }
    requires some { 0 < length case.now.layers.now }
    ensures { IfOk result (λ v. v ≡ trace_verdict number (case_seen case.now)) }
{
    if !pieces_rise(case.proof.pieces.as_slice()) {
        return Ok(verdict_without_order(case, number));
    }
    let mut pairs = PairMemory::new(alloc, case.net, case.params.bound);
    let mut left = case.proof.pieces.as_slice();
    for i in 0..case.layers.len() {
        if let Some(condition) = failing(alloc, case, &mut pairs, left, i)? {
            return Ok(Verdict::Refused {
                condition,
                trace: number,
                place: i as u64,
            });
        }
        left = left_after(left, i);
    }
    Ok(Verdict::Proved)
}
