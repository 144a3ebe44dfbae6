//! Traces far from the whole network, whose match needs no layers. Serves `find_match`;
//! decided by `unmatched`.
ghost use Rattle.std.specs.Prelude.{◌≡◌, All, IfOk, IsTrue};
ghost use Rattle.polyline_geometry.specs.Plane.{InRange};
ghost use Rattle.trace_reader.specs.Trace.{IsLawfulTrace, point_of_fix};
ghost use Rattle.match_pool.specs.inside.Unmatched.{LiesFar, unmatched};

use crate::batch::Batch;
use candidate_search::candidates;
use match_text::{Label, MatchedTrace};
use plain_list::List;
use std::alloc::{AllocError, Global};
use trace_reader::{Fix, Trace};

/// True only if a position has no candidate, far from the whole network. False decides nothing.
fn fix_is_surely_far(batch: &Batch, fix: &Fix) -> Result<bool, AllocError>
    requires { InRange (point_of_fix fix.now) }
    ensures { IfOk result (λ far. IsTrue far
        → LiesFar batch.now.net.now batch.now.params.now fix.now) }
{
    let at = fix.point();
    if !batch.grid.is_far(at, batch.params.radius) {
        return Ok(false);
    }
    let found = candidates(batch.alloc, batch.net, batch.grid, batch.params, at)?;
    Ok(found.len() == 0)
}

/// True only if no position of a trace has a candidate. False decides nothing; for most traces the first
/// position gives it.
pub(crate) fn is_surely_far(batch: &Batch, trace: &Trace) -> Result<bool, AllocError>
    requires { IsLawfulTrace trace.now }
    ensures { IfOk result (λ far. IsTrue far
        → All (LiesFar batch.now.net.now batch.now.params.now) trace.now.fixes) }
{
    for fix in trace.fixes.as_slice() {
        if !fix_is_surely_far(batch, fix)? {
            return Ok(false);
        }
    }
    Ok(true)
}

/// The match of a trace in which no position has a candidate.
pub(crate) fn unmatched(alloc: Global, trace: &Trace) -> Result<MatchedTrace, AllocError>
    ensures { IfOk result (λ matched. matched ≡ unmatched trace.now) }
{
    let labels = vec![in alloc; Label::Missing; trace.fixes.len()]?;
    Ok(MatchedTrace {
        id: trace.id,
        labels: List::from_vec(labels),
        pieces: List::new(alloc),
    })
}
