//! Batches of traces, checked side by side. Serves `check_all`; decided by `batch_verdict` and
//! `first_refused`.
ghost use Rattle.std.specs.Prelude.{◌≡◌, ◌≤◌, ◌+◌, List as ListOf, IfOk, drop, length, take};
ghost use Rattle.std.specs.List.{AllZip, flat_map};
ghost use Rattle.cert_checker.specs.inside.Batches.{batch_verdict, first_refused};
ghost use Rattle.cert_checker.specs.declared.verdict.Verdict.{Verdict as AVerdict};

use crate::batch::Batch;
use crate::ground::Ground;
use crate::plain_layers::plain_layers;
use crate::trace_case::TraceCase;
use crate::trace_check::trace_verdict;
use crate::verdict::Verdict;
use matching::Layer;
use plain_list::List;
use rayon::prelude::*;
use std::alloc::{AllocError, Global};
use std::thread::Threads;
use trace_reader::{Fix, Trace};

/// The positions of all traces, one trace after the other.
fn fixes(alloc: Global, traces: &[Trace]) -> Result<List<Fix>, AllocError>
    ensures { IfOk result (λ fixes. fixes ≡ flat_map (λ trace. trace.fixes) traces.now) }
{
    let mut fixes = List::new(alloc);
    for trace in traces {
        fixes.extend_from_slice(trace.fixes.as_slice())?;
    }
    Ok(fixes)
}

/// `count` of these layers, from index `first` on.
fn part(layers: &[Layer], first: usize, count: usize) -> &[Layer]
    requires { first + count ≤ length layers.now }
    ensures { result.now ≡ take count (drop first layers.now) }
{
    &layers[first..first + count]
}

/// The first verdict that refuses a trace of a batch. One search gives the candidates of all traces.
fn verdict_on_batch(alloc: Global, ground: &Ground, batch: &Batch) -> Result<Verdict, AllocError>
    ensures { IfOk result (λ v. v ≡ batch_verdict ground.now.net.now ground.now.params.now
        ground.now.rows.now batch.now) }
{
    let fixes = fixes(alloc, batch.traces)?;
    let layers = plain_layers(alloc, ground, fixes.as_slice())?;
    let mut first = 0;
    for place in 0..batch.traces.len() {
        let count = batch.traces[place].fixes.len();
        let case = TraceCase {
            net: ground.net,
            params: ground.params,
            rows: ground.rows,
            layers: part(layers.as_slice(), first, count),
            proof: &batch.proofs[place],
        };
        let verdict = trace_verdict(alloc, &case, batch.first + place as u64)?;
        match verdict {
            Verdict::Proved => {}
            Verdict::Refused { .. } => return Ok(verdict),
        }
        first += count;
    }
    Ok(Verdict::Proved)
}

/// The verdicts on batches, side by side.
pub fn verdicts<R: Threads + Sync>(
    rt: &R,
    alloc: Global,
    ground: &Ground,
    batches: &[Batch],
) -> Result<Vec<Result<Verdict, AllocError>>, AllocError>
    ensures { IfOk result (λ answers. AllZip (λ b r. IfOk r (λ v. v ≡ batch_verdict
        ground.now.net.now ground.now.params.now ground.now.rows.now b)) batches.now answers.items) }
{
    batches
        .par_iter()
        .with_min_len(1)
        .map(
            |batch: &Batch| -> Result<Verdict, AllocError>
                ensures { IfOk result (λ v. v ≡ batch_verdict ground.entry.now.net.now
                    ground.entry.now.params.now ground.entry.now.rows.now batch.now) }
            { verdict_on_batch(alloc, ground, batch) },
        )
        .collect(rt, alloc)
}

/// The first of these verdicts that refuses; out of memory if that comes before it.
pub fn first_refused(answers: &[Result<Verdict, AllocError>]) -> Result<Verdict, AllocError>
    ensures { (verdicts : ListOf AVerdict) → AllZip (λ v r. IfOk r (λ w. w ≡ v)) verdicts answers.now
        → IfOk result (λ w. w ≡ first_refused verdicts) }
{
    for answer in answers {
        let Ok(verdict) = answer else {
            return Err(AllocError);
        };
        match verdict {
            Verdict::Proved => {}
            Verdict::Refused { .. } => return Ok(*verdict),
        }
    }
    Ok(Verdict::Proved)
}
