//! Traces cut into batches. Serves `check_all`; decided by `AreBatches`.
ghost use Rattle.std.specs.Prelude.{◌≡◌, ◌<◌, ◌≤◌, ◌+◌, All, IfOk, length};
ghost use Rattle.trace_reader.specs.Trace.{IsLawfulTrace};
ghost use Rattle.cert_checker.specs.inside.Batches.{AreBatchesOf};

use crate::batch::{BATCH_TRACES, Batch};
use plain_list::List;
use potential_certificate::TraceProof;
use std::alloc::{AllocError, Global};
use trace_reader::Trace;

/// A batch is full from this many positions on. Speed only: any value is right.
const BATCH_POINTS: usize = 5_000;

/// Where the batch that begins with a trace ends.
fn batch_end(traces: &[Trace], first: usize) -> usize
    requires { first < length traces.now }
    ensures after { first < result }
    ensures within { result ≤ length traces.now }
    ensures few { result ≤ first + BATCH_TRACES }
{
    let most = first + (traces.len() - first).min(BATCH_TRACES);
    let mut points: usize = 0;
    for place in first..most {
        points = points.saturating_add(traces[place].fixes.len());
        if points >= BATCH_POINTS {
            return place + 1;
        }
    }
    most
}

/// The traces with their proofs in batches of whole traces with some 5,000 positions.
pub fn batches<'a>(
    alloc: Global,
    traces: &'a [Trace],
    proofs: &'a [TraceProof],
) -> Result<List<Batch<'a>>, AllocError>
    requires traces { All IsLawfulTrace traces.now }
    requires proofs { length proofs.now ≡ length traces.now }
    ensures { IfOk result (AreBatchesOf traces.now proofs.now) }
{
    let mut batches = List::new(alloc);
    let mut first = 0;
    while first < traces.len() {
        let end = batch_end(traces, first);
        batches.push(Batch {
            first: first as u64,
            traces: &traces[first..end],
            proofs: &proofs[first..end],
        })?;
        first = end;
    }
    Ok(batches)
}
