//! Consecutive traces with their proofs, checked by one thread. Serves `check_all`.
ghost use Rattle.std.specs.Prelude.{◌≡◌, ◌≤◌, ◌<◌, ◌+◌, ◌^◌, All, length};
ghost use Rattle.trace_reader.specs.Trace.{IsLawfulTrace};

use potential_certificate::TraceProof;
use trace_reader::Trace;

/// The most traces of a batch.
pub const BATCH_TRACES: usize = 32_768;

/// Consecutive traces, each with its proof; `first` is the index of the first.
#[derive(Clone, Copy)]
pub struct Batch<'a> {
    pub first: u64,
    pub traces: &'a [Trace],
    pub proofs: &'a [TraceProof],
    pub ghost lawful: { All IsLawfulTrace traces.now },
    pub ghost same: { length proofs.now ≡ length traces.now },
    pub ghost few: { length traces.now ≤ 32_768 },
    pub ghost numbered: { first + length traces.now < 2 ^ 64 },
}
