//! The matcher: takes traces from the relay and writes their text. Serves `live_traces`; decided by `HasMatchedParts`.
ghost use Rattle.std.specs.Prelude.{◌≡◌, ◌∷◌, []};
ghost use Rattle.program_frame.specs.inside.BatchSteps.{WritesWaiting};
ghost use Rattle.program_frame.specs.Jobs.{CanTake};
ghost use Rattle.live_pipeline.specs.Matching.{HasTakenAll, IsFresh, NeverRefuses, StaysStopped};
ghost use Rattle.live_pipeline.specs.inside.MatchingSteps.{MayTake, WritesNext};

use crate::part::Part;
use crate::relay::{Relay, TakePass};
use edge_io::Sink;
use plain_list::List;
use program_frame::{Job, Stop, put_text};
use std::alloc::Global;
use std::sync::Wait;
use trace_reader::Trace;

// Passes a trace to the job, and writes its text.
fn write_trace<J: Job, K: Sink>(
    alloc: Global,
    job: &mut J,
    trace: Trace,
    out: &mut K,
) -> Result<(), Stop>
    requires calm { NeverRefuses (J.text job.old) }
    requires may { CanTake (J.has job.old) (trace ∷ []) }
    ensures text { J.text job.new ≡ J.text job.old }
    ensures writes { WritesWaiting (J.text job.old) (J.has job.old) (J.has job.new)
        (K.state out.old) (K.state out.new) (trace ∷ []) [] result }
{
    let mut text = List::new(alloc);
    let traces = [trace];
    job.take(alloc, &traces, &mut text)?;
    put_text(out, text.as_slice())
}

// Passes a trace to the job and writes its text, if nothing has stopped yet.
fn write_next<J: Job, K: Sink>(
    alloc: Global,
    ended: Result<(), Stop>,
    job: &mut J,
    trace: Trace,
    out: &mut K,
) -> Result<(), Stop>
    requires calm { NeverRefuses (J.text job.old) }
    requires may { MayTake (J.has job.old) ended (trace ∷ []) }
    ensures quiet { StaysStopped (K.state out.old) (K.state out.new) ended result }
    ensures text { J.text job.new ≡ J.text job.old }
    ensures writes { WritesNext (J.text job.old) (J.has job.old) (J.has job.new)
        (K.state out.old) (K.state out.new) trace ended result }
{
    match ended {
        Ok(()) => write_trace(alloc, job, trace, out),
        Err(stop) => Err(stop),
    }
}

/// Takes traces and writes their text, one by one, until a last part comes. Once the job or a put has
/// stopped, it continues to take, and drops what it takes.
pub fn match_parts<R: Wait, J: Job, K: Sink>(
    rt: &R,
    relay: &Relay,
    job: &mut J,
    pass: &mut TakePass,
    out: &mut K,
) -> (Part, Result<(), Stop>)
    requires own { pass.old.relay ≡ relay.now.name }
    requires first { pass.old.parts ≡ [] }
    requires fresh { IsFresh (J.text job.old) (J.has job.old) }
    ensures { HasTakenAll (J.text job.old) (J.text job.new) (J.has job.new)
        (K.state out.old) (K.state out.new) pass.old pass.new result.0 result.1 }
{
    let alloc = relay.alloc();
    let mut ended = Ok(());
    for _ in rt.forever() {
        match relay.take(rt, pass) {
            Part::Trace(trace) => ended = write_next(alloc, ended, job, trace, out),
            last => return (last, ended),
        }
    }
    unreachable!()
}
