//! The end of a run, after the last part. Serves `live_traces`; decided by `EndsTraces`.
ghost use Rattle.std.specs.Prelude.{Ok};
ghost use Rattle.live_pipeline.specs.Ending.{EndsTraces};
ghost use Rattle.live_pipeline.specs.Matching.{MayEnd, NeverRefuses, StaysStopped};
ghost use Rattle.live_pipeline.specs.inside.MatchingSteps.{EndsWithPart};

use crate::part::Part;
use edge_io::Sink;
use plain_list::List;
use program_frame::{File, Job, Refusal, Stop, put_text, refuse_fault};
use std::alloc::Global;

// The end for a last part, if nothing else has stopped the work.
fn end_with<J: Job, K: Sink>(
    alloc: Global,
    job: &mut J,
    last: Part,
    out: &mut K,
) -> Result<(), Stop>
    requires { MayEnd (J.has job.old) last (Ok tt) }
    ensures { EndsWithPart (J.text job.old) (J.has job.old) (K.state out.old) (K.state out.new)
        last result }
{
    match last {
        Part::End => {
            let mut text = List::new(alloc);
            job.finish(alloc, &mut text)?;
            put_text(out, text.as_slice())
        }
        Part::Fault(fault) => Err(refuse_fault(alloc, Refusal::Traces, &fault)),
        Part::ReadFailed => Err(Stop::Unread(File::Traces)),
        Part::NoMemory => Err(Stop::NoMemory),
        Part::Trace(_) => unreachable!(),
    }
}

/// Ends the work: a matcher that has stopped decides, and otherwise the last part.
pub fn end_traces<J: Job, K: Sink>(
    alloc: Global,
    job: &mut J,
    last: Part,
    ended: Result<(), Stop>,
    out: &mut K,
) -> Result<(), Stop>
    requires calm { NeverRefuses (J.text job.old) }
    requires may { MayEnd (J.has job.old) last ended }
    ensures first { StaysStopped (K.state out.old) (K.state out.new) ended result }
    ensures ends { EndsTraces (J.text job.old) (J.has job.old) (K.state out.old) (K.state out.new)
        last ended result }
{
    match ended {
        Ok(()) => end_with(alloc, job, last, out),
        Err(stop) => Err(stop),
    }
}
