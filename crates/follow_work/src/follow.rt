//! `follow NET TRACES`. Serves the program that reads files in turn; decided by `follow_plan`.
ghost use Rattle.std.specs.Prelude.{Ok};
ghost use Rattle.cost_model.specs.Options.{IsAccepted};
ghost use Rattle.follow_work.specs.Follow.{follow_plan};
ghost use Rattle.program_frame.specs.Performs.{Performs};

use crate::job::FollowJob;
use command_line::TraceFiles;
use edge_io::{Shelf, Sink};
use program_frame::{Request, Stop, load_network, work_traces};
use std::alloc::Global;

/// Reads the network, and then the traces, which it follows position by position.
pub fn follow_traces<S: Shelf, K: Sink>(
    alloc: Global,
    request: &Request<TraceFiles<'_>>,
    shelf: &mut S,
    out: &mut K,
) -> Result<(), Stop>
    requires { IsAccepted request.now.options }
    ensures { Performs (Ok (follow_plan request.now.limits request.now.files.network.now
        request.now.files.traces.now request.now.options))
        (S.state shelf.old) (S.state shelf.new) (K.state out.old) (K.state out.new) result }
{
    let roads = load_network(alloc, shelf, request.files.network, request.limits)?;
    let job = FollowJob::open(alloc, &roads, request.options)?;
    work_traces(alloc, job, shelf, request.files.traces, out)
}
