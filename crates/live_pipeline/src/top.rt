//! The top call: the work of `follow` with a reader in a thread of its own, the error line, and the
//! status. Serves `main`; decided by `LivePromises`.
ghost use Rattle.std.specs.Prelude.{Ok};
ghost use Rattle.cost_model.specs.Options.{IsAccepted};
ghost use Rattle.follow_work.specs.Follow.{follow_plan};
ghost use Rattle.live_pipeline.specs.Living.{LivePerforms, LivePromises};
ghost use Rattle.live_pipeline.specs.Words.{asked_live_plan};
ghost use Rattle.program_frame.specs.Refusals.{refusal_lines};

use crate::pipeline::live_traces;
use crate::read_done::TraceFile;
use crate::words::follow_words;
use command_line::{TraceFiles, WordsFault, Work, read_command};
use edge_io::{Shelf, Sink};
use follow_work::FollowJob;
use program_frame::{Refusal, Request, Stop, load_network, refuse_fault, report};
use road_network::NetworkLimits;
use std::alloc::Global;
use std::sync::Wait;
use std::thread::Threads;

// Reads the network, and then the traces, which another thread reads while this one follows them.
fn follow_live<R: Threads + Wait + Sync, S: Shelf + Send + Drop, K: Sink>(
    rt: &R,
    alloc: Global,
    request: &Request<TraceFiles<'_>>,
    shelf: S,
    out: &mut K,
) -> (Result<(), Stop>, S)
    requires { IsAccepted request.now.options }
    ensures { LivePerforms (Ok (follow_plan request.now.limits request.now.files.network.now
        request.now.files.traces.now request.now.options))
        (S.state shelf) (S.state result.1) (K.state out.old) (K.state out.new) result.0 }
{
    let mut shelf = shelf;
    let files = request.files;
    let roads = match load_network(alloc, &mut shelf, files.network, request.limits) {
        Ok(roads) => roads,
        Err(stop) => return (Err(stop), shelf),
    };
    let Ok(name) = String::from_str(alloc, files.traces) else {
        return (Err(Stop::NoMemory), shelf);
    };
    let Ok(job) = FollowJob::open(alloc, &roads, request.options) else {
        return (Err(Stop::NoMemory), shelf);
    };
    let file = TraceFile { shelf, name: &name };
    live_traces(rt, alloc, job, file, out)
}

// The work of the words; leaves the error output alone.
fn perform<R: Threads + Wait + Sync, S: Shelf + Send + Drop, K: Sink>(
    rt: &R,
    alloc: Global,
    words: &[String],
    shelf: S,
    out: &mut K,
) -> (Result<(), Stop>, S)
    ensures { LivePerforms (asked_live_plan words.now)
        (S.state shelf) (S.state result.1) (K.state out.old) (K.state out.new) result.0 }
{
    let Ok(words) = follow_words(alloc, words) else {
        return (Err(Stop::NoMemory), shelf);
    };
    let command = match read_command(alloc, words.as_slice()) {
        Ok(command) => command,
        Err(fault) => return (Err(refuse_fault(alloc, Refusal::Words, &fault)), shelf),
    };
    match command.work {
        Work::Follow(files) => {
            let request = Request {
                files,
                limits: NetworkLimits::Standard,
                options: command.options,
            };
            follow_live(rt, alloc, &request, shelf, out)
        }
        _ => {
            let refused = refuse_fault(alloc, Refusal::Words, &WordsFault::Usage);
            (Err(refused), shelf)
        }
    }
}

/// Follows the traces of a file as `follow` does, while another thread reads them: each trace is written
/// as soon as it is read and matched. The words are those of `follow`, without its name. Returns the
/// status of `run`, and the shelf. It may wait, and its clause holds if it returns.
pub fn live<R: Threads + Wait + Sync, S: Shelf + Send + Drop, K: Sink, E: Sink>(
    rt: &R,
    alloc: Global,
    words: &[String],
    shelf: S,
    out: &mut K,
    err: &mut E,
) -> (u8, S)
    ensures { LivePromises refusal_lines (asked_live_plan words.now) (S.state shelf) (S.state result.1)
        (K.state out.old) (K.state out.new) (E.state err.old) (E.state err.new) result.0 }
{
    let (ended, shelf) = perform(rt, alloc, words, shelf, out);
    (report(&ended, err), shelf)
}
