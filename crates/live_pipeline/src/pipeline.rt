//! Reader and matcher, in two threads or in turn. Serves the programs; decided by `works_traces`.
ghost use Rattle.std.specs.Prelude.{◌≡◌, Ok, string_bytes};
ghost use Rattle.program_frame.specs.Stream.{works_traces};
ghost use Rattle.live_pipeline.specs.Order.{no_parts};
ghost use Rattle.live_pipeline.specs.Living.{LivePerforms};
ghost use Rattle.live_pipeline.specs.Matching.{IsFresh};
ghost use Rattle.live_pipeline.specs.inside.MatchingSteps.{MatchesBeside};
ghost use Rattle.live_pipeline.specs.inside.Feeding.{KeepsPromise};

use crate::closing::close_whole;
use crate::ending::end_traces;
use crate::matcher::match_parts;
use crate::part::Part;
use crate::read_done::{ReadDone, ReadPromise, Reading, TraceFile};
use crate::reader::read_unless;
use crate::relay::{Relay, TakePass};
use edge_io::{Shelf, Sink};
use program_frame::{Job, Stop, work_traces};
use std::alloc::Global;
use std::snapshot::Snapshot;
use std::sync::Wait;
use std::sync::atomic::{AtomicBool, Ordering};
use std::thread;
use std::thread::Threads;

// The most messages that wait between reader and matcher. Speed only: any value is right.
const CAPACITY: u32 = 64;

// What a matcher is given.
#[derive(Drop)]
struct Matching<J> {
    job: J,
    pass: TakePass,
}

// The last part that a matcher took and how its work ended, if a reader was started.
type Matched = Option<(Part, Result<(), Stop>)>;

// Starts the reader in a second thread if one is available, and joins it.
fn run_both<R: Threads + Wait + Sync, J: Job + Drop, S: Shelf + Send + Drop, K: Sink>(
    rt: &R,
    relay: &Relay,
    reading: Reading<'_, S>,
    matching: Matching<J>,
    out: &mut K,
) -> (ReadDone<S>, Matching<J>, Matched)
    requires unused { (reading.pass ≡ no_parts relay.now.name)
        × (matching.pass ≡ no_parts relay.now.name) }
    requires fresh { IsFresh (J.text matching.job) (J.has matching.job) }
    ensures done { KeepsPromise S.state (string_bytes reading.entry.file.name.now) reading.entry.file.shelf
        reading.entry.pass result.0 }
    ensures matched { MatchesBeside J.text J.has matching.job result.1.job
        (K.state out.old) (K.state out.new) matching.pass result.1.pass result.2 }
{
    let refused = AtomicBool::new(false);
    let flag = &refused;
    let (done, left, matched, _out) = thread::scope(
        thread::scope_env(),
        rt,
        move |scope| -> (ReadDone<S>, Matching<J>, Matched, &mut K)
            requires unused { (reading.pass ≡ no_parts relay.now.name)
                × (matching.pass ≡ no_parts relay.now.name) }
            requires fresh { IsFresh (J.text matching.job) (J.has matching.job) }
            ensures done { KeepsPromise S.state (string_bytes reading.entry.file.name.now)
                reading.entry.file.shelf reading.entry.pass result.0 }
            ensures matched { MatchesBeside J.text J.has matching.job result.1.job
                (K.state out.entry.now) (K.state result.3.now) matching.pass result.1.pass result.2 }
            ensures lent { result.3.ghost_name ≡ out.entry.ghost_name }
        {
            let promise = ReadPromise {
                shelf: Snapshot::of(&reading.file.shelf),
                pass: Snapshot::of(&reading.pass),
                name: Snapshot::of(reading.file.name),
            };
            let reader = move || -> ReadDone<S>
                requires { reading.pass ≡ no_parts relay.now.name }
                ensures { KeepsPromise S.state (string_bytes reading.entry.file.name.now)
                    reading.entry.file.shelf reading.entry.pass result }
            { read_unless(rt, relay, reading, flag.load(Ordering::SeqCst)) };
            match scope.spawn_with(promise, reader) {
                Ok(handle) => {
                    let Matching { mut job, mut pass } = matching;
                    let last = match_parts(rt, relay, &mut job, &mut pass, &mut *out);
                    (handle.join(rt), Matching { job, pass }, Some(last), out)
                }
                Err(refusal) => {
                    flag.store(true, Ordering::SeqCst);
                    ((refusal.value)(), matching, None, out)
                }
            }
        },
    );
    (done, left, matched)
}

/// Passes the traces of a file to a job and writes their text, as `work_traces` does, while another
/// thread reads. Each trace is written as soon as it is read and matched. Without a second thread or
/// memory for a relay this is not an error: the traces are then read and matched in turn, or the run is
/// out of memory.
pub fn live_traces<R: Threads + Wait + Sync, J: Job + Drop, S: Shelf + Send + Drop, K: Sink>(
    rt: &R,
    alloc: Global,
    job: J,
    file: TraceFile<'_, S>,
    out: &mut K,
) -> (Result<(), Stop>, S)
    requires { IsFresh (J.text job) (J.has job) }
    ensures { LivePerforms (Ok (works_traces (string_bytes file.entry.name.now) (J.text job)))
        (S.state file.entry.shelf) (S.state result.1) (K.state out.old) (K.state out.new) result.0 }
{
    let name = file.name;
    let Ok((relay, put, take)) = Relay::open(alloc, CAPACITY) else {
        return (Err(Stop::NoMemory), file.shelf);
    };
    let reading = Reading { file, pass: put };
    let matching = Matching { job, pass: take };
    let (done, left, matched) = run_both(rt, &relay, reading, matching, &mut *out);
    let Matching {
        mut job,
        pass: mut take,
    } = left;
    match (matched, done) {
        (Some((last, ended)), ReadDone::Read { shelf, pass }) => {
            close_whole(relay, pass, take);
            (end_traces(alloc, &mut job, last, ended, out), shelf)
        }
        (Some(_), ReadDone::Unread { shelf: _, pass }) => {
            // What was taken was put, so something was put.
            close_whole(relay, pass, take);
            unreachable!()
        }
        (None, ReadDone::Read { shelf, pass }) => {
            let (last, ended) = match_parts(rt, &relay, &mut job, &mut take, &mut *out);
            close_whole(relay, pass, take);
            (end_traces(alloc, &mut job, last, ended, out), shelf)
        }
        (None, ReadDone::Unread { mut shelf, pass: _ }) => {
            let ended = work_traces(alloc, job, &mut shelf, name, out);
            (ended, shelf)
        }
    }
}
