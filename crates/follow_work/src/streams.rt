//! `streams NET TRACES`. Serves the program; decided by `streams_plan`.
ghost use Rattle.std.specs.Prelude.{◌≡◌, ◌++◌, [], true, List as ListOf, Ok, IfOk, OnOk};
ghost use Rattle.bounded_table.specs.Rows.{AreRowsOf};
ghost use Rattle.cost_model.specs.Options.{IsAccepted};
ghost use Rattle.program_frame.specs.Performs.{Performs};
ghost use Rattle.program_frame.specs.Stream.{works_traces};
ghost use Rattle.trace_sessions.specs.Sessions.{RepresentsPairs, Pair};
ghost use Rattle.trace_sessions.specs.StreamText.{points_in};
ghost use Rattle.trace_sessions.specs.Streaming.{AsksStream, Streams};
ghost use Rattle.follow_work.specs.Streams.{streams_job, streams_plan, streams_within, too_long_line};
ghost use Rattle.follow_work.specs.inside.StreamsDone.{CanTakeFragments, HasStreamed};

use crate::drive_job::DriveJob;
use crate::rows::open_rows;
use command_line::StreamFiles;
use decimal_text::write_unsigned;
use edge_io::{Shelf, Sink};
use plain_list::List;
use program_frame::{
    FaultLine, Job, Refusal, Request, Stop, Tally, load_network, refuse_fault, work_traces,
};
use row_search::NearRows;
use std::alloc::{AllocError, Global};
use trace_match::Matcher;
use trace_reader::Trace;
use trace_sessions::{SessionFault, Sessions};

// Passes the positions of fragments to sessions with own rows, and counts them. The traces of the tally are the
// fragments.
#[derive(Drop)]
struct StreamJob<'m> {
    matcher: &'m Matcher<'m>,
    sessions: Sessions<'m>,
    rows: NearRows<'m>,
    tally: Tally,
}

// Takes the positions of fragments, appends their lines, and returns how many pieces they closed.
fn stream_fragments(
    sessions: &mut Sessions,
    rows: &mut NearRows,
    traces: &[Trace],
    into: &mut List<u8>,
) -> Result<u64, SessionFault>
    requires accepted { IsAccepted sessions.old.params }
    requires rows { AreRowsOf rows.old sessions.old.network sessions.old.params.bound }
    requires fragments { CanTakeFragments sessions.old traces.now }
    ensures streams { (pairs : ListOf Pair) → RepresentsPairs sessions.old pairs
        → Streams sessions.old pairs (points_in traces.now) sessions.new into.old into.new result }
    ensures asks { AsksStream sessions.old (points_in traces.now) rows.old result rows.new }
{
    let mut pieces = 0;
    for trace in traces {
        let count = sessions.stream(trace, rows, into)?;
        pieces += count;
    }
    Ok(pieces)
}

// Appends the line of a refusal.
fn append_too_long(id: u32, into: &mut List<u8>) -> Result<(), AllocError>
    ensures { OnOk result (into.new ≡ into.old ++ too_long_line id) }
{
    into.extend_from_slice(b"traces id ")?;
    write_unsigned(u64::from(id), into)?;
    into.extend_from_slice(b": trace too long\n")
}

// A fault of the sessions. It has a line if a trace is too long.
#[derive(Clone, Copy)]
struct StreamFault(SessionFault);

impl FaultLine for StreamFault {
    ghost use Rattle.follow_work.specs.inside.StreamsDone.{session_fault_line, has_session_fault_line};

    ghost has_line = { λ fault. has_session_fault_line fault.0 };

    ghost line = { λ fault. session_fault_line fault.0 };

    fn append_line(&self, _alloc: Global, into: &mut List<u8>) -> Result<(), AllocError> {
        match self.0 {
            SessionFault::TooLong(id) => append_too_long(id, into),
            SessionFault::NotOpen(_) | SessionFault::Memory => Err(AllocError),
        }
    }
}

impl<'m> StreamJob<'m> {
    fn open(alloc: Global, matcher: &'m Matcher<'m>) -> Result<Self, AllocError>
        requires { IsAccepted matcher.now.params }
        ensures matcher { IfOk result (λ job. job.matcher.now ≡ matcher.now) }
        ensures begun { IfOk result
            (λ job. HasStreamed job.matcher.now job.sessions job.rows job.tally []) }
    {
        let rows = open_rows(alloc, matcher)?;
        let sessions = Sessions::open(alloc, matcher.network(), matcher.grid(), matcher.params());
        Ok(StreamJob {
            matcher,
            sessions,
            rows,
            tally: Tally::NONE,
        })
    }
}

impl<'m> Job for StreamJob<'m> {
    ghost text = { λ job. streams_job job.matcher.now };

    ghost has = { λ job traces. HasStreamed job.matcher.now job.sessions job.rows job.tally traces };

    ghost each_read = { true };

    // The lines of a position are written as soon as the row after it was read.
    fn puts_each_read(&self) -> bool {
        true
    }

    fn take(&mut self, alloc: Global, traces: &[Trace], into: &mut List<u8>) -> Result<(), Stop> {
        match stream_fragments(&mut self.sessions, &mut self.rows, traces, into) {
            Ok(pieces) => {
                self.tally.add(traces, pieces);
                Ok(())
            }
            Err(fault) => Err(refuse_fault(alloc, Refusal::Traces, &StreamFault(fault))),
        }
    }

    fn finish(&mut self, _alloc: Global, into: &mut List<u8>) -> Result<(), AllocError> {
        let ids = self.sessions.count();
        let pieces = self.sessions.close_all(&mut self.rows, into)?;
        self.rows.invariants();
        let tally = Tally {
            traces: ids,
            points: self.tally.points,
            pieces: self.tally.pieces + pieces,
        };
        tally.append_line(u64::from(self.rows.count()), into)
    }
}

// Reads the traces, whose positions it takes in order.
fn work_streams<S: Shelf, K: Sink>(
    alloc: Global,
    matcher: &Matcher<'_>,
    files: &StreamFiles<'_>,
    shelf: &mut S,
    out: &mut K,
) -> Result<(), Stop>
    requires { IsAccepted matcher.now.params }
    ensures { Performs
        (Ok (works_traces files.now.traces.now (streams_within matcher.now files.now.idle)))
        (S.state shelf.old) (S.state shelf.new) (K.state out.old) (K.state out.new) result }
{
    if files.idle < u32::MAX {
        let job = DriveJob::open(alloc, matcher, files.idle)?;
        work_traces(alloc, job, shelf, files.traces, out)
    } else {
        let job = StreamJob::open(alloc, matcher)?;
        work_traces(alloc, job, shelf, files.traces, out)
    }
}

/// Reads the network, and then the traces, whose positions it takes in order. A drive ends once a position is
/// more than `idle` seconds newer than the drive's newest one; at the greatest number none ends before the
/// file does.
pub fn stream_traces<S: Shelf, K: Sink>(
    alloc: Global,
    request: &Request<StreamFiles<'_>>,
    shelf: &mut S,
    out: &mut K,
) -> Result<(), Stop>
    requires { IsAccepted request.now.options }
    ensures { Performs (Ok (streams_plan request.now.limits request.now.files.network.now
        request.now.files.traces.now request.now.files.idle request.now.options))
        (S.state shelf.old) (S.state shelf.new) (K.state out.old) (K.state out.new) result }
{
    let roads = load_network(alloc, shelf, request.files.network, request.limits)?;
    let matcher = Matcher::open(alloc, &roads, request.options)?;
    work_streams(alloc, &matcher, &request.files, shelf, out)
}
