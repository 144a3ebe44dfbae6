//! `match NET TRACES`. Serves the programs; decided by `match_plan`.
ghost use Rattle.std.specs.Prelude.{◌≡◌, ◌≤◌, ◌^◌, ◌++◌, [], false, All, Ok, IfOk, OnOk};
ghost use Rattle.cost_model.specs.Options.{IsAccepted};
ghost use Rattle.match_pool.specs.Learning.{AreReadersFor};
ghost use Rattle.match_pool.specs.Working.{AreJobTraces};
ghost use Rattle.match_text.specs.MatchText.{IsLawful};
ghost use Rattle.program_frame.specs.Performs.{Performs};
ghost use Rattle.program_frame.specs.Stream.{works_traces};
ghost use Rattle.match_work.specs.Matched.{pieces_in};
ghost use Rattle.match_work.specs.inside.Calls.{text_of_matches, MatchesBatches, WritesMatches};
ghost use Rattle.match_work.specs.Sharing.{IsStoreFor, MatchesBatch};
ghost use Rattle.match_work.specs.Matches.{match_plan, match_text};
ghost use Rattle.match_work.specs.inside.MatchesDone.{HasMatched};

use crate::batches::{Shared, match_batch, open_near_store, open_readers};
use crate::env::Env;
use crate::texts::write_in_threads;
use command_line::MatchFiles;
use edge_io::{Shelf, Sink};
use match_pool::Gate;
use match_text::MatchedTrace;
use plain_list::List;
use program_frame::{Job, Request, Stop, Tally, load_network, work_traces};
use row_store::{Reader, known_count};
use std::alloc::{AllocError, Global};
use std::thread::Threads;
use trace_match::Matcher;
use trace_reader::Trace;

// Matches traces batch by batch, and counts them. The readers belong to the workers, over all
// batches.
#[derive(Drop)]
struct MatchJob<'s, F, W> {
    matcher: &'s Matcher<'s>,
    readers: List<Reader<'s>>,
    match_batch: F,
    write: W,
    tally: Tally,
}

// The matches of a batch by this call, which is a call of `match_batch` with this matcher.
fn match_by<'s, F>(
    call: &F,
    _matcher: &Matcher<'_>,
    first: u64,
    traces: &[Trace],
    readers: &mut List<Reader<'s>>,
) -> Result<List<MatchedTrace>, AllocError>
where
    F: Fn(u64, &[Trace], &mut List<Reader<'s>>) -> Result<List<MatchedTrace>, AllocError>,
    requires call { MatchesBatches F.Fn _matcher.now call.now }
    requires traces { AreJobTraces first traces.now }
    requires readers { AreReadersFor _matcher.now.network _matcher.now.params readers.old }
    ensures { MatchesBatch _matcher.now traces.now readers.old result readers.new }
{
    call(first, traces, readers)
}

// The text of matches by this call, which is a call of `write_in_threads`.
fn write_by<W>(call: &W, matches: &[MatchedTrace], into: &mut List<u8>) -> Result<u64, AllocError>
where
    W: Fn(&[MatchedTrace], &mut List<u8>) -> Result<u64, AllocError>,
    requires call { WritesMatches W.Fn call.now }
    requires lawful { All IsLawful matches.now }
    requires few { pieces_in matches.now ≤ 2 ^ 62 }
    ensures text { OnOk result (into.new ≡ into.old ++ text_of_matches matches.now) }
    ensures pieces { IfOk result (λ pieces. pieces ≡ pieces_in matches.now) }
{
    call(matches, into)
}

impl<'s, F, W> Job for MatchJob<'s, F, W>
where
    F: Fn(u64, &[Trace], &mut List<Reader<'s>>) -> Result<List<MatchedTrace>, AllocError>,
    W: Fn(&[MatchedTrace], &mut List<u8>) -> Result<u64, AllocError>,
{
    ghost text = { λ job. match_text job.matcher.now };

    ghost has = { λ job traces. HasMatched job.matcher.now job.readers job.tally traces
        × MatchesBatches F.Fn job.matcher.now job.match_batch × WritesMatches W.Fn job.write };

    ghost each_read = { false };

    fn puts_each_read(&self) -> bool {
        false
    }

    fn take(&mut self, alloc: Global, traces: &[Trace], into: &mut List<u8>) -> Result<(), Stop> {
        let first = self.tally.traces;
        let call = &self.match_batch;
        let matches = match_by(call, self.matcher, first, traces, &mut self.readers)?;
        let pieces = write_by(&self.write, matches.as_slice(), into)?;
        self.tally.add(traces, pieces);
        Ok(())
    }

    fn finish(&mut self, alloc: Global, into: &mut List<u8>) -> Result<(), AllocError> {
        let rows = known_count(alloc, self.readers.as_slice())?;
        self.tally.append_line(u64::from(rows), into)
    }
}

/// Matches the traces of a file by workers over one store, and writes their texts and the total line.
pub fn match_file<'s, R: Threads + Sync, G: Gate, S: Shelf, K: Sink>(
    env: &Env<'_, R, G>,
    shared: &Shared<'s>,
    traces: &str,
    shelf: &mut S,
    out: &mut K,
) -> Result<(), Stop>
    requires { IsStoreFor shared.now.matcher.now shared.now.store.now }
    ensures { Performs (Ok (works_traces traces.now (match_text shared.now.matcher.now)))
        (S.state shelf.old) (S.state shelf.new) (K.state out.old) (K.state out.new) result }
{
    let matcher = shared.matcher;
    let readers = open_readers(env.alloc, matcher, shared.store)?;
    let match_batch = |first: u64, batch: &[Trace], readers: &mut List<Reader<'_>>|
        requires { AreJobTraces first batch.now
            × AreReadersFor matcher.now.network matcher.now.params readers.now }
        ensures { MatchesBatch matcher.entry.now batch.now readers.entry.now result
            readers.exit.now }
    { match_batch(env, matcher, first, batch, readers) };
    let workers = matcher.params().workers;
    let write = |matches: &[MatchedTrace], into: &mut List<u8>|
        requires { All IsLawful matches.now × (pieces_in matches.now ≤ 2 ^ 62) }
        ensures text { OnOk result (into.exit.now ≡ into.entry.now ++ text_of_matches matches.now) }
        ensures pieces { IfOk result (λ pieces. pieces ≡ pieces_in matches.now) }
    { write_in_threads(env.rt, env.alloc, workers, matches, into) };
    let job = MatchJob {
        matcher,
        readers,
        match_batch,
        write,
        tally: Tally::NONE,
    };
    work_traces(env.alloc, job, shelf, traces, out)
}

/// Reads the network, and then the traces, which it matches batch by batch. A table file is not read.
pub fn match_traces<R: Threads + Sync, G: Gate, S: Shelf, K: Sink>(
    env: &Env<'_, R, G>,
    request: &Request<MatchFiles<'_>>,
    shelf: &mut S,
    out: &mut K,
) -> Result<(), Stop>
    requires { IsAccepted request.now.options }
    ensures { Performs (Ok (match_plan request.now.limits request.now.files.network.now
        request.now.files.traces.now request.now.options))
        (S.state shelf.old) (S.state shelf.new) (K.state out.old) (K.state out.new) result }
{
    let roads = load_network(env.alloc, shelf, request.files.network, request.limits)?;
    let matcher = Matcher::open(env.alloc, &roads, request.options)?;
    let store = open_near_store(env.alloc, &matcher)?;
    let shared = Shared {
        matcher: &matcher,
        store: &store,
    };
    match_file(env, &shared, request.files.traces, shelf, out)
}
