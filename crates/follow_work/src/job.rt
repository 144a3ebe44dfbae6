//! The job of `follow`. Serves the programs that follow traces; decided by `follow_job`.
ghost use Rattle.std.specs.Prelude.{◌≡◌, ◌++◌, [], false, true, IfOk, OnErr, OnOk};
ghost use Rattle.bounded_table.specs.Rows.{AreRowsOf, AsksFor};
ghost use Rattle.cost_model.specs.Options.{IsAccepted};
ghost use Rattle.trace_match.specs.inside.Asked.{AsksTraces};
ghost use Rattle.program_frame.specs.inside.Tallies.{IsCountOfPieces};
ghost use Rattle.program_frame.specs.Jobs.{IsBounded};
ghost use Rattle.trace_match.specs.Match.{asks};
ghost use Rattle.trace_reader.specs.Trace.{IsLawfulTrace};
ghost use Rattle.trace_sessions.specs.Following.{IsFollowed};
ghost use Rattle.follow_work.specs.Follow.{follow_job, followed_of};
ghost use Rattle.follow_work.specs.inside.FollowDone.{HasFollowed};
ghost use Rattle.trace_match.specs.Totals.{piece_count};

use crate::rows::open_rows;
use cost_model::Params;
use plain_list::List;
use program_frame::{Job, Stop, Tally};
use road_network::Network;
use row_search::NearRows;
use std::alloc::{AllocError, Global};
use trace_match::Matcher;
use trace_reader::Trace;
use trace_sessions::{Basis, follow_trace};

/// Follows traces with own rows, one after the other, and counts them.
pub struct FollowJob<'n> {
    matcher: Matcher<'n>,
    rows: NearRows<'n>,
    tally: Tally,
}

// By hand, so that the functions that drop one call this.
impl<'n> Drop for FollowJob<'n> {
    fn drop(self) {
        let FollowJob {
            matcher: _,
            rows: _,
            tally: _,
        } = self;
    }
}

// Appends the follow text of a trace, and returns the number of pieces of its match. On `Err`, `into` is
// unchanged.
fn follow_one<'n>(
    alloc: Global,
    matcher: &Matcher<'n>,
    rows: &mut NearRows<'n>,
    trace: &Trace,
    into: &mut List<u8>,
) -> Result<u64, AllocError>
    requires rows { AreRowsOf rows.old matcher.now.network matcher.now.params.bound }
    requires trace { IsLawfulTrace trace.now }
    ensures followed { IfOk result
        (IsFollowed matcher.now.network matcher.now.params trace.now into.old into.new) }
    ensures err { OnErr result (into.new ≡ into.old) }
    ensures asks { AsksFor rows.old
        (λ v. asks matcher.now.network matcher.now.params trace.now v ≡ true) result rows.new }
{
    let on = Basis {
        net: matcher.network(),
        grid: matcher.grid(),
        params: matcher.params(),
    };
    follow_trace(alloc, &on, rows, trace, into)
}

// Follows traces, appends their texts, and returns the number of pieces of their matches.
fn write_followed<'n>(
    alloc: Global,
    matcher: &Matcher<'n>,
    rows: &mut NearRows<'n>,
    traces: &[Trace],
    into: &mut List<u8>,
) -> Result<u64, AllocError>
    requires rows { AreRowsOf rows.old matcher.now.network matcher.now.params.bound }
    requires traces { IsBounded traces.now }
    ensures text { OnOk result (into.new ≡ into.old ++ followed_of matcher.now traces.now) }
    ensures pieces { IfOk result (IsCountOfPieces (piece_count matcher.now) traces.now) }
    ensures asks { OnOk result (AsksTraces matcher.now traces.now rows.old rows.new) }
{
    let mut pieces = 0;
    for trace in traces {
        let count = follow_one(alloc, matcher, rows, trace, into)?;
        pieces += count;
    }
    Ok(pieces)
}

impl<'n> FollowJob<'n> {
    /// A job that has followed no trace yet.
    pub fn open(alloc: Global, roads: &'n Network, options: Params) -> Result<Self, AllocError>
        requires { IsAccepted options }
        ensures text { IfOk result (λ job. ⟦<FollowJob<'n> as Job>⟧.text job
            ≡ follow_job (record { network = roads.now; params = options })) }
        ensures begun { IfOk result (λ job. ⟦<FollowJob<'n> as Job>⟧.has job []) }
    {
        let matcher = Matcher::open(alloc, roads, options)?;
        let rows = open_rows(alloc, &matcher)?;
        Ok(FollowJob {
            matcher,
            rows,
            tally: Tally::NONE,
        })
    }
}

impl<'n> Job for FollowJob<'n> {
    ghost text = { λ job. follow_job job.matcher };

    ghost has = { λ job traces. HasFollowed job.matcher job.rows job.tally traces };

    ghost each_read = { false };

    fn puts_each_read(&self) -> bool {
        false
    }

    fn take(&mut self, alloc: Global, traces: &[Trace], into: &mut List<u8>) -> Result<(), Stop> {
        let pieces = write_followed(alloc, &self.matcher, &mut self.rows, traces, into)?;
        self.tally.add(traces, pieces);
        Ok(())
    }

    fn finish(&mut self, _alloc: Global, into: &mut List<u8>) -> Result<(), AllocError> {
        self.rows.invariants();
        self.tally.append_line(u64::from(self.rows.count()), into)
    }
}
