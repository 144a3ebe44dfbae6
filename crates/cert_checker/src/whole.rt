//! The verdict on a certificate. Decided by `verdict`.
ghost use Rattle.std.specs.Prelude.{◌≡◌, ◌≤◌, All, IfOk, None};
ghost use Rattle.cost_model.specs.Options.{IsAccepted};
ghost use Rattle.trace_reader.specs.Trace.{IsLawfulTrace};
ghost use Rattle.cert_checker.specs.Rows.{first_bad_row};
ghost use Rattle.cert_checker.specs.Verdicts.{case_of, trace_verdict};
ghost use Rattle.cert_checker.specs.Whole.{apart_from, finding, verdict};

use crate::batch_check::{first_refused, verdicts};
use crate::batches::batches;
use crate::checked_rows::bad_row;
use crate::ground::Ground;
use crate::placed_rows::PlacedRows;
use crate::plain_layers::plain_layers;
use crate::subject::Subject;
use crate::trace_case::TraceCase;
use crate::trace_check::trace_verdict;
use crate::verdict::{Condition, Finding, Verdict};
use bounded_table::Row;
use candidate_search::EdgeScan;
use cost_model::Params;
use potential_certificate::{Certificate, TraceProof};
use road_network::Network;
use std::alloc::{AllocError, Global};
use std::thread;
use std::thread::Threads;
use trace_reader::Trace;

/// Whether a proof proves the match of a trace: the first failing condition, position by position. Ids are not
/// compared. `number` is the trace's number in the verdict.
///
/// The rows are right: [`check_rows`](crate::check_rows) returns `None` for them, with the bound of `p`. The call
/// costs a plain search for the candidates of the trace, and at each position one lookup in the rows for each pair
/// of candidates of neighbouring positions.
pub fn check_trace(
    alloc: Global,
    net: &Network,
    p: &Params,
    rows: &[Row],
    number: u64,
    trace: &Trace,
    proof: &TraceProof,
) -> Result<Verdict, AllocError>
    requires options { IsAccepted p.now }
    requires trace { IsLawfulTrace trace.now }
    requires rows { first_bad_row net.now p.now.bound rows.now ≡ None }
    ensures { IfOk result (λ v. v
        ≡ trace_verdict number (case_of net.now p.now rows.now trace.now proof.now)) }
{
    let scan = EdgeScan::open(alloc, net)?;
    let placed = PlacedRows::of(alloc, net, rows)?;
    let ground = Ground {
        net,
        scan: &scan,
        params: p,
        rows: &placed,
    };
    verdict_on(alloc, &ground, number, trace, proof)
}

/// The verdict on a trace with its proof.
fn verdict_on(
    alloc: Global,
    ground: &Ground,
    number: u64,
    trace: &Trace,
    proof: &TraceProof,
) -> Result<Verdict, AllocError>
    requires { IsLawfulTrace trace.now }
    ensures { IfOk result (λ v. v ≡ trace_verdict number (case_of ground.now.net.now
        ground.now.params.now ground.now.rows.now trace.now proof.now)) }
{
    let layers = plain_layers(alloc, ground, trace.fixes.as_slice())?;
    let case = TraceCase {
        net: ground.net,
        params: ground.params,
        rows: ground.rows,
        layers: layers.as_slice(),
        proof,
    };
    trace_verdict(alloc, &case, number)
}

/// The first index at which a proof or a trace is missing or their ids differ.
fn first_apart(traces: &[Trace], proofs: &[TraceProof]) -> Option<u64>
    ensures { result ≡ apart_from 0 traces.now proofs.now }
{
    let both = traces.len().min(proofs.len());
    for place in 0..both {
        if proofs[place].id != traces[place].id {
            return Some(place as u64);
        }
    }
    if traces.len() == proofs.len() {
        None
    } else {
        Some(both as u64)
    }
}

/// The number of the first bad row, and the scan of all edges, which is made while the rows are checked.
fn try_rows<'n, R: Threads + Sync>(
    rt: &R,
    alloc: Global,
    net: &'n Network,
    bound: u32,
    rows: &[Row],
) -> Result<(Option<u64>, EdgeScan<'n>), AllocError>
    requires { bound ≤ 10_000_000 }
    ensures { IfOk result (λ tried. tried ≡ (first_bad_row net.now bound rows.now, net.now)) }
{
    let (bad, scan) = thread::join(
        rt,
        move || -> Result<Option<u64>, AllocError>
            requires { bound ≤ 10_000_000 }
            ensures { IfOk result (λ bad. bad ≡ first_bad_row net.entry.now bound rows.entry.now) }
        { bad_row(rt, alloc, net, bound, rows) },
        move || -> Result<EdgeScan<'_>, AllocError>
            ensures { IfOk result (λ scan. scan ≡ net.entry.now) }
        { EdgeScan::open(alloc, net) },
    );
    Ok((bad?, scan?))
}

/// What is found of a certificate: its first bad row, or the verdict on it.
pub fn check_certificate<R: Threads + Sync>(
    rt: &R,
    alloc: Global,
    subject: &Subject,
    c: &Certificate,
) -> Result<Finding, AllocError>
    requires options { IsAccepted subject.now.params.now }
    requires traces { All IsLawfulTrace subject.now.traces.now }
    ensures { IfOk result (λ found. found
        ≡ finding subject.now.net.now subject.now.params.now subject.now.traces.now c.now) }
{
    let Subject {
        net,
        params,
        traces,
    } = *subject;
    let (bad, scan) = try_rows(rt, alloc, net, params.bound, c.rows.as_slice())?;
    if let Some(place) = bad {
        return Ok(Finding::BadRow(place));
    }
    if let Some(place) = first_apart(traces, c.proofs.as_slice()) {
        return Ok(Finding::Judged(Verdict::Refused {
            condition: Condition::Trace,
            trace: 0,
            place,
        }));
    }
    let placed = PlacedRows::of(alloc, net, c.rows.as_slice())?;
    let ground = Ground {
        net,
        scan: &scan,
        params,
        rows: &placed,
    };
    let batches = batches(alloc, traces, c.proofs.as_slice())?;
    let answers = verdicts(rt, alloc, &ground, batches.as_slice())?;
    let verdict = first_refused(answers.as_slice())?;
    Ok(Finding::Judged(verdict))
}

/// Whether a certificate proves the match of these traces: the first failing condition overall,
/// of its rows, of the ids of its proofs, and of each trace in order.
pub fn check_all<R: Threads + Sync>(
    rt: &R,
    alloc: Global,
    net: &Network,
    p: &Params,
    traces: &[Trace],
    c: &Certificate,
) -> Result<Verdict, AllocError>
    requires options { IsAccepted p.now }
    requires traces { All IsLawfulTrace traces.now }
    ensures { IfOk result (λ v. v ≡ verdict net.now p.now traces.now c.now) }
{
    let subject = Subject {
        net,
        params: p,
        traces,
    };
    let found = check_certificate(rt, alloc, &subject, c)?;
    match found {
        Finding::BadRow(place) => Ok(Verdict::Refused {
            condition: Condition::Row,
            trace: 0,
            place,
        }),
        Finding::Judged(verdict) => Ok(verdict),
    }
}
