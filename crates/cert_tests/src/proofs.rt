//! Proofs of one trace that no text of a certificate has.
use crate::texts::WHOLE;
use bounded_table::Row;
use cert_checker::{Condition, Verdict, check_rows, check_trace};
use cost_model::Params;
use match_text::Routed;
use plain_list::List;
use potential_certificate::{Certificate, TraceProof, read_certificate};
use road_network::{Network, read_network};
use row_tests::lawful_traces::is_lawful;
use row_tests::small::TWO_EDGES;
use std::alloc::{AllocError, Global};
use trace_reader::{Fix, Trace};

/// What is changed in the proof of a certificate.
#[derive(Clone, Copy)]
enum Change {
    /// The id of the trace.
    Id,
    /// One more rank.
    Rank,
    /// One more piece, without a route, from one position to another.
    Piece(u32, u32),
}

/// A change, and the condition that then fails with its position.
#[derive(Clone, Copy)]
struct Case {
    shows: &'static str,
    change: Change,
    fails: Option<(Condition, u64)>,
}

const CASES: [Case; 5] = [
    Case {
        shows: "the id is no part of the proof of one trace",
        change: Change::Id,
        fails: None,
    },
    Case {
        shows: "a piece that ends before it begins",
        change: Change::Piece(1, 0),
        fails: Some((Condition::Break, 0)),
    },
    Case {
        shows: "a piece within another",
        change: Change::Piece(1, 1),
        fails: Some((Condition::Break, 0)),
    },
    Case {
        shows: "a piece after the last point",
        change: Change::Piece(2, 2),
        fails: Some((Condition::Break, 1)),
    },
    Case {
        shows: "more ranks than points",
        change: Change::Rank,
        fails: Some((Condition::Candidates, 1)),
    },
];

/// The number of the trace in a file.
const NUMBER: u64 = 3;

fn apply(alloc: Global, proof: &mut TraceProof, change: Change) -> Result<(), AllocError> {
    match change {
        Change::Id => proof.id = 8,
        Change::Rank => proof.ranks.push(None)?,
        Change::Piece(first, last) => proof.pieces.push(Routed {
            first,
            last,
            cost: 0,
            route: List::new(alloc),
        })?,
    }
    Ok(())
}

/// The proof of the certificate with a change, and the rows.
fn changed(alloc: Global, change: Change) -> Option<(TraceProof, List<Row>)> {
    let Certificate { mut proofs, rows } = read_certificate(alloc, &Params::DEFAULT, WHOLE).ok()?;
    let mut proof = proofs.pop()?;
    apply(alloc, &mut proof, change).ok()?;
    Some((proof, rows))
}

/// The trace of the certificate.
fn trace(alloc: Global) -> Result<Trace, AllocError> {
    let mut fixes = List::new(alloc);
    fixes.push(Fix {
        x: 1_000,
        y: 300,
        time: 0,
    })?;
    fixes.push(Fix {
        x: 9_000,
        y: -300,
        time: 0,
    })?;
    Ok(Trace { id: 7, fixes })
}

/// The verdict on a proof. None if the rows are wrong, or no file can have the trace.
fn verdict_on(
    alloc: Global,
    net: &Network,
    rows: &[Row],
    trace: &Trace,
    proof: &TraceProof,
) -> Option<Verdict> {
    let p = &Params::DEFAULT;
    if check_rows(net, p.bound, rows).is_some() || !is_lawful(trace) {
        return None;
    }
    check_trace(alloc, net, p, rows, NUMBER, trace, proof).ok()
}

/// Whether the verdict is the one of the case.
fn is_judged(alloc: Global, case: Case) -> Option<bool> {
    let (proof, rows) = changed(alloc, case.change)?;
    let net = read_network(alloc, TWO_EDGES).ok()?;
    let trace = trace(alloc).ok()?;
    let verdict = verdict_on(alloc, &net, rows.as_slice(), &trace, &proof)?;
    Some(match (verdict, case.fails) {
        (Verdict::Proved, None) => true,
        (
            Verdict::Refused {
                condition,
                trace: number,
                place,
            },
            Some(fails),
        ) => number == NUMBER && (condition, place) == fails,
        _ => false,
    })
}

#[test]
fn proofs_that_no_text_has(rt: HostRuntime) {
    for case in CASES {
        assert!(rt; is_judged(rt.alloc(), case) == Some(true), "{}", case.shows);
    }
}
