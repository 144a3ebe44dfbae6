//! The proofs of traces. Serves `prove`; decided by `certificate_of`.
ghost use Rattle.std.specs.Prelude.{◌≡◌, All, IfOk, OnOk, map, true};
ghost use Rattle.bounded_table.specs.Rows.{AreRowsOf, AsksFor, no_rows};
ghost use Rattle.trace_match.specs.inside.Asked.{AsksTraces};
ghost use Rattle.trace_match.specs.Match.{asks};
ghost use Rattle.trace_reader.specs.Trace.{IsLawfulTrace};
ghost use Rattle.prove_work.specs.Certificates.{certificate_of, proof_of};

use match_pool::match_one;
use plain_list::List;
use potential_certificate::{Certificate, TraceProof, certify};
use row_search::OwnRows;
use std::alloc::{AllocError, Global};
use trace_match::Matcher;
use trace_reader::Trace;

/// The certificate of the matches of traces: their proofs, and the rows of the nodes that they ask
/// for, by ascending number. All of them are in memory. `Err` means out of memory.
pub fn certify_traces(
    alloc: Global,
    matcher: &Matcher<'_>,
    traces: &[Trace],
) -> Result<Certificate, AllocError>
    requires { All IsLawfulTrace traces.now }
    ensures { IfOk result (λ certificate. certificate ≡ certificate_of matcher.now traces.now) }
{
    let mut rows = open_rows(alloc, matcher)?;
    let proofs = prove_all(alloc, matcher, &mut rows, traces)?;
    rows.invariants();
    let rows = rows.into_rows(alloc)?;
    Ok(Certificate { proofs, rows })
}

// Rows of the network within the bound of the options. No node is known.
fn open_rows<'n>(alloc: Global, matcher: &Matcher<'n>) -> Result<OwnRows<'n>, AllocError>
    ensures { IfOk result
        (λ rows. rows ≡ no_rows matcher.now.network matcher.now.params.bound) }
{
    OwnRows::open(alloc, matcher.network(), matcher.params().bound)
}

// The proofs of traces, in the same order.
fn prove_all(
    alloc: Global,
    matcher: &Matcher<'_>,
    rows: &mut OwnRows,
    traces: &[Trace],
) -> Result<List<TraceProof>, AllocError>
    requires rows { AreRowsOf rows.old matcher.now.network matcher.now.params.bound }
    requires traces { All IsLawfulTrace traces.now }
    ensures proofs { IfOk result
        (λ proofs. proofs ≡ map (proof_of matcher.now.network matcher.now.params) traces.now) }
    ensures asks { OnOk result (AsksTraces matcher.now traces.now rows.old rows.new) }
{
    let mut proofs = List::from_vec(Vec::with_capacity(alloc, traces.len())?);
    for trace in traces {
        let proof = prove_trace(alloc, matcher, rows, trace)?;
        proofs.push(proof)?;
    }
    Ok(proofs)
}

// The proof of a trace. Exactly the rows that it asks for become known.
fn prove_trace(
    alloc: Global,
    matcher: &Matcher<'_>,
    rows: &mut OwnRows,
    trace: &Trace,
) -> Result<TraceProof, AllocError>
    requires rows { AreRowsOf rows.old matcher.now.network matcher.now.params.bound }
    requires trace { IsLawfulTrace trace.now }
    ensures proof { IfOk result
        (λ proof. proof ≡ proof_of matcher.now.network matcher.now.params trace.now) }
    ensures asks { AsksFor rows.old
        (λ v. asks matcher.now.network matcher.now.params trace.now v ≡ true) result rows.new }
{
    let net = matcher.network();
    let grid = matcher.grid();
    let params = matcher.params();
    let answer = match_one(alloc, net, grid, params, rows, trace)?;
    let pieces = answer.matched.pieces.as_slice();
    certify(alloc, trace.id, &answer.solved, pieces)
}
