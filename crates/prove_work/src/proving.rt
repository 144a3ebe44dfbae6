//! `prove NET TRACES`. Serves the program; decided by `prove_plan`.
ghost use Rattle.std.specs.Prelude.{All, Ok};
ghost use Rattle.cost_model.specs.Options.{IsAccepted};
ghost use Rattle.program_frame.specs.inside.Refusing.{Accepts};
ghost use Rattle.program_frame.specs.Performs.{Performs};
ghost use Rattle.trace_reader.specs.Trace.{IsLawfulTrace};
ghost use Rattle.prove_work.specs.Prove.{prove_plan, prove_said};
ghost use Rattle.prove_work.specs.inside.ProveDone.{WritesProofs};

use crate::certifying::certify_traces;
use command_line::TraceFiles;
use edge_io::{Shelf, Sink};
use plain_list::List;
use potential_certificate::{WriteFault, write_certificate};
use program_frame::{Refusal, Request, Stop, load_network, load_traces, put_text, refuse};
use std::alloc::Global;
use trace_match::Matcher;
use trace_reader::Trace;

// The text of the certificate of traces, which are matched one after the other with own rows.
fn write_proofs(
    alloc: Global,
    matcher: &Matcher<'_>,
    traces: &[Trace],
) -> Result<List<u8>, WriteFault>
    requires { All IsLawfulTrace traces.now }
    ensures { WritesProofs matcher.now traces.now result }
{
    let certificate = certify_traces(alloc, matcher, traces)?;
    let mut text = List::new(alloc);
    write_certificate(alloc, matcher.params(), &certificate, &mut text)?;
    Ok(text)
}

// The text of the certificate of traces, or its refusal as too long.
fn text_of_proofs(alloc: Global, matcher: &Matcher<'_>, traces: &[Trace]) -> Result<List<u8>, Stop>
    requires { All IsLawfulTrace traces.now }
    ensures { Accepts Refusal.TooLong (prove_said matcher.now traces.now) result }
{
    match write_proofs(alloc, matcher, traces) {
        Ok(text) => Ok(text),
        Err(WriteFault::TooLong) => Err(refuse(
            alloc,
            Refusal::TooLong,
            b"fmm: certificate too long\n",
        )),
        Err(WriteFault::Memory) => Err(Stop::NoMemory),
    }
}

/// Reads the network and then all traces, and writes the certificate text of their matches. The
/// traces, the certificate and its text are in memory at once, so that nothing is written if the text is
/// too long.
pub fn prove_traces<S: Shelf, K: Sink>(
    alloc: Global,
    request: &Request<TraceFiles<'_>>,
    shelf: &mut S,
    out: &mut K,
) -> Result<(), Stop>
    requires { IsAccepted request.now.options }
    ensures { Performs (Ok (prove_plan request.now.limits request.now.files.network.now
        request.now.files.traces.now request.now.options))
        (S.state shelf.old) (S.state shelf.new) (K.state out.old) (K.state out.new) result }
{
    let roads = load_network(alloc, shelf, request.files.network, request.limits)?;
    let taken = load_traces(alloc, shelf, request.files.traces)?;
    let matcher = Matcher::open(alloc, &roads, request.options)?;
    let text = text_of_proofs(alloc, &matcher, taken.as_slice())?;
    put_text(out, text.as_slice())
}
