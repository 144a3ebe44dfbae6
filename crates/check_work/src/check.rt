//! `check NET TRACES CERT`. Serves the program; decided by `check_plan`.
ghost use Rattle.std.specs.Prelude.{◌≡◌, ◌++◌, ◌<◌, ◌^◌, All, Ok, IfOk, OnOk};
ghost use Rattle.cost_model.specs.Options.{IsAccepted};
ghost use Rattle.program_frame.specs.inside.Refusing.{Accepts};
ghost use Rattle.program_frame.specs.Performs.{Performs};
ghost use Rattle.trace_reader.specs.Trace.{IsLawfulTrace};
ghost use Rattle.check_work.specs.Check.{certificate_in, check_plan, check_said, proved_piece_count, pieces_proved, proofs_said, proved_line};
ghost use Rattle.check_work.specs.inside.CheckDone.{LoadsCertificate, setting};

use crate::certificate_file::read_certificate_file;
use crate::verdicts::{CertificateFault, accept_finding};
use bounded_table::Row;
use cert_checker::{Subject, check_certificate};
use command_line::CheckFiles;
use cost_model::Params;
use decimal_text::write_unsigned;
use edge_io::{Shelf, Sink};
use plain_list::List;
use potential_certificate::{Certificate, CertificateReader, TraceProof};
use program_frame::{Refusal, Request, Stop, load_network, load_traces, put_text, refuse_fault};
use rayon::prelude::*;
use std::alloc::{AllocError, Global};
use std::thread;
use std::thread::Threads;
use trace_reader::Trace;

// The bytes of a certificate that are read at once: enough to keep several threads busy, few enough to be read
// soon. Speed only: any value is right.
const BLOCK: u64 = 16_777_216;

// The certificate of a text.
fn read_proofs(
    alloc: Global,
    options: &Params,
    text: CertificateReader,
) -> Result<Certificate, Stop>
    ensures said { Accepts Refusal.Certificate (certificate_in options.now text) result }
    ensures few { IfOk result (λ certificate. pieces_proved certificate < 2 ^ 63) }
{
    match text.finish(options) {
        Ok(certificate) => Ok(certificate),
        Err(fault) => Err(refuse_fault(
            alloc,
            Refusal::Certificate,
            &CertificateFault::Text(fault),
        )),
    }
}

// The number of pieces of these proofs.
fn count_pieces(proofs: &[TraceProof]) -> u64
    requires { proved_piece_count proofs.now < 2 ^ 63 }
    ensures { result ≡ proved_piece_count proofs.now }
{
    proofs.iter().map(|proof| proof.pieces.len() as u64).sum()
}

// Appends the line of a proved certificate.
fn append_proved(certificate: &Certificate, line: &mut List<u8>) -> Result<(), AllocError>
    requires { pieces_proved certificate.now < 2 ^ 63 }
    ensures { OnOk result (line.new ≡ line.old ++ proved_line certificate.now) }
{
    line.extend_from_slice(b"proved traces ")?;
    write_unsigned(certificate.proofs.len() as u64, line)?;
    line.extend_from_slice(b" pieces ")?;
    write_unsigned(count_pieces(certificate.proofs.as_slice()), line)?;
    line.extend_from_slice(b" rows ")?;
    write_unsigned(certificate.rows.len() as u64, line)?;
    line.extend_from_slice(b"\n")
}

// Accepts a proved certificate, and refuses any other.
fn check_proofs<R: Threads + Sync>(
    rt: &R,
    alloc: Global,
    subject: &Subject,
    certificate: &Certificate,
) -> Result<(), Stop>
    requires options { IsAccepted subject.now.params.now }
    requires traces { All IsLawfulTrace subject.now.traces.now }
    ensures { Accepts Refusal.Certificate
        (proofs_said subject.now.net.now subject.now.params.now subject.now.traces.now certificate.now) result }
{
    let found = check_certificate(rt, alloc, subject, certificate)?;
    accept_finding(alloc, found)
}

// Frees the memory of a certificate: proofs and rows in parallel.
fn let_go<R: Threads + Sync>(rt: &R, certificate: Certificate) {
    let Certificate { proofs, rows } = certificate;
    thread::join(
        rt,
        move || {
            let _proofs = proofs;
        },
        move || {
            rows.into_vec().into_par_iter().for_each(rt, |row: Row| {
                let _row = row;
            });
        },
    );
}

// The line for a text whose certificate is proved, or the refusal of the text or of the certificate.
fn accept_certificate<R: Threads + Sync>(
    rt: &R,
    alloc: Global,
    subject: &Subject,
    text: CertificateReader,
) -> Result<List<u8>, Stop>
    requires options { IsAccepted subject.now.params.now }
    requires traces { All IsLawfulTrace subject.now.traces.now }
    ensures { Accepts Refusal.Certificate
        (check_said (setting subject.now) subject.now.traces.now text) result }
{
    let certificate = read_proofs(alloc, subject.params, text)?;
    check_proofs(rt, alloc, subject, &certificate)?;
    let mut line = List::new(alloc);
    let written = append_proved(&certificate, &mut line);
    let_go(rt, certificate);
    written?;
    Ok(line)
}

fn load_certificate<R: Threads + Sync, S: Shelf>(
    rt: &R,
    alloc: Global,
    shelf: &mut S,
    name: &str,
    subject: &Subject,
) -> Result<List<u8>, Stop>
    requires options { IsAccepted subject.now.params.now }
    requires traces { All IsLawfulTrace subject.now.traces.now }
    ensures { LoadsCertificate (setting subject.now) subject.now.traces.now
        name.now (S.state shelf.old) (S.state shelf.new) result }
{
    let text = read_certificate_file(rt, alloc, shelf, name, BLOCK)?;
    accept_certificate(rt, alloc, subject, text)
}

/// Reads the network, then all traces and then the certificate, and reports that it is proved. Several threads
/// process a block of the certificate while the next block is read.
pub fn check_traces<R: Threads + Sync, S: Shelf, K: Sink>(
    rt: &R,
    alloc: Global,
    request: &Request<CheckFiles<'_>>,
    shelf: &mut S,
    out: &mut K,
) -> Result<(), Stop>
    requires { IsAccepted request.now.options }
    ensures { Performs (Ok (check_plan request.now.limits request.now.files.network.now
        request.now.files.traces.now request.now.files.certificate.now request.now.options))
        (S.state shelf.old) (S.state shelf.new) (K.state out.old) (K.state out.new) result }
{
    let files = request.files;
    let roads = load_network(alloc, shelf, files.network, request.limits)?;
    let taken = load_traces(alloc, shelf, files.traces)?;
    let subject = Subject {
        net: &roads,
        params: &request.options,
        traces: taken.as_slice(),
    };
    let line = load_certificate(rt, alloc, shelf, files.certificate, &subject)?;
    put_text(out, line.as_slice())
}
