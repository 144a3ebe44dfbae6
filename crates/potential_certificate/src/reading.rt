//! The text of a certificate, read line by line. Serves all who take one; decided by `certificate_of_text`.
ghost use Rattle.std.specs.Prelude.{◌≡◌, ◌⊎◌, ◌<◌, ◌+◌, ◌^◌, ◌==◌, ℕ, length, IfErr, IfOk, IsErrOf, OnOk, Ok, Err};
ghost use Rattle.std.specs.List.{count_by, list_any};
ghost use Rattle.row_text.specs.LineFaults.{IsCutOf, IsFirstBadLineOf};
ghost use Rattle.potential_certificate.specs.CertificateText.{certificate_text_limit};
ghost use Rattle.potential_certificate.specs.Faults.{IsCertificate, OptionsFit};
ghost use Rattle.potential_certificate.specs.Reading.{all_rows_at, certificate_ended, certificate_of_text, certificate_fault_at, line_count, line_number, proof_at, proofs_at, rows_and_end};
ghost use Rattle.potential_certificate.specs.declared.fault.CertFault.TheVariants.{Memory};

use crate::TEXT_LIMIT;
use crate::fault::CertFault;
use crate::lines::{append_first, append_last};
use crate::proof::{Certificate, TraceProof};
use crate::proof_line::{ProofLine, next_line, place_after};
use crate::rows::read_rows;
use cost_model::Params;
use match_text::front::after;
use match_text::{Place, read_trace};
use plain_list::List;
use std::alloc::Global;
use trellis::Potentials;

/// The certificate whose text for these options this is.
///
/// The result has a text (`HasText`); whether it is right is not checked. Takes time linear in the text.
pub fn read_certificate(alloc: Global, p: &Params, text: &[u8]) -> Result<Certificate, CertFault>
    ensures ok { IfOk result (λ c. certificate_of_text p.now text.now ≡ Ok c) }
    ensures err { IfErr result (λ fault. (fault ≡ Memory)
        ⊎ (certificate_of_text p.now text.now ≡ Err fault)) }
    // Which line is bad, and what a text that is cut lacks.
    ensures bad_line { (n : ℕ) → IsErrOf result (CertFault.BadLine n)
        → IsFirstBadLineOf (IsCertificate p.now) n text.now }
    ensures cut { IsErrOf result CertFault.Cut → IsCutOf (IsCertificate p.now) text.now }
{
    known_options(*p);
    read_text(alloc, p, text)
}

/// The range of each option of the first line.
pub fn known_options(p: Params)
    ensures { OptionsFit p }
{
    let _ = p;
}

// The certificate of the text, or its fault.
fn read_text(alloc: Global, p: &Params, text: &[u8]) -> Result<Certificate, CertFault>
    ensures ok { IfOk result (λ c. certificate_of_text p.now text.now ≡ Ok c) }
    ensures err { IfErr result (λ fault. (fault ≡ Memory)
        ⊎ (certificate_of_text p.now text.now ≡ Err fault)) }
{
    let (proofs, rest) = read_front(alloc, p, text)?;
    let (rows, rest) = read_rows(alloc, rest)?;
    let certificate = Certificate { proofs, rows };
    check_end(alloc, text, &certificate, rest)?;
    Ok(certificate)
}

// The proofs after the first line, and the text after them.
fn read_front<'a>(
    alloc: Global,
    p: &Params,
    text: &'a [u8],
) -> Result<(List<TraceProof>, &'a [u8]), CertFault>
    ensures ok { IfOk result (λ read. certificate_of_text p.now text.now
        ≡ rows_and_end text.now read.0 (all_rows_at read.1.now)) }
    ensures err { IfErr result (λ fault. (fault ≡ Memory)
        ⊎ (certificate_of_text p.now text.now ≡ Err fault)) }
{
    if text.len() as u64 > TEXT_LIMIT {
        return Err(CertFault::TooLong);
    }
    let mut first = List::new(alloc);
    append_first(p, &mut first)?;
    let Some(rest) = after(text, first.as_slice()) else {
        return Err(fault_at(text, text));
    };
    read_proofs(alloc, text, rest)
}

// Whether the rest is the last line of this certificate.
fn check_end(
    alloc: Global,
    whole: &[u8],
    certificate: &Certificate,
    left: &[u8],
) -> Result<(), CertFault>
    ensures ok { OnOk result (certificate_ended whole.now certificate.now left.now ≡ Ok certificate.now) }
    ensures err { IfErr result (λ fault. (fault ≡ Memory)
        ⊎ (certificate_ended whole.now certificate.now left.now ≡ Err fault)) }
{
    let proofs = certificate.proofs.len() as u64;
    let rows = certificate.rows.len() as u64;
    let mut last = List::new(alloc);
    append_last(proofs, rows, &mut last)?;
    let Some(behind) = after(left, last.as_slice()) else {
        return Err(fault_at(whole, left));
    };
    if behind.is_empty() {
        return Ok(());
    }
    Err(CertFault::BadLine(line_number(whole, behind)))
}

// The fault of a text whose line at the start of `left` is not allowed.
fn fault_at(whole: &[u8], left: &[u8]) -> CertFault
    ensures { result ≡ certificate_fault_at whole.now left.now }
{
    if has_line(left) {
        CertFault::BadLine(line_number(whole, left))
    } else {
        CertFault::Cut
    }
}

// Whether a complete line is at the front.
fn has_line(text: &[u8]) -> bool
    ensures { result ≡ list_any (λ b. b == 10) text.now }
{
    text.iter().any(|byte| *byte == b'\n')
}

// The number of the line at the start of `left`.
fn line_number(whole: &[u8], left: &[u8]) -> u64
    ensures { result ≡ line_number whole.now left.now }
{
    (line_count(whole) as u64).saturating_sub(line_count(left) as u64) + 1
}

// The number of complete lines.
fn line_count(text: &[u8]) -> usize
    ensures value { result ≡ line_count text.now }
    ensures few { result < 2 ^ 63 }
{
    text.iter().filter(|byte| **byte == b'\n').count()
}

/// The proofs at the front, and the text after them.
pub fn read_proofs<'a>(
    alloc: Global,
    whole: &[u8],
    text: &'a [u8],
) -> Result<(List<TraceProof>, &'a [u8]), CertFault>
    ensures ok { IfOk result (λ read. proofs_at whole.now (length text.now + 1) text.now ≡ Ok (read.0, read.1.now)) }
    ensures err { IfErr result (λ fault. (fault ≡ Memory)
        ⊎ (proofs_at whole.now (length text.now + 1) text.now ≡ Err fault)) }
{
    let mut proofs = List::new(alloc);
    let mut rest = text;
    while let Some((id, lines)) = read_trace(rest) {
        let (proof, next) = read_proof(alloc, whole, id, lines)?;
        proofs.push(proof)?;
        rest = next;
    }
    Ok((proofs, rest))
}

// The proof in the lines after the first one of a trace, and the text after its end line.
fn read_proof<'a>(
    alloc: Global,
    whole: &[u8],
    id: u32,
    text: &'a [u8],
) -> Result<(TraceProof, &'a [u8]), CertFault>
    ensures ok { IfOk result (λ read. proof_at whole.now id text.now ≡ Ok (read.0, read.1.now)) }
    ensures err { IfErr result (λ fault. (fault ≡ Memory)
        ⊎ (proof_at whole.now id text.now ≡ Err fault)) }
{
    let mut proof = TraceProof {
        id,
        ranks: List::new(alloc),
        tables: List::new(alloc),
        pieces: List::new(alloc),
    };
    let mut place = Place {
        id,
        next: 0,
        waiting: None,
    };
    let mut rest = text;
    loop {
        let Some((line, next)) = next_line(alloc, place, rest)? else {
            return Err(fault_at(whole, rest));
        };
        place = place_after(place, &line);
        rest = next;
        match line {
            ProofLine::Missing => proof.add_point(None, Potentials::of(List::new(alloc)))?,
            ProofLine::Layer { rank, cells } => proof.add_point(Some(rank), cells)?,
            ProofLine::Piece(piece) => proof.pieces.push(piece)?,
            ProofLine::End => return Ok((proof, rest)),
        }
    }
}
