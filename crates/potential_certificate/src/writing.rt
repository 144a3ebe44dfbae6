//! The text of a certificate, written. Serves all who write one; decided by `certificate_text`.
ghost use Rattle.std.specs.Prelude.{◌≡◌, ◌+◌, ◌<◌, ◌≤◌, ◌++◌, length, take, OnErr, OnOk, IsErrOf, nat_lt};
ghost use Rattle.std.specs.List.{flat_map};
ghost use Rattle.row_text.specs.RowLine.{row_line};
ghost use Rattle.potential_certificate.specs.CertificateText.{certificate_text, certificate_first_line, last_line, proof_text, certificate_text_limit};

use crate::TEXT_LIMIT;
use crate::fault::WriteFault;
use crate::lines::{append_first, append_last};
use crate::proof::{Certificate, TraceProof};
use crate::proof_writing::append_proof;
use bounded_table::Row;
use cost_model::Params;
use plain_list::List;
use row_text::write_row;
use std::alloc::{AllocError, Global};

/// Appends the text of the certificate for these options. On `Err`, `into` is unchanged.
///
/// That text can be read again if the certificate has a text (`HasText`): as many ranks as tables, at most 100,000,
/// a rank below the number of 1 to 32 cells or neither, no pointer without a cost, pieces over exactly the
/// positions with a rank, each with a route, and ascending origins.
pub fn write_certificate(
    alloc: Global,
    p: &Params,
    c: &Certificate,
    into: &mut List<u8>,
) -> Result<(), WriteFault>
    ensures ok { OnOk result (into.new ≡ into.old ++ certificate_text p.now c.now) }
    ensures within { OnOk result (length (certificate_text p.now c.now) ≤ certificate_text_limit) }
    ensures too_long { IsErrOf result WriteFault.TooLong
        → certificate_text_limit < length (certificate_text p.now c.now) }
    ensures err { OnErr result (into.new ≡ into.old) }
{
    let start = into.len();
    let written = append_certificate(alloc, p, c, start, into);
    if written.is_err() {
        into.truncate(start);
    }
    written
}

// Appends the text that begins at `start`. On `Err`, a part of it may remain at the end.
fn append_certificate(
    alloc: Global,
    p: &Params,
    c: &Certificate,
    start: usize,
    into: &mut List<u8>,
) -> Result<(), WriteFault>
    requires { start ≡ length into.old }
    ensures ok { OnOk result (into.new ≡ into.old ++ certificate_text p.now c.now) }
    ensures within { OnOk result (length into.new ≤ start + certificate_text_limit) }
    ensures too_long { IsErrOf result WriteFault.TooLong
        → start + certificate_text_limit < length (into.old ++ certificate_text p.now c.now) }
    ensures err { OnErr result (take (length into.old) into.new ≡ into.old) }
{
    append_begin(alloc, p, into)?;
    append_proofs(c.proofs.as_slice(), start, into)?;
    append_rows(c.rows.as_slice(), start, into)?;
    append_finish(alloc, c, into)?;
    if is_long(start, into) {
        return Err(WriteFault::TooLong);
    }
    Ok(())
}

// Appends the first line, or nothing.
fn append_begin(alloc: Global, p: &Params, into: &mut List<u8>) -> Result<(), AllocError>
    ensures ok { OnOk result (into.new ≡ into.old ++ certificate_first_line p.now) }
    ensures err { OnErr result (into.new ≡ into.old) }
{
    let mut first = List::new(alloc);
    append_first(p, &mut first)?;
    into.extend_from_slice(first.as_slice())
}

// Appends the last line, or nothing.
fn append_finish(alloc: Global, c: &Certificate, into: &mut List<u8>) -> Result<(), AllocError>
    ensures ok { OnOk result (into.new ≡ into.old ++ last_line (length c.now.proofs) (length c.now.rows)) }
    ensures err { OnErr result (into.new ≡ into.old) }
{
    let mut last = List::new(alloc);
    append_last(c.proofs.len() as u64, c.rows.len() as u64, &mut last)?;
    into.extend_from_slice(last.as_slice())
}

// Whether the text that begins at `start` is too long.
fn is_long(start: usize, into: &List<u8>) -> bool
    requires { start ≤ length into.now }
    ensures { result ≡ nat_lt (start + certificate_text_limit) (length into.now) }
{
    (into.len() - start) as u64 > TEXT_LIMIT
}

/// Appends the lines of each proof to the text that begins at `start`. On `Err`, a part of them may
/// remain at the end.
pub fn append_proofs(
    proofs: &[TraceProof],
    start: usize,
    into: &mut List<u8>,
) -> Result<(), WriteFault>
    requires { start ≤ length into.old }
    ensures ok { OnOk result (into.new ≡ into.old ++ flat_map proof_text proofs.now) }
    ensures too_long { IsErrOf result WriteFault.TooLong
        → start + certificate_text_limit < length (into.old ++ flat_map proof_text proofs.now) }
    ensures err { OnErr result (take (length into.old) into.new ≡ into.old) }
{
    for proof in proofs {
        append_proof(proof, into)?;
        if is_long(start, into) {
            return Err(WriteFault::TooLong);
        }
    }
    Ok(())
}

/// Appends the line of each row to the text that begins at `start`. On `Err`, some of them may remain
/// at the end.
pub fn append_rows(rows: &[Row], start: usize, into: &mut List<u8>) -> Result<(), WriteFault>
    requires { start ≤ length into.old }
    ensures ok { OnOk result (into.new ≡ into.old ++ flat_map row_line rows.now) }
    ensures too_long { IsErrOf result WriteFault.TooLong
        → start + certificate_text_limit < length (into.old ++ flat_map row_line rows.now) }
    ensures err { OnErr result (take (length into.old) into.new ≡ into.old) }
{
    for row in rows {
        write_row(row, into)?;
        if is_long(start, into) {
            return Err(WriteFault::TooLong);
        }
    }
    Ok(())
}
