//! Parts of a certificate's text: where they begin, and reading one. Serves the reader of blocks; decided by `IsPartRead`.
ghost use Rattle.std.specs.Prelude.{◌≡◌, ◌<◌, ◌≤◌, IfOk, length};
ghost use Rattle.std.specs.List.{flat_map};
ghost use Rattle.potential_certificate.specs.inside.Gathering.{IsReadOf};

use crate::fault::CertFault;
use crate::proof::TraceProof;
use crate::reading::read_proofs;
use crate::rows::read_rows;
use bounded_table::Row;
use plain_list::List;
use std::alloc::{AllocError, Global};

/// About how many parts a block is divided into. Speed only: any value is right.
const PARTS: usize = 32;

/// The least number of bytes of a part, except the last. Speed only: any value is right.
const PART_BYTES: usize = 65_536;

/// A part of a text: the proofs and rows at its front, and the text after them.
#[derive(Drop)]
pub struct PartRead<'a> {
    pub part: &'a [u8],
    pub proofs: List<TraceProof>,
    pub rows: List<Row>,
    pub left: &'a [u8],
}

// Whether a proof or a row may begin with this byte.
fn begins_item(byte: u8) -> bool {
    byte == b't' || byte == b'r'
}

/// The start of the first line after `from` that may begin a proof or a row, or the end of the text.
pub fn next_item(text: &[u8], from: usize) -> usize
    requires { from ≤ length text.now }
    ensures behind { 0 < length text.now → 0 < result }
    ensures within { result ≤ length text.now }
{
    let mut at = from;
    while at + 1 < text.len() {
        at += 1;
        if text[at - 1] == b'\n' && begins_item(text[at]) {
            return at;
        }
    }
    text.len()
}

/// The start of the last line that may begin a proof or a row, or the start of the text.
pub fn last_item(text: &[u8]) -> usize
    ensures { result ≤ length text.now }
{
    let mut at = text.len();
    while at > 1 {
        at -= 1;
        if text[at - 1] == b'\n' && begins_item(text[at]) {
            return at;
        }
    }
    0
}

/// The text divided into parts before lines that may begin a proof or a row.
pub fn cut(alloc: Global, text: &[u8]) -> Result<List<&[u8]>, AllocError>
    ensures { IfOk result (λ parts. flat_map (λ part. part.now) parts ≡ text.now) }
{
    let least = (text.len() / PARTS).max(PART_BYTES);
    let mut parts = List::new(alloc);
    let mut rest = text;
    while !rest.is_empty() {
        let (part, next) = rest.split_at(next_item(rest, least.min(rest.len())));
        parts.push(part)?;
        rest = next;
    }
    Ok(parts)
}

/// A part of which nothing is read.
pub fn unread(alloc: Global, part: &[u8]) -> PartRead<'_>
    ensures { IsReadOf part.now result }
{
    PartRead {
        part,
        proofs: List::new(alloc),
        rows: List::new(alloc),
        left: part,
    }
}

/// What is read of a part. If a proof has a bad line, nothing is read.
pub fn read_part(alloc: Global, part: &[u8]) -> Result<PartRead<'_>, AllocError>
    ensures { IfOk result (IsReadOf part.now) }
{
    match read_proofs(alloc, part, part) {
        Ok((proofs, rest)) => {
            let (rows, left) = read_rows(alloc, rest)?;
            Ok(PartRead {
                part,
                proofs,
                rows,
                left,
            })
        }
        Err(CertFault::Memory) => Err(AllocError),
        Err(_) => Ok(unread(alloc, part)),
    }
}
