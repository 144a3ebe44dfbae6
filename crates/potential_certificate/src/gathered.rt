//! A text stored as the proofs and rows read from it. Serves the reader of blocks; decided by `gathered_text`.
ghost use Rattle.std.specs.Prelude.{◌≡◌, ◌<◌, ◌++◌, [], IfOk, IsErrOf, IsTrue, OnOk, length};
ghost use Rattle.potential_certificate.specs.CertificateText.{certificate_text, certificate_text_limit};
ghost use Rattle.potential_certificate.specs.inside.Gathering.{GoesOn, GathersMore, IsGathered, IsPartRead, gathered_text, least_after, lines_text, first_rises_from};

use crate::drawing::read_parts;
use crate::fault::WriteFault;
use crate::lines::{append_first, append_last};
use crate::parts::{PartRead, last_item, next_item, read_part};
use crate::proof::{Certificate, TraceProof};
use crate::writing::{append_proofs, append_rows};
use bounded_table::Row;
use cost_model::Params;
use plain_list::List;
use std::alloc::{AllocError, Global};
use std::mem;
use std::thread::Threads;

/// A text so far: its first line, proofs, rows, and the unread text after them.
pub struct Gathered {
    pub alloc: Global,
    pub first: Vec<u8>,
    pub proofs: Vec<TraceProof>,
    pub rows: Vec<Row>,
    pub behind: Vec<u8>,
    /// Whether the text after them is not a further proof or row.
    pub is_stuck: bool,
}

// By hand, so that the functions that drop one call this.
impl Drop for Gathered {
    fn drop(self) {
        let Gathered {
            alloc: _,
            first: _,
            proofs: _,
            rows: _,
            behind: _,
            is_stuck: _,
        } = self;
    }
}

// The least origin of a row after these.
fn least_after(rows: &[Row]) -> u64
    ensures { result ≡ least_after 0 rows.now }
{
    match rows.last() {
        Some(row) => u64::from(row.origin().0) + 1,
        None => 0,
    }
}

// Whether these rows may follow others, if their first origin must be `least` or above.
fn rises_from(least: u64, rows: &[Row]) -> bool
    ensures { result ≡ first_rises_from least rows.now }
{
    match rows.first() {
        Some(row) => least <= u64::from(row.origin().0),
        None => true,
    }
}

impl Gathered {
    pub fn new(alloc: Global) -> Gathered
        ensures text { gathered_text result ≡ [] }
        ensures are { IsGathered result }
    {
        Gathered {
            alloc,
            first: Vec::new(alloc),
            proofs: Vec::new(alloc),
            rows: Vec::new(alloc),
            behind: Vec::new(alloc),
            is_stuck: false,
        }
    }

    // Whether a part that was read continues the proofs and rows.
    fn goes_on(&self, read: &PartRead<'_>) -> bool
        ensures { IsTrue result → GoesOn self.now read.now }
    {
        self.behind.is_empty()
            && (self.rows.is_empty() || read.proofs.len() == 0)
            && rises_from(least_after(&self.rows), read.rows.as_slice())
    }

    // Adds a part that was read.
    fn add(&mut self, read: PartRead<'_>) -> Result<(), AllocError>
        requires so_far { IsGathered self.old }
        requires read { IsPartRead read }
        ensures { OnOk result (GathersMore self.old read.entry.part.now self.new) }
    {
        if !self.goes_on(&read) {
            return self.behind.extend_from_slice(read.part);
        }
        self.proofs.append(&mut read.proofs.into_vec())?;
        self.rows.append(&mut read.rows.into_vec())?;
        self.behind.extend_from_slice(read.left)
    }

    // Reads the remaining text, whose last line is complete.
    pub fn settle(&mut self) -> Result<(), AllocError>
        requires { IsGathered self.old }
        ensures { OnOk result (GathersMore self.old [] self.new) }
    {
        let part = mem::replace(&mut self.behind, Vec::new(self.alloc));
        let read = read_part(self.alloc, &part)?;
        self.add(read)
    }

    // Adds proofs and rows, which are read in parallel.
    fn add_items<R: Threads + Sync>(&mut self, rt: &R, items: &[u8]) -> Result<(), AllocError>
        requires { IsGathered self.old }
        ensures { OnOk result (GathersMore self.old items.now self.new) }
    {
        let reads = read_parts(rt, self.alloc, items)?;
        for read in reads {
            self.add(read)?;
        }
        Ok(())
    }

    // Whether the first line is incomplete.
    fn is_in_first(&self) -> bool
        ensures { IsTrue result → lines_text self.now.proofs.items self.now.rows.items self.now.behind.items ≡ [] }
    {
        self.proofs.is_empty()
            && self.rows.is_empty()
            && self.behind.is_empty()
            && !matches!(self.first.last(), Some(b'\n'))
    }

    // Adds bytes in which no proof or row begins.
    fn add_head(&mut self, head: &[u8]) -> Result<(), AllocError>
        requires { IsGathered self.old }
        ensures { OnOk result (GathersMore self.old head.now self.new) }
    {
        if self.is_in_first() {
            return self.first.extend_from_slice(head);
        }
        self.behind.extend_from_slice(head)
    }

    // Adds bytes that begin with the line of a proof or a row.
    fn add_lines<R: Threads + Sync>(&mut self, rt: &R, lines: &[u8]) -> Result<(), AllocError>
        requires { IsGathered self.old }
        ensures { OnOk result (GathersMore self.old lines.now self.new) }
    {
        self.settle()?;
        let (items, begun) = lines.split_at(last_item(lines));
        self.add_items(rt, items)?;
        self.is_stuck = !self.behind.is_empty();
        self.behind.extend_from_slice(begun)
    }

    /// Adds more of the text. After `Err` its state is unspecified.
    pub fn push<R: Threads + Sync>(&mut self, rt: &R, block: &[u8]) -> Result<(), AllocError>
        requires { IsGathered self.old }
        ensures { OnOk result (GathersMore self.old block.now self.new) }
    {
        if self.is_stuck {
            return self.behind.extend_from_slice(block);
        }
        let (head, lines) = block.split_at(next_item(block, 0));
        self.add_head(head)?;
        if lines.is_empty() {
            return Ok(());
        }
        self.add_lines(rt, lines)
    }

    // Whether the first and the last line are those of a certificate of these proofs and rows.
    pub fn is_closed(&self, p: &Params) -> Result<bool, AllocError>
        ensures { IfOk result (λ is. IsTrue is → gathered_text self.now
            ≡ certificate_text p.now (record { proofs = self.now.proofs.items; rows = self.now.rows.items })) }
    {
        let mut first = List::new(self.alloc);
        append_first(p, &mut first)?;
        let mut last = List::new(self.alloc);
        append_last(self.proofs.len() as u64, self.rows.len() as u64, &mut last)?;
        Ok(self.first.as_slice() == first.as_slice() && self.behind.as_slice() == last.as_slice())
    }

    /// The certificate of the proofs and rows.
    pub fn into_certificate(self) -> Certificate
        ensures { result ≡ record { proofs = self.proofs.items; rows = self.rows.items } }
    {
        let Gathered {
            alloc: _,
            first: _,
            proofs,
            rows,
            behind: _,
            is_stuck: _,
        } = self;
        Certificate {
            proofs: List::from_vec(proofs),
            rows: List::from_vec(rows),
        }
    }

    /// The whole text, written out.
    pub fn into_text(mut self) -> Result<List<u8>, WriteFault>
        ensures ok { IfOk result (λ text. text ≡ gathered_text self) }
        ensures too_long { IsErrOf result WriteFault.TooLong → certificate_text_limit < length (gathered_text self) }
    {
        let first = mem::replace(&mut self.first, Vec::new(self.alloc));
        let mut text = List::from_vec(first);
        append_proofs(&self.proofs, 0, &mut text)?;
        append_rows(&self.rows, 0, &mut text)?;
        text.extend_from_slice(&self.behind)?;
        Ok(text)
    }
}
