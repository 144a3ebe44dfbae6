//! The lines of a trace file, in order: its header, the open trace and the closed ones.
ghost use Rattle.std.specs.Prelude.{◌≡◌, ◌≢◌, ◌+◌, ◌<◌, ◌≤◌, ◌∷◌, ◌++◌, [], length, OnOk, OnErr, IfOk, IfErr, Some, None};
ghost use Rattle.std.specs.List.{list_all};
ghost use Rattle.decimal_text.specs.Blank.{is_blank};
ghost use Rattle.trace_reader.specs.Content.{without_return, point_limit, begin_trace};

use crate::fault::TraceFault;
use crate::row::{Header, Row, read_header, read_row};
use crate::trace::{Fix, Trace};
use decimal_text::is_blank;
use plain_list::List;
use std::alloc::Global;

/// The state after the lines read so far.
pub struct ContentReader {
    pub header: Option<Header>,
    pub open: Option<Trace>,
    alloc: Global,
}

// By hand, so that the functions that drop one call this.
impl Drop for ContentReader {
    fn drop(self) {
        let ContentReader {
            header: _,
            open: _,
            alloc: _,
        } = self;
    }
}

const POINT_LIMIT: usize = 100_000;

impl ContentReader {
    ghost use Rattle.trace_reader.specs.Content.{add_row, read_line, no_content};
    ghost use Rattle.trace_reader.specs.Reader.{content_of};
    ghost use Rattle.trace_reader.specs.Reading.{EndsWith};

    pub fn new(alloc: Global) -> Self
        ensures { content_of result [] ≡ no_content }
    {
        ContentReader {
            header: None,
            open: None,
            alloc,
        }
    }

    /// Reads the line of this number, without its LF, and appends the trace that it closes.
    pub fn read_line(
        &mut self,
        number: u64,
        line: &[u8],
        into: &mut List<Trace>,
    ) -> Result<(), TraceFault>
        ensures ok { OnOk result (read_line number (content_of self.old into.old) line.now
            ≡ Ok (content_of self.new into.new)) }
        ensures err { IfErr result (λ fault. fault ≢ TraceFault.Memory
            → read_line number (content_of self.old into.old) line.now ≡ Err fault) }
        ensures same { OnErr result (into.new ≡ into.old) }
        ensures one { length into.new ≤ length into.old + 1 }
    {
        let text = without_return(line);
        if is_skipped(text) {
            return Ok(());
        }
        match self.header {
            None => match read_header(text) {
                None => Err(TraceFault::BadHeader),
                Some(header) => {
                    self.header = Some(header);
                    Ok(())
                }
            },
            Some(header) => match read_row(header, number, text) {
                Ok(row) => self.add_row(number, row, into),
                Err(fault) => Err(fault),
            },
        }
    }

    // Adds a row: to the open trace if its id is the same, or as the first of a new trace.
    fn add_row(&mut self, number: u64, row: Row, into: &mut List<Trace>) -> Result<(), TraceFault>
        ensures ok { OnOk result (add_row number (content_of self.old into.old) row
            ≡ Ok (content_of self.new into.new)) }
        ensures err { IfErr result (λ fault. fault ≢ TraceFault.Memory
            → add_row number (content_of self.old into.old) row ≡ Err fault) }
        ensures same { OnErr result (into.new ≡ into.old) }
        ensures one { length into.new ≤ length into.old + 1 }
    {
        match &mut self.open {
            Some(trace) if trace.id == row.id => {
                if trace.fixes.len() >= POINT_LIMIT {
                    return Err(TraceFault::TraceTooLong(number));
                }
                trace.fixes.push(row.fix)?;
                Ok(())
            }
            _ => {
                let next = begin_trace(self.alloc, row)?;
                if let Some(closed) = self.open.replace(next) {
                    into.push(closed)?;
                }
                Ok(())
            }
        }
    }

    /// Appends the trace that is open at the end of the file, and starts over.
    pub fn end(&mut self, into: &mut List<Trace>) -> Result<(), TraceFault>
        ensures ok { OnOk result
            (EndsWith (content_of self.old into.old) self.old.header into.new None) }
        ensures anew { OnOk result (content_of self.new [] ≡ no_content) }
        ensures err { IfErr result (λ fault. fault ≢ TraceFault.Memory
            → EndsWith (content_of self.old into.old) self.old.header into.old (Some fault)) }
        ensures same { OnErr result (into.new ≡ into.old) }
    {
        match self.header {
            None => Err(TraceFault::BadHeader),
            Some(_) => {
                if let Some(last) = self.open.take() {
                    into.push(last)?;
                }
                self.header = None;
                Ok(())
            }
        }
    }
}

fn begin_trace(alloc: Global, row: Row) -> Result<Trace, TraceFault>
    ensures ok { IfOk result (λ trace. trace ≡ begin_trace row) }
    ensures err { IfErr result (λ fault. fault ≡ TraceFault.Memory) }
{
    let mut fixes = List::new(alloc);
    fixes.push(row.fix)?;
    Ok(Trace { id: row.id, fixes })
}

// Whether the line has only spaces and tabs.
fn is_skipped(text: &[u8]) -> bool
    ensures { result ≡ list_all is_blank text.now }
{
    text.iter().all(|byte| is_blank(*byte))
}

// The line without a CR at its end.
fn without_return(line: &[u8]) -> &[u8]
    ensures { result.now ≡ without_return line.now }
{
    match line {
        [text @ .., b'\r'] => text,
        _ => line,
    }
}
