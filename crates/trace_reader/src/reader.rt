//! The reader: chunks of any size in, closed traces and the first fault out.
ghost use Rattle.std.specs.Prelude.{◌≡◌, ◌≢◌, ◌+◌, ◌<◌, ◌≤◌, ◌^◌, ℕ, [], ◌∷◌, ◌++◌, List as ListOf, length, IfOk, IfErr, OnOk, OnErr};
ghost use Rattle.trace_reader.specs.inside.Parts.{HasNoEnd, is_reached};

use crate::content::ContentReader;
use crate::fault::TraceFault;
use crate::trace::Trace;
use memchr::memchr;
use plain_list::List;
use std::alloc::Global;

const FILE_LIMIT: u64 = 1_099_511_627_776;

const LINE_LIMIT: usize = 4_096;

/// Reads a trace file that is fed in chunks. It stores the open trace and the unfinished line,
/// of at most 4,096 bytes.
///
/// After a fault every later call returns the same fault and appends nothing.
pub struct TraceReader {
    content: ContentReader,
    line: List<u8>,
    lines: u64,
    bytes: u64,
    fault: Option<TraceFault>,
    ghost counted: { lines ≤ bytes },
    ghost limited: { bytes ≤ 2 ^ 40 },
    ghost short: { length line ≤ 4096 },
}

// By hand, so that the functions that drop one call this.
impl Drop for TraceReader {
    fn drop(self) {
        let TraceReader {
            content: _,
            line: _,
            lines: _,
            bytes: _,
            fault: _,
        } = self;
    }
}

impl TraceReader {
    ghost use Rattle.trace_reader.specs.Reader.{StandsFor, HasFailed, Feeds, FeedsSome, Finishes};
    ghost use Rattle.trace_reader.specs.inside.Steps.{Exceeds, HasRoom, Reaches, Refuses, EndsLine, TakesLine, TakesLines, FailsLines, EndsFile, FailsEnd};

    /// A reader that was fed nothing. Allocates nothing.
    pub fn open(alloc: Global) -> Self
        ensures { StandsFor result [] }
    {
        TraceReader {
            content: ContentReader::new(alloc),
            line: List::new(alloc),
            lines: 0,
            bytes: 0,
            fault: None,
        }
    }

    /// Appends the traces that this chunk closes. On a fault, the traces closed before it are appended.
    pub fn feed(&mut self, chunk: &[u8], into: &mut List<Trace>) -> Result<(), TraceFault>
        ensures fed { (fed : ListOf ℕ) → StandsFor self.old fed
            → Feeds fed chunk.now self.new into.old into.new result }
        ensures fails { IfErr result (HasFailed self.new) }
        ensures again { (fault : TraceFault) → HasFailed self.old fault
            → (result ≡ Err fault) × (into.new ≡ into.old) }
    {
        match self.take(chunk, None, into) {
            Ok(_) => Ok(()),
            Err(fault) => Err(fault),
        }
    }

    /// Takes the whole chunk, or its bytes up to the one that closes the `most`-th trace of this
    /// call, and returns how many bytes it took.
    pub fn feed_some(
        &mut self,
        chunk: &[u8],
        most: u32,
        into: &mut List<Trace>,
    ) -> Result<u32, TraceFault>
        requires some { 1 ≤ most }
        requires short { length chunk.now < 2 ^ 32 }
        ensures fed { (fed : ListOf ℕ) → StandsFor self.old fed
            → FeedsSome fed chunk.now most self.new into.old into.new result }
        ensures fails { IfErr result (HasFailed self.new) }
        ensures again { (fault : TraceFault) → HasFailed self.old fault
            → (result ≡ Err fault) × (into.new ≡ into.old) }
    {
        match self.take(chunk, Some(most), into) {
            Ok(taken) => Ok(taken as u32),
            Err(fault) => Err(fault),
        }
    }

    /// Reads the end of the file and appends the last trace; the reader is then as newly opened.
    pub fn finish(&mut self, into: &mut List<Trace>) -> Result<(), TraceFault>
        ensures fed { (fed : ListOf ℕ) → StandsFor self.old fed
            → Finishes fed self.new into.old into.new result }
        ensures fails { IfErr result (HasFailed self.new) }
        ensures again { (fault : TraceFault) → HasFailed self.old fault
            → (result ≡ Err fault) × (into.new ≡ into.old) }
    {
        if let Some(fault) = self.fault {
            return Err(fault);
        }
        match self.end_file(into) {
            Ok(()) => Ok(()),
            Err(fault) => {
                self.fault = Some(fault);
                Err(fault)
            }
        }
    }

    // Takes lines, and the beginning of a line, until this many traces are closed. Records a fault,
    // after which it takes nothing.
    fn take(
        &mut self,
        chunk: &[u8],
        most: Option<u32>,
        into: &mut List<Trace>,
    ) -> Result<usize, TraceFault>
        ensures ok { IfOk result (λ n. (self.old.fault ≡ None) × (self.new.fault ≡ None)
            × TakesLines self.old chunk.now most into.old n self.new into.new) }
        ensures err { IfErr result (λ fault. self.old.fault ≡ None
            → FailsLines self.old chunk.now most into.old fault into.new) }
        ensures fails { IfErr result (HasFailed self.new) }
        ensures again { (fault : TraceFault) → HasFailed self.old fault
            → (result ≡ Err fault) × (into.new ≡ into.old) }
    {
        if let Some(known) = self.fault {
            return Err(known);
        }
        let before = into.len();
        let mut taken = 0;
        while taken < chunk.len() && !is_reached(most, into.len() - before) {
            match self.take_line(&chunk[taken..], into) {
                Ok(bytes) => taken += bytes,
                Err(found) => {
                    self.fault = Some(found);
                    return Err(found);
                }
            }
        }
        Ok(taken)
    }

    // Takes the bytes to the end of a line, or all of them if no line ends.
    fn take_line(&mut self, bytes: &[u8], into: &mut List<Trace>) -> Result<usize, TraceFault>
        requires { 0 < length bytes.now }
        ensures ok { IfOk result (λ n. TakesLine self.old bytes.now into.old n self.new into.new) }
        ensures err { IfErr result (Refuses self.old bytes.now into.old) }
        ensures same { OnErr result (into.new ≡ into.old) }
        ensures fault { self.new.fault ≡ self.old.fault }
    {
        match memchr(b'\n', bytes) {
            Some(end) => {
                self.end_line(&bytes[..end], into)?;
                Ok(end + 1)
            }
            None => {
                self.keep(bytes)?;
                Ok(bytes.len())
            }
        }
    }

    // Takes the last bytes of a line and its LF. A line that is entirely in the chunk is not copied.
    fn end_line(&mut self, part: &[u8], into: &mut List<Trace>) -> Result<(), TraceFault>
        requires { HasNoEnd part.now }
        ensures ok { OnOk result (EndsLine self.old part.now into.old self.new into.new) }
        ensures err { IfErr result (Refuses self.old (part.now ++ 10 ∷ []) into.old) }
        ensures same { OnErr result (into.new ≡ into.old) }
        ensures fault { self.new.fault ≡ self.old.fault }
    {
        self.check_limits(part.len())?;
        let bytes = self.bytes + part.len() as u64;
        if bytes == FILE_LIMIT {
            return Err(TraceFault::FileTooLong);
        }
        let number = self.lines + 1;
        if self.line.as_slice().is_empty() {
            self.content.read_line(number, part, into)?;
        } else {
            self.line.extend_from_slice(part)?;
            self.content.read_line(number, self.line.as_slice(), into)?;
            self.line.truncate(0);
        }
        self.bytes = bytes + 1;
        self.lines = number;
        Ok(())
    }

    // Stores the bytes of an unfinished line.
    fn keep(&mut self, part: &[u8]) -> Result<(), TraceFault>
        requires { HasNoEnd part.now }
        ensures ok { OnOk result
            ((given : ListOf Trace) → Reaches self.old part.now given self.new given) }
        ensures err { IfErr result
            (λ fault. (given : ListOf Trace) → Refuses self.old part.now given fault) }
        ensures fault { self.new.fault ≡ self.old.fault }
    {
        self.check_limits(part.len())?;
        self.line.extend_from_slice(part)?;
        self.bytes += part.len() as u64;
        Ok(())
    }

    // Whether the unfinished line may have this many more bytes.
    fn check_limits(&self, more: usize) -> Result<(), TraceFault>
        ensures ok { OnOk result (HasRoom self.now more) }
        ensures err { IfErr result (Exceeds self.now more) }
    {
        let left_in_file = FILE_LIMIT - self.bytes;
        let left_in_line = (LINE_LIMIT - self.line.len()) as u64;
        if more as u64 <= left_in_file.min(left_in_line) {
            Ok(())
        } else if left_in_file <= left_in_line {
            Err(TraceFault::FileTooLong)
        } else {
            Err(TraceFault::LineTooLong(self.lines + 1))
        }
    }

    // Reads what follows the last LF and ends the file.
    fn end_file(&mut self, into: &mut List<Trace>) -> Result<(), TraceFault>
        ensures ok { OnOk result (EndsFile self.old into.old self.new into.new) }
        ensures err { IfErr result (λ fault. FailsEnd self.old into.old fault into.new) }
        ensures fault { self.new.fault ≡ self.old.fault }
    {
        self.content
            .read_line(self.lines + 1, self.line.as_slice(), into)?;
        self.content.end(into)?;
        self.line.truncate(0);
        self.lines = 0;
        self.bytes = 0;
        Ok(())
    }
}

// Whether the requested number of traces is closed.
fn is_reached(most: Option<u32>, closed: usize) -> bool
    ensures { result ≡ is_reached most closed }
{
    match most {
        None => false,
        Some(most) => most as usize <= closed,
    }
}
