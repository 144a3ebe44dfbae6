//! Why a trace file is refused, and the error line of each fault.
ghost use Rattle.std.specs.Prelude.{◌≡◌, ◌≢◌, ◌++◌, OnOk, OnErr};

use decimal_text::write_worded;
use plain_list::List;
use std::alloc::{AllocError, Global};
use std::fmt::{self, Display, Formatter, Write};
use thiserror::Error;

/// The first fault of a trace file. The first number is the line and the second the field, both
/// counted from 1.
#[derive(Clone, Copy, Debug, Error)]
pub enum TraceFault {
    /// The first line that is not blank is not a header, or all lines are blank.
    BadHeader,
    /// A row does not have as many fields as the header.
    FieldCount(u64),
    /// A field is not a decimal number.
    BadNumber(u64, u32),
    /// A number is outside the range of its field.
    OutOfRange(u64, u32),
    /// A trace has more positions than the limit.
    TraceTooLong(u64),
    /// A line has more bytes than the limit.
    LineTooLong(u64),
    /// The file has more bytes than the limit.
    FileTooLong,
    /// Out of memory.
    Memory,
}

impl Display for TraceFault {
    fn fmt<W: Write>(&self, f: &mut Formatter<W>) -> fmt::Result {
        let what = self.what();
        match self.place() {
            Place::File => f.write_str(what),
            Place::Line(line) => write!(f, "line {line}: {what}"),
            Place::Field(line, field) => write!(f, "line {line} field {field}: {what}"),
        }
    }
}

impl From<AllocError> for TraceFault {
    ghost use Rattle.trace_reader.specs.declared.fault.TraceFault.TheVariants.{Memory};

    ghost from_gives = { λ _ fault. fault ≡ Memory };

    fn from(_error: AllocError) -> TraceFault {
        TraceFault::Memory
    }
}

impl TraceFault {
    ghost use Rattle.trace_reader.specs.Fault.{fault_line, place_of, what_of};

    /// Appends the error line of the fault, with its LF.
    pub fn write_line(&self, alloc: Global, into: &mut List<u8>) -> Result<(), AllocError>
        requires { self.now ≢ TraceFault.Memory }
        ensures ok { OnOk result (into.new ≡ into.old ++ fault_line self.now) }
        ensures err { OnErr result (into.new ≡ into.old) }
    {
        let mut line = List::new(alloc);
        self.append_line(&mut line)?;
        into.extend_from_slice(line.as_slice())
    }

    // Appends the error line, and after an error a part of it.
    fn append_line(&self, line: &mut List<u8>) -> Result<(), AllocError>
        ensures { OnOk result (line.new ≡ line.old ++ fault_line self.now) }
    {
        self.place().append_text(line)?;
        line.extend_from_slice(b": ")?;
        line.extend_from_slice(self.what().as_bytes())?;
        line.push(b'\n')
    }

    // What is wrong.
    fn what(&self) -> &'static str
        ensures { result.now ≡ what_of self.now }
    {
        match self {
            TraceFault::BadHeader => "bad header",
            TraceFault::FieldCount(_) => "wrong number of fields",
            TraceFault::BadNumber(_, _) => "bad number",
            TraceFault::OutOfRange(_, _) => "out of range",
            TraceFault::TraceTooLong(_) => "trace too long",
            TraceFault::LineTooLong(_) => "line too long",
            TraceFault::FileTooLong => "file too long",
            TraceFault::Memory => "out of memory",
        }
    }

    // Where the fault is.
    fn place(&self) -> Place
        ensures { result ≡ place_of self.now }
    {
        match *self {
            TraceFault::BadHeader | TraceFault::FileTooLong | TraceFault::Memory => Place::File,
            TraceFault::FieldCount(line)
            | TraceFault::TraceTooLong(line)
            | TraceFault::LineTooLong(line) => Place::Line(line),
            TraceFault::BadNumber(line, field) | TraceFault::OutOfRange(line, field) => {
                Place::Field(line, field)
            }
        }
    }
}

// Where a fault is: in no line, in a line, or in a field of a line.
#[derive(Clone, Copy)]
enum Place {
    File,
    Line(u64),
    Field(u64, u32),
}

impl Place {
    ghost use Rattle.trace_reader.specs.Fault.{place_text};

    // Appends the error line up to the colon.
    fn append_text(self, into: &mut List<u8>) -> Result<(), AllocError>
        ensures { OnOk result (into.new ≡ into.old ++ place_text self) }
    {
        match self {
            Place::File => into.extend_from_slice(b"traces"),
            Place::Line(line) => write_worded(b"traces line ", line, into),
            Place::Field(line, field) => {
                write_worded(b"traces line ", line, into)?;
                write_worded(b" field ", u64::from(field), into)
            }
        }
    }
}
