//! One line of the file: a header, or a row of numbers.
ghost use Rattle.std.specs.Prelude.{◌≡◌, ◌<◌, ◌^◌, length, position, is_some, IfSome};
ghost use Rattle.trace_reader.specs.Row.{header_of, fields_of, row_of, row_fault, is_misspelt, numbers_of};

use crate::fault::TraceFault;
use crate::field::{coordinate_field, unsigned_field};
use crate::trace::Fix;
use decimal_text::NumberFault;

/// The header of a file: `trace,x,y`, or `trace,x,y,time`.
#[derive(Clone, Copy)]
pub enum Header {
    Untimed,
    Timed,
}

/// One position and the id of its trace.
#[derive(Clone, Copy)]
pub struct Row {
    pub id: u32,
    pub fix: Fix,
}

/// The header in this line, if it is one.
pub fn read_header(text: &[u8]) -> Option<Header>
    ensures { result ≡ header_of text.now }
{
    if text == b"trace,x,y".as_slice() {
        Some(Header::Untimed)
    } else if text == b"trace,x,y,time".as_slice() {
        Some(Header::Timed)
    } else {
        None
    }
}

/// The row in the line of this number, under a header.
pub fn read_row(header: Header, line: u64, text: &[u8]) -> Result<Row, TraceFault>
    ensures { result ≡ row_of header line (fields_of text.now) }
{
    let (id, rest) = unsigned_field(text);
    let Some(rest) = rest else {
        return Err(TraceFault::FieldCount(line));
    };
    let (x, rest) = coordinate_field(rest);
    let Some(rest) = rest else {
        return Err(TraceFault::FieldCount(line));
    };
    let (y, rest) = coordinate_field(rest);
    match header {
        Header::Untimed => match rest {
            None => gather(line, id, x, y, Ok(0)),
            Some(_) => Err(TraceFault::FieldCount(line)),
        },
        Header::Timed => match rest {
            None => Err(TraceFault::FieldCount(line)),
            Some(rest) => {
                let (time, rest) = unsigned_field(rest);
                match rest {
                    None => gather(line, id, x, y, time),
                    Some(_) => Err(TraceFault::FieldCount(line)),
                }
            }
        },
    }
}

// The row of these numbers, or its fault.
fn gather(
    line: u64,
    id: Result<u32, NumberFault>,
    x: Result<i32, NumberFault>,
    y: Result<i32, NumberFault>,
    time: Result<u32, NumberFault>,
) -> Result<Row, TraceFault>
    ensures { result ≡ numbers_of line id x y time }
{
    match (id, x, y, time) {
        (Ok(id), Ok(x), Ok(y), Ok(time)) => Ok(Row {
            id,
            fix: Fix { x, y, time },
        }),
        _ => Err(row_fault(line, &[id.err(), x.err(), y.err(), time.err()])),
    }
}

// The fault of a row with these faults of its fields.
fn row_fault(line: u64, faults: &[Option<NumberFault>]) -> TraceFault
    requires { length faults.now < 2 ^ 31 }
    ensures { result ≡ row_fault line faults.now }
{
    match first_misspelt(faults) {
        Some(place) => TraceFault::BadNumber(line, place as u32 + 1),
        None => TraceFault::OutOfRange(line, first_faulty(faults).unwrap_or(0) as u32 + 1),
    }
}

fn first_misspelt(faults: &[Option<NumberFault>]) -> Option<usize>
    ensures place { result ≡ position is_misspelt faults.now }
    ensures bound { IfSome result (λ place. place < length faults.now) }
{
    faults
        .iter()
        .position(|fault| matches!(fault, Some(NumberFault::Misspelt)))
}

fn first_faulty(faults: &[Option<NumberFault>]) -> Option<usize>
    ensures place { result ≡ position is_some faults.now }
    ensures bound { IfSome result (λ place. place < length faults.now) }
{
    faults.iter().position(|fault| fault.is_some())
}
