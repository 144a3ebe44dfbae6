//! The rows of a certificate, read one after the other. Serves the reader; decided by `rows_at_front`.
ghost use Rattle.std.specs.Prelude.{◌≡◌, ◌+◌, ◌++◌, IfOk, length};
ghost use Rattle.match_text.specs.Reading.{seen};
ghost use Rattle.potential_certificate.specs.Reading.{all_rows_at, row_at_least, rows_at_front};

use bounded_table::Row;
use plain_list::List;
use row_text::read_row;
use std::alloc::{AllocError, Global};

/// The rows at the front by ascending origin, and the text after them.
pub fn read_rows(alloc: Global, text: &[u8]) -> Result<(List<Row>, &[u8]), AllocError>
    ensures { IfOk result (λ read. all_rows_at text.now ≡ (read.0, read.1.now)) }
{
    more_rows(alloc, List::new(alloc), 0, text)
}

/// These rows followed by those at the front by ascending origin from `least` on, and the text after them.
pub fn more_rows(
    alloc: Global,
    front: List<Row>,
    least: u64,
    text: &[u8],
) -> Result<(List<Row>, &[u8]), AllocError>
    ensures rows { IfOk result
        (λ read. read.0 ≡ front ++ (rows_at_front (length text.now + 1) least text.now).0) }
    ensures left { IfOk result
        (λ read. read.1.now ≡ (rows_at_front (length text.now + 1) least text.now).1) }
{
    let mut rows = front;
    let mut least = least;
    let mut rest = text;
    while let Some((row, next)) = next_row(alloc, least, rest)? {
        least = u64::from(row.origin().0) + 1;
        rows.push(row)?;
        rest = next;
    }
    Ok((rows, rest))
}

// The row at the front, if its origin is not below `least`, and the text after its line.
fn next_row(alloc: Global, least: u64, text: &[u8]) -> Result<Option<(Row, &[u8])>, AllocError>
    ensures { IfOk result (λ read. seen read ≡ row_at_least least text.now) }
{
    let Some((row, rest)) = read_row(alloc, text)? else {
        return Ok(None);
    };
    if u64::from(row.origin().0) < least {
        return Ok(None);
    }
    Ok(Some((row, rest)))
}
