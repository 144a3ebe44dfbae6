//! Writes the line of a row. Serves all texts with such lines; decided by `row_line`.
ghost use Rattle.std.specs.Prelude.{◌≡◌, [], ◌∷◌, ◌++◌, length, take, OnOk, OnErr};
ghost use Rattle.row_text.specs.RowLine.{entries_text, row_line};

use crate::digits::{ENTRY_BYTES, put_entry};
use bounded_table::{Entry, Row};
use decimal_text::write_unsigned;
use plain_list::List;
use std::alloc::AllocError;

/// Appends the line of the row. On `Err`, `into` is unchanged.
pub fn write_row(row: &Row, into: &mut List<u8>) -> Result<(), AllocError>
    ensures ok { OnOk result (into.new ≡ into.old ++ row_line row.now) }
    ensures err { OnErr result (into.new ≡ into.old) }
{
    let len = into.len();
    let written = append_row(row, into);
    if written.is_err() {
        into.truncate(len);
    }
    written
}

// Appends the line of the row. On `Err`, a part of it may remain at the end.
fn append_row(row: &Row, into: &mut List<u8>) -> Result<(), AllocError>
    ensures ok { OnOk result (into.new ≡ into.old ++ row_line row.now) }
    ensures err { OnErr result (take (length into.old) into.new ≡ into.old) }
{
    into.extend_from_slice(b"row ")?;
    write_unsigned(u64::from(row.origin().0), into)?;
    append_entries(row.entries(), into)?;
    into.extend_from_slice(b"\n")
}

// Appends each entry after a space. On `Err`, some of them may remain at the end.
fn append_entries(entries: &[Entry], into: &mut List<u8>) -> Result<(), AllocError>
    ensures ok { OnOk result (into.new ≡ into.old ++ entries_text entries.now) }
    ensures err { OnErr result (take (length into.old) into.new ≡ into.old) }
{
    for x in entries {
        append_entry(x, into)?;
    }
    Ok(())
}

// Appends an entry after a space, in one copy, or nothing.
fn append_entry(x: &Entry, into: &mut List<u8>) -> Result<(), AllocError>
    ensures ok { OnOk result (into.new ≡ into.old ++ entries_text (x.now ∷ [])) }
    ensures err { OnErr result (into.new ≡ into.old) }
{
    let mut bytes = [0; ENTRY_BYTES];
    let first = put_entry(&mut bytes, ENTRY_BYTES, x);
    into.extend_from_slice(&bytes[first..])
}
