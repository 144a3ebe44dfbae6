//! Reads a table text line by line. Serves the program; decided by `table_of`.
ghost use Rattle.std.specs.Prelude.{◌≡◌, ◌≤◌, ◌==◌, ℕ, length, IfOk, IsErrOf, option_copied};
ghost use Rattle.std.specs.List.{list_all, list_any};
ghost use Rattle.match_text.specs.Reading.{after_bytes, seen};
ghost use Rattle.row_text.specs.LineFaults.{IsCutOf, IsFirstBadLineOf};
ghost use Rattle.table_work.specs.Faults.{AreTableLines};
ghost use Rattle.table_work.specs.TableText.{table_end_line, table_text_limit};
ghost use Rattle.table_work.specs.Reading.{ReadsTable, table_fault_at, is_entry_below, is_row_allowed, row_allowed_at};
ghost use Rattle.table_work.specs.inside.RowsRead.{ReadsRows};

use crate::TEXT_LIMIT;
use crate::fault::TableFault;
use crate::lines::{append_end, append_first};
use bounded_table::{Entry, Row};
use match_text::front::after;
use plain_list::List;
use row_text::read_row;
use std::alloc::{AllocError, Global};

/// The counts of nodes and edges that the rows of a table must respect.
#[derive(Clone, Copy)]
struct Counts {
    nodes: u32,
    edges: u32,
}

/// The rows of the table text for this bound, in cm, and these counts.
///
/// It reads the text once, from its start to its end or to its first bad line.
pub fn read_table(
    alloc: Global,
    bound: u32,
    nodes: u32,
    edges: u32,
    text: &[u8],
) -> Result<List<Row>, TableFault>
    ensures read { ReadsTable bound nodes edges text.now result }
    // Which line is bad, and what a text that is cut lacks.
    ensures bad_line { (n : ℕ) → IsErrOf result (TableFault.BadLine n)
        → IsFirstBadLineOf (AreTableLines bound nodes edges) n text.now }
    ensures cut { IsErrOf result TableFault.Cut → IsCutOf (AreTableLines bound nodes edges) text.now }
{
    read_text(alloc, bound, nodes, edges, text)
}

// The rows of the table text, or the fault of its first bad line.
fn read_text(
    alloc: Global,
    bound: u32,
    nodes: u32,
    edges: u32,
    text: &[u8],
) -> Result<List<Row>, TableFault>
    ensures { ReadsTable bound nodes edges text.now result }
{
    if text.len() as u64 > TEXT_LIMIT {
        return Err(TableFault::TooLong);
    }
    let mut first = List::new(alloc);
    append_first(bound, nodes, edges, &mut first)?;
    let Some(rest) = after(text, first.as_slice()) else {
        return Err(fault_at(text, 1));
    };
    read_rows(alloc, Counts { nodes, edges }, rest)
}

// The fault of a text whose line with this number is not allowed.
fn fault_at(text: &[u8], line: u64) -> TableFault
    ensures { result ≡ table_fault_at line text.now }
{
    if has_line(text) {
        TableFault::BadLine(line)
    } else {
        TableFault::Cut
    }
}

// Whether a complete line is at the front.
fn has_line(text: &[u8]) -> bool
    ensures { result ≡ list_any (λ b. b == 10) text.now }
{
    text.iter().any(|byte| *byte == b'\n')
}

// The rows in the lines after the first.
fn read_rows(alloc: Global, counts: Counts, text: &[u8]) -> Result<List<Row>, TableFault>
    requires { length text.now ≤ table_text_limit }
    ensures { ReadsRows counts text.now result }
{
    let mut rows = List::new(alloc);
    let mut least: u64 = 0;
    let mut rest = text;
    loop {
        let lines = rows.len() as u64;
        if let Some(behind) = after_end(alloc, rest, lines)? {
            if behind.is_empty() {
                return Ok(rows);
            }
            return Err(TableFault::BadLine(lines + 3));
        }
        let Some((row, next)) = next_row(alloc, counts, least, rest)? else {
            return Err(fault_at(rest, lines + 2));
        };
        least = u64::from(row.origin().0) + 1;
        rows.push(row)?;
        rest = next;
    }
}

// The text after the last line of a table with this many rows, if that line is at the front.
fn after_end(alloc: Global, text: &[u8], rows: u64) -> Result<Option<&[u8]>, AllocError>
    ensures { IfOk result (λ behind. option_copied behind ≡ after_bytes (table_end_line rows) text.now) }
{
    let mut end = List::new(alloc);
    append_end(rows, &mut end)?;
    Ok(after(text, end.as_slice()))
}

// The row at the front, if it is allowed after rows of lesser origins, and the text after its line.
fn next_row(
    alloc: Global,
    counts: Counts,
    least: u64,
    text: &[u8],
) -> Result<Option<(Row, &[u8])>, AllocError>
    ensures { IfOk result (λ read. seen read ≡ row_allowed_at counts least text.now) }
{
    let Some((row, rest)) = read_row(alloc, text)? else {
        return Ok(None);
    };
    if !is_row_allowed(counts, least, &row) {
        return Ok(None);
    }
    Ok(Some((row, rest)))
}

// Whether the row is allowed after rows of lesser origins.
fn is_row_allowed(counts: Counts, least: u64, row: &Row) -> bool
    ensures { result ≡ is_row_allowed counts least row.now }
{
    u64::from(row.origin().0) >= least && are_below(counts, row.entries())
}

// Whether the numbers of all entries are below the counts.
fn are_below(counts: Counts, entries: &[Entry]) -> bool
    ensures { result ≡ list_all (is_entry_below counts) entries.now }
{
    entries.iter().all(|x| is_entry_below(counts, x))
}

// Whether the numbers of an entry are below the counts.
fn is_entry_below(counts: Counts, x: &Entry) -> bool
    ensures { result ≡ is_entry_below counts x.now }
{
    x.node.0 < counts.nodes
        && match x.last {
            Some(edge) => edge.0 < counts.edges,
            None => true,
        }
}
