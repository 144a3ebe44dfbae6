//! Reads the line of a row. Serves all who take texts with such lines; decided by `row_at`.
ghost use Rattle.std.specs.Prelude.{◌≡◌, ◌+◌, IfOk, length};
ghost use Rattle.match_text.specs.Reading.{seen};
ghost use Rattle.row_text.specs.Reading.{entries_at, entry_at, last_at, row_at};

use crate::numbers::number_behind;
use bounded_table::{Entry, Row};
use match_text::front::{after, short_number_after};
use plain_list::List;
use road_network::{EdgeId, NodeId};
use std::alloc::{AllocError, Global};

// Room for the entries of a usual row; the rest is given back if there are fewer. Speed only: any value is right.
const USUAL_ENTRIES: usize = 256;

// The last edge after a colon, and the text after it.
#[tactic(auto, unfolding(crate::specs::Reading::last_at))]
fn last(text: &[u8]) -> Option<(Option<EdgeId>, &[u8])>
    ensures { seen result ≡ last_at text.now }
{
    if let Some(rest) = after(text, b":-") {
        return Some((None, rest));
    }
    let (edge, rest) = number_behind(text, b':')?;
    Some((Some(EdgeId(edge)), rest))
}

// The entry after a space, and the text after it.
#[tactic(auto, unfolding(crate::specs::Reading::entry_at))]
fn entry(text: &[u8]) -> Option<(Entry, &[u8])>
    ensures { seen result ≡ entry_at text.now }
{
    let (node, rest) = number_behind(text, b' ')?;
    let (distance, rest) = number_behind(rest, b':')?;
    let (last, rest) = last(rest)?;
    let entry = Entry {
        node: NodeId(node),
        distance,
        last,
    };
    Some((entry, rest))
}

// The entries up to the end of the line, and the text after the line.
fn entries(alloc: Global, text: &[u8]) -> Result<Option<(List<Entry>, &[u8])>, AllocError>
    ensures { IfOk result (λ read. seen read ≡ entries_at (length text.now + 1) text.now) }
{
    let mut entries = List::from_vec(Vec::with_capacity(alloc, USUAL_ENTRIES)?);
    let mut rest = text;
    while let Some((entry, next)) = entry(rest) {
        entries.push(entry)?;
        rest = next;
    }
    let Some(rest) = after(rest, b"\n") else {
        return Ok(None);
    };
    Ok(Some((fitted(entries), rest)))
}

// The same entries, in no more memory than they need.
fn fitted(entries: List<Entry>) -> List<Entry>
    ensures { result ≡ entries }
{
    let mut items = entries.into_vec();
    items.shrink_to_fit();
    List::from_vec(items)
}

/// The row whose line is at the front of the text, and the text after the line.
#[tactic(auto, unfolding(crate::specs::Reading::row_at))]
pub fn read_row(alloc: Global, text: &[u8]) -> Result<Option<(Row, &[u8])>, AllocError>
    ensures { IfOk result (λ read. seen read ≡ row_at text.now) }
{
    let Some((origin, rest)) = short_number_after(text, b"row ") else {
        return Ok(None);
    };
    let Some((entries, rest)) = entries(alloc, rest)? else {
        return Ok(None);
    };
    let Some(row) = Row::of(NodeId(origin), entries) else {
        return Ok(None);
    };
    row.invariants();
    Ok(Some((row, rest)))
}
