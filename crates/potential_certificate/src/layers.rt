//! The line of a position with candidates, read. Serves `next_line`; decided by `layer_at`.
ghost use Rattle.std.specs.Prelude.{◌≡◌, ◌^◌, ◌-◌, IfOk, length};
ghost use Rattle.std.specs.Option.{option_copied};
ghost use Rattle.match_text.specs.Reading.{most32, number_after, numbered_at, seen};
ghost use Rattle.potential_certificate.specs.Reading.{all_words_at, cell_at_front, cost_at, is_layer, layer_at, pointer_at, ranked_at};

use crate::proof_line::ProofLine;
use match_text::Place;
use match_text::front::{after, number, number_after, short_number_after};
use plain_list::List;
use std::alloc::{AllocError, Global};
use trellis::{Cell, Potentials};

/// The greatest number of a position.
const LAST_POINT: u64 = 99_999;

/// The most cells of a position.
const MOST_CELLS: usize = 32;

/// The text after these bytes and the number of the next position.
#[tactic(auto, unfolding(match_text::specs::Reading::numbered_at))]
pub fn numbered<'a>(text: &'a [u8], bytes: &[u8], next: u32) -> Option<&'a [u8]>
    ensures { option_copied result ≡ numbered_at bytes.now next text.now }
{
    let (point, rest) = number_after(text, bytes, LAST_POINT)?;
    if point != u64::from(next) {
        return None;
    }
    Some(rest)
}

/// The line of the next position with its rank and its cells, and the text after it.
#[tactic(auto, unfolding(crate::specs::Reading::layer_at))]
pub fn layer_line(
    alloc: Global,
    place: Place,
    text: &[u8],
) -> Result<Option<(ProofLine, &[u8])>, AllocError>
    ensures { IfOk result (λ read. seen read ≡ layer_at place text.now) }
{
    let Some((rank, words)) = ranked(place, text) else {
        return Ok(None);
    };
    let Some((cells, rest)) = cells(alloc, words)? else {
        return Ok(None);
    };
    if !is_layer(rank, cells.as_slice()) {
        return Ok(None);
    }
    let cells = Potentials::of(cells);
    Ok(Some((ProofLine::Layer { rank, cells }, rest)))
}

// The rank of the next position, and the text after the word `cells`.
#[tactic(auto, unfolding(crate::specs::Reading::ranked_at))]
fn ranked(place: Place, text: &[u8]) -> Option<(u32, &[u8])>
    ensures { seen result ≡ ranked_at place text.now }
{
    let rest = numbered(text, b"layer ", place.next)?;
    let (rank, rest) = short_number_after(rest, b" rank ")?;
    let rest = after(rest, b" cells")?;
    Some((rank, rest))
}

// Whether the rank is that of a cell, and there are not too many cells.
fn is_layer(rank: u32, cells: &[Cell]) -> bool
    ensures { result ≡ is_layer rank cells.now }
{
    (rank as usize) < cells.len() && cells.len() <= MOST_CELLS
}

// The cells up to the end of the line, and the text after the line.
fn cells(alloc: Global, text: &[u8]) -> Result<Option<(List<Cell>, &[u8])>, AllocError>
    ensures { IfOk result (λ read. seen read ≡ all_words_at cell_at_front text.now) }
{
    let mut cells = List::new(alloc);
    let mut rest = text;
    while let Some((cell, next)) = cell(rest) {
        cells.push(cell)?;
        rest = next;
    }
    let Some(rest) = after(rest, b"\n") else {
        return Ok(None);
    };
    Ok(Some((cells, rest)))
}

// The cell after a space, and the text after it.
#[tactic(auto, unfolding(crate::specs::Reading::cell_at_front))]
fn cell(text: &[u8]) -> Option<(Cell, &[u8])>
    ensures { seen result ≡ cell_at_front text.now }
{
    if let Some(rest) = after(text, b" -") {
        let cell = Cell {
            cost: None,
            from: None,
        };
        return Some((cell, rest));
    }
    cost(text)
}

// The cell with a cost after a space, and the text after it.
#[tactic(auto, unfolding(crate::specs::Reading::cost_at))]
fn cost(text: &[u8]) -> Option<(Cell, &[u8])>
    ensures { seen result ≡ cost_at text.now }
{
    let (cost, rest) = number_after(text, b" ", u64::MAX)?;
    let (from, rest) = pointer(rest)?;
    let cell = Cell {
        cost: Some(cost),
        from,
    };
    Some((cell, rest))
}

// The rank after `<`, if there is one, and the text after it.
fn pointer(text: &[u8]) -> Option<(Option<u32>, &[u8])>
    ensures { seen result ≡ pointer_at text.now }
{
    let Some(rest) = after(text, b"<") else {
        return Some((None, text));
    };
    let (rank, rest) = number(rest, u64::from(u32::MAX))?;
    Some((Some(rank as u32), rest))
}
