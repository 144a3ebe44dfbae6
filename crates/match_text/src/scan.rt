//! The line at the front of a text. Serves `read_match`; decided by `ReadsLine`.
ghost use Rattle.std.specs.Prelude.{◌≡◌, ◌+◌, ◌^◌, ◌<◌, ◌↔◌, IfOk, IsTrue, slice_index};
ghost use Rattle.std.specs.Option.{option_map, option_copied};
ghost use Rattle.match_text.specs.Reading.{seen, trace_at, end_at, numbered_at, none_at, label_at};
ghost use Rattle.match_text.specs.PieceHead.{head_of, head_at};
ghost use Rattle.match_text.specs.Grammar.{ReadsLine, ReadsPiece, ReadsRoute};

use crate::front::{after, number_after, short_number_after};
use crate::matched::{Label, Routed};
use crate::place::{Line, Place};
use plain_list::List;
use std::alloc::{AllocError, Global};

/// The greatest number of a position.
const LAST_POINT: u64 = 99_999;

/// The id in the line `trace ID` at the front, and the text after the line.
#[tactic(auto, unfolding(crate::specs::Reading::trace_at))]
pub fn read_trace(text: &[u8]) -> Option<(u32, &[u8])>
    ensures { seen result ≡ trace_at text.now }
{
    let (id, rest) = short_number_after(text, b"trace ")?;
    let rest = after(rest, b"\n")?;
    Some((id, rest))
}

// The end line of the trace, and the text after it.
#[tactic(auto, unfolding(crate::specs::Reading::end_at))]
fn end_line(place: Place, text: &[u8]) -> Option<(Line, &[u8])>
    ensures value { seen result ≡ end_at place text.now }
    ensures id { place.id < 2 ^ 32 }
{
    let (id, rest) = short_number_after(text, b"end ")?;
    if id != place.id || place.waiting.is_some() {
        return None;
    }
    let rest = after(rest, b"\n")?;
    Some((Line::End, rest))
}

// The text after these bytes and the number of the next position.
#[tactic(auto, unfolding(crate::specs::Reading::numbered_at))]
fn numbered<'a>(text: &'a [u8], bytes: &[u8], next: u32) -> Option<&'a [u8]>
    ensures { option_copied result ≡ numbered_at bytes.now next text.now }
{
    let (point, rest) = number_after(text, bytes, LAST_POINT)?;
    if point != u64::from(next) {
        return None;
    }
    Some(rest)
}

// The line of the next position, which has no candidate, and the text after it.
#[tactic(auto, unfolding(crate::specs::Reading::none_at))]
fn none_line(place: Place, text: &[u8]) -> Option<(Line, &[u8])>
    ensures { seen result ≡ none_at place text.now }
{
    let rest = numbered(text, b"none ", place.next)?;
    if place.waiting.is_some() {
        return None;
    }
    let rest = after(rest, b"\n")?;
    Some((Line::Point(Label::Missing), rest))
}

// The line of the next position, which has candidates, and the text after it.
#[tactic(auto, unfolding(crate::specs::Reading::label_at))]
fn label_line(place: Place, text: &[u8]) -> Option<(Line, &[u8])>
    ensures { seen result ≡ label_at place text.now }
{
    let rest = numbered(text, b"at ", place.next)?;
    let (edge, rest) = short_number_after(rest, b" edge ")?;
    let (offset, rest) = short_number_after(rest, b" offset ")?;
    let (d2, rest) = number_after(rest, b" d2 ", u64::MAX)?;
    let rest = after(rest, b"\n")?;
    Some((Line::Point(Label::On { edge, offset, d2 }), rest))
}

// A piece line up to the word `route`.
#[derive(Clone, Copy)]
struct Head<'a> {
    first: u32,
    last: u32,
    cost: u64,
    rest: &'a [u8],
}

#[tactic(auto, unfolding(crate::specs::PieceHead::head_at))]
fn piece_head(text: &[u8]) -> Option<Head>
    ensures { option_map head_of result ≡ head_at text.now }
{
    let (first, rest) = short_number_after(text, b"piece ")?;
    let (last, rest) = short_number_after(rest, b" ")?;
    let (cost, rest) = number_after(rest, b" cost ", u64::MAX)?;
    let rest = after(rest, b" route")?;
    Some(Head {
        first,
        last,
        cost,
        rest,
    })
}

// The edges of a route up to the end of its line, and the text after the line.
fn route(alloc: Global, text: &[u8]) -> Result<Option<(List<u32>, &[u8])>, AllocError>
    ensures { IfOk result (λ read. ReadsRoute text.now (seen read)) }
{
    let mut route = List::new(alloc);
    let mut rest = text;
    while let Some((edge, next)) = short_number_after(rest, b" ") {
        route.push(edge)?;
        rest = next;
    }
    let Some(rest) = after(rest, b"\n") else {
        return Ok(None);
    };
    Ok(Some((route, rest)))
}

/// The piece whose line is at the front, if it is allowed at this place, and the text after it.
///
/// A piece line is allowed where positions wait: its first and last positions are those that wait, and its route
/// has at least one edge.
pub fn read_piece(
    alloc: Global,
    place: Place,
    text: &[u8],
) -> Result<Option<(Routed, &[u8])>, AllocError>
    ensures { IfOk result (λ read. ReadsPiece place text.now (seen read)) }
{
    let Some(head) = piece_head(text) else {
        return Ok(None);
    };
    if !is_open(place, head.first, head.last) {
        return Ok(None);
    }
    let Some((route, rest)) = route(alloc, head.rest)? else {
        return Ok(None);
    };
    if route.len() == 0 {
        return Ok(None);
    }
    let piece = Routed {
        first: head.first,
        last: head.last,
        cost: head.cost,
        route,
    };
    Ok(Some((piece, rest)))
}

// Whether the positions from `first` to `last` are those that wait for a piece line.
fn is_open(place: Place, first: u32, last: u32) -> bool
    ensures { IsTrue result ↔ ((place.waiting ≡ Some first) × (last + 1 ≡ place.next)) }
{
    place.waiting == Some(first) && u64::from(last) + 1 == u64::from(place.next)
}

/// The line at the front of the text, if it is allowed at this place, and the text after it.
pub fn next_line(
    alloc: Global,
    place: Place,
    text: &[u8],
) -> Result<Option<(Line, &[u8])>, AllocError>
    ensures { IfOk result (λ read. ReadsLine place text.now (seen read)) }
{
    match first_byte(text) {
        b'a' => Ok(label_line(place, text)),
        b'n' => Ok(none_line(place, text)),
        b'e' => Ok(end_line(place, text)),
        b'p' => {
            let Some((piece, rest)) = read_piece(alloc, place, text)? else {
                return Ok(None);
            };
            Ok(Some((Line::Piece(piece), rest)))
        }
        _ => Ok(None),
    }
}

// The first byte, or 0.
fn first_byte(text: &[u8]) -> u8
    ensures { result ≡ slice_index text.now 0 }
{
    text.first().copied().unwrap_or(0)
}
