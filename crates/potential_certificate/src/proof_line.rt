//! A line of a proof, read. Serves `read_certificate`; decided by `line_at`.
ghost use Rattle.std.specs.Prelude.{◌≡◌, ◌<◌, ◌+◌, ◌^◌, IfOk, length};
ghost use Rattle.std.specs.Option.{option_copied, option_map};
ghost use Rattle.match_text.specs.Grammar.{IsAllowed, place_after};
ghost use Rattle.match_text.specs.Reading.{end_at, none_at, numbered_at, seen};
ghost use Rattle.potential_certificate.specs.Reading.{in_match, line_at};

use crate::layers::{layer_line, numbered};
use match_text::front::{after, short_number_after};
use match_text::{Place, Routed, read_piece};
use plain_list::List;
use std::alloc::{AllocError, Global};
use trellis::Potentials;

/// A line of a proof after its first one.
#[derive(Drop)]
pub enum ProofLine {
    /// The position has no candidate.
    Missing,
    /// The chosen rank of the position and its cells.
    Layer { rank: u32, cells: Potentials },
    Piece(Routed),
    End,
}

/// The state after this line, which is allowed at `place`.
pub fn place_after(place: Place, line: &ProofLine) -> Place
    requires { IsAllowed place (in_match line.now) }
    ensures { result ≡ place_after place (in_match line.now) }
{
    match line {
        ProofLine::Missing => Place {
            next: place.next + 1,
            ..place
        },
        ProofLine::Layer { .. } => Place {
            next: place.next + 1,
            waiting: Some(place.waiting.unwrap_or(place.next)),
            ..place
        },
        ProofLine::Piece(_) => Place {
            waiting: None,
            ..place
        },
        ProofLine::End => place,
    }
}

/// The line at the front, if it is allowed at this place, and the text after it.
pub fn next_line(
    alloc: Global,
    place: Place,
    text: &[u8],
) -> Result<Option<(ProofLine, &[u8])>, AllocError>
    ensures { IfOk result (λ read. seen read ≡ line_at place text.now) }
{
    if let Some(rest) = none_line(place, text) {
        return Ok(Some((ProofLine::Missing, rest)));
    }
    if let Some(read) = layer_line(alloc, place, text)? {
        return Ok(Some(read));
    }
    if let Some((piece, rest)) = read_piece(alloc, place, text)? {
        return Ok(Some((ProofLine::Piece(piece), rest)));
    }
    let Some(rest) = end_line(place, text) else {
        return Ok(None);
    };
    Ok(Some((ProofLine::End, rest)))
}

// The text after the line of the next position, which has no candidate.
#[tactic(auto, unfolding(match_text::specs::Reading::none_at))]
fn none_line<'a>(place: Place, text: &'a [u8]) -> Option<&'a [u8]>
    ensures { option_copied result ≡ option_map (λ read. read.1) (none_at place text.now) }
{
    let rest = numbered(text, b"none ", place.next)?;
    if place.waiting.is_some() {
        return None;
    }
    after(rest, b"\n")
}

// The text after the end line of the trace, if no position waits.
#[tactic(auto, unfolding(match_text::specs::Reading::end_at))]
fn end_line<'a>(place: Place, text: &'a [u8]) -> Option<&'a [u8]>
    ensures { option_copied result ≡ option_map (λ read. read.1) (end_at place text.now) }
{
    let (id, rest) = short_number_after(text, b"end ")?;
    if id != place.id || place.waiting.is_some() {
        return None;
    }
    after(rest, b"\n")
}
