//! Reads the match text of a trace. Serves all who take such texts; decided by `text_of` and
//! `IsLawful`.
ghost use Rattle.std.specs.Prelude.{◌≡◌, ℕ, IfOk, IsErrOf, MatchResult};
ghost use Rattle.match_text.specs.declared.matched.MatchedTrace.{MatchedTrace};
ghost use Rattle.match_text.specs.MatchText.{text_of, IsLawful, Fits, IsFirstBadLine};
ghost use Rattle.match_text.specs.Grammar.{ReadsLines};

use crate::fault::TextFault;
use crate::matched::{Label, MatchedTrace, Routed};
use crate::place::{Line, Place, place_after};
use crate::scan::{next_line, read_trace};
use plain_list::List;
use std::alloc::Global;

/// The matched trace whose match text this is.
///
/// A text that is not a match text has a first line that is not allowed at its place or is missing;
/// the fault has its number, from 1.
pub fn read_match(alloc: Global, text: &[u8]) -> Result<MatchedTrace, TextFault>
    // The result is lawful, and the text is exactly its text.
    ensures found { IfOk result (λ m. IsLawful m × (text.now ≡ text_of m)) }
    // The text of a lawful matched trace reads back as that trace, unless memory runs out.
    ensures only { (m : MatchedTrace) → IsLawful m → Fits m → text.now ≡ text_of m
        → MatchResult result (λ read. read ≡ m) (λ fault. fault ≡ TextFault.Memory) }
    // Which line is bad.
    ensures bad_line { (n : ℕ) → IsErrOf result (TextFault.BadLine n) → IsFirstBadLine n text.now }
{
    let Some((id, rest)) = read_trace(text) else {
        return Err(TextFault::BadLine(1));
    };
    let (labels, pieces) = read_lines(alloc, id, rest)?;
    Ok(MatchedTrace { id, labels, pieces })
}

// The labels and pieces in the lines after the trace line, up to the end of the text.
fn read_lines(alloc: Global, id: u32, text: &[u8]) -> Result<(List<Label>, List<Routed>), TextFault>
    ensures { ReadsLines id text.now result }
{
    let mut labels = List::new(alloc);
    let mut pieces = List::new(alloc);
    let mut place = Place {
        id,
        next: 0,
        waiting: None,
    };
    let mut rest = text;
    let mut number: u64 = 2;
    loop {
        let Some((line, after)) = next_line(alloc, place, rest)? else {
            return Err(TextFault::BadLine(number));
        };
        place = place_after(place, &line);
        number += 1;
        rest = after;
        match line {
            Line::Point(label) => labels.push(label)?,
            Line::Piece(piece) => pieces.push(piece)?,
            Line::End => break,
        }
    }
    if rest.is_empty() {
        Ok((labels, pieces))
    } else {
        Err(TextFault::BadLine(number))
    }
}
