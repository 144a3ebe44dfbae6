//! The texts of matches, written in threads. Serves `match`; decided by `text_of_matches`.
ghost use Rattle.std.specs.Prelude.{◌≡◌, ◌+◌, ◌<◌, ◌≤◌, ◌^◌, ◌++◌, All, IfOk, OnOk, length};
ghost use Rattle.std.specs.Thread.{IsSync};
ghost use Rattle.match_text.specs.MatchText.{IsLawful};
ghost use Rattle.match_work.specs.Matched.{pieces_in};
ghost use Rattle.match_work.specs.inside.Calls.{text_of_matches};

use match_text::{MatchedTrace, write_match};
use plain_list::List;
use std::alloc::{AllocError, Global};
use std::thread::{Threads, join_mut};

// The number of lines below which a text is written sooner than a thread is started. Speed only: any value is
// right.
const FEW_LINES: usize = 4096;

// The text of some matches, and the number of their pieces.
#[derive(Drop)]
struct Part {
    text: List<u8>,
    pieces: u64,
}

/// Appends the texts of matches in at most this many threads, and returns the number of their pieces. On
/// `Err`, some of the texts may have been appended.
///
/// The calling thread starts all threads and writes the first part straight into `into`: a thread that was
/// started by one that has just begun often shares its processor for a while.
#[cycle(writes)]
pub fn write_in_threads<R: Threads + Sync>(
    rt: &R,
    alloc: Global,
    threads: u32,
    matches: &[MatchedTrace],
    into: &mut List<u8>,
) -> Result<u64, AllocError>
    requires lawful { All IsLawful matches.now }
    requires few { pieces_in matches.now ≤ 2 ^ 62 }
    ensures text { OnOk result (into.new ≡ into.old ++ text_of_matches matches.now) }
    ensures pieces { IfOk result (λ pieces. pieces ≡ pieces_in matches.now) }
{
    if threads < 2 || matches.len() < 2 || has_few_lines(matches) {
        return write_matches(alloc, matches, into);
    }
    write_last_apart(rt, alloc, threads, matches, into)
}

// Whether the text of matches is too short for threads. Only speed depends on it.
fn has_few_lines(matches: &[MatchedTrace]) -> bool {
    let mut lines: usize = 0;
    for matched in matches {
        lines = lines.saturating_add(matched.labels.len());
    }
    lines < FEW_LINES
}

/// Writes the last part of the matches in a new thread, and meanwhile the matches before it in the other
/// threads.
// A function of its own, so that its `requires` say that there is a part to split off.
#[cycle(writes)]
fn write_last_apart<R: Threads + Sync>(
    rt: &R,
    alloc: Global,
    threads: u32,
    matches: &[MatchedTrace],
    into: &mut List<u8>,
) -> Result<u64, AllocError>
    requires lawful { All IsLawful matches.now }
    requires few { pieces_in matches.now ≤ 2 ^ 62 }
    requires many { (1 < threads) × (1 < length matches.now) }
    ensures text { OnOk result (into.new ≡ into.old ++ text_of_matches matches.now) }
    ensures pieces { IfOk result (λ pieces. pieces ≡ pieces_in matches.now) }
{
    let count = matches.len();
    let (front, last) = matches.split_at(count - (count / threads as usize).max(1));
    let fewer = threads - 1;
    let mut one = ||
        requires { All IsLawful last.now × (pieces_in last.now ≤ 2 ^ 62) }
        ensures { IfOk result (λ part. (part.text ≡ text_of_matches last.entry.now)
            × (part.pieces ≡ pieces_in last.entry.now)) }
    { text_of_part(alloc, last) };
    let mut others = ||
        requires { IsSync R.row × All IsLawful front.now × (pieces_in front.now ≤ 2 ^ 62) }
        ensures text { OnOk result (into.exit.now ≡ into.entry.now ++ text_of_matches front.entry.now) }
        ensures pieces { IfOk result (λ pieces. pieces ≡ pieces_in front.entry.now) }
    { write_in_threads(rt, alloc, fewer, front, into) };
    let (part, pieces) = join_mut(rt, &mut one, &mut others);
    append_part(part?, pieces?, into)
}

// Appends the text of a part after the text of this many pieces, and returns the number of all pieces.
fn append_part(part: Part, pieces: u64, into: &mut List<u8>) -> Result<u64, AllocError>
    requires { pieces + part.pieces < 2 ^ 64 }
    ensures text { OnOk result (into.new ≡ into.old ++ part.text) }
    ensures pieces { IfOk result (λ sum. sum ≡ pieces + part.pieces) }
{
    into.extend_from_slice(part.text.as_slice())?;
    Ok(pieces + part.pieces)
}

// The texts of matches, apart from the texts before them.
fn text_of_part(alloc: Global, matches: &[MatchedTrace]) -> Result<Part, AllocError>
    requires lawful { All IsLawful matches.now }
    requires few { pieces_in matches.now ≤ 2 ^ 62 }
    ensures text { IfOk result (λ part. part.text ≡ text_of_matches matches.now) }
    ensures pieces { IfOk result (λ part. part.pieces ≡ pieces_in matches.now) }
{
    let mut text = List::new(alloc);
    let pieces = write_matches(alloc, matches, &mut text)?;
    Ok(Part { text, pieces })
}

/// Appends the texts of matches, and returns the number of their pieces.
pub fn write_matches(
    alloc: Global,
    matches: &[MatchedTrace],
    into: &mut List<u8>,
) -> Result<u64, AllocError>
    requires lawful { All IsLawful matches.now }
    requires few { pieces_in matches.now ≤ 2 ^ 62 }
    ensures text { OnOk result (into.new ≡ into.old ++ text_of_matches matches.now) }
    ensures pieces { IfOk result (λ pieces. pieces ≡ pieces_in matches.now) }
{
    let mut pieces = 0;
    for matched in matches {
        write_match(alloc, matched, into)?;
        pieces += matched.pieces.len() as u64;
    }
    Ok(pieces)
}
