//! The lines of a match text, each written whole or not at all. Serves `write_match`; decided by
//! `trace_line`, `label_line`, `piece_line` and `end_line`.
ghost use Rattle.std.specs.Prelude.{◌≡◌, ◌+◌, ◌≤◌, ◌++◌, ◌∷◌, [], length, take, drop, OnOk, OnErr};
ghost use Rattle.decimal_text.specs.Number.{decimal};
ghost use Rattle.match_text.specs.MatchText.{trace_line, label_line, piece_line, end_line};
ghost use Rattle.match_text.specs.inside.Parts.{piece_head, numbers_text};

use crate::matched::{Label, Routed};
use decimal_text::{put_worded, write_worded};
use plain_list::List;
use std::alloc::AllocError;

// Room for the longest line with a fixed number of words, `at`: four numbers of at most 20 digits.
const ROOM: usize = 112;

/// Appends the line `trace ID`. On `Err`, `into` is unchanged.
pub fn write_trace(id: u32, into: &mut List<u8>) -> Result<(), AllocError>
    ensures ok { OnOk result (into.new ≡ into.old ++ trace_line id) }
    ensures err { OnErr result (into.new ≡ into.old) }
{
    write_line(b"trace ", u64::from(id), into)
}

/// Appends the line `end ID`. On `Err`, `into` is unchanged.
pub fn write_end(id: u32, into: &mut List<u8>) -> Result<(), AllocError>
    ensures ok { OnOk result (into.new ≡ into.old ++ end_line id) }
    ensures err { OnErr result (into.new ≡ into.old) }
{
    write_line(b"end ", u64::from(id), into)
}

/// Appends the line of the position with this number: `at I edge E offset O d2 D` or `none I`. On `Err`, `into` is
/// unchanged.
pub fn write_label(point: u64, label: Label, into: &mut List<u8>) -> Result<(), AllocError>
    ensures ok { OnOk result (into.new ≡ into.old ++ label_line point label) }
    ensures err { OnErr result (into.new ≡ into.old) }
{
    match label {
        Label::Missing => write_line(b"none ", point, into),
        Label::On { edge, offset, d2 } => {
            let mut line = [b'\n'; ROOM];
            let start = put_worded(b" d2 ", d2, &mut line, ROOM - 1);
            let start = put_worded(b" offset ", u64::from(offset), &mut line, start);
            let start = put_worded(b" edge ", u64::from(edge), &mut line, start);
            let start = put_worded(b"at ", point, &mut line, start);
            into.extend_from_slice(&line[start..])
        }
    }
}

/// Appends the line `piece F L cost C route E1 E2 ..`. On `Err`, `into` is unchanged.
pub fn write_piece(piece: &Routed, into: &mut List<u8>) -> Result<(), AllocError>
    ensures ok { OnOk result (into.new ≡ into.old ++ piece_line piece.now) }
    ensures err { OnErr result (into.new ≡ into.old) }
{
    let len = into.len();
    let written = append_piece(piece, into);
    if written.is_err() {
        into.truncate(len);
    }
    written
}

// Appends the line of a piece. On `Err`, a part of it may remain at the end.
fn append_piece(piece: &Routed, into: &mut List<u8>) -> Result<(), AllocError>
    ensures ok { OnOk result (into.new ≡ into.old ++ piece_line piece.now) }
    ensures err { OnErr result (take (length into.old) into.new ≡ into.old) }
{
    write_head(piece, into)?;
    append_numbers(piece.route.as_slice(), into)?;
    into.extend_from_slice(b"\n")
}

// Appends the line of a piece up to its route. On `Err`, `into` is unchanged.
fn write_head(piece: &Routed, into: &mut List<u8>) -> Result<(), AllocError>
    ensures ok { OnOk result (into.new ≡ into.old ++ piece_head piece.now) }
    ensures err { OnErr result (into.new ≡ into.old) }
{
    let mut line = [0; ROOM];
    line[ROOM - 6..].copy_from_slice(b" route");
    let start = put_worded(b" cost ", piece.cost, &mut line, ROOM - 6);
    let start = put_worded(b" ", u64::from(piece.last), &mut line, start);
    let start = put_worded(b"piece ", u64::from(piece.first), &mut line, start);
    into.extend_from_slice(&line[start..])
}

// Appends each number after a space. On `Err`, some of them may remain at the end.
#[tactic(auto, using(crate::proofs::Kept::kept))]
fn append_numbers(numbers: &[u32], into: &mut List<u8>) -> Result<(), AllocError>
    ensures ok { OnOk result (into.new ≡ into.old ++ numbers_text numbers.now) }
    ensures err { OnErr result (take (length into.old) into.new ≡ into.old) }
{
    for number in numbers {
        write_worded(b" ", u64::from(*number), into)?;
    }
    Ok(())
}

// Appends a line of a word and a number. On `Err`, `into` is unchanged.
fn write_line(word: &[u8], number: u64, into: &mut List<u8>) -> Result<(), AllocError>
    requires { length word.now ≤ 8 }
    ensures ok { OnOk result (into.new ≡ into.old ++ (word.now ++ (decimal number ++ 10 ∷ []))) }
    ensures err { OnErr result (into.new ≡ into.old) }
{
    let mut line = [b'\n'; 32];
    let start = put_worded(word, number, &mut line, 31);
    into.extend_from_slice(&line[start..])
}
