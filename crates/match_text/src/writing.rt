//! Writes the match text of a trace. Serves the program; decided by `text_of`.
ghost use Rattle.std.specs.Prelude.{◌≡◌, ◌++◌, length, take, OnOk, OnErr};
ghost use Rattle.std.specs.List.{concat};
ghost use Rattle.match_text.specs.MatchText.{text_of, point_lines, IsLawful};

use crate::line::{write_end, write_label, write_piece, write_trace};
use crate::matched::{Label, MatchedTrace, Routed};
use plain_list::List;
use std::alloc::{AllocError, Global};

/// Appends the match text of the trace. On `Err`, `into` is unchanged.
pub fn write_match(_alloc: Global, m: &MatchedTrace, into: &mut List<u8>) -> Result<(), AllocError>
    requires { IsLawful m.now }
    ensures ok { OnOk result (into.new ≡ into.old ++ text_of m.now) }
    ensures err { OnErr result (into.new ≡ into.old) }
{
    let len = into.len();
    let written = append_match(m, into);
    if written.is_err() {
        into.truncate(len);
    }
    written
}

// Appends the match text of the trace. On `Err`, some lines may remain at the end.
fn append_match(m: &MatchedTrace, into: &mut List<u8>) -> Result<(), AllocError>
    ensures ok { OnOk result (into.new ≡ into.old ++ text_of m.now) }
    ensures err { OnErr result (take (length into.old) into.new ≡ into.old) }
{
    write_trace(m.id, into)?;
    append_points(m.labels.as_slice(), m.pieces.as_slice(), into)?;
    write_end(m.id, into)
}

// Appends the lines of the positions and of the pieces. On `Err`, some may remain at the end.
fn append_points(labels: &[Label], pieces: &[Routed], into: &mut List<u8>) -> Result<(), AllocError>
    ensures ok { OnOk result (into.new ≡ into.old ++ concat (point_lines 0 labels.now pieces.now)) }
    ensures err { OnErr result (take (length into.old) into.new ≡ into.old) }
{
    let mut unwritten = pieces;
    for (point, label) in labels.iter().enumerate() {
        write_label(point as u64, *label, into)?;
        if let [piece, rest @ ..] = unwritten {
            if piece.last as usize == point {
                write_piece(piece, into)?;
                unwritten = rest;
            }
        }
    }
    Ok(())
}
