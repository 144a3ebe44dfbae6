//! The end of a piece. Serves `feed` and `finish`; decided by `IsClosing`.
ghost use Rattle.std.specs.Prelude.{◌≡◌, ◌+◌, ◌-◌, ◌<◌, ◌≤◌, ◌^◌, [], IfOk, length};
ghost use Rattle.bounded_table.specs.Rows.{AreRowsOf, AsksOnly};
ghost use Rattle.matching.specs.PieceSteps.{AsksIn};
ghost use Rattle.online_commit.specs.inside.Pieces.{session_of};
ghost use Rattle.online_commit.specs.inside.Steps.{AreAllChosen, IsClosing, IsSession, rank_in, ranked_items};

use crate::items::Item;
use crate::open_piece::OpenPiece;
use crate::settled::candidate;
use bounded_table::Rows;
use cost_model::Params;
use plain_list::List;
use road_network::{Candidate, Network};
use route_rebuild::route_over;
use std::alloc::{AllocError, Global};
use trellis::{Layer, Piece, least_cell};
use viterbi::follow;

/// The items of the positions from `start` on, with these ranks.
fn labelled(
    alloc: Global,
    first: u32,
    layers: &[Layer],
    ranks: &[u32],
    start: usize,
) -> Result<List<Item>, AllocError>
    requires few { first + length layers.now < 2 ^ 32 }
    requires ranks { length ranks.now ≡ length layers.now }
    requires start { start ≤ length layers.now }
    ensures { IfOk result (λ items. items
        ≡ ranked_items first layers.now (rank_in ranks.now) start (length layers.now - start)) }
{
    let mut items = List::new(alloc);
    for point in start..layers.len() {
        items.push(Item::At {
            index: first + point as u32,
            candidate: candidate(&layers[point], ranks[point]),
        })?;
    }
    Ok(items)
}

/// The candidates of settled positions, and of those after them, which have these layers and ranks.
fn chosen(
    alloc: Global,
    settled: &[Candidate],
    layers: &[Layer],
    ranks: &[u32],
) -> Result<Vec<Candidate>, AllocError>
    requires { length ranks.now ≡ length layers.now }
    ensures { IfOk result (λ chosen. AreAllChosen settled.now layers.now ranks.now (length layers.now) chosen.items) }
{
    let mut chosen = Vec::from_slice(alloc, settled)?;
    for point in 0..layers.len() {
        chosen.push(candidate(&layers[point], ranks[point]))?;
    }
    Ok(chosen)
}

/// The remaining items of the open piece, if there is one: those of its positions, and the piece.
pub fn closing_items<R: Rows>(
    net: &Network,
    p: &Params,
    rows: &mut R,
    piece: &OpenPiece,
) -> Result<List<Item>, AllocError>
    requires rows { AreRowsOf (R.state rows.old) net.now p.now.bound }
    requires session { IsSession (session_of net.now p.now piece.now) }
    ensures none { IfOk result (λ items. length piece.now.tail.layers.items ≡ 0 → items ≡ []) }
    ensures some { IfOk result (λ items. 0 < length piece.now.tail.layers.items
        → IsClosing (session_of net.now p.now piece.now) items) }
    ensures asks { AsksOnly (R.state rows.old) (R.state rows.new)
        (AsksIn net.now p.now piece.now.layers.items piece.now.tables.items) }
{
    let tail = &piece.tail;
    let alloc = tail.alloc;
    if tail.layers.len() == 0 {
        return Ok(List::new(alloc));
    }
    net.invariants();
    let end = tail.layers.len() - 1;
    let tables = tail.tables.as_slice();
    let last = least_cell(tables[end].as_slice());
    let ranks = follow(alloc, tables, last.from)?;
    let ranks = ranks.as_slice();
    let mut items = labelled(alloc, tail.first, &tail.layers, ranks, tail.told as usize)?;
    let chosen = chosen(alloc, &piece.settled, &tail.layers, ranks)?;
    let route = route_over(alloc, net, p, rows, &chosen)?;
    items.push(Item::Closed {
        piece: Piece {
            first: piece.first,
            last: tail.first + end as u32,
            cost: last.cost.unwrap_or(0),
        },
        route,
    })?;
    Ok(items)
}
