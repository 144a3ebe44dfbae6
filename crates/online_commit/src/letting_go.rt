//! Settled positions of the open piece, of which only the candidate is kept. Serves `feed`; decided by `IsLetGo`.
ghost use Rattle.std.specs.Prelude.{◌≡◌, ◌-◌, ◌≤◌, IfOk, OnErr, drop, length};
ghost use Rattle.online_commit.specs.inside.Pieces.{AreFirstSettled, GoesOn, IsEven, IsLetGo, MayGrow, shown_piece, shorter, whole_of};

use crate::feeding::Tail;
use crate::items::Item;
use crate::masks::only_rank;
use crate::open_piece::{OpenPiece, grow};
use crate::settled::candidate;
use plain_list::List;
use road_network::Candidate;
use std::alloc::AllocError;
use trellis::{Layer, Potentials};

/// How many settled positions stay kept while no more than half of the kept ones are settled.
const FEW: usize = 16;

/// How many positions may be let go: all settled ones but the last, once they are most of the kept ones, so that
/// moving the others costs a constant time a position.
fn spare(tail: &Tail) -> usize
    requires { tail.now.told ≤ length tail.now.layers.items }
    ensures { result ≤ tail.now.told - 1 }
{
    let told = tail.told as usize;
    if told < FEW || told < tail.layers.len() - told {
        return 0;
    }
    told - 1
}

/// Drops the first `count` items.
fn drop_first<T: Drop>(items: &mut Vec<T>, count: usize)
    requires { count ≤ length items.old.items }
    ensures { items.new.items ≡ drop count items.old.items }
{
    let keep = items.len() - count;
    items.as_mut_slice().rotate_left(count);
    items.truncate(keep);
}

/// Appends the candidates of the first positions, at most `count`, and returns how many. It stops where memory runs
/// out: then the other positions stay kept.
fn settle_first(settled: &mut Vec<Candidate>, tail: &Tail, count: usize) -> usize
    requires { IsEven (shown_piece tail.now) × (count ≤ length tail.now.layers.items) }
    ensures few { result ≤ count }
    ensures settled { AreFirstSettled (shown_piece tail.now) settled.old.items result settled.new.items }
{
    for point in 0..count {
        let Some(rank) = only_rank(tail.masks[point]) else {
            return point;
        };
        if settled.push(candidate(&tail.layers[point], rank)).is_err() {
            return point;
        }
    }
    count
}

/// Drops the first `count` positions.
fn shorten(tail: &mut Tail, count: usize)
    requires { IsEven (shown_piece tail.old) × (count ≤ tail.old.told) }
    ensures { shown_piece tail.new ≡ shorter (shown_piece tail.old) count }
{
    drop_first(&mut tail.layers, count);
    drop_first(&mut tail.tables, count);
    drop_first(&mut tail.masks, count);
    tail.first += count as u32;
    tail.told -= count as u32;
}

/// Lets go of settled positions: of these only the candidate is kept.
fn let_go(piece: &mut OpenPiece)
    requires { IsEven (shown_piece piece.old.tail) }
    ensures { IsLetGo (whole_of piece.old) (whole_of piece.new) }
{
    let count = spare(&piece.tail);
    let gone = settle_first(&mut piece.settled, &piece.tail, count);
    shorten(&mut piece.tail, gone);
}

/// Appends a position with its cells to the open piece, and returns the items of the positions that it commits. Then
/// settled positions may be let go.
pub fn go_on(
    piece: &mut OpenPiece,
    layer: Layer,
    cells: Potentials,
) -> Result<List<Item>, AllocError>
    requires { MayGrow (shown_piece piece.old.tail) cells }
    ensures ok { IfOk result (GoesOn (whole_of piece.old) layer cells (whole_of piece.new)) }
    ensures err { OnErr result (whole_of piece.new ≡ whole_of piece.old) }
{
    let items = grow(piece, layer, cells)?;
    let_go(piece);
    Ok(items)
}
