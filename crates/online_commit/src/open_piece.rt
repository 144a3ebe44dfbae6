//! The open piece as a whole. Serves `feed`; decided by `IsGrown`.
ghost use Rattle.std.specs.Prelude.{◌≡◌, IfOk, OnErr, length};
ghost use Rattle.online_commit.specs.inside.Pieces.{IsGrown, MayGrow, alone, empty_piece, shown_piece, whole_of};

use crate::feeding::{Tail, extend, no_tail};
use crate::history::History;
use crate::items::Item;
use plain_list::List;
use road_network::Candidate;
use std::alloc::{AllocError, Global};
use trellis::{Layer, Potentials};

/// The open piece, or the place where the next one may begin: the candidates of its first positions, which are
/// settled, and the positions after them. Proofs read the layers and the cells of all its positions.
pub struct OpenPiece {
    pub first: u32,
    pub settled: Vec<Candidate>,
    pub tail: Tail,
    pub layers: History<Layer>,
    pub tables: History<Potentials>,
}

// By hand, so that the functions that drop one call this.
impl Drop for OpenPiece {
    fn drop(self) {
        let OpenPiece {
            first: _,
            settled: _,
            tail: _,
            layers: _,
            tables: _,
        } = self;
    }
}

/// A piece without positions. Allocates nothing.
pub fn no_piece(alloc: Global, first: u32) -> OpenPiece
    ensures { whole_of result ≡ alone (empty_piece first) }
{
    OpenPiece {
        first,
        settled: Vec::new(alloc),
        tail: no_tail(alloc, first),
        layers: History::new(),
        tables: History::new(),
    }
}

/// The piece of these positions.
pub fn piece_alone(tail: Tail) -> OpenPiece
    requires { length tail.layers.items ≡ length tail.tables.items }
    ensures { whole_of result ≡ alone (shown_piece tail) }
{
    let mut layers = History::new();
    let mut tables = History::new();
    for point in 0..tail.layers.len() {
        layers = layers.with(&tail.layers[point]);
        tables = tables.with(&tail.tables[point]);
    }
    OpenPiece {
        first: tail.first,
        settled: Vec::new(tail.alloc),
        tail,
        layers,
        tables,
    }
}

/// Appends a position with its cells to the open piece, and returns the items of the positions that it commits.
pub fn grow(
    piece: &mut OpenPiece,
    layer: Layer,
    cells: Potentials,
) -> Result<List<Item>, AllocError>
    requires { MayGrow (shown_piece piece.old.tail) cells }
    ensures ok { IfOk result (IsGrown (whole_of piece.old) layer cells (whole_of piece.new)) }
    ensures err { OnErr result (whole_of piece.new ≡ whole_of piece.old) }
{
    let layers = piece.layers.with(&layer);
    let tables = piece.tables.with(&cells);
    let items = extend(&mut piece.tail, layer, cells)?;
    piece.layers = layers;
    piece.tables = tables;
    Ok(items)
}
