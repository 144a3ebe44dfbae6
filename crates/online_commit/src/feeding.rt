//! The kept positions of the open piece, and how a new position continues it. Serves `feed`; decided by `AreMasks` and `AreSettled`.
ghost use Rattle.std.specs.Prelude.{◌≡◌, ◌+◌, ◌<◌, ◌≤◌, ◌^◌, ◌∷◌, [], ◌++◌, ℕ, IsOk, IfOk, OnErr, OnOk, length, slice_index_or, vec_len, vec_capacity};
ghost use Rattle.std.specs.List.{All};
ghost use Rattle.bounded_table.specs.Rows.{AreRowsOf, AsksFor};
ghost use Rattle.cost_model.specs.Options.{IsAccepted};
ghost use Rattle.road_network.specs.Net.{Net};
ghost use Rattle.online_commit.specs.inside.Masks.{AreMasks, HasFewRanks, mask_at, mask_written};
ghost use Rattle.online_commit.specs.Session.{IsFedLayer};
ghost use Rattle.online_commit.specs.inside.Steps.{AsksStep, IsSession, TellsCells};
ghost use Rattle.online_commit.specs.inside.Pieces.{HasRoomForLayer, IsAppended, IsBegun, IsExtended, MayGrow, Settles, session_of, shown_piece};

use crate::items::Item;
use crate::masks::changed_masks;
use crate::open_piece::OpenPiece;
use crate::settled::{Growing, settled_items};
use bounded_table::Rows;
use cost_model::Params;
use plain_list::List;
use road_network::Network;
use std::alloc::{AllocError, Global};
use trellis::{Cell, Layer, Potentials, first_layer, is_near, least_cell, next_layer};

/// The positions of the open piece that are kept, or the place where the next one may begin: the first of them, how
/// many of them were returned, and for each its layer, its cells and the ranks that are still possible.
pub struct Tail {
    pub alloc: Global,
    pub first: u32,
    pub told: u32,
    pub layers: Vec<Layer>,
    pub tables: Vec<Potentials>,
    pub masks: Vec<u32>,
}

// By hand, so that the functions that drop one call this.
impl Drop for Tail {
    fn drop(self) {
        let Tail {
            alloc: _,
            first: _,
            told: _,
            layers: _,
            tables: _,
            masks: _,
        } = self;
    }
}

/// No positions. Allocates nothing.
pub fn no_tail(alloc: Global, first: u32) -> Tail
    ensures { shown_piece result ≡ record { first = first; told = 0; layers = []; tables = []; masks = [] } }
{
    Tail {
        alloc,
        first,
        told: 0,
        layers: Vec::new(alloc),
        tables: Vec::new(alloc),
        masks: Vec::new(alloc),
    }
}

/// The cells of the layer that continues the open piece, or `None` if it does not continue it or no
/// piece is open.
pub fn next_cells<R: Rows>(
    net: &Network,
    p: &Params,
    rows: &mut R,
    piece: &OpenPiece,
    layer: &Layer,
) -> Result<Option<Potentials>, AllocError>
    requires rows { AreRowsOf (R.state rows.old) net.now p.now.bound }
    requires session { IsSession (session_of net.now p.now piece.now) }
    requires layer { IsFedLayer net.now p.now layer.now }
    ensures next { IfOk result (TellsCells (session_of net.now p.now piece.now) layer.now) }
    ensures asks { AsksFor (R.state rows.old) (AsksStep (session_of net.now p.now piece.now) layer.now)
        result (R.state rows.new) }
{
    let tail = &piece.tail;
    if tail.layers.len() == 0 || layer.candidates.len() == 0 {
        return Ok(None);
    }
    net.invariants();
    let (layers, tables) = (tail.layers.as_slice(), tail.tables.as_slice());
    let last = layers.len() - 1;
    let (before, costs) = (&layers[last], &tables[last]);
    if !is_near(p, before, layer) {
        return Ok(None);
    }
    let cells = next_layer(tail.alloc, net, p, rows, before, costs, layer)?;
    if least_cell(cells.as_slice()).cost.is_none() {
        return Ok(None);
    }
    Ok(Some(cells))
}

/// Writes the masks of the last positions, from the last one back.
fn write_masks(masks: &mut [u32], changed: &[u32])
    requires { length changed.now ≤ length masks.old }
    ensures { (i : ℕ) → i < length masks.old
        → mask_at masks.new i ≡ mask_written masks.old changed.now i }
{
    for back in 0..changed.len() {
        let point = masks.len() - 1 - back;
        masks[point] = changed[back];
    }
}

/// Appends the position; there is room for it.
fn append_point(
    piece: &mut Tail,
    layer: Layer,
    cells: Potentials,
    changed: &[u32],
) -> Result<(), AllocError>
    requires room { HasRoomForLayer piece.old }
    requires changed { length changed.now ≤ vec_len piece.old.masks + 1 }
    ensures ok { IsOk result }
    ensures told { piece.new.told ≡ piece.old.told }
    ensures appended { IsAppended (shown_piece piece.old) layer cells changed.now (shown_piece piece.new) }
{
    piece.layers.push(layer)?;
    piece.tables.push(cells)?;
    piece.masks.push(0)?;
    write_masks(&mut piece.masks, changed);
    Ok(())
}

/// Reserves room for one more position.
fn make_room(piece: &mut Tail) -> Result<(), AllocError>
    ensures same { shown_piece piece.new ≡ shown_piece piece.old }
    ensures room { OnOk result (HasRoomForLayer piece.new) }
{
    piece.layers.reserve(1)?;
    piece.tables.reserve(1)?;
    piece.masks.reserve(1)?;
    Ok(())
}

/// The masks that change if a position with these cells follows the piece, and the items of the positions that it
/// commits.
fn settle(piece: &Tail, layer: &Layer, cells: &[Cell]) -> Result<(Vec<u32>, List<Item>), AllocError>
    requires { MayGrow (shown_piece piece.now) cells.now }
    ensures { IfOk result (λ made. Settles (shown_piece piece.now) layer.now cells.now made.0.items made.1) }
{
    let changed = changed_masks(piece.alloc, &piece.tables, &piece.masks, cells)?;
    let growing = Growing {
        first: piece.first,
        layers: &piece.layers,
        layer,
        masks: &piece.masks,
        changed: &changed,
    };
    let items = settled_items(piece.alloc, &growing, piece.told as usize)?;
    Ok((changed, items))
}

/// Appends a position with its cells to the open piece, and returns the items of the positions that it commits.
pub fn extend(piece: &mut Tail, layer: Layer, cells: Potentials) -> Result<List<Item>, AllocError>
    requires { MayGrow (shown_piece piece.old) cells }
    ensures ok { IfOk result (IsExtended (shown_piece piece.old) layer cells (shown_piece piece.new)) }
    ensures err { OnErr result (shown_piece piece.new ≡ shown_piece piece.old) }
{
    let (changed, items) = settle(piece, &layer, cells.as_slice())?;
    make_room(piece)?;
    append_point(piece, layer, cells, &changed)?;
    piece.told += items.len() as u32;
    Ok(items)
}

/// The piece that begins with this position (or none, if it has no candidate), and the item of the position if it
/// is committed.
pub fn begin(
    alloc: Global,
    p: &Params,
    index: u32,
    layer: Layer,
) -> Result<(Tail, List<Item>), AllocError>
    requires options { IsAccepted p.now }
    requires few { index < 100_000 }
    requires layer { (net : Net) × IsFedLayer net p.now layer }
    ensures { IfOk result (λ begun. IsBegun p.now index layer (shown_piece begun.0) begun.1) }
{
    let mut piece = no_tail(alloc, index);
    if layer.candidates.len() == 0 {
        let mut items = List::new(alloc);
        items.push(Item::Missing(index))?;
        piece.first = index + 1;
        return Ok((piece, items));
    }
    let cells = first_layer(alloc, p, &layer)?;
    let items = extend(&mut piece, layer, cells)?;
    Ok((piece, items))
}
