//! The positions of an open piece that are committed. Serves `feed`; decided by `AreSettled`.
ghost use Rattle.std.specs.Prelude.{◌≡◌, ◌+◌, ◌<◌, ◌≤◌, ◌∷◌, [], ◌++◌, ◌^◌, ℕ, IfOk, length, slice_index_or};
ghost use Rattle.matching.specs.Layers.{candidate_of_rank};
ghost use Rattle.online_commit.specs.inside.Masks.{mask_after};
ghost use Rattle.online_commit.specs.inside.Steps.{AreSettled, ranked_items};
ghost use Rattle.route_rebuild.specs.Routes.{no_layer};

use crate::items::Item;
use crate::masks::{mask_after, only_rank};
use plain_list::List;
use road_network::{Candidate, EdgeId};
use std::alloc::{AllocError, Global};
use trellis::Layer;

/// The candidate of this rank.
pub fn candidate(layer: &Layer, rank: u32) -> Candidate
    ensures { result ≡ candidate_of_rank layer.now rank }
{
    match layer.candidates.as_slice().get(rank as usize) {
        Some(candidate) => *candidate,
        None => Candidate {
            edge: EdgeId(0),
            d2: 0,
            offset: 0,
        },
    }
}

/// A piece that begins with position `first`: the layers of its positions, and a new layer after them, with the
/// masks before and those that changed.
#[derive(Drop)]
pub struct Growing<'a> {
    pub first: u32,
    pub layers: &'a [Layer],
    pub layer: &'a Layer,
    pub masks: &'a [u32],
    pub changed: &'a [u32],
}

/// The candidate of this rank of a position.
fn candidate_at(piece: &Growing, point: usize, rank: u32) -> Candidate
    requires { point ≤ length piece.now.layers.now }
    ensures { result ≡ candidate_of_rank
        (slice_index_or (piece.now.layers.now ++ piece.now.layer.now ∷ []) point no_layer) rank }
{
    if point < piece.layers.len() {
        candidate(&piece.layers[point], rank)
    } else {
        candidate(piece.layer, rank)
    }
}

/// The items of the positions from `start` on that the new layer commits.
pub fn settled_items(alloc: Global, piece: &Growing, start: usize) -> Result<List<Item>, AllocError>
    requires few { piece.now.first + length piece.now.layers.now < 2 ^ 32 }
    requires masks { length piece.now.masks.now ≡ length piece.now.layers.now }
    requires some { 0 < length piece.now.changed.now }
    requires start { start ≤ length piece.now.layers.now }
    ensures { IfOk result (AreSettled piece.now.first (piece.now.layers.now ++ piece.now.layer.now ∷ [])
        (mask_after piece.now.masks.now piece.now.changed.now) start) }
{
    let mut items = List::new(alloc);
    for point in start..piece.layers.len() + 1 {
        let Some(rank) = only_rank(mask_after(piece.masks, piece.changed, point)) else {
            return Ok(items);
        };
        items.push(Item::At {
            index: piece.first + point as u32,
            candidate: candidate_at(piece, point, rank),
        })?;
    }
    Ok(items)
}
