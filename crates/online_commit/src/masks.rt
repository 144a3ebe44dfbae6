//! Sets of ranks, one bit for each rank below 32. Serves `settled` and `feeding`; decided by
//! `AreMasks`.
ghost use Rattle.std.specs.Prelude.{◌≡◌, ◌↔◌, ◌⊎◌, ◌+◌, ◌-◌, ◌<◌, ◌≤◌, ℕ, List as ListOf, [], ◌∷◌, ◌++◌, IsTrue, IfOk, MatchOption, length, slice_index_or};
ghost use Rattle.std.specs.List.{All};
ghost use Rattle.matching.specs.Cells.{IsLive};
ghost use Rattle.online_commit.specs.inside.Masks.{AreMasks, HasBit, HasFewRanks, ArePreviousRanks, IsLiveMask, IsNotOne, IsOnlyRank, mask_after, mask_at};

use std::alloc::{AllocError, Global};
use trellis::{Cell, Potentials};

fn has_rank(mask: u32, rank: u32) -> bool
    requires { rank < 32 }
    ensures { IsTrue result ↔ HasBit mask rank }
{
    mask >> rank & 1 == 1
}

fn with_rank(mask: u32, rank: u32) -> u32
    requires { rank < 32 }
    ensures { (r : ℕ) → HasBit result r ↔ HasBit mask r ⊎ (r ≡ rank) }
{
    mask | 1 << rank
}

/// The mask with a rank, if its cell is live.
fn with_live(mask: u32, rank: u32, cell: Cell) -> u32
    requires { rank < 32 }
    ensures { (r : ℕ) → HasBit result r ↔ HasBit mask r ⊎ ((r ≡ rank) × IsLive (cell ∷ []) 0) }
{
    match cell.cost {
        Some(_) => with_rank(mask, rank),
        None => mask,
    }
}

/// The live ranks of a position.
pub fn live_ranks(cells: &[Cell]) -> u32
    requires { HasFewRanks cells.now }
    ensures { IsLiveMask cells.now result }
{
    let mut mask = 0;
    for rank in 0..cells.len() {
        mask = with_live(mask, rank as u32, cells[rank]);
    }
    mask
}

/// The mask with the rank that a cell points to, if the cell is one of these ranks.
fn with_pointer(behind: u32, mask: u32, rank: u32, cell: Cell) -> u32
    requires rank { rank < 32 }
    requires pointer { (a : ℕ) → cell.«from» ≡ Some a → a < 32 }
    ensures { (a : ℕ) → HasBit result a ↔ HasBit behind a ⊎ (HasBit mask rank × (cell.«from» ≡ Some a)) }
{
    match cell.from {
        Some(a) if has_rank(mask, rank) => with_rank(behind, a),
        _ => behind,
    }
}

/// The ranks at the previous point to which the cells of these ranks point.
pub fn ranks_behind(cells: &[Cell], mask: u32) -> u32
    requires { HasFewRanks cells.now }
    ensures { ArePreviousRanks cells.now mask result }
{
    let mut behind = 0;
    for rank in 0..cells.len() {
        behind = with_pointer(behind, mask, rank as u32, cells[rank]);
    }
    behind
}

/// The only rank of a set of one.
pub fn only_rank(mask: u32) -> Option<u32>
    ensures { MatchOption result (IsNotOne mask) (IsOnlyRank mask) }
{
    if mask == 0 {
        return None;
    }
    let rank = mask.trailing_zeros();
    if mask == 1 << rank { Some(rank) } else { None }
}

/// The mask of a position, after those of the last positions changed.
pub fn mask_after(masks: &[u32], changed: &[u32], point: usize) -> u32
    requires point { point ≤ length masks.now }
    requires some { 0 < length changed.now }
    ensures { result ≡ mask_after masks.now changed.now point }
{
    let back = masks.len() - point;
    if back < changed.len() {
        changed[back]
    } else {
        masks[point]
    }
}

/// The masks that change if a position with these cells follows the positions of these tables: from the new
/// position back to the last one that changes.
pub fn changed_masks(
    alloc: Global,
    tables: &[Potentials],
    masks: &[u32],
    cells: &[Cell],
) -> Result<Vec<u32>, AllocError>
    requires masks { (length masks.now ≡ length tables.now)
        × (0 < length tables.now → AreMasks tables.now (mask_at masks.now) (length tables.now)) }
    requires ranks { All HasFewRanks tables.now × HasFewRanks cells.now }
    ensures { IfOk result (λ changed. (0 < length changed.items) × (length changed.items ≤ length masks.now + 1)
        × AreMasks (tables.now ++ cells.now ∷ []) (mask_after masks.now changed.items) (length tables.now + 1)) }
{
    let mut changed = Vec::new(alloc);
    let mut mask = live_ranks(cells);
    changed.push(mask)?;
    let mut behind = ranks_behind(cells, mask);
    for back in 0..masks.len() {
        let point = masks.len() - 1 - back;
        if behind == masks[point] {
            return Ok(changed);
        }
        mask = behind;
        changed.push(mask)?;
        behind = ranks_behind(tables[point].as_slice(), mask);
    }
    Ok(changed)
}
