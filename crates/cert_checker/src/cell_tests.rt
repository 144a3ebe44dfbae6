//! Tests of one cell, by the ways to it. Serves `plain_ways`; decided by `is_relaxed`, `is_tight` and
//! `is_first_pointer`.
ghost use Rattle.std.specs.Prelude.{◌≡◌, None, is_some, slice_index_or, take};
ghost use Rattle.std.specs.List.{list_any};
ghost use Rattle.cert_checker.specs.Cells.{is_cost, is_first_cell, is_first_pointer, is_relaxed, is_relaxed_by, is_tight};

use matching::Cell;

/// The least number that does not fit 64 bits.
const BEYOND: u128 = 18_446_744_073_709_551_616;

/// Whether there is any way.
pub fn has_way(column: &[Option<u128>]) -> bool
    ensures { result ≡ list_any is_some column.now }
{
    column.iter().any(|way| way.is_some())
}

/// Whether a cost is at most that of a way, if there is that way. A sum that does not fit 64 bits
/// does not bound it.
fn is_relaxed_by(cost: Option<u64>, way: Option<u128>) -> bool
    ensures { result ≡ is_relaxed_by cost way }
{
    match (cost, way) {
        (_, None) => true,
        (None, Some(_)) => false,
        (Some(cost), Some(sum)) => sum < BEYOND && u128::from(cost) <= sum,
    }
}

/// Whether a cell costs at most what each way costs.
pub fn is_relaxed(column: &[Option<u128>], cell: Cell) -> bool
    ensures { result ≡ is_relaxed column.now cell }
{
    column.iter().all(|way| is_relaxed_by(cell.cost, *way))
}

/// Whether the way exists and has this cost.
fn is_cost(cost: u64, way: Option<u128>) -> bool
    ensures { result ≡ is_cost cost way }
{
    match way {
        Some(sum) => sum == u128::from(cost),
        None => false,
    }
}

/// The way by a rank.
fn way_at(column: &[Option<u128>], rank: u32) -> Option<u128>
    ensures { result ≡ slice_index_or column.now rank None }
{
    match column.get(rank as usize) {
        Some(way) => *way,
        None => None,
    }
}

/// Whether a live cell has the cost of the way that its pointer names.
pub fn is_tight(column: &[Option<u128>], cell: Cell) -> bool
    ensures { result ≡ is_tight column.now cell }
{
    match (cell.cost, cell.from) {
        (None, _) => true,
        (Some(_), None) => false,
        (Some(cost), Some(rank)) => is_cost(cost, way_at(column, rank)),
    }
}

/// Whether a way before this rank has this cost.
fn costs_before(column: &[Option<u128>], rank: u32, cost: u64) -> bool
    ensures { result ≡ list_any (is_cost cost) (take rank column.now) }
{
    column
        .iter()
        .take(rank as usize)
        .any(|way| is_cost(cost, *way))
}

/// Whether no way before the pointer costs the same, and a cell without cost has no pointer.
pub fn is_first_pointer(column: &[Option<u128>], cell: Cell) -> bool
    ensures { result ≡ is_first_pointer column.now cell }
{
    match (cell.cost, cell.from) {
        (None, from) => from.is_none(),
        (Some(_), None) => true,
        (Some(cost), Some(rank)) => !costs_before(column, rank, cost),
    }
}

/// Whether a cell has the cost of its candidate, without a pointer.
pub fn is_first_cell(emission: u64, cell: Cell) -> bool
    ensures { result ≡ is_first_cell emission cell }
{
    cell.cost == Some(emission) && cell.from.is_none()
}
