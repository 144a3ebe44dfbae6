//! The one cell at which a run is considered: the cell of its box's nearest point. Serves `Grid`;
//! decided by `IsNearestCell` and `IsBoxDistance`.
ghost use Rattle.std.specs.Prelude.{◌≡◌, ℕ, ◌+◌, ◌-◌, ◌*◌, ◌/◌, ◌<◌, ◌≤◌, ◌↔◌, MatchOption, max, min};
ghost use Rattle.std.specs.Int.RustNames.{unsigned_abs};
ghost use Rattle.polyline_geometry.specs.Plane.{InRange};
ghost use Rattle.road_network.specs.Net.{Net};
ghost use Rattle.grid_index.specs.NearestCell.{HasNoneNearer, IsNearestCell, apart2, nearest_between};
ghost use Rattle.grid_index.specs.Runs.{HasCorners, IsBelow, IsBoxDistance};

use crate::cells::shifted;
use crate::runs::Run;
use polyline_geometry::Point;

/// The greatest coordinate difference that a distance counts.
const MOST: u64 = 1 << 31;

/// The coordinate from `low` to `high` that is nearest to z, shifted.
fn nearest_between(low: i32, high: i32, z: i32) -> u32
    requires low_in { unsigned_abs low ≤ 1_000_000_000 }
    requires high_in { unsigned_abs high ≤ 1_000_000_000 }
    requires z_in { unsigned_abs z ≤ 1_000_000_000 }
    ensures value { result ≡ nearest_between low high z }
    ensures small { result ≤ 2_001_000_000 }
{
    shifted(low).max(shifted(z).min(shifted(high)))
}

/// How far a shifted coordinate is from the low end of the column, or the row, of a number; more than
/// the side if it is before that.
fn past(x: u32, number: u32, side: u32) -> u64
    requires some { 1 ≤ side }
    requires few { side ≤ 1_000_000 }
    ensures { (result < side) ↔ (x / side ≡ number) }
{
    u64::from(x).wrapping_sub(u64::from(number) * u64::from(side))
}

/// A lower bound on the distance of a shifted coordinate from boxes whose nearest coordinate lies in
/// this column or row.
fn gap(x: u32, number: u32, side: u32) -> u64
    requires some { 1 ≤ side }
    requires few { side ≤ 1_000_000 }
    ensures small { result ≤ 2_147_483_648 }
    ensures least { (low high y : ℕ) → max low (min x high) / side ≡ number → low ≤ y → y ≤ high
        → result ≤ x - y + (y - x) }
{
    let (x, side) = (u64::from(x), u64::from(side));
    let low = u64::from(number) * side;
    if x < low {
        (low - x).min(MOST)
    } else {
        x.saturating_sub(low + side - 1).min(MOST)
    }
}

/// The squared difference of two shifted coordinates.
fn apart2(a: u32, b: u32) -> u64
    requires a_small { a ≤ 2_001_000_000 }
    requires b_small { b ≤ 2_001_000_000 }
    ensures value { result ≡ apart2 a b }
    ensures small { result ≤ 4_004_001_000_000_000_000 }
{
    let apart = u64::from(a.abs_diff(b));
    apart * apart
}

/// The squared distance from p to the nearest point of a run's box, in cm², if that point lies in
/// the cell of this column and row.
pub(crate) fn distance2_in_cell(
    run: &Run,
    p: Point,
    column: u32,
    row: u32,
    side: u32,
) -> Option<u64>
    requires some { 1 ≤ side }
    requires few { side ≤ 1_000_000 }
    requires corners { HasCorners run.now × IsBelow run.now.low run.now.high }
    requires p_in { InRange p }
    ensures { MatchOption result (IsNearestCell side p run.now column row → ⊥)
        (λ d2. IsNearestCell side p run.now column row × IsBoxDistance run.now p d2) }
{
    let x = nearest_between(run.low.x, run.high.x, p.x);
    let y = nearest_between(run.low.y, run.high.y, p.y);
    // One test, since a branch for each coordinate is hard to predict.
    if past(x, column, side).max(past(y, row, side)) < u64::from(side) {
        Some(apart2(x, shifted(p.x)) + apart2(y, shifted(p.y)))
    } else {
        None
    }
}

/// A lower bound, in cm², on the squared distance from p to the boxes whose nearest point lies in the
/// cell of this column and row.
pub(crate) fn cell_distance2(p: Point, column: u32, row: u32, side: u32) -> u64
    requires some { 1 ≤ side }
    requires few { side ≤ 1_000_000 }
    requires p_in { InRange p }
    ensures { (net : Net) → HasNoneNearer net side p column row result }
{
    let (x, y) = (
        gap(shifted(p.x), column, side),
        gap(shifted(p.y), row, side),
    );
    x * x + y * y
}
