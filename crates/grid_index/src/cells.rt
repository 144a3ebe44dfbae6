//! Cells of the plane, and their slots. Serves `Entries`, `Table` and looks; decided by `cell` and
//! `slot`.
ghost use Rattle.std.specs.Prelude.{◌≡◌, ℕ, ◌+◌, ◌-◌, ◌*◌, ◌/◌, ◌%◌, ◌<◌, ◌≤◌};
ghost use Rattle.std.specs.Int.RustNames.{unsigned_abs};
ghost use Rattle.polyline_geometry.specs.declared.plane.Point.{Point as Place};
ghost use Rattle.polyline_geometry.specs.Plane.{InRange};
ghost use Rattle.polyline_geometry.specs.Boxes.{InBox, InSquare};
ghost use Rattle.grid_index.specs.Cells.{AreOrdered, HasCell, cell, shifted, slot};

use polyline_geometry::Point;

/// The cells of these columns and rows; `right` and `top` are one past the last.
#[derive(Clone, Copy)]
pub struct Cells {
    pub left: u32,
    pub right: u32,
    pub bottom: u32,
    pub top: u32,
}

/// A coordinate plus 1,001,000,000, so that no square reaches below 0.
pub(crate) fn shifted(z: i32) -> u32
    requires { unsigned_abs z ≤ 1_000_000_000 }
    ensures value { result ≡ shifted z }
    ensures low { 1_000_000 ≤ result }
    ensures high { result ≤ 2_001_000_000 }
{
    (i64::from(z) + 1_001_000_000) as u32
}

impl Cells {
    /// At least the cells that the box of the segment from a to b meets.
    pub(crate) fn of_box(a: Point, b: Point, side: u32) -> Cells
        requires a_in { InRange a }
        requires b_in { InRange b }
        requires side { 1 ≤ side }
        ensures ordered { AreOrdered result }
        ensures covers { (q : Place) → InBox a b q
            → HasCell result (cell side q.x) (cell side q.y) }
    {
        let (ax, bx) = (shifted(a.x), shifted(b.x));
        let (ay, by) = (shifted(a.y), shifted(b.y));
        Cells {
            left: ax.min(bx) / side,
            right: ax.max(bx) / side + 1,
            bottom: ay.min(by) / side,
            top: ay.max(by) / side + 1,
        }
    }

    /// At least the cells that the square around p with half side `reach` meets.
    pub(crate) fn of_square(p: Point, reach: u32, side: u32) -> Cells
        requires p_in { InRange p }
        requires side { 1 ≤ side }
        requires reach { reach ≤ 1_000_000 }
        ensures { (q : Place) → InSquare p reach q
            → HasCell result (cell side q.x) (cell side q.y) }
    {
        let (x, y) = (shifted(p.x), shifted(p.y));
        Cells {
            left: (x - reach) / side,
            right: (x + reach) / side + 1,
            bottom: (y - reach) / side,
            top: (y + reach) / side + 1,
        }
    }

    /// The number of these cells.
    pub(crate) fn count(self) -> u64
        requires { AreOrdered self }
        ensures { result ≡ (self.right - self.left) * (self.top - self.bottom) }
    {
        u64::from(self.right - self.left) * u64::from(self.top - self.bottom)
    }
}

/// The slot of a cell in a table of `width` by `width` slots.
#[tactic(auto, using(crate::proofs::Slots::slot_small, crate::proofs::Slots::slot_within))]
pub(crate) fn slot(column: u32, row: u32, width: u32) -> u32
    requires some { 1 ≤ width }
    requires few { width ≤ 65_536 }
    ensures value { result ≡ slot width column row }
    ensures within { result < width * width }
{
    row % width * width + column % width
}
