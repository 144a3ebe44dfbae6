//! The boxes of points, of lines and of a whole network. They show that a point is far from the whole
//! network without visiting a cell. Serves `Grid` and scans of edges; decided by `Widens` and `IsExtentOf`.
ghost use Rattle.std.specs.Prelude.{◌+◌, ◌<◌, ◌≤◌, ◌⊎◌, length, IsTrue, [], ◌∷◌};
ghost use Rattle.polyline_geometry.specs.Plane.{InRange, IsLine};
ghost use Rattle.grid_index.specs.Extent.{AreCorners, IsApart, IsExtentOf, Widens};

use crate::cells::shifted;
use crate::runs::{high_corner, low_corner};
use polyline_geometry::Point;
use road_network::{EdgeId, Network};

/// The greatest coordinate of a point.
const MOST: i32 = 1_000_000_000;

/// Two opposite corners of a box, with coordinates in cm.
#[derive(Clone, Copy)]
pub struct Extent {
    /// The corner of lesser x and y, in cm.
    pub low: Point,
    /// The corner of greater x and y, in cm.
    pub high: Point,
}

/// Whether a shifted coordinate differs by more than `reach` from every one between two others.
fn is_beside(low: u32, high: u32, z: u32, reach: u32) -> bool
    requires high_in { high ≤ 2_001_000_000 }
    requires z_in { z ≤ 2_001_000_000 }
    requires reach { reach ≤ 1_000_000 }
    ensures { IsTrue result → (z + reach < low) ⊎ (high + reach < z) }
{
    z + reach < low || high + reach < z
}

impl Extent {
    /// The extent with one more point.
    pub fn with_point(self, point: Point) -> Extent
        requires corners { AreCorners self }
        requires in_range { InRange point }
        ensures { Widens self result (point ∷ []) }
    {
        Extent {
            low: low_corner(self.low, point),
            high: high_corner(self.high, point),
        }
    }

    /// The extent with the points of one more line.
    pub fn with_line(self, line: &[Point]) -> Extent
        requires corners { AreCorners self }
        requires line { IsLine line.now }
        ensures { Widens self result line.now }
    {
        let mut extent = self;
        for point in line {
            extent = extent.with_point(*point);
        }
        extent
    }

    /// An extent that contains the lines of a network.
    pub(crate) fn of(net: &Network) -> Extent
        ensures { IsExtentOf net.now (length net.now.edges) result }
    {
        net.invariants();
        let mut extent = Extent {
            low: Point { x: MOST, y: MOST },
            high: Point { x: -MOST, y: -MOST },
        };
        for number in 0..net.edge_count() {
            extent = extent.with_line(net.line(EdgeId(number)));
        }
        extent
    }

    /// Whether the square around a point with half side `reach` lies outside the box.
    pub(crate) fn is_apart(self, p: Point, reach: u32) -> bool
        requires corners { AreCorners self }
        requires p_in { InRange p }
        requires reach { reach ≤ 1_000_000 }
        ensures { IsTrue result → IsApart self p reach }
    {
        let (left, right) = (shifted(self.low.x), shifted(self.high.x));
        let (bottom, top) = (shifted(self.low.y), shifted(self.high.y));
        is_beside(left, right, shifted(p.x), reach) || is_beside(bottom, top, shifted(p.y), reach)
    }
}
