//! Boxes of edges, and the boxes near a box of positions. Serves `EdgeScan`; decided by `AreBoxes` and `touches`.
ghost use Rattle.std.specs.Prelude.{◌≡◌, ◌<◌, ◌≤◌, All, IfOk, length, map, pos, ◌+ℤ◌, ◌-ℤ◌};
ghost use Rattle.std.specs.Int.RustNames.{unsigned_abs};
ghost use Rattle.std.specs.List.{filter, range_with_len};
ghost use Rattle.polyline_geometry.specs.Plane.{InRange};
ghost use Rattle.road_network.specs.Net.{HasEdge};
ghost use Rattle.grid_index.specs.Extent.{AreCorners};
ghost use Rattle.candidate_search.specs.inside.Boxes.{AreBoxes, HoldsPoints, IsEdgeBox, IsGrown, overlap, touches};
ghost use Rattle.candidate_search.specs.inside.Placed.{points_of};

use crate::placed::Placed;
use grid_index::Extent;
use polyline_geometry::Point;
use road_network::{EdgeId, Network};
use std::alloc::{AllocError, Global};

/// A line parallel to an axis that divides positions: those on it count as below.
#[derive(Clone, Copy)]
pub(crate) enum Cut {
    /// Positions up to this x are below.
    X(i32),
    /// Positions up to this y are below.
    Y(i32),
}

/// An edge with a box around its line.
#[derive(Clone, Copy)]
pub(crate) struct EdgeBox {
    pub(crate) edge: EdgeId,
    pub(crate) extent: Extent,
}

/// A coordinate minus this many cm.
fn less(z: i32, by: u32) -> i32
    requires small { unsigned_abs z ≤ 1_000_000_000 }
    requires by { by ≤ 100_000 }
    ensures { result ≡ z -ℤ pos by }
{
    z - by as i32
}

/// A coordinate plus this many cm.
fn more(z: i32, by: u32) -> i32
    requires small { unsigned_abs z ≤ 1_000_000_000 }
    requires by { by ≤ 100_000 }
    ensures { result ≡ z +ℤ pos by }
{
    z + by as i32
}

/// Both corners at one place.
fn extent_at(place: Point) -> Extent
    requires { InRange place }
    ensures { AreCorners result }
{
    Extent {
        low: place,
        high: place,
    }
}

/// Whether the numbers from `low` up to `high` and those from `first` up to `last` overlap.
fn overlap(low: i32, high: i32, first: i32, last: i32) -> bool
    ensures { result ≡ overlap low high first last }
{
    low <= last && first <= high
}

impl Cut {
    /// Whether a position is below.
    pub(crate) fn has_below(self, at: Point) -> bool {
        match self {
            Cut::X(x) => at.x <= x,
            Cut::Y(y) => at.y <= y,
        }
    }
}

/// The extent of these positions.
pub(crate) fn extent_of(group: &[Placed]) -> Extent
    requires some { 0 < length group.now }
    requires in_range { All (λ x. InRange x.at) group.now }
    ensures { HoldsPoints (points_of group.now) result }
{
    let mut extent = extent_at(group[0].at);
    for point in group {
        extent = extent.with_point(point.at);
    }
    extent
}

/// The line across the middle of the longer side.
pub(crate) fn middle(extent: Extent) -> Cut
    requires { AreCorners extent }
{
    let (low, high) = (extent.low, extent.high);
    let width = high.x - low.x;
    let height = high.y - low.y;
    if width >= height {
        Cut::X((low.x + high.x) / 2)
    } else {
        Cut::Y((low.y + high.y) / 2)
    }
}

/// The extent grown by `reach` cm on each side.
pub(crate) fn grown(extent: Extent, reach: u32) -> Extent
    requires corners { AreCorners extent }
    requires reach { reach ≤ 100_000 }
    ensures { IsGrown reach extent result }
{
    Extent {
        low: Point {
            x: less(extent.low.x, reach),
            y: less(extent.low.y, reach),
        },
        high: Point {
            x: more(extent.high.x, reach),
            y: more(extent.high.y, reach),
        },
    }
}

/// Whether two boxes have a point in common.
fn touches(one: Extent, other: Extent) -> bool
    ensures { result ≡ touches one other }
{
    overlap(one.low.x, one.high.x, other.low.x, other.high.x)
        && overlap(one.low.y, one.high.y, other.low.y, other.high.y)
}

/// The box of an edge.
fn box_of(net: &Network, edge: EdgeId) -> EdgeBox
    requires { HasEdge net.now edge.0 }
    ensures extent { IsEdgeBox net.now result }
    ensures edge { result.edge ≡ edge }
{
    net.invariants();
    let line = net.line(edge);
    EdgeBox {
        edge,
        extent: extent_at(line[0]).with_line(line),
    }
}

/// The boxes of all edges.
pub(crate) fn boxes_of(alloc: Global, net: &Network) -> Result<Vec<EdgeBox>, AllocError>
    ensures boxes { IfOk result (λ boxes. AreBoxes net.now boxes.items) }
    ensures all { IfOk result (λ boxes.
        map (λ b. b.edge.0) boxes.items ≡ range_with_len 0 (length net.now.edges)) }
{
    let mut boxes = Vec::with_capacity(alloc, net.edge_count() as usize)?;
    for number in 0..net.edge_count() {
        boxes.push(box_of(net, EdgeId(number)))?;
    }
    Ok(boxes)
}

/// The boxes that touch a box.
pub(crate) fn boxes_near(
    alloc: Global,
    boxes: &[EdgeBox],
    area: Extent,
) -> Result<Vec<EdgeBox>, AllocError>
    ensures { IfOk result (λ near. near.items ≡ filter (λ b. touches area b.extent) boxes.now) }
{
    let mut near = Vec::new(alloc);
    for edge_box in boxes {
        if touches(area, edge_box.extent) {
            near.push(*edge_box)?;
        }
    }
    Ok(near)
}
