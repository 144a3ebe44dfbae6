//! Runs of segments, the units that a grid stores. Serves `Entries` and candidate searches; decided by
//! `IsRunOf`.
ghost use Rattle.std.specs.Prelude.{◌≡◌, ◌+◌, ◌<◌, ◌≤◌, length, ◌≤ℤ◌};
ghost use Rattle.std.specs.Int.RustNames.{unsigned_abs};
ghost use Rattle.polyline_geometry.specs.Plane.{InRange, IsLine};
ghost use Rattle.grid_index.specs.Runs.{HasCorners, IsBelow, IsBoxDistance, IsNumberedAbove, IsRunFrom, IsRunOf, twin_of_run};

use polyline_geometry::{Point, distance2, nearest_in_box};
use road_network::EdgeId;

/// The most segments of a run. Speed only: any value is right.
const MOST_SEGMENTS: usize = 16;

/// How wide and how high the box of a run of several segments may be, in cm. Speed only: any value is right.
const WIDEST: u32 = 20_000;

/// Consecutive segments of an edge's line, `first..end`, with two opposite corners of a box around
/// them.
#[derive(Clone, Copy)]
pub struct Run {
    pub edge: EdgeId,
    pub first: u32,
    pub end: u32,
    pub low: Point,
    pub high: Point,
    /// The edge with the same line in the opposite direction, which the run also serves, or the run's
    /// own edge if it has none: an `Option` would take 4 bytes more.
    pub twin: EdgeId,
}

/// The lesser of two coordinates.
fn lesser(a: i32, b: i32) -> i32
    requires a_in { unsigned_abs a ≤ 1_000_000_000 }
    requires b_in { unsigned_abs b ≤ 1_000_000_000 }
    ensures small { unsigned_abs result ≤ 1_000_000_000 }
    ensures first { result ≤ℤ a }
    ensures second { result ≤ℤ b }
{
    if a <= b { a } else { b }
}

/// The greater of two coordinates.
fn greater(a: i32, b: i32) -> i32
    requires a_in { unsigned_abs a ≤ 1_000_000_000 }
    requires b_in { unsigned_abs b ≤ 1_000_000_000 }
    ensures small { unsigned_abs result ≤ 1_000_000_000 }
    ensures first { a ≤ℤ result }
    ensures second { b ≤ℤ result }
{
    if a <= b { b } else { a }
}

/// The low corner of a box that holds two places.
pub(crate) fn low_corner(a: Point, b: Point) -> Point
    requires a_in { InRange a }
    requires b_in { InRange b }
    ensures in_range { InRange result }
    ensures first { IsBelow result a }
    ensures second { IsBelow result b }
{
    Point {
        x: lesser(a.x, b.x),
        y: lesser(a.y, b.y),
    }
}

/// The high corner of a box that holds two places.
pub(crate) fn high_corner(a: Point, b: Point) -> Point
    requires a_in { InRange a }
    requires b_in { InRange b }
    ensures in_range { InRange result }
    ensures first { IsBelow a result }
    ensures second { IsBelow b result }
{
    Point {
        x: greater(a.x, b.x),
        y: greater(a.y, b.y),
    }
}

impl Run {
    /// The edge with the same line in the opposite direction, if there is one.
    pub fn twin(self) -> Option<EdgeId>
        ensures { result ≡ twin_of_run self }
    {
        if self.twin == self.edge {
            None
        } else {
            Some(self.twin)
        }
    }

    /// The run of one segment.
    fn of_segment(edge: EdgeId, twin: Option<EdgeId>, line: &[Point], first: usize) -> Run
        requires line { IsLine line.now }
        requires few { length line.now ≤ 1_000_000 }
        requires first { first + 1 < length line.now }
        requires above { IsNumberedAbove edge.0 twin }
        ensures { IsRunFrom line.now edge twin first result × (result.end ≡ first + 1) }
    {
        let (a, b) = (line[first], line[first + 1]);
        Run {
            edge,
            first: first as u32,
            end: first as u32 + 1,
            low: low_corner(a, b),
            high: high_corner(a, b),
            twin: twin.unwrap_or(edge),
        }
    }

    /// The run with one more segment, which ends at the next point of its line.
    fn with(self, line: &[Point]) -> Run
        requires line { IsLine line.now }
        requires few { length line.now ≤ 1_000_000 }
        requires run { IsRunOf line.now self }
        requires next { self.end + 1 < length line.now }
        ensures { IsRunFrom line.now self.edge (twin_of_run self) self.first result
            × (result.end ≡ self.end + 1) }
    {
        let next = line[self.end as usize + 1];
        Run {
            end: self.end + 1,
            low: low_corner(self.low, next),
            high: high_corner(self.high, next),
            ..self
        }
    }

    /// The squared distance of a point and the nearest place of the box, in cm².
    pub(crate) fn distance2(self, p: Point) -> u64
        requires p_in { InRange p }
        requires corners { HasCorners self }
        ensures { IsBoxDistance self p result }
    {
        distance2(p, nearest_in_box(self.low, self.high, p))
    }

    /// Whether the box is small enough for a run of several segments.
    fn is_small(self) -> bool {
        self.high.x.abs_diff(self.low.x) <= WIDEST && self.high.y.abs_diff(self.low.y) <= WIDEST
    }

    /// A run that begins with a segment: as many segments as stay small together, or that one alone.
    pub(crate) fn from(edge: EdgeId, twin: Option<EdgeId>, line: &[Point], first: usize) -> Run
        requires line { IsLine line.now }
        requires few { length line.now ≤ 1_000_000 }
        requires first { first + 1 < length line.now }
        requires above { IsNumberedAbove edge.0 twin }
        ensures { IsRunFrom line.now edge twin first result }
    {
        let mut run = Run::of_segment(edge, twin, line, first);
        for next in first + 2..line.len().min(first + 1 + MOST_SEGMENTS) {
            let longer = run.with(line);
            if !longer.is_small() {
                return run;
            }
            run = longer;
        }
        run
    }
}
