//! Lines: their length, the segments nearest to a point, and the snap of a point to a line.
//! Decided by `line_length`, `IsNearest`, `AreNearest` and `snap_line`.
ghost use Rattle.std.specs.Prelude.{◌≡◌, suc, ◌+◌, ◌^◌, ◌<◌, ◌≤◌, All, length, take, MatchOption};
ghost use Rattle.polyline_geometry.specs.Plane.{AreEnds, InRange, IsLine, after, line_length, snap_line, snap_segment};
ghost use Rattle.polyline_geometry.specs.Nearest.{AreFar, AreNearest, AreOffsetsFor, IsLengthBefore, IsNearest, segment_snap};

use crate::nearest_place::nearest_in_box;
use crate::plane::{Point, Snap, distance2, straight};
use crate::segment::{offset_along, snap_distance2, snap_segment};

/// The sum of the segments of a line.
fn sum_of_segments(line: &[Point]) -> u64
    requires in_range { All InRange line.now }
    requires fits { line_length line.now < 2 ^ 64 }
    ensures { result ≡ line_length line.now }
{
    let mut total: u64 = 0;
    for i in 1..line.len() {
        total += u64::from(straight(line[i - 1], line[i]));
    }
    total
}

/// The length of a line in cm: the sum over its segments. A line of fewer than two points has length 0.
#[tactic(auto, using(crate::proofs::Lengths::line_length_small))]
pub fn line_length(line: &[Point]) -> u64
    requires in_range { All InRange line.now }
    requires few { length line.now ≤ 1_000_000 }
    ensures { result ≡ line_length line.now }
{
    sum_of_segments(line)
}

/// The squared distance from a point to the box of the segment from a to b. The snapped point
/// is in that box.
fn box_distance2(a: Point, b: Point, p: Point) -> u64
    requires ends { AreEnds a b }
    requires p_in { InRange p }
    ensures { result ≤ (snap_segment a b p).d2 }
{
    distance2(p, nearest_in_box(a, b, p))
}

/// The squared distance from a point to its snapped point on a segment, if it is below the limit.
/// The box of a segment alone rules out most segments.
fn distance2_below(a: Point, b: Point, p: Point, limit: u64) -> Option<u64>
    requires ends { AreEnds a b }
    requires p_in { InRange p }
    ensures { MatchOption result (limit ≤ (snap_segment a b p).d2)
        (λ d2. (d2 ≡ (snap_segment a b p).d2) × (d2 < limit)) }
{
    if box_distance2(a, b, p) < limit {
        let d2 = snap_distance2(a, b, p);
        if d2 < limit { Some(d2) } else { None }
    } else {
        None
    }
}

/// A segment of a line, by its number from 0, with the squared distance in cm² from a point to its
/// snapped point on the segment.
#[derive(Clone, Copy, PartialEq, Eq, Debug)]
pub struct NearSegment {
    pub segment: usize,
    pub d2: u64,
}

/// The first of the nearest segments in `first..end`, if one is nearer than the limit. The box of a
/// segment alone rules out most segments.
pub fn nearest_segment(
    line: &[Point],
    first: usize,
    end: usize,
    p: Point,
    limit: u64,
) -> Option<NearSegment>
    requires line { IsLine line.now }
    requires order { first ≤ end }
    requires end { end < length line.now }
    requires p_in { InRange p }
    ensures { MatchOption result (AreFar line.now p limit first end)
        (λ s. IsNearest line.now p first end s × (s.d2 < limit)) }
{
    let mut nearest = None;
    let mut below = limit;
    for i in first..end {
        if let Some(d2) = distance2_below(line[i], line[i + 1], p, below) {
            below = d2;
            nearest = Some(NearSegment { segment: i, d2 });
        }
    }
    nearest
}

/// The first and the last of the nearest segments in a part of a line, by their numbers from 0.
#[derive(Clone, Copy, PartialEq, Eq, Debug)]
pub struct NearSegments {
    pub first: usize,
    pub last: usize,
    /// The squared distance from the point to its snapped points on them, in cm².
    pub d2: u64,
}

/// The first and the last of the nearest segments in `first..end`, if one is nearer than the limit.
/// One pass; the box of a segment alone rules out most segments.
pub fn nearest_segments(
    line: &[Point],
    first: usize,
    end: usize,
    p: Point,
    limit: u64,
) -> Option<NearSegments>
    requires line { IsLine line.now }
    requires order { first ≤ end }
    requires end { end < length line.now }
    requires p_in { InRange p }
    ensures { MatchOption result (AreFar line.now p limit first end)
        (λ s. AreNearest line.now p first end s × (s.d2 < limit)) }
{
    let mut nearest: Option<NearSegments> = None;
    let mut below = limit;
    for i in first..end {
        if let Some(d2) = distance2_below(line[i], line[i + 1], p, below) {
            let earliest = match nearest {
                Some(before) if before.d2 == d2 => before.first,
                _ => i,
            };
            nearest = Some(NearSegments {
                first: earliest,
                last: i,
                d2,
            });
            // A later segment at the same distance also counts.
            below = d2 + 1;
        }
    }
    nearest
}

/// The length of a line before a segment.
fn length_before(line: &[Point], segment: usize) -> u32
    requires line { IsLine line.now }
    requires length { line_length line.now ≤ 100_000_000 }
    requires segment { segment + 1 < length line.now }
    ensures { IsLengthBefore line.now segment result }
{
    sum_of_segments(&line[..segment + 1]) as u32
}

/// The snap of a point to one segment of a line. `before` is the total length of the earlier segments.
pub fn snap_on(line: &[Point], before: u32, p: Point, segment: usize) -> Snap
    requires line { IsLine line.now }
    requires length { line_length line.now ≤ 100_000_000 }
    requires p_in { InRange p }
    requires before { IsLengthBefore line.now segment before }
    ensures { result
        ≡ after (line_length (take (suc segment) line.now)) (segment_snap line.now p segment) }
{
    let snap = snap_segment(line[segment], line[segment + 1], p);
    Snap {
        d2: snap.d2,
        offset: before + snap.offset,
    }
}

/// How far along a line a point snaps to, given the segment and the offsets of the line's points.
/// Needs no square root.
pub fn offset_on(line: &[Point], offsets: &[u32], p: Point, segment: usize) -> u32
    requires line { IsLine line.now }
    requires length { line_length line.now ≤ 100_000_000 }
    requires p_in { InRange p }
    requires offsets { AreOffsetsFor line.now segment offsets.now }
    ensures { result ≡ line_length (take (suc segment) line.now)
        + (segment_snap line.now p segment).offset }
{
    let before = offsets[segment];
    let length = offsets[segment + 1] - before;
    before + offset_along(line[segment], line[segment + 1], p, length)
}

/// The snap of a point to a line.
pub fn snap_line(line: &[Point], p: Point) -> Snap
    requires line { IsLine line.now }
    requires length { line_length line.now ≤ 100_000_000 }
    requires p_in { InRange p }
    ensures { result ≡ snap_line line.now p }
{
    let near = nearest_segment(line, 0, line.len() - 1, p, u64::MAX).unwrap();
    snap_on(line, length_before(line, near.segment), p, near.segment)
}
