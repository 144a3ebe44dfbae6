//! The offsets of a line's points. Serves `extend_offsets`; decided by `line_offsets`.
ghost use Rattle.std.specs.Prelude.{◌≡◌, ◌++◌, ◌+◌, ◌-◌, ◌<◌, ◌≤◌, IfOk, List as ListOf, OnErr, IsNone, IsSome, length, slice_index, take};
ghost use Rattle.std.specs.List.{All};
ghost use Rattle.polyline_geometry.specs.declared.plane.Point.{Point as PointOf};
ghost use Rattle.polyline_geometry.specs.Plane.{InRange, line_length};
ghost use Rattle.polyline_geometry.specs.Offsets.{length_within, line_offsets};

use crate::plane::{Point, straight};
use plain_list::List;
use std::alloc::AllocError;

/// The straight distance from the previous point of a line; 0 for the first point.
fn distance_before(line: &[Point], i: usize) -> u32
    requires in_range { All InRange line.now }
    requires inside { i < length line.now }
    ensures { line_length (take i line.now) + result ≡ line_length (take (i + 1) line.now) }
{
    if i == 0 {
        0
    } else {
        straight(line[i - 1], line[i])
    }
}

/// A law: the offset of the last point is the length of the line.
#[tactic(auto, using(crate::proofs::OffsetLists::last_offset))]
pub fn last_offset_is_the_length()
    ensures { (line : ListOf PointOf)
        → 1 ≤ length line → slice_index (line_offsets line) (length line - 1) ≡ line_length line }
{}

/// Appends the offset of each point of a line from its start, in cm, and returns the length of the
/// line. Returns `None` if the line is longer than the limit. One pass, one square root a segment.
pub fn extend_offsets(
    line: &[Point],
    limit: u32,
    into: &mut List<u32>,
) -> Result<Option<u32>, AllocError>
    requires { All InRange line.now }
    ensures length { IfOk result (λ found. found ≡ length_within limit line.now) }
    ensures some { IfOk result (λ found. IsSome found → into.new ≡ into.old ++ line_offsets line.now) }
    ensures none { IfOk result (λ found. IsNone found → into.new ≡ into.old) }
    ensures err { OnErr result (into.new ≡ into.old) }
{
    let before = into.len();
    let mut length: u32 = 0;
    for i in 0..line.len() {
        let longer = u64::from(length) + u64::from(distance_before(line, i));
        if longer > u64::from(limit) {
            into.truncate(before);
            return Ok(None);
        }
        length = longer as u32;
        if let Err(error) = into.push(length) {
            into.truncate(before);
            return Err(error);
        }
    }
    Ok(Some(length))
}
