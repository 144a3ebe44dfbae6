//! The plane in whole centimetres.
//!
//! - [`Point`] is a position; [`straight`] is the straight distance of two points, rounded down.
//! - A line is a slice of points; [`line_length`] adds up its segments, and [`extend_offsets`] records
//!   how far along the line each point lies.
//! - [`snap_segment`] and [`snap_line`] project a point onto a segment or a line and return a
//!   [`Snap`]: the squared distance to the projected point, and how far along the line that point lies.
//! - [`nearest_segment`] and [`snap_on`] are the two halves of a snap to a line, for callers that
//!   search a part of a line or store the lengths before its segments. [`offset_on`] is the second half
//!   for callers that store the squared distance and the offsets of the line's points.
//! - [`nearest_segments`] returns the first and the last of the nearest segments, for callers that also
//!   need the nearest segment of the reversed line.
//! - [`nearest_in_box`] is the point of a box that is nearest to a point.
//!
//! No arithmetic wraps, and only [`extend_offsets`] allocates. The definitions are in `specs/Plane.antt`; read
//! the clause of [`snap_line`] first.
#![tactic(auto)]

mod laws;
mod line;
mod nearest_place;
mod offsets;
mod plane;
mod quotient;
mod segment;
mod square_root;

pub use laws::snap_is_the_nearest;
pub use line::{
    NearSegment, NearSegments, line_length, nearest_segment, nearest_segments, offset_on,
    snap_line, snap_on,
};
pub use nearest_place::nearest_in_box;
pub use offsets::extend_offsets;
pub use plane::{Point, Snap, distance2, straight};
pub use segment::snap_segment;
pub use square_root::root;
