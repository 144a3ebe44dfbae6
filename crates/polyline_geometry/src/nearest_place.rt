//! The box of two opposite corners, and the point of it that is nearest to a point. Serves
//! `nearest_segment`, and grids that keep boxes of their own; decided by `InBox`.
ghost use Rattle.std.specs.Prelude.{◌≡◌, ℤ, ◌-ℤ◌, ◌≤◌};
ghost use Rattle.std.specs.Int.RustNames.{unsigned_abs};
ghost use Rattle.polyline_geometry.specs.declared.plane.Point.{Point as Place};
ghost use Rattle.polyline_geometry.specs.Plane.{InRange, distance2};
ghost use Rattle.polyline_geometry.specs.Boxes.{InBox, IsBetween};

use crate::plane::Point;

/// The coordinate between a and b that is nearest to z.
fn nearest_between(a: i32, b: i32, z: i32) -> i32
    requires a_in { unsigned_abs a ≤ 1_000_000_000 }
    requires b_in { unsigned_abs b ≤ 1_000_000_000 }
    ensures small { unsigned_abs result ≤ 1_000_000_000 }
    ensures inside { IsBetween a b result }
    ensures nearest { (q : ℤ) → IsBetween a b q → unsigned_abs (z -ℤ result) ≤ unsigned_abs (z -ℤ q) }
{
    let (low, high) = if a <= b { (a, b) } else { (b, a) };
    if z < low {
        low
    } else if z > high {
        high
    } else {
        z
    }
}

/// The point in the box with the corners a and b that is nearest to p.
pub fn nearest_in_box(a: Point, b: Point, p: Point) -> Point
    requires a_in { InRange a }
    requires b_in { InRange b }
    ensures in_range { InRange result }
    ensures inside { InBox a b result }
    ensures nearest { (q : Place) → InBox a b q → distance2 p result ≤ distance2 p q }
{
    Point {
        x: nearest_between(a.x, b.x, p.x),
        y: nearest_between(a.y, b.y, p.y),
    }
}
