//! Points and their distances.
ghost use Rattle.std.specs.Prelude.{◌≡◌, ◌≤◌, ◌-ℤ◌};
ghost use Rattle.std.specs.Int.RustNames.{unsigned_abs};
ghost use Rattle.polyline_geometry.specs.Plane.{InRange, distance2, straight};

use crate::square_root::root;

/// A point of the plane, in centimetres. Calls require coordinates within ±1,000,000,000.
#[derive(Clone, Copy, PartialEq, Eq, Debug)]
pub struct Point {
    pub x: i32,
    pub y: i32,
}

/// The snap of a point to a segment or a line.
#[derive(Clone, Copy, PartialEq, Eq, Debug)]
pub struct Snap {
    /// The squared distance from the point to the snapped point, in cm².
    pub d2: u64,
    /// How far along the line the snapped point lies, in cm.
    pub offset: u32,
}

/// The distance of two coordinates.
fn gap(a: i32, b: i32) -> u64
    requires a_in { unsigned_abs a ≤ 1_000_000_000 }
    requires b_in { unsigned_abs b ≤ 1_000_000_000 }
    ensures value { result ≡ unsigned_abs (a -ℤ b) }
    ensures small { result ≤ 2_000_000_000 }
{
    u64::from(a.abs_diff(b))
}

/// The squared distance of two points, in cm².
pub fn distance2(a: Point, b: Point) -> u64
    requires a_in { InRange a }
    requires b_in { InRange b }
    ensures value { result ≡ distance2 a b }
    ensures small { result ≤ 8_000_000_000_000_000_000 }
{
    let x = gap(a.x, b.x);
    let y = gap(a.y, b.y);
    x * x + y * y
}

/// The straight distance of two points in cm, rounded down.
pub fn straight(a: Point, b: Point) -> u32
    requires a_in { InRange a }
    requires b_in { InRange b }
    ensures value { result ≡ straight a b }
    ensures small { result ≤ 2_828_427_124 }
{
    root(u128::from(distance2(a, b))) as u32
}
