//! The snap of a point to a segment. Serves `snap_segment` and `nearest_segment`; decided by
//! `snap_segment`.
ghost use Rattle.std.specs.Prelude.{◌≡◌, ℕ, ◌*◌, ◌/◌, ◌-◌, ◌^◌, ◌<◌, ◌≤◌, pos, negsuc, ◌≤ℤ◌, ◌+ℤ◌, ◌-ℤ◌, ◌*ℤ◌};
ghost use Rattle.std.specs.Int.{int_div_euclid};
ghost use Rattle.std.specs.Int.RustNames.{unsigned_abs};
ghost use Rattle.polyline_geometry.specs.Plane.{AreEnds, InRange, along, distance2, dot, share, snap_segment, snapped, straight};
ghost use Rattle.polyline_geometry.specs.inside.Parts.{IsPartOf, IsShare};

use crate::plane::{Point, Snap, distance2, straight};
use crate::quotient::quotient;

/// For a coordinate difference below this, its product with a share below [`FEW`] fits 64 bits.
const SHORT: u64 = 1 << 21;

const FEW: u64 = 1 << 42;

/// The first coordinate minus the second.
fn difference(a: i32, b: i32) -> i64
    requires a_in { unsigned_abs a ≤ 1_000_000_000 }
    requires b_in { unsigned_abs b ≤ 1_000_000_000 }
    ensures value { result ≡ a -ℤ b }
    ensures small { unsigned_abs result ≤ 2_000_000_000 }
{
    i64::from(a) - i64::from(b)
}

/// The product of two differences.
fn product(x: i64, y: i64) -> i64
    requires x_in { unsigned_abs x ≤ 2_000_000_000 }
    requires y_in { unsigned_abs y ≤ 2_000_000_000 }
    ensures value { result ≡ x *ℤ y }
    ensures small { unsigned_abs result ≤ 4_000_000_000_000_000_000 }
{
    x * y
}

/// The sum of two products.
fn sum(x: i64, y: i64) -> i64
    requires x_in { unsigned_abs x ≤ 4_000_000_000_000_000_000 }
    requires y_in { unsigned_abs y ≤ 4_000_000_000_000_000_000 }
    ensures { result ≡ x +ℤ y }
{
    x + y
}

/// (P - A) · (B - A)
fn dot(a: Point, b: Point, p: Point) -> i64
    requires a_in { InRange a }
    requires b_in { InRange b }
    requires p_in { InRange p }
    ensures { result ≡ dot a b p }
{
    let across = product(difference(p.x, a.x), difference(b.x, a.x));
    let up = product(difference(p.y, a.y), difference(b.y, a.y));
    sum(across, up)
}

/// How far along the segment from a to b the point lies, as a share of the squared length.
fn share(a: Point, b: Point, p: Point) -> u64
    requires a_in { InRange a }
    requires b_in { InRange b }
    requires p_in { InRange p }
    ensures { result ≡ share a b p }
{
    let dot = dot(a, b, p);
    if dot <= 0 {
        0
    } else {
        distance2(b, a).min(dot as u64)
    }
}

/// The product of a short difference and a small share.
fn narrow_product(z: i64, t: u64) -> i64
    requires z_small { unsigned_abs z ≤ 2 ^ 21 }
    requires t_small { t < 2 ^ 42 }
    ensures { result ≡ z *ℤ pos t }
{
    z * t as i64
}

/// Maps x to itself if x ≥ 0, and else to how far x is below -1.
fn folded(x: i64) -> u64
    ensures above { pos 0 ≤ℤ x → result ≡ unsigned_abs x }
    ensures below { x ≤ℤ negsuc 0 → result ≡ unsigned_abs x - 1 }
{
    if x < 0 { (-1 - x) as u64 } else { x as u64 }
}

/// `z * t / n`, rounded towards minus infinity, in 64 bits.
#[tactic(auto, using(crate::proofs::Parts::floor_above, crate::proofs::Parts::floor_below))]
fn narrow_part(z: i64, t: u64, n: u64) -> i64
    requires z_small { unsigned_abs z ≤ 2 ^ 21 }
    requires t_small { t < 2 ^ 42 }
    requires n_some { 0 < n }
    ensures { result ≡ int_div_euclid (z *ℤ pos t) (pos n) }
{
    let product = narrow_product(z, t);
    let part = quotient(folded(product), n) as i64;
    if product < 0 { -1 - part } else { part }
}

/// The product of a difference and a share.
fn wide_product(z: i64, t: u64) -> i128
    requires { unsigned_abs z ≤ 2_000_000_000 }
    ensures { result ≡ z *ℤ pos t }
{
    i128::from(z) * i128::from(t)
}

/// `z * t / n`, rounded towards minus infinity, in 128 bits.
fn wide_part(z: i64, t: u64, n: u64) -> i128
    requires z_small { unsigned_abs z ≤ 2_000_000_000 }
    requires t_in { t ≤ n }
    requires n_some { 0 < n }
    ensures { result ≡ int_div_euclid (z *ℤ pos t) (pos n) }
{
    wide_product(z, t).div_euclid(i128::from(n))
}

/// The same number in fewer bits.
fn narrow(q: i128) -> i64
    requires { unsigned_abs q ≤ 2_000_000_000 }
    ensures { result ≡ q }
{
    q as i64
}

/// `z * t / n`, rounded towards minus infinity.
#[tactic(auto, using(crate::proofs::Parts::part_between, crate::proofs::Parts::part_small))]
fn part(z: i64, t: u64, n: u64) -> i64
    requires z_small { unsigned_abs z ≤ 2_000_000_000 }
    requires share { IsShare t n }
    ensures value { result ≡ int_div_euclid (z *ℤ pos t) (pos n) }
    ensures within { IsPartOf z result }
{
    if t < FEW && z.unsigned_abs() <= SHORT {
        narrow_part(z, t, n)
    } else {
        narrow(wide_part(z, t, n))
    }
}

/// The coordinate at a part of a difference after a.
fn shifted(a: i32, z: i64, part: i64) -> i32
    requires a_in { unsigned_abs a ≤ 1_000_000_000 }
    requires end_in { unsigned_abs (a +ℤ z) ≤ 1_000_000_000 }
    requires within { IsPartOf z part }
    ensures value { result ≡ a +ℤ part }
    ensures small { unsigned_abs result ≤ 1_000_000_000 }
{
    (i64::from(a) + part) as i32
}

/// The coordinate at `t / n` of the way from a to b.
fn along(a: i32, b: i32, t: u64, n: u64) -> i32
    requires a_in { unsigned_abs a ≤ 1_000_000_000 }
    requires b_in { unsigned_abs b ≤ 1_000_000_000 }
    requires share { IsShare t n }
    ensures value { result ≡ along a b t n }
    ensures small { unsigned_abs result ≤ 1_000_000_000 }
{
    let whole = difference(b, a);
    shifted(a, whole, part(whole, t, n))
}

/// The point at `t / n` of the way from a to b.
#[tactic(auto, using(crate::proofs::Ends::first_end, crate::proofs::Ends::last_end))]
fn snapped(a: Point, b: Point, t: u64, n: u64) -> Point
    requires a_in { InRange a }
    requires b_in { InRange b }
    requires share { IsShare t n }
    ensures value { result ≡ snapped a b t n }
    ensures in_range { InRange result }
{
    if t == 0 {
        a
    } else if t == n {
        b
    } else {
        Point {
            x: along(a.x, b.x, t, n),
            y: along(a.y, b.y, t, n),
        }
    }
}

/// The squared distance from a point to its snapped point.
#[tactic(auto, using(crate::proofs::Boxes::is_share))]
pub(crate) fn snap_distance2(a: Point, b: Point, p: Point) -> u64
    requires ends { AreEnds a b }
    requires p_in { InRange p }
    ensures { result ≡ (snap_segment a b p).d2 }
{
    distance2(p, snapped(a, b, share(a, b, p), distance2(b, a)))
}

/// `length * t / n`, rounded down.
#[tactic(auto, using(crate::proofs::Parts::div_le))]
fn part_of_length(length: u32, t: u64, n: u64) -> u32
    requires { IsShare t n }
    ensures value { result ≡ length * t / n }
    ensures within { result ≤ length }
{
    if t <= u64::from(u32::MAX) {
        quotient(u64::from(length) * t, n) as u32
    } else {
        (u128::from(length) * u128::from(t) / u128::from(n)) as u32
    }
}

/// How far along the segment from a to b a point snaps to, in cm, given the segment's length.
#[tactic(auto, using(crate::proofs::Boxes::is_share))]
pub(crate) fn offset_along(a: Point, b: Point, p: Point, length: u32) -> u32
    requires ends { AreEnds a b }
    requires p_in { InRange p }
    requires length { length ≡ straight a b }
    ensures { result ≡ (snap_segment a b p).offset }
{
    part_of_length(length, share(a, b, p), distance2(b, a))
}

/// The snap of a point to the segment from a to b.
pub fn snap_segment(a: Point, b: Point, p: Point) -> Snap
    requires a_in { InRange a }
    requires b_in { InRange b }
    requires p_in { InRange p }
    requires differ { a ≡ b → ⊥ }
    ensures { result ≡ snap_segment a b p }
{
    Snap {
        d2: snap_distance2(a, b, p),
        offset: offset_along(a, b, p, straight(a, b)),
    }
}
