//! Which candidates are wanted. Serves `candidates` and `candidates_plain`.
ghost use Rattle.std.specs.Prelude.{◌≤◌};
ghost use Rattle.polyline_geometry.specs.Plane.{InRange};

use polyline_geometry::Point;

/// For which position candidates are wanted, and which.
#[derive(Clone, Copy)]
pub(crate) struct Search {
    pub(crate) at: Point,
    pub(crate) k: usize,
    /// In cm.
    pub(crate) radius: u64,
    ghost at_in: { InRange at },
    ghost k_some: { 1 ≤ k },
    ghost radius_small: { radius ≤ 100_000 },
}
