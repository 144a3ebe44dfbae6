//! Points with their indices, and groups of them divided in two by position. Serves `EdgeScan`; decided
//! by `IsPlaced` and `AreHalves`.
ghost use Rattle.std.specs.Prelude.{◌<◌, ◌^◌, ◌++◌, ◌∷◌, [], IfOk, IfSome, OnOk, length};
ghost use Rattle.std.specs.List.Sorted.{IsPermutation};
ghost use Rattle.grid_index.specs.Extent.{AreCorners};
ghost use Rattle.candidate_search.specs.inside.Placed.{AreHalves, ArePlaced, both};

use crate::boxes::{Cut, middle};
use grid_index::Extent;
use polyline_geometry::Point;
use std::alloc::{AllocError, Global};

/// How many positions share the last visit of boxes. Speed only: any value is right.
const FEW: usize = 4;

/// A position with its index in the request.
#[derive(Clone, Copy)]
pub(crate) struct Placed {
    pub(crate) place: u32,
    pub(crate) at: Point,
}

/// The positions of a group, divided in two.
#[derive(Drop)]
pub(crate) struct Halves {
    pub(crate) below: Vec<Placed>,
    pub(crate) above: Vec<Placed>,
}

/// Positions with their indices.
pub(crate) fn with_places(alloc: Global, points: &[Point]) -> Result<Vec<Placed>, AllocError>
    requires { length points.now < 2 ^ 32 }
    ensures { IfOk result (λ group. ArePlaced points.now group.items) }
{
    let mut group = Vec::with_capacity(alloc, points.len())?;
    for place in 0..points.len() {
        group.push(Placed {
            place: place as u32,
            at: points[place],
        })?;
    }
    Ok(group)
}

impl Halves {
    /// Takes one more position, on its side of the division.
    fn take(&mut self, cut: Cut, point: Placed) -> Result<(), AllocError>
        ensures { OnOk result (IsPermutation (both self.old ++ point ∷ []) (both self.new)) }
    {
        if cut.has_below(point.at) {
            self.below.push(point)?;
            Ok(())
        } else {
            self.above.push(point)?;
            Ok(())
        }
    }
}

/// The positions of a group on each side of the middle of its extent; `None` if they are few, or all on one side.
pub(crate) fn cut_in_two(
    alloc: Global,
    group: &[Placed],
    extent: Extent,
) -> Result<Option<Halves>, AllocError>
    requires { AreCorners extent }
    ensures { IfOk result (λ halves. IfSome halves (AreHalves group.now)) }
{
    if group.len() <= FEW {
        return Ok(None);
    }
    let cut = middle(extent);
    let mut halves = Halves {
        below: Vec::new(alloc),
        above: Vec::new(alloc),
    };
    for point in group {
        halves.take(cut, *point)?;
    }
    if halves.below.is_empty() || halves.above.is_empty() {
        return Ok(None);
    }
    Ok(Some(halves))
}
