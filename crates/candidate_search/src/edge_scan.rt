//! Scans of all edges of a network. Decided by road_network's `candidates`.
ghost use Rattle.std.specs.Prelude.{◌≡◌, ◌<◌, ◌^◌, All, IfOk, length, map};
ghost use Rattle.polyline_geometry.specs.Plane.{InRange};
ghost use Rattle.cost_model.specs.Options.{IsAccepted};
ghost use Rattle.road_network.specs.Near.{candidates};

use crate::boxes::{EdgeBox, boxes_of};
use crate::groups::{Among, empty_lists, list_group};
use crate::placed::with_places;
use cost_model::Params;
use plain_list::List;
use polyline_geometry::Point;
use road_network::{Candidate, Network};
use std::alloc::{AllocError, Global};
use std::marker::Model;

/// The boxes of all edges of a network, for candidate searches at many positions.
pub struct EdgeScan<'n> {
    net: &'n Network,
    boxes: Vec<EdgeBox>,
}

// By hand, so that the functions that drop one call this.
impl<'n> Drop for EdgeScan<'n> {
    fn drop(self) {
        let EdgeScan { net: _, boxes: _ } = self;
    }
}

impl<'n> Model for EdgeScan<'n> {
    ghost use Rattle.road_network.specs.Net.{Net};

    ghost Value = { Net };

    ghost use Rattle.candidate_search.specs.inside.Scanned.{HasAllBoxes, scanned};

    ghost view = { scanned };

    ghost invariant = { HasAllBoxes };
}

impl<'n> EdgeScan<'n> {
    /// A scan of this network's edges. Uses 20 bytes for each edge, and visits each point of the lines
    /// once.
    pub fn open(alloc: Global, net: &'n Network) -> Result<EdgeScan<'n>, AllocError>
        ensures { IfOk result (λ scan. scan ≡ net.now) }
    {
        let boxes = boxes_of(alloc, net)?;
        Ok(EdgeScan { net, boxes })
    }

    /// The candidates of each position, without a grid.
    ///
    /// The points are divided in two by their positions, again and again, and each part visits only the
    /// boxes that are near the part from which it was divided. So nearby points share most of the work,
    /// in whatever order they come.
    pub fn candidates(
        &self,
        alloc: Global,
        p: &Params,
        points: &[Point],
    ) -> Result<List<List<Candidate>>, AllocError>
        requires options { IsAccepted p.now }
        requires points { All InRange points.now }
        requires few { length points.now < 2 ^ 32 }
        ensures { IfOk result (λ lists.
            lists ≡ map (candidates self.now p.now.k p.now.radius) points.now) }
    {
        let group = with_places(alloc, points)?;
        let mut lists = empty_lists(alloc, points.len())?;
        let among = Among {
            net: self.net,
            p,
            boxes: self.boxes.as_slice(),
        };
        list_group(alloc, among, group.as_slice(), &mut lists)?;
        Ok(List::from_vec(lists))
    }
}
