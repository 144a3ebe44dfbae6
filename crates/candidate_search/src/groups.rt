//! The candidates of groups of positions, among the edges whose boxes are near a group. Serves `EdgeScan`; decided
//! by `AreWritten`.
ghost use Rattle.std.specs.Prelude.{◌≡◌, ◌<◌, List as ListOf, All, IfOk, OnOk, [], length, replicate};
ghost use Rattle.polyline_geometry.specs.declared.plane.Point.{Point as PointOf};
ghost use Rattle.polyline_geometry.specs.Plane.{InRange};
ghost use Rattle.cost_model.specs.Options.{IsAccepted};
ghost use Rattle.road_network.specs.Near.{candidates};
ghost use Rattle.candidate_search.specs.inside.Boxes.{AreBoxes, AreBoxesFor, AreEnough, HoldsPoints};
ghost use Rattle.candidate_search.specs.inside.Placed.{AreWritten, IsAsked, IsPlaced, points_of};

use crate::boxes::{EdgeBox, boxes_near, extent_of, grown};
use crate::nearest::consider;
use crate::placed::{Placed, cut_in_two};
use crate::search::search_for;
use cost_model::Params;
use grid_index::Extent;
use plain_list::List;
use polyline_geometry::Point;
use road_network::{Candidate, Network};
use std::alloc::{AllocError, Global};

/// Among which edges the candidates of a group are searched, and by which options.
#[derive(Clone, Copy)]
pub(crate) struct Among<'a> {
    pub(crate) net: &'a Network,
    pub(crate) p: &'a Params,
    pub(crate) boxes: &'a [EdgeBox],
}

/// This many empty lists.
pub(crate) fn empty_lists(alloc: Global, count: usize) -> Result<Vec<List<Candidate>>, AllocError>
    ensures { IfOk result (λ lists. lists.items ≡ replicate count []) }
{
    let mut lists = Vec::with_capacity(alloc, count)?;
    for _ in 0..count {
        lists.push(List::new(alloc))?;
    }
    Ok(lists)
}

/// The candidates of a position among the edges of these boxes.
fn candidates_among(
    alloc: Global,
    among: Among<'_>,
    at: Point,
) -> Result<List<Candidate>, AllocError>
    requires options { IsAccepted among.p.now }
    requires at_in { InRange at }
    requires boxes { AreBoxes among.net.now among.boxes.now }
    requires enough { AreEnough among.net.now among.p.now.radius among.boxes.now at }
    ensures { IfOk result (λ list. list ≡ candidates among.entry.net.now among.entry.p.now.k among.entry.p.now.radius at) }
{
    let search = search_for(among.p, at);
    let mut found = Vec::with_capacity(alloc, search.k + 1)?;
    for place in 0..among.boxes.len() {
        consider(among.net, &mut found, search, among.boxes[place].edge)?;
    }
    Ok(List::from_vec(found))
}

/// Writes the candidates of each position of a group at its place.
fn list_each(
    alloc: Global,
    among: Among<'_>,
    group: &[Placed],
    lists: &mut [List<Candidate>],
) -> Result<(), AllocError>
    requires options { IsAccepted among.p.now }
    requires group { All (IsAsked (length lists.old)) group.now }
    requires boxes { AreBoxesFor among.net.now among.p.now.radius among.boxes.now group.now }
    ensures { OnOk result ((points : ListOf PointOf) → All (IsPlaced points) group.now
        → AreWritten (candidates among.entry.net.now among.entry.p.now.k among.entry.p.now.radius) points lists.old lists.new group.now) }
{
    for index in 0..group.len() {
        let point = group[index];
        lists[point.place as usize] = candidates_among(alloc, among, point.at)?;
    }
    Ok(())
}

/// The boxes that are near a group with this extent.
fn boxes_for(
    alloc: Global,
    among: Among<'_>,
    group: &[Placed],
    extent: Extent,
) -> Result<Vec<EdgeBox>, AllocError>
    requires options { IsAccepted among.p.now }
    requires extent { HoldsPoints (points_of group.now) extent }
    requires boxes { AreBoxesFor among.net.now among.p.now.radius among.boxes.now group.now }
    ensures { IfOk result (λ near. AreBoxesFor among.entry.net.now among.entry.p.now.radius near.items group.now) }
{
    among.net.invariants();
    let near = boxes_near(alloc, among.boxes, grown(extent, among.p.radius))?;
    Ok(near)
}

/// Writes the candidates of each position of a group at its place. Parts of the group visit only the boxes that are
/// near the whole group.
pub(crate) fn list_group(
    alloc: Global,
    among: Among<'_>,
    group: &[Placed],
    lists: &mut [List<Candidate>],
) -> Result<(), AllocError>
    requires options { IsAccepted among.p.now }
    requires group { All (IsAsked (length lists.old)) group.now }
    requires boxes { AreBoxesFor among.net.now among.p.now.radius among.boxes.now group.now }
    ensures { OnOk result ((points : ListOf PointOf) → All (IsPlaced points) group.now
        → AreWritten (candidates among.entry.net.now among.entry.p.now.k among.entry.p.now.radius) points lists.old lists.new group.now) }
{
    if group.is_empty() {
        return Ok(());
    }
    let extent = extent_of(group);
    let near = boxes_for(alloc, among, group, extent)?;
    let boxes = near.as_slice();
    let closer = Among { boxes, ..among };
    match cut_in_two(alloc, group, extent)? {
        None => list_each(alloc, closer, group, lists),
        Some(halves) => {
            list_group(alloc, closer, halves.below.as_slice(), lists)?;
            list_group(alloc, closer, halves.above.as_slice(), lists)
        }
    }
}
