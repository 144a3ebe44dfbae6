//! The positions of traces with their candidates, by one scan of all edges. Serves `check_trace`;
//! decided by `layer_of`.
ghost use Rattle.std.specs.Prelude.{◌≡◌, ◌<◌, ◌^◌, All, IfOk, length, map};
ghost use Rattle.polyline_geometry.specs.Plane.{InRange};
ghost use Rattle.road_network.specs.Near.{candidates};
ghost use Rattle.trace_reader.specs.Trace.{point_of_fix};
ghost use Rattle.trace_match.specs.Match.{layer_of};

use crate::ground::Ground;
use cost_model::Params;
use matching::Layer;
use plain_list::List;
use polyline_geometry::Point;
use road_network::{Candidate, Network};
use std::alloc::{AllocError, Global};
use trace_reader::Fix;

/// The points of these positions.
fn places(alloc: Global, fixes: &[Fix]) -> Result<List<Point>, AllocError>
    ensures { IfOk result (λ points. points ≡ map point_of_fix fixes.now) }
{
    let mut points = List::from_vec(Vec::with_capacity(alloc, fixes.len())?);
    for fix in fixes {
        points.push(fix.point())?;
    }
    Ok(points)
}

/// Positions with these candidates.
fn with_candidates(
    alloc: Global,
    net: &Network,
    p: &Params,
    fixes: &[Fix],
    lists: List<List<Candidate>>,
) -> Result<List<Layer>, AllocError>
    requires { lists ≡ map (λ fix. candidates net.now p.now.k p.now.radius (point_of_fix fix)) fixes.now }
    ensures { IfOk result (λ layers. layers ≡ map (layer_of net.now p.now) fixes.now) }
{
    let mut layers = List::from_vec(Vec::with_capacity(alloc, fixes.len())?);
    for candidates in lists.into_vec() {
        let fix = &fixes[layers.len()];
        layers.push(Layer {
            point: fix.point(),
            candidates,
            time: fix.time,
        })?;
    }
    Ok(layers)
}

/// Positions with their candidates.
pub fn plain_layers(
    alloc: Global,
    ground: &Ground,
    fixes: &[Fix],
) -> Result<List<Layer>, AllocError>
    requires places { All (λ fix. InRange (point_of_fix fix)) fixes.now }
    requires few { length fixes.now < 2 ^ 32 }
    ensures { IfOk result (λ layers.
        layers ≡ map (layer_of ground.now.net.now ground.now.params.now) fixes.now) }
{
    let points = places(alloc, fixes)?;
    let lists = ground
        .scan
        .candidates(alloc, ground.params, points.as_slice())?;
    with_candidates(alloc, ground.net, ground.params, fixes, lists)
}
