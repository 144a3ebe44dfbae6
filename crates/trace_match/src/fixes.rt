//! The positions of a trace with their candidates. Serves `layers`; decided by `layer_of`.
ghost use Rattle.std.specs.Prelude.{◌≡◌, All, IfOk, map};
ghost use Rattle.polyline_geometry.specs.Plane.{InRange};
ghost use Rattle.trace_match.specs.Ground.{IsGridFor};
ghost use Rattle.trace_reader.specs.Trace.{point_of_fix};
ghost use Rattle.trace_match.specs.Match.{layer_of};

use candidate_search::CandidateSearch;
use cost_model::Params;
use grid_index::Grid;
use matching::Layer;
use plain_list::List;
use road_network::Network;
use std::alloc::{AllocError, Global};
use trace_reader::Fix;

/// A position with its candidates.
pub fn layer(
    alloc: Global,
    net: &Network,
    grid: &Grid,
    p: &Params,
    fix: &Fix,
) -> Result<Layer, AllocError>
    requires ground { IsGridFor net.now p.now grid.now }
    requires place { InRange (point_of_fix fix.now) }
    ensures { IfOk result (λ layer. layer ≡ layer_of net.now p.now fix.now) }
{
    let mut search = CandidateSearch::new(alloc);
    layer_by(&mut search, net, grid, p, fix)
}

/// A position with its candidates, which this search finds.
fn layer_by(
    search: &mut CandidateSearch,
    net: &Network,
    grid: &Grid,
    p: &Params,
    fix: &Fix,
) -> Result<Layer, AllocError>
    requires ground { IsGridFor net.now p.now grid.now }
    requires place { InRange (point_of_fix fix.now) }
    ensures { IfOk result (λ layer. layer ≡ layer_of net.now p.now fix.now) }
{
    let point = fix.point();
    Ok(Layer {
        point,
        candidates: search.candidates(net, grid, p, point)?,
        time: fix.time,
    })
}

/// The positions of a trace with their candidates.
pub fn layers(
    alloc: Global,
    net: &Network,
    grid: &Grid,
    p: &Params,
    fixes: &[Fix],
) -> Result<List<Layer>, AllocError>
    requires ground { IsGridFor net.now p.now grid.now }
    requires places { All (λ fix. InRange (point_of_fix fix)) fixes.now }
    ensures { IfOk result (λ layers. layers ≡ map (layer_of net.now p.now) fixes.now) }
{
    let mut search = CandidateSearch::new(alloc);
    let mut found = Vec::with_capacity(alloc, fixes.len())?;
    for fix in fixes {
        found.push(layer_by(&mut search, net, grid, p, fix)?)?;
    }
    Ok(List::from_vec(found))
}
