//! The candidates of a position. Decided by road_network's `candidates`.
ghost use Rattle.std.specs.Prelude.{◌≡◌, ◌≤◌, All, IfOk, OnOk, map};
ghost use Rattle.polyline_geometry.specs.Plane.{InRange};
ghost use Rattle.cost_model.specs.Options.{IsAccepted};
ghost use Rattle.road_network.specs.Near.{candidate_at, candidates};
ghost use Rattle.candidate_search.specs.inside.Nearest.{AreNearestEdges, IsNearestOn};

use crate::best::NearEdge;
use crate::nearest::consider;
use crate::visit::{Look, look_at_cells, look_at_wide};
use crate::wanted::Search;
use cost_model::Params;
use grid_index::Grid;
use plain_list::List;
use polyline_geometry::{Point, offset_on};
use road_network::{Candidate, EdgeId, Network};
use std::alloc::{AllocError, Global};

/// The part of the options that a search needs.
pub(crate) fn search_for(p: &Params, at: Point) -> Search
    requires options { IsAccepted p.now }
    requires at_in { InRange at }
    ensures at { result.at ≡ at }
    ensures k { result.k ≡ p.now.k }
    ensures radius { result.radius ≡ p.now.radius }
{
    Search {
        at,
        k: p.k as usize,
        radius: u64::from(p.radius),
    }
}

/// The candidate of an edge whose nearest segment is known.
fn candidate_of(net: &Network, search: Search, near: NearEdge) -> Candidate
    requires { IsNearestOn net.now search near }
    ensures { result ≡ candidate_at net.now search.at near.edge.0 }
{
    net.invariants();
    Candidate {
        edge: near.edge,
        d2: near.d2,
        offset: offset_on(
            net.line(near.edge),
            net.offsets(near.edge),
            search.at,
            near.segment as usize,
        ),
    }
}

/// The candidates of edges whose nearest segments are known.
fn candidates_of(
    alloc: Global,
    net: &Network,
    search: Search,
    found: &[NearEdge],
) -> Result<Vec<Candidate>, AllocError>
    requires { All (IsNearestOn net.now search) found.now }
    ensures { IfOk result (λ list. list.items
        ≡ map (λ c. candidate_at net.now search.at c.edge.0) found.now) }
{
    let mut list = Vec::with_capacity(alloc, found.len())?;
    for near in found {
        list.push(candidate_of(net, search, *near))?;
    }
    Ok(list)
}

/// Finds the nearest edges by the runs of the grid; none for a position far from the whole network.
fn find_nearest(
    net: &Network,
    grid: &Grid,
    search: Search,
    reach: u32,
    found: &mut Vec<NearEdge>,
) -> Result<(), AllocError>
    requires network { grid.now.net ≡ net.now }
    requires side { reach ≤ grid.now.side }
    requires reach { reach ≡ search.radius }
    ensures { OnOk result (AreNearestEdges net.now search found.new.items) }
{
    net.invariants();
    grid.invariants();
    found.clear();
    if grid.is_far(search.at, reach) {
        return Ok(());
    }
    found.reserve(search.k.saturating_add(2))?;
    let look = Look { net, grid, search };
    look_at_cells(look, found, grid.cells_near(search.at, reach))?;
    look_at_wide(look, found)
}

/// Searches for the candidates of many positions, one after another. It keeps the memory that one search needs for
/// the next one.
#[derive(Drop)]
pub struct CandidateSearch {
    alloc: Global,
    found: Vec<NearEdge>,
}

impl CandidateSearch {
    /// A search that has no memory yet.
    pub fn new(alloc: Global) -> CandidateSearch {
        CandidateSearch {
            alloc,
            found: Vec::new(alloc),
        }
    }

    /// The candidates of a position, among the runs of the grid.
    pub fn candidates(
        &mut self,
        net: &Network,
        grid: &Grid,
        p: &Params,
        at: Point,
    ) -> Result<List<Candidate>, AllocError>
        requires options { IsAccepted p.now }
        requires at_in { InRange at }
        requires network { grid.now.net ≡ net.now }
        requires side { p.now.radius ≤ grid.now.side }
        ensures { IfOk result (λ list. list ≡ candidates net.now p.now.k p.now.radius at) }
    {
        net.invariants();
        let search = search_for(p, at);
        find_nearest(net, grid, search, p.radius, &mut self.found)?;
        let list = candidates_of(self.alloc, net, search, self.found.as_slice())?;
        Ok(List::from_vec(list))
    }
}

/// The candidates of a position, among the runs of the grid. For many positions a [`CandidateSearch`] is faster.
pub fn candidates(
    alloc: Global,
    net: &Network,
    grid: &Grid,
    p: &Params,
    at: Point,
) -> Result<List<Candidate>, AllocError>
    requires options { IsAccepted p.now }
    requires at_in { InRange at }
    requires network { grid.now.net ≡ net.now }
    requires side { p.now.radius ≤ grid.now.side }
    ensures { IfOk result (λ list. list ≡ candidates net.now p.now.k p.now.radius at) }
{
    let mut search = CandidateSearch::new(alloc);
    search.candidates(net, grid, p, at)
}

/// The candidates of a position, by a scan of all edges.
pub fn candidates_plain(
    alloc: Global,
    net: &Network,
    p: &Params,
    at: Point,
) -> Result<List<Candidate>, AllocError>
    requires options { IsAccepted p.now }
    requires at_in { InRange at }
    ensures { IfOk result (λ list. list ≡ candidates net.now p.now.k p.now.radius at) }
{
    let search = search_for(p, at);
    let mut found = Vec::with_capacity(alloc, search.k + 1)?;
    for number in 0..net.edge_count() {
        consider(net, &mut found, search, EdgeId(number))?;
    }
    Ok(List::from_vec(found))
}
