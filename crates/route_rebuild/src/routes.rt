//! The route of a piece. Serves `route`; decided by `IsRouteOf` and `IsRouteOver`.
ghost use Rattle.std.specs.Prelude.{◌≡◌, ◌+◌, ◌<◌, IfOk, OnOk, length, reverse};
ghost use Rattle.road_network.specs.Net.{HasNode};
ghost use Rattle.road_network.specs.Walk.{IsLeastWalk};
ghost use Rattle.bounded_table.specs.Rows.{AreRowsOf, AsksFor};
ghost use Rattle.route_rebuild.specs.Chosen.{IsCandidateRun, IsSolved};
ghost use Rattle.route_rebuild.specs.Laws.{IsJoinedRoute};
ghost use Rattle.route_rebuild.specs.Numbers.{numbers};
ghost use Rattle.route_rebuild.specs.Routes.{IsRouteOver, IsWalkStart, IsWalkStartOver, piece_at};
ghost use Rattle.route_rebuild.specs.inside.Runs.{AreJoined, AreRowsForRun, IsLegAdded, IsRouteOfRun, IsWalkStartAt, IsWalkStartOf};

use crate::run::{Run, chosen, chosen_of};
use crate::walks::walk;
use bounded_table::Rows;
use cost_model::Params;
use matching::Layer;
use plain_list::List;
use road_network::{Candidate, EdgeId, Network, NodeId};
use std::alloc::{AllocError, Global};
use trellis::{Solved, near_reach};

/// The route of a piece, in order of travel: the edge of the first position's chosen candidate, then for each
/// neighbouring pair nothing if its route is direct, and otherwise its walk and the next position's edge.
///
/// It asks for the row of the end node of a chosen candidate's edge if the next leg is not direct,
/// and for no other row: after Ok each of these nodes is known, and even on `Err` no other node became
/// known. `solved` is the match of these layers with the same options.
pub fn route<R: Rows>(
    alloc: Global,
    net: &Network,
    p: &Params,
    rows: &mut R,
    layers: &[Layer],
    solved: &Solved,
    piece: u32,
) -> Result<List<EdgeId>, AllocError>
    requires rows { AreRowsOf (R.state rows.old) net.now p.now.bound }
    requires solved { IsSolved net.now p.now layers.now solved.now }
    requires piece { piece < length solved.now.pieces }
    ensures route { IfOk result (λ es. IsJoinedRoute net.now p.now layers.now solved.now.ranks
        (piece_at solved.now.pieces piece) (numbers es)) }
    ensures asks { AsksFor (R.state rows.old) (IsWalkStart net.now p.now layers.now solved.now.ranks
        (piece_at solved.now.pieces piece)) result (R.state rows.new) }
{
    net.invariants();
    let piece = solved.pieces.as_slice()[piece as usize];
    let chosen = chosen_of(alloc, layers, solved.ranks.as_slice(), piece)?;
    route_over(alloc, net, p, rows, &chosen)
}

/// The route over chosen candidates, as [`route`] gives it for a matched piece. It asks for the same rows.
pub fn route_over<R: Rows>(
    alloc: Global,
    net: &Network,
    p: &Params,
    rows: &mut R,
    chosen: &[Candidate],
) -> Result<List<EdgeId>, AllocError>
    requires rows { AreRowsOf (R.state rows.old) net.now p.now.bound }
    requires run { IsCandidateRun net.now p.now chosen.now }
    ensures route { IfOk result (λ es. IsRouteOver net.now p.now chosen.now (numbers es)) }
    ensures asks { AsksFor (R.state rows.old) (IsWalkStartOver net.now p.now chosen.now)
        result (R.state rows.new) }
{
    let run = Run {
        net,
        params: p,
        chosen,
    };
    follow(alloc, rows, &run)
}

/// The route over a run.
fn follow<R: Rows>(alloc: Global, rows: &mut R, run: &Run) -> Result<List<EdgeId>, AllocError>
    requires { AreRowsForRun (R.state rows.old) run.now }
    ensures route { IfOk result (λ es. IsRouteOfRun run.now (numbers es)) }
    ensures asks { AsksFor (R.state rows.old) (IsWalkStartOf run.now) result (R.state rows.new) }
{
    let mut edges = List::new(alloc);
    edges.push(chosen(run, 0).edge)?;
    for i in 0..run.chosen.len() - 1 {
        append_leg(alloc, rows, run, i, &mut edges)?;
    }
    Ok(edges)
}

/// Appends the edges from a position of the run to the next: none if the route is direct, and otherwise the least
/// walk from the end of one edge to the start of the other, and this edge.
fn append_leg<R: Rows>(
    alloc: Global,
    rows: &mut R,
    run: &Run,
    i: usize,
    edges: &mut List<EdgeId>,
) -> Result<(), AllocError>
    requires rows { AreRowsForRun (R.state rows.old) run.now }
    requires point { i + 1 < length run.now.chosen.now }
    ensures leg { OnOk result (IsLegAdded run.now i (numbers edges.old) (numbers edges.new)) }
    ensures asks { AsksFor (R.state rows.old) (IsWalkStartAt run.now i) result (R.state rows.new) }
{
    run.net.invariants();
    let a = chosen(run, i);
    let b = chosen(run, i + 1);
    if a.edge == b.edge && a.offset <= b.offset + run.params.back {
        return Ok(());
    }
    let between = walk_between(alloc, rows, run, run.net.to(a.edge), run.net.from(b.edge))?;
    edges.extend_from_slice(between.as_slice())?;
    edges.push(b.edge)
}

/// The least walk between two nodes that are joined within the bound: by a near row of the first one if that lists
/// the other, and otherwise by its row within the whole bound.
fn walk_between<R: Rows>(
    alloc: Global,
    rows: &mut R,
    run: &Run,
    from: NodeId,
    to: NodeId,
) -> Result<List<EdgeId>, AllocError>
    requires rows { AreRowsForRun (R.state rows.old) run.now }
    requires node { HasNode run.now.net.now from.0 }
    requires joined { AreJoined run.now.net.now run.now.params.now.bound from.0 to.0 }
    ensures walk { IfOk result (λ es. IsLeastWalk run.now.net.now from.0 (reverse (numbers es)) to.0) }
    ensures asks { AsksFor (R.state rows.old) (λ v. v ≡ from.0) result (R.state rows.new) }
{
    let reach = near_reach(run.params.bound);
    let near = rows.near_row(from, reach)?;
    if near.find(to).is_some() {
        return walk(alloc, run.net, near, to);
    }
    let row = rows.row(from)?;
    walk(alloc, run.net, row, to)
}
