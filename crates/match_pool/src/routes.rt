//! The pieces of a trace with their routes. Serves `match_one`; decided by `routed_of`.
ghost use Rattle.std.specs.Prelude.{◌≡◌, IfOk, map};
ghost use Rattle.bounded_table.specs.Rows.{AreRowsOf, AsksOnly};
ghost use Rattle.matching.specs.PieceSteps.{AsksTrace};
ghost use Rattle.route_rebuild.specs.Chosen.{IsSolved};
ghost use Rattle.trace_match.specs.Match.{routed_of};

use bounded_table::Rows;
use cost_model::Params;
use match_text::Routed;
use matching::Layer;
use plain_list::List;
use road_network::Network;
use route_rebuild::route;
use std::alloc::{AllocError, Global};
use trace_match::routed;
use trellis::Solved;

/// The match of the layers of a trace, and what it was found on.
#[derive(Clone, Copy)]
pub struct Found<'a> {
    pub net: &'a Network,
    pub params: &'a Params,
    pub layers: &'a [Layer],
    pub solved: &'a Solved,
}

/// The pieces of a trace with their routes. Rows that the trace did not ask for stay unknown.
pub fn pieces<R: Rows>(
    alloc: Global,
    rows: &mut R,
    found: &Found,
) -> Result<List<Routed>, AllocError>
    requires rows { AreRowsOf (R.state rows.old) found.now.net.now found.now.params.now.bound }
    requires solved { IsSolved found.now.net.now found.now.params.now found.now.layers.now found.now.solved.now }
    ensures pieces { IfOk result (λ pieces. pieces ≡ map (routed_of found.now.net.now
        found.now.params.now found.now.layers.now found.now.solved.now.ranks) found.now.solved.now.pieces) }
    ensures asks { AsksOnly (R.state rows.old) (R.state rows.new) (AsksTrace found.now.net.now
        found.now.params.now found.now.layers.now found.now.solved.now.pieces) }
{
    let (net, solved) = (found.net, found.solved);
    net.invariants();
    let mut pieces = Vec::with_capacity(alloc, solved.pieces.len())?;
    for number in 0..solved.pieces.len() {
        let at = number as u32;
        let edges = route(alloc, net, found.params, rows, found.layers, solved, at)?;
        let piece = solved.pieces.as_slice()[number];
        pieces.push(routed(alloc, net, piece, edges.as_slice())?)?;
    }
    Ok(List::from_vec(pieces))
}
