//! Routes in the ids of the network file. Serves `routed`; decided by `edge_name`.
ghost use Rattle.std.specs.Prelude.{◌≡◌, IfOk, map};
ghost use Rattle.std.specs.List.{All};
ghost use Rattle.road_network.specs.Net.{HasEdge, edge_name};
ghost use Rattle.route_rebuild.specs.Numbers.{numbers};
ghost use Rattle.trace_match.specs.Match.{routed_over};

use match_text::Routed;
use matching::Piece;
use plain_list::List;
use road_network::{EdgeId, Network};
use std::alloc::{AllocError, Global};

/// The ids of edges in the network file.
fn names(alloc: Global, net: &Network, edges: &[EdgeId]) -> Result<List<u32>, AllocError>
    requires { All (λ e. HasEdge net.now e.0) edges.now }
    ensures { IfOk result (λ names. names ≡ map (edge_name net.now) (numbers edges.now)) }
{
    let mut names = Vec::with_capacity(alloc, edges.len())?;
    for edge in edges {
        names.push(net.name(*edge))?;
    }
    Ok(List::from_vec(names))
}

/// A piece with the route over these edges, in the ids of the network file.
pub fn routed(
    alloc: Global,
    net: &Network,
    piece: Piece,
    edges: &[EdgeId],
) -> Result<Routed, AllocError>
    requires { All (λ e. HasEdge net.now e.0) edges.now }
    ensures { IfOk result (λ routed. routed ≡ routed_over net.now piece (numbers edges.now)) }
{
    Ok(Routed {
        first: piece.first,
        last: piece.last,
        cost: piece.cost,
        route: names(alloc, net, edges)?,
    })
}
