//! The route of a piece, compared leg by leg. Serves `check_trace`; decided by `has_route`.
ghost use Rattle.std.specs.Prelude.{◌≡◌, ◌+◌, ◌∷◌, [], All, IfOk, option_copied};
ghost use Rattle.road_network.specs.Net.{HasEdge};
ghost use Rattle.route_rebuild.specs.inside.ChosenRuns.{IsChosenPoint};
ghost use Rattle.route_rebuild.specs.Numbers.{numbers};
ghost use Rattle.cert_checker.specs.inside.CaseSeen.{case_seen};
ghost use Rattle.cert_checker.specs.inside.Legs.{IsLeftAfter, IsLeg, IsRoutable, chosen_in_case, leg};
ghost use Rattle.cert_checker.specs.Verdicts.{has_route};

use crate::trace_case::TraceCase;
use match_text::Routed;
use road_network::{Candidate, EdgeId, Network};
use route_rebuild::walk;
use std::alloc::{AllocError, Global};

/// The ids of a route after that of an edge; `None` if the route begins otherwise.
fn after_edge<'a>(net: &Network, names: &'a [u32], edge: EdgeId) -> Option<&'a [u32]>
    requires { HasEdge net.now edge.0 }
    ensures { IsLeftAfter net.now names.now (edge.0 ∷ []) (option_copied result) }
{
    match names.first() {
        Some(name) if *name == net.name(edge) => Some(&names[1..]),
        _ => None,
    }
}

/// The ids of a route after those of edges; `None` if the route begins otherwise.
fn after_edges<'a>(net: &Network, names: &'a [u32], edges: &[EdgeId]) -> Option<&'a [u32]>
    requires { All (λ e. HasEdge net.now e.0) edges.now }
    ensures { IsLeftAfter net.now names.now (numbers edges.now) (option_copied result) }
{
    let mut left = names;
    for edge in edges {
        left = after_edge(net, left, *edge)?;
    }
    Some(left)
}

/// The chosen candidate of a position.
fn chosen(case: &TraceCase, i: usize) -> Candidate
    requires { IsChosenPoint case.now.layers.now case.now.proof.now.ranks i }
    ensures { result ≡ chosen_in_case (case_seen case.now) i }
{
    let rank = case.rank(i).unwrap_or(0) as usize;
    case.layers[i].candidates.as_slice()[rank]
}

/// The ids of a route after the leg from a position to the next.
fn after_leg<'a>(
    alloc: Global,
    case: &TraceCase,
    i: usize,
    names: &'a [u32],
) -> Result<Option<&'a [u32]>, AllocError>
    requires { IsLeg (case_seen case.now) i }
    ensures { IfOk result (λ left. IsLeftAfter case.now.net.now names.now
        (leg (case_seen case.now) i) (option_copied left)) }
{
    case.net.invariants();
    let (a, b) = (chosen(case, i), chosen(case, i + 1));
    if a.edge == b.edge && a.offset <= b.offset + case.params.back {
        return Ok(Some(names));
    }
    let Some(place) = case.rows.place(case.net.to(a.edge)) else {
        return Ok(None);
    };
    let edges = walk(alloc, case.net, case.rows.at(place), case.net.from(b.edge))?;
    let Some(left) = after_edges(case.net, names, edges.as_slice()) else {
        return Ok(None);
    };
    Ok(after_edge(case.net, left, b.edge))
}

/// Whether the route of a piece is that over its chosen candidates. Builds one walk at a time.
pub fn has_route(alloc: Global, case: &TraceCase, piece: &Routed) -> Result<bool, AllocError>
    requires { IsRoutable (case_seen case.now) piece.now }
    ensures { IfOk result (λ has. has ≡ has_route (case_seen case.now) piece.now) }
{
    let first = chosen(case, piece.first as usize);
    let Some(mut left) = after_edge(case.net, piece.route.as_slice(), first.edge) else {
        return Ok(false);
    };
    for i in piece.first as usize..piece.last as usize {
        let Some(rest) = after_leg(alloc, case, i, left)? else {
            return Ok(false);
        };
        left = rest;
    }
    Ok(left.is_empty())
}
