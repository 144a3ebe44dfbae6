//! Chosen candidates with routes between neighbours, the input of `route_over`. Decided by `IsCandidateRun`, which is
//! part of the type.
ghost use Rattle.std.specs.Prelude.{◌≡◌, ◌+◌, ◌-◌, ◌<◌, ◌≤◌, ℕ, IfOk, length};
ghost use Rattle.route_rebuild.specs.Chosen.{IsCandidateRun};
ghost use Rattle.route_rebuild.specs.inside.ChosenRuns.{AreChosenFrom, IsChosenPoint};
ghost use Rattle.route_rebuild.specs.Routes.{candidate_in};

use cost_model::Params;
use matching::{Layer, Piece};
use road_network::{Candidate, Network};
use std::alloc::{AllocError, Global};

/// Chosen candidates, and what is needed for their routes.
#[derive(Drop)]
pub struct Run<'a> {
    pub net: &'a Network,
    pub params: &'a Params,
    pub chosen: &'a [Candidate],
    pub ghost is: { IsCandidateRun net.now params.now chosen.now },
}

/// The chosen candidate of a position.
pub fn chosen(run: &Run, i: usize) -> Candidate
    requires { i < length run.now.chosen.now }
    ensures { result ≡ candidate_in run.now.chosen.now i }
{
    run.chosen[i]
}

/// The chosen candidates of the positions of a piece.
pub fn chosen_of(
    alloc: Global,
    layers: &[Layer],
    ranks: &[Option<u32>],
    piece: Piece,
) -> Result<Vec<Candidate>, AllocError>
    requires some { piece.first ≤ piece.last }
    requires points { (i : ℕ) → piece.first ≤ i → i ≤ piece.last → IsChosenPoint layers.now ranks.now i }
    ensures { IfOk result (λ chosen. AreChosenFrom layers.now ranks.now piece.first
        (piece.last + 1 - piece.first) chosen.items) }
{
    let mut chosen = Vec::new(alloc);
    for i in piece.first as usize..piece.last as usize + 1 {
        let rank = ranks[i].unwrap_or(0) as usize;
        chosen.push(layers[i].candidates.as_slice()[rank])?;
    }
    Ok(chosen)
}
