//! One trace with its proof, as the code sees it. Serves `check_trace`; contracts see it as `case_seen`.
use crate::placed_rows::PlacedRows;
use cost_model::Params;
use matching::{Cell, Layer};
use potential_certificate::TraceProof;
use road_network::{Candidate, Network};
use trellis::is_near;

/// A trace to be checked: what it is matched on, the rows of the certificate, its positions with their
/// candidates, and its proof.
#[derive(Drop)]
pub struct TraceCase<'a> {
    pub net: &'a Network,
    pub params: &'a Params,
    pub rows: &'a PlacedRows<'a>,
    pub layers: &'a [Layer],
    pub proof: &'a TraceProof,
}

impl<'a> TraceCase<'a> {
    ghost use Rattle.std.specs.Prelude.{◌≡◌, ◌<◌, length};
    ghost use Rattle.matching.specs.Layers.{candidate_of_rank};
    ghost use Rattle.cert_checker.specs.Case.{is_looked_at, layer, rank, table, width};
    ghost use Rattle.cert_checker.specs.inside.CaseSeen.{case_seen};

    /// A position with its candidates.
    pub fn layer(&self, i: usize) -> &Layer
        requires { i < length self.now.layers.now }
        ensures { result.now ≡ layer (case_seen self.now) i }
    {
        &self.layers[i]
    }

    /// The candidate of a position with this rank.
    pub fn candidate(&self, i: usize, j: usize) -> Candidate
        requires point { i < length self.now.layers.now }
        requires rank { j < width (case_seen self.now) i }
        ensures { result ≡ candidate_of_rank (layer (case_seen self.now) i) j }
    {
        self.layer(i).candidates.as_slice()[j]
    }

    /// How many candidates a position has.
    pub fn width(&self, i: usize) -> usize
        ensures { result ≡ width (case_seen self.now) i }
    {
        match self.layers.get(i) {
            Some(layer) => layer.candidates.len(),
            None => 0,
        }
    }

    /// The cells that the proof gives for a position; none if it has no table.
    pub fn table(&self, i: usize) -> &[Cell]
        ensures { result.now ≡ table (case_seen self.now) i }
    {
        match self.proof.tables.get(i) {
            Some(cells) => cells.as_slice(),
            None => &[],
        }
    }

    /// The chosen rank that the proof gives for a position.
    pub fn rank(&self, i: usize) -> Option<u32>
        ensures { result ≡ rank (case_seen self.now) i }
    {
        match self.proof.ranks.get(i) {
            Some(rank) => *rank,
            None => None,
        }
    }

    /// Whether transitions from the previous position to this one are checked.
    pub fn is_looked_at(&self, i: usize) -> bool
        requires { i < length self.now.layers.now }
        ensures { result ≡ is_looked_at (case_seen self.now) i }
    {
        0 < i
            && 0 < self.width(i - 1)
            && 0 < self.width(i)
            && is_near(self.params, self.layer(i - 1), self.layer(i))
    }
}
