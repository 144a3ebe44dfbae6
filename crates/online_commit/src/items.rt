//! The output of a session.
use plain_list::List;
use road_network::{Candidate, EdgeId};
use trellis::Piece;

/// The label of a position, by its index in the trace from 0, or a closed piece.
#[derive(Drop)]
pub enum Item {
    /// The position is matched to this candidate.
    At { index: u32, candidate: Candidate },
    /// The position has no candidate.
    Missing(u32),
    /// The piece is closed. Its route is in order of travel.
    Closed { piece: Piece, route: List<EdgeId> },
}
