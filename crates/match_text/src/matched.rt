//! A trace with its match, in the ids of the network file. Serves all who write or read one.
use plain_list::List;

/// What a position of a trace was matched to.
#[derive(Clone, Copy, PartialEq, Eq)]
pub enum Label {
    /// The position has no candidate.
    Missing,
    /// The position is `offset` cm along the edge with this id, `d2` cm² from it.
    On { edge: u32, offset: u32, d2: u64 },
}

/// A piece of a trace: the positions `first..=last` with one route through them.
#[derive(Drop)]
pub struct Routed {
    pub first: u32,
    pub last: u32,
    /// The scaled cost of the match of the piece.
    pub cost: u64,
    /// The ids of the edges, from the first position's edge to the last position's.
    pub route: List<u32>,
}

/// A trace with a label for each position, and its pieces in order.
#[derive(Drop)]
pub struct MatchedTrace {
    pub id: u32,
    pub labels: List<Label>,
    pub pieces: List<Routed>,
}
