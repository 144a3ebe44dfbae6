//! The candidates of a position: the k nearest edges of a network within the radius.
//!
//! [`candidates`] visits only the runs of segments near the point in a grid, and [`candidates_plain`]
//! all edges; both have one contract: the list that road_network's `candidates` defines, ordered by
//! squared distance and then by edge number, cut to the first k. Runs are visited cell by cell from the
//! point's own cell outwards, and only the k nearest edges so far are kept, so that a segment is
//! measured only if its box is nearer than the farthest kept edge. A run of a two-way street is measured
//! once for its edge and its twin, and both are inserted at once. [`candidates`] needs no square root:
//! the network stores the offsets of the points of its lines.
//!
//! A [`CandidateSearch`] gives the result of [`candidates`] for one position after another, and keeps its memory
//! from each to the next.
//!
//! An [`EdgeScan`] gives the same result for many positions, by a scan of all edges that nearby positions share.
#![tactic(auto)]

mod best;
mod boxes;
mod edge_scan;
mod groups;
mod nearest;
mod placed;
mod search;
mod visit;
mod wanted;

pub use edge_scan::EdgeScan;
pub use search::{CandidateSearch, candidates, candidates_plain};
