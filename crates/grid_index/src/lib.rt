//! A grid over the segments of a network. It finds the edges near a point without a scan of all edges.
//!
//! [`Grid::build`] cuts each line into runs of at most 16 segments, divides the plane into square cells
//! and enters each run at every cell that its box meets. Runs whose box meets too many cells are in a
//! separate list: more than 64 on maps of up to a million runs, and mostly more than 4,096 on larger
//! ones. If two edges have the same line in opposite directions, as on a two-way street, the runs of the
//! first serve both.
//!
//! [`Grid::near`] returns the edges near a point, and [`Grid::is_far`] shows that a point is far from
//! the whole network. Callers that visit the cells themselves use [`Grid::cells_near`],
//! [`Grid::runs_at`] and [`Grid::wide_runs`]. [`Grid::distance2_in_cell`] gives the one cell at which
//! to consider a run, and the distance to its box; [`Grid::cell_distance2`] allows skipping a cell.
//! [`Extent`] is the box of a line, for callers that keep one for each edge.
//!
//! The cells are in a table of `width` by `width` slots, which repeats over the plane: cell (column,
//! row) has the slot given by the remainders of both. Two distant cells may share a slot, so a visit
//! may see further runs. Read first the clause `complete` of [`Grid::near`] (no edge within reach is
//! missed) and the clause of [`Grid::invariants`].
#![tactic(auto)]

mod cells;
mod entries;
mod extent;
mod grid;
mod nearest_cell;
mod runs;
mod size;
mod starts;
mod table;
mod twins;

pub use cells::Cells;
pub use extent::Extent;
pub use grid::Grid;
pub use runs::Run;
