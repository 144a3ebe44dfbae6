//! The options of a match, and what a match costs.
//!
//! A match is the sequence of candidates of least cost. A candidate costs the more, the farther it lies from its
//! position ([`emission`]), and a move between two candidates costs the more, the more the length of its route
//! differs from the straight distance of the two positions ([`transition`]). Both are scaled by 1000 and rounded
//! towards minus infinity. [`Params`] has the numbers that a run may choose; [`Params::check`] accepts them, and
//! everything above takes accepted ones.
//!
//! Read first: the clause of `emission`, and `IsAccepted` in `specs/Options.antt`.
#![tactic(auto)]

mod costs;
mod params;

pub use costs::{emission, point_cost_is_bounded, transition};
pub use params::{ParamFault, Params, ValueRange};
