//! Walks rebuilt from the last edges of rows, and the route of a piece from its chosen candidates.
//!
//! - [`walk`] gives the least walk from a row's origin to a listed node.
//! - [`route`] gives the edges of a matched piece in order of travel: the first position's edge,
//!   then for each neighbouring pair nothing if its route is direct, and otherwise its walk and the
//!   next position's edge. [`route_over`] gives the same for any chosen candidates.
//!
//! Neighbouring edges of a route join, and their lengths add up; the clause of `route` says so, and
//! [`laws`] says it of whatever meets the definition. [`laws`] also shows that the route is the value
//! `route_of` in `specs/Routes.antt`, and nothing else is.
//!
//! Both return edges from first to last; the definitions keep walks from the last edge to the first,
//! so the clauses say `reverse`. Read first the clause `route` of [`route`] and `IsRouteOf` in
//! `specs/Routes.antt`.
#![tactic(auto)]

pub mod laws;
mod routes;
mod run;
mod walks;

pub use routes::{route, route_over};
pub use walks::walk;
