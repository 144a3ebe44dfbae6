//! The match of one trace as a value, and its parts: a position with its candidates, and its
//! labels and routes in the ids of the network file.
//!
//! `match_of` in `specs/Match.antt` is the match of a trace, and `asks` there defines which rows the
//! trace asks for. All crates that match, follow or check a trace build on these.
//!
//! - [`layers`] gives the positions of a trace with their candidates, and [`layer`] one of them.
//! - [`labels`] gives the labels of positions by their ranks, and [`label_on`] that of a candidate.
//! - [`routed`] gives a piece with its route in the ids of the file.
//! - [`Matcher`] has what traces are matched on: a network with the grid of its edges, and the options.
//!   Contracts see it as a `Setting` (`specs/Setting.antt`). `specs/Totals.antt` has the pieces of
//!   traces and the rows that they ask for, and `specs/inside/Asked.antt` what becomes known by these.
//! - [`laws`] has what holds of every match, that labels agree exactly if ranks do, and that committed
//!   labels stay, whatever positions follow.
#![tactic(auto)]

mod fixes;
pub mod laws;
mod matcher;
mod names;
mod ranked;

pub use fixes::{layer, layers};
pub use matcher::Matcher;
pub use names::routed;
pub use ranked::{label_on, labels};
