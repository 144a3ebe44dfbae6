//! A generated town: a large lawful input made from a number.
//!
//! The streets of a town form a square grid of `n` rows and `n` columns of corners, 100 m apart.
//! [`town_network`] is its network file and [`town_traces`] a trace file of walks through it, by
//! the generator [`Draw`]. The same numbers give the same bytes in every call.
//!
//! `network_text` in `specs/Network.antt` and `traces_text` in `specs/Traces.antt` define the bytes.
//! The laws [`network_is_lawful`] and [`traces_are_lawful`] state that these files have no fault, and
//! what they contain.
#![tactic(auto)]

mod corner;
mod draw;
mod laws;
mod network;
mod traces;

pub use draw::Draw;
pub use laws::{network_is_lawful, traces_are_lawful};
pub use network::town_network;
pub use traces::town_traces;
