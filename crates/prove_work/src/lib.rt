//! The work of `prove`: reads the network and the traces, and writes the text of the certificate of their
//! matches.
//!
//! - [`prove_traces`] does it. Its plan is `prove_plan` in `specs/Prove.antt`: read it first.
//! - `certifying` matches trace after trace with rows of its own, keeps the ranks, cells and routed pieces of
//!   each match, and adds the rows of the nodes that the traces ask for. The result is `certificate_of` in
//!   `specs/Certificates.antt`.
#![tactic(auto)]

mod certifying;
mod proving;

pub use proving::prove_traces;
