//! The work of `check`: reads the network, the traces and the certificate, and accepts or refuses the
//! certificate.
//!
//! - [`check_traces`] does it. Its plan is `check_plan` in `specs/Check.antt`; `check_said` there defines
//!   the answer to the bytes of a certificate: read it first.
//! - `certificate_file` reads the file block by block, and processes a block while the next one is read.
//! - `verdicts` has the lines of refusals.
#![tactic(auto)]

mod certificate_file;
mod check;
mod verdicts;

pub use check::check_traces;
