//! The whole program `fmm`, which matches position traces to a network of road edges, over a shelf of files
//! and two sinks.
//!
//! [`run`] has the promise: what it writes is a function of the words and the files. The crate
//! `match_program` calls it with the real files and streams. [`run_within`] promises the same for other
//! limits of the network; the crate `large_program` calls it with the large ones.
//!
//! - The crate `command_line` reads the words, and `run` calls the crate of their command: `match_work`,
//!   `follow_work`, `table_work`, `prove_work`, `check_work`.
//! - The crate `program_frame` has what all commands share: the files and their refusals, the
//!   traces in batches, the error line, and the promises of a run.
//! - [`laws`] has what holds of the outcomes of several commands.
//!
//! Read the clause of `run` first, then `specs/Words.antt`, and then `specs/Matches.antt` of `match_work`.
#![tactic(auto)]

pub mod laws;
mod over_streams;
mod top;

pub use over_streams::{run_over, run_over_bytes};
pub use top::{Program, run, run_within};
