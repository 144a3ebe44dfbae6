//! The checker of certificates: whether a certificate proves the match of traces, without matching them.
//!
//! [`check_rows`] checks the rows that everything else relies on, [`check_trace`] one trace, and
//! [`check_all`] a whole certificate; [`check_certificate`] tells a bad row from a missing one. The verdict on a
//! trace is `trace_verdict` in `specs/Verdicts.antt`, and that on a certificate `verdict` in
//! `specs/Whole.antt`. [`laws`] shows that a certificate is proved exactly if it has the matches of the
//! traces.
#![tactic(auto)]

mod batch;
mod batch_check;
mod batches;
mod breaks;
mod cell_tests;
mod checked_rows;
mod chosen;
mod ground;
pub mod laws;
mod pieces;
mod placed_rows;
mod plain_layers;
mod point_ways;
mod points;
mod routes;
mod row_part;
mod row_parts;
mod rows;
mod step_ways;
mod subject;
mod trace_case;
mod trace_check;
mod verdict;
mod ways;
mod whole;

pub use rows::check_rows;
pub use subject::Subject;
pub use verdict::{Condition, Finding, Verdict};
pub use whole::{check_all, check_certificate, check_trace};
