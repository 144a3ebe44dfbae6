//! The match of one trace, and of many traces by several workers.
//!
//! - [`match_one`] matches one trace by the rows of any [`bounded_table::Rows`]: the candidates of its
//!   positions, their ranks and pieces, and the routes.
//! - [`match_all`] matches many: it divides them into partitions by area, one for each worker, each with
//!   a counter from which its traces are drawn. A worker has a [`row_store::Reader`] of one shared store. It
//!   draws from its own partition until none is left, and then from the others. No call waits.
//! - [`work_on`] is what each worker does with each partition, and [`work`] the same with all traces as
//!   one partition.
//! - A [`Gate`] is called for each trace, which only tests show.
//!
//! For a trace of one position, or one far from the whole network, the code of [`match_all`],
//! [`work_on`] and [`work`] makes no layers or cells. That saves time; no contract claims it.
//!
//! `match_of` in trace_match's `specs/Match.antt` defines the match, and `asks` there which rows a trace
//! asks for: exactly those become known. Read first the clauses `answer` and `asks` of [`match_one`], and
//! those of [`match_all`].
#![tactic(auto)]

mod all;
mod answer;
mod batch;
mod dealing;
mod drawing;
mod far;
mod finding;
mod gate;
mod gathering;
mod one_fix;
mod partitions;
mod routes;
mod running;
mod tables;
mod turn;
mod worker;
mod worker_set;

pub use all::match_all;
pub use answer::{Answer, match_one};
pub use batch::Batch;
pub use drawing::work_on;
pub use gate::{Gate, OpenGate};
pub use worker::{Done, work};
