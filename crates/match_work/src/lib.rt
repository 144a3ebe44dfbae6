//! The work of `match` and `town`: workers that share the rows of one store match traces batch by batch; at the
//! end the total line is written.
//!
//! - [`match_traces`] does it. Its plan is `match_plan` in `specs/Matches.antt`: read it first.
//!   [`match_file`] is its part after the network, for callers that have a store already.
//! - [`match_with_table`] first offers the rows of a table file to the store. Its plan is
//!   `table_match_plan` in `specs/TableMatch.antt`.
//! - [`match_town`] makes a town from its numbers, and matches its traces on its network. Its plan is `town_plan` in
//!   `specs/Towns.antt`: the total line of `match`, and the sum of the costs of all pieces.
//! - [`open_near_store`], [`open_readers`] and [`match_batch`] are for callers that match traces by workers:
//!   the store, a reader of it for each worker, and the matches of some traces. Their effect is
//!   `MatchesBatch` in `specs/Sharing.antt`. An [`Env`] has what workers need of outside.
#![tactic(auto)]

mod batches;
mod env;
mod matches;
mod tabled;
mod texts;
mod towns;

pub use batches::{Shared, match_batch, open_near_store, open_readers};
pub use env::Env;
pub use matches::{match_file, match_traces};
pub use tabled::match_with_table;
pub use towns::match_town;
