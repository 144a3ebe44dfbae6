//! Searches for rows of the bounded table.
//!
//! - [`search`] finds the row of an origin, and a [`Searcher`] many of them.
//! - Each of these is a `bounded_table::Rows`: [`OwnRows`] finds rows on first use and keeps
//!   them; [`NearRows`] finds rows within a shorter bound first, and whole rows only where they are needed;
//!   [`RefusingRows`] is a fake that fails at chosen calls.
//! - A search may use rows that are known already ([`KnownRows`], [`Searcher::row_from`]).
//!
//! Distances are in cm. Read first the clause of [`search`]: `IsRow` of the crate `bounded_table`
//! is a minimum over all walks, and no code ever lists walks.
#![tactic(auto)]

mod dijkstra;
mod fans;
mod found_entries;
mod free_places;
mod known_rows;
mod marks;
mod merging;
mod near_rows;
mod own_rows;
mod queue;
mod refusing_rows;
mod searcher;
mod taking;
mod waiting_list;

pub use fans::Fans;
pub use known_rows::KnownRows;
pub use near_rows::NearRows;
pub use own_rows::OwnRows;
pub use refusing_rows::RefusingRows;
pub use searcher::{Searcher, search};
