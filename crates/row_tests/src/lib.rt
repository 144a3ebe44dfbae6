//! Tests of the crates from the grid to the rows: cells, candidates, rows, their lines and their stores. What
//! the program shows, such as the match of layers, `tests/cases` covers. The tests have a crate of their own, so
//! that none of these crates is proved a second time for them. Other crates of tests use the networks and rows of
//! [`small`], and [`lawful_traces`].
#![tactic(auto)]

#[cfg(test)]
mod candidates;
#[cfg(test)]
mod cells;
pub mod lawful_traces;
#[cfg(test)]
mod readers;
#[cfg(test)]
mod row_lines;
#[cfg(test)]
mod searches;
pub mod small;
