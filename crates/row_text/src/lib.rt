//! A row of the bounded table as a line, written and read.
//!
//! The line is `row S N:D:E N:D:E ..` and LF: the origin's number, and for each entry of the row the
//! numbers of its node, its distance in cm and its last edge; the origin's own entry is `S:0:-`. All
//! numbers are decimal without leading zeros.
//!
//! [`write_row`] appends the line, and [`read_row`] reads the line at the front of a text. It accepts
//! exactly the lines of rows that meet the three rules of a row; it checks neither the network nor
//! whether the row is right.
//!
//! `row_line` in `specs/RowLine.antt` defines the line. Read that and the laws in [`laws`] first.
#![tactic(auto)]

mod digits;
pub mod laws;
mod numbers;
mod reading;
mod writing;

pub use reading::read_row;
pub use writing::write_row;
