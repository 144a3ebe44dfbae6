//! Table files: their text, written and read, and the work on them.
//!
//! [`write_table`] does the work of `table`: it reads a network and writes the table text with the row of every
//! node. Its plan is `table_plan` in `specs/Table.antt`. [`preload`] reads a table file, checks each of its rows,
//! and offers the right ones to a store before traces are matched; `table_file_said` in `specs/Preload.antt`
//! defines the answer to the bytes of the file: read it first.
//!
//! The text is the line `fmm-table 1 bound U nodes N edges M` with the bound in cm and the counts of the
//! network, a line for each row (`row_text`) by ascending origin, and the line `end rows R`. It has at
//! most [`TEXT_LIMIT`] bytes. A [`TableWriter`] takes rows one by one, and [`read_table`] accepts exactly the
//! texts for one bound and one pair of counts. A row that was read meets the rules of a row, and its numbers are
//! below the counts; whether it is right is not checked there: `check_row` does that.
//!
//! `table_text` in `specs/TableText.antt` defines the text, and `table_of` in `specs/Reading.antt` what
//! is read. Read these and the laws in [`laws`] first.
#![tactic(auto)]

mod fault;
pub mod laws;
mod lines;
mod preloading;
mod reading;
mod recent_rows;
mod table;
mod writing;

pub use fault::{TableFault, TableWriteFault};
pub use preloading::preload;
pub use reading::read_table;
pub use table::write_table;
pub use writing::TableWriter;

/// The most bytes of a table text.
pub const TEXT_LIMIT: u64 = 1_073_741_824;
