//! Reads a trace file in chunks of any size. [`TraceReader::feed`] returns each [`Trace`] as
//! soon as it is closed, and the file's first [`TraceFault`] as soon as it is known.
//!
//! A file is a header, `trace,x,y` or `trace,x,y,time`, and a row for each [`Fix`]; consecutive rows
//! with one id form a trace. `specs/Reading.antt` defines what the bytes of a file contain: `closed`,
//! the traces that are closed in them; `fault_in`, the fault that is known from them whatever
//! follows; `file_traces` and `file_fault`, the same at the end of the file.
//!
//! A reader represents the bytes fed so far (`StandsFor` in `specs/Reader.antt`); it stores only the
//! open trace and the unfinished line. Read the clause of [`TraceReader::feed`] first.
#![tactic(auto)]

mod content;
mod fault;
mod field;
mod laws_of_reading;
mod reader;
mod row;
mod trace;

pub use fault::TraceFault;
pub use laws_of_reading::{
    closed_traces_stay, files_are_read_by_line, known_faults_stay, traces_are_lawful,
};
pub use reader::TraceReader;
pub use trace::{Fix, Trace};
