//! The kinds of work, by the arguments that they take.
pub mod checking;
pub mod matching;
pub mod streaming;
pub mod table;
pub mod towns;
pub mod trace_files;
