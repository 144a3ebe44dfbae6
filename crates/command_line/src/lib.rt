//! The command line: which command the words ask for, and its options.
//!
//! [`read_command`] parses the words after the program's name by `clap` into a [`Command`] with the
//! names of the files and options in their ranges. Words that `clap` refuses, requests for help
//! included, are [`WordsFault::Usage`]. Then the values of the options are read, in the order of
//! [`ValueName::OPTIONS`], and the first one that is not a number in its range is
//! [`WordsFault::BadValue`]. [`WordsFault::line`] is the error line.
//!
//! Read the clauses of `read_command` first, and `command_of` in `specs/Words.antt`.
#![tactic(auto)]

mod command;
mod fault;
mod read;
mod syntax;
mod value;
mod work;
mod works;

pub use command::read_command;
pub use fault::WordsFault;
pub use value::ValueName;
pub use work::{
    CheckFiles, Command, MatchFiles, StreamFiles, TableFiles, TownNumbers, TraceFiles, Work,
};
