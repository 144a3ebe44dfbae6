//! The match text of one trace, written and read.
//!
//! A [`MatchedTrace`] has the id of a trace, a [`Label`] for each of its positions and the [`Routed`] pieces, with
//! the ids of roads. Its text is one line `trace ID`, one line for each position (`at I edge E offset O d2 D` or
//! `none I`), the line `piece F L cost C route E1 E2 ..` directly after the line of the piece's last position, and
//! one line `end ID`.
//!
//! [`write_match`] appends the text. [`read_match`] accepts exactly the texts of lawful matched
//! traces and names the first line that is not allowed at its place. Texts that share lines with it
//! can write one line ([`write_trace`], [`write_label`], [`write_piece`], [`write_end`]) or read one
//! ([`read_trace`], [`read_piece`]); [`front`] reads words and numbers.
//!
//! `text_of` in `specs/Lines.antt` defines the text, and `IsLawful` in `specs/MatchText.antt` defines
//! lawful. Read the clauses of [`read_match`] first.
#![tactic(auto)]

mod fault;
pub mod front;
mod line;
mod matched;
mod place;
mod reading;
mod scan;
mod writing;

pub use fault::TextFault;
pub use line::{write_end, write_label, write_piece, write_trace};
pub use matched::{Label, MatchedTrace, Routed};
pub use place::Place;
pub use reading::read_match;
pub use scan::{read_piece, read_trace};
pub use writing::write_match;
