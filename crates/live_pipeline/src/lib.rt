//! The traces of a file, read in one thread and processed in another.
//!
//! [`live_traces`] does what `work_traces` of the crate `program_frame` does, with a reader in a thread of
//! its own: `reader` reads the file in chunks and puts each trace that closes on a [`Relay`]; `matcher` takes
//! the traces, passes them to a job and writes their text. Then the reader thread is joined and the relay
//! is closed, which shows that the traces that were written are those that were read, in order and each
//! once. If no second thread is available, both are done in turn.
//!
//! [`live`] is the whole program `fmm_live` over a shelf of files and two sinks: `follow` with such a reader.
//! Its clause says that it writes what `follow` writes; `specs/Words.antt` has the plan for its words.
//!
//! Read the clause of `live_traces` first, then `Brings` in `specs/Reading.antt`, `specs/Matching.antt`
//! and `specs/Living.antt`.
#![tactic(auto)]

mod closing;
mod ending;
mod feeder;
mod matcher;
mod part;
mod pipeline;
mod read_done;
mod reader;
mod relay;
mod rule;
mod top;
mod words;

pub use closing::close_whole;
pub use ending::end_traces;
pub use matcher::match_parts;
pub use part::Part;
pub use pipeline::live_traces;
pub use read_done::{ReadDone, TraceFile};
pub use reader::read_traces;
pub use relay::{PutPass, Relay, TakePass};
pub use top::live;
