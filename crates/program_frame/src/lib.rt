//! What all programs share: plans of reads, how work ends, the error line and the status, the network,
//! the traces of a file in batches for a job, and the promises of a run.
//!
//! - `stop` has why work ends early, the error line, and the status.
//! - `files` reads a file whole, `chunks` a trace file chunk by chunk, `texts` writes a text, `load` reads
//!   the network. `request` has what a command is asked for. `outside` has the words, files and streams of a program, and
//!   `arguments` reads its words. `fault_line` has the trait for faults with a line, and the refusal for one.
//! - `jobs` has the trait for what is done with traces, `stream` reads their file in chunks, and
//!   `batches` holds the waiting traces; `total` counts them. `whole_traces` reads all traces of a
//!   file into memory.
//!
//! `laws` has what holds of the promises of every run.
//!
//! Read `specs/Plan.antt` first, then `specs/Performs.antt`, `specs/Jobs.antt` and
//! `specs/Promises.antt`; then the clause of `work_traces`.
#![tactic(auto)]

mod arguments;
mod batches;
mod chunks;
mod fault_line;
mod files;
mod jobs;
pub mod laws;
mod load;
mod outside;
mod request;
mod stop;
mod stream;
mod texts;
mod total;
mod whole_traces;

pub use arguments::{Arguments, GivenArguments, read_words};
pub use chunks::{CHUNK, Chunks};
pub use fault_line::{FaultLine, refuse_fault};
pub use files::read_file;
pub use jobs::Job;
pub use load::load_network;
pub use outside::Outside;
pub use request::Request;
pub use stop::{File, Refusal, Stop, refuse, report};
pub use stream::work_traces;
pub use texts::put_text;
pub use total::Tally;
pub use whole_traces::load_traces;
