//! Input and output as two traits. Their contracts hold for real files and streams, and the fakes in
//! memory meet them too.
//!
//! - `Shelf` is a set of named files. `Shelf::read` reads some bytes of a file from a place on,
//!   and the shelf records the name of each failed read.
//! - `Sink` takes bytes in order. `Sink::put` writes a text, and the sink counts the failed puts.
//! - `MemoryShelf` and `MemorySink` expose their bytes to contracts, and fail where a test asks for it.
//! - `FileShelf` and `StreamSink` are adapters over a source of files (`FileSource`) and over a stream
//!   (std's `Write`). Contracts see the bytes that the source and the stream tell. A runtime and its
//!   streams tell nothing; `NamedFiles` and a `Vec` tell their bytes, and the code is the same.
//!
//! Read the clause `bytes` of `Shelf::read` first. Lemmas for callers that add up known bytes are in
//! `proofs/KnownBytes.antt`.
#![tactic(auto)]

mod file_shelf;
mod file_source;
mod memory_shelf;
mod memory_sink;
mod named_files;
mod noting;
mod shelf;
mod sink;
mod stream_sink;

pub use file_shelf::{FileShelf, read_again};
pub use file_source::FileSource;
pub use memory_shelf::MemoryShelf;
pub use memory_sink::MemorySink;
pub use named_files::NamedFiles;
pub use shelf::{Shelf, Taken};
pub use sink::{Put, Sink};
pub use stream_sink::StreamSink;
