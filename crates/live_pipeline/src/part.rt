//! The parts that are handed on.
use trace_reader::{Trace, TraceFault};

/// What goes from the reader of a trace file to its matcher. Each part but a trace is a last part.
#[derive(Drop)]
pub enum Part {
    Trace(Trace),
    /// The file was read to its end, and has no fault.
    End,
    /// The file has this fault, which is not `Memory`.
    Fault(TraceFault),
    /// A read of the file failed.
    ReadFailed,
    NoMemory,
}
