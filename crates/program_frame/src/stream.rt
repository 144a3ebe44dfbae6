//! The traces of a file, read chunk by chunk. Serves the commands; decided by `works_traces`.
ghost use Rattle.std.specs.Prelude.{[], Ok};
ghost use Rattle.program_frame.specs.Performs.{Performs};
ghost use Rattle.program_frame.specs.Stream.{works_traces};

use crate::batches::Batches;
use crate::chunks::Chunks;
use crate::jobs::Job;
use crate::stop::Stop;
use edge_io::{Shelf, Sink};
use std::alloc::Global;

/// Passes the traces of a file to a job, and writes their text. Memory holds one chunk and one batch of
/// traces, and nothing is read after the chunk of the first fault.
pub fn work_traces<J: Job + Drop, S: Shelf, K: Sink>(
    alloc: Global,
    job: J,
    shelf: &mut S,
    name: &str,
    out: &mut K,
) -> Result<(), Stop>
    requires { J.has job [] }
    ensures { Performs (Ok (works_traces name.now (J.text job)))
        (S.state shelf.old) (S.state shelf.new) (K.state out.old) (K.state out.new) result }
{
    let mut batches = Batches::open(alloc, job);
    let mut chunks = Chunks::open(alloc);
    while chunks.next(shelf, name)? {
        batches.take_chunk(alloc, &chunks.bytes, out)?;
    }
    batches.finish(alloc, out)
}
