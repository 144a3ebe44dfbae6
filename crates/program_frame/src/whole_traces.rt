//! All traces of a file in memory. Serves the commands that prove and check; decided by `traces_said`.
ghost use Rattle.std.specs.Prelude.{◌≡◌, []};
ghost use Rattle.trace_reader.specs.Reader.{StandsFor};
ghost use Rattle.program_frame.specs.Loads.{Loads};
ghost use Rattle.program_frame.specs.Refusals.{trace_limit};
ghost use Rattle.program_frame.specs.declared.stop.File.{File};
ghost use Rattle.program_frame.specs.WholeTraces.{traces_said};
ghost use Rattle.program_frame.specs.inside.HeldTraces.{FeedsFile};

use crate::chunks::Chunks;
use crate::fault_line::refuse_fault;
use crate::stop::{Refusal, Stop};
use edge_io::Shelf;
use plain_list::List;
use std::alloc::Global;
use trace_reader::{Trace, TraceReader};

/// Reads the traces of a file, and accepts or refuses them. Memory holds the traces and one chunk of
/// the file, and nothing is read after the chunk of the first fault.
pub fn load_traces<S: Shelf>(alloc: Global, shelf: &mut S, name: &str) -> Result<List<Trace>, Stop>
    ensures { Loads Refusal.Traces File.Traces name.now trace_limit traces_said
        (S.state shelf.old) (S.state shelf.new) result }
{
    let mut reader = TraceReader::open(alloc);
    let mut traces = List::new(alloc);
    feed_file(alloc, shelf, name, &mut reader, &mut traces)?;
    match reader.finish(&mut traces) {
        Ok(()) => Ok(traces),
        Err(fault) => Err(refuse_fault(alloc, Refusal::Traces, &fault)),
    }
}

// Feeds a file to its end, to the first byte above the limit or to its first fault.
fn feed_file<S: Shelf>(
    alloc: Global,
    shelf: &mut S,
    name: &str,
    reader: &mut TraceReader,
    traces: &mut List<Trace>,
) -> Result<(), Stop>
    requires stands { StandsFor reader.old [] }
    requires none { traces.old ≡ [] }
    ensures { FeedsFile name.now (S.state shelf.old) (S.state shelf.new) reader.new traces.new
        result }
{
    let mut chunks = Chunks::open(alloc);
    while chunks.next(shelf, name)? {
        if let Err(fault) = reader.feed(&chunks.bytes, traces) {
            return Err(refuse_fault(alloc, Refusal::Traces, &fault));
        }
    }
    Ok(())
}
