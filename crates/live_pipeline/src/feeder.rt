//! Puts traces as they close. Serves `read_traces`; decided by `Feeds` and `Finishes` of the
//! trace reader.
ghost use Rattle.std.specs.Prelude.{◌≡◌, ◌++◌, ◌<◌, ◌^◌, ℕ, List as ListOf, length};
ghost use Rattle.live_pipeline.specs.Order.{AreBounded};
ghost use Rattle.live_pipeline.specs.Pieces.{parts_of};
ghost use Rattle.live_pipeline.specs.inside.Feeding.{HasFed, IsFaultPart, IsFedSome, PutsChunk, PutsFile};

use crate::part::Part;
use crate::relay::{PutPass, Relay};
use plain_list::List;
use std::sync::Wait;
use trace_reader::{Trace, TraceFault, TraceReader};

// Puts the traces of a list, in order.
fn put_traces<R: Wait>(rt: &R, relay: &Relay, pass: &mut PutPass, traces: List<Trace>)
    requires own { pass.old.relay ≡ relay.now.name }
    requires may { AreBounded (pass.old.parts ++ parts_of traces) }
    ensures { pass.new ≡ record { relay = pass.old.relay; parts = pass.old.parts ++ parts_of traces } }
{
    for trace in traces.into_vec() {
        relay.put(rt, pass, Part::Trace(trace));
    }
}

/// Feeds a chunk of a file, and puts the traces that it closes; on a fault, those closed before it.
pub fn put_chunk<R: Wait>(
    rt: &R,
    relay: &Relay,
    reader: &mut TraceReader,
    chunk: &[u8],
    pass: &mut PutPass,
) -> Result<(), TraceFault>
    requires own { pass.old.relay ≡ relay.now.name }
    requires fed { IsFedSome reader.old pass.old.parts }
    requires short { length chunk.now < 2 ^ 32 }
    ensures own { pass.new.relay ≡ pass.old.relay }
    ensures puts { (fed : ListOf ℕ) → HasFed fed reader.old pass.old.parts
        → PutsChunk (fed ++ chunk.now) reader.new pass.new.parts result }
{
    let mut traces = List::new(relay.alloc());
    let fed = reader.feed(chunk, &mut traces);
    put_traces(rt, relay, pass, traces);
    fed
}

/// Takes the end of the file, and puts its last traces.
pub fn put_end<R: Wait>(
    rt: &R,
    relay: &Relay,
    reader: &mut TraceReader,
    pass: &mut PutPass,
) -> Result<(), TraceFault>
    requires own { pass.old.relay ≡ relay.now.name }
    requires fed { IsFedSome reader.old pass.old.parts }
    ensures own { pass.new.relay ≡ pass.old.relay }
    ensures puts { (fed : ListOf ℕ) → HasFed fed reader.old pass.old.parts
        → PutsFile fed pass.new.parts result }
{
    let mut traces = List::new(relay.alloc());
    let ended = reader.finish(&mut traces);
    put_traces(rt, relay, pass, traces);
    ended
}

/// The last part for a fault.
pub fn part_of_fault(fault: TraceFault) -> Part
    ensures { IsFaultPart fault result }
{
    match fault {
        TraceFault::Memory => Part::NoMemory,
        known => Part::Fault(known),
    }
}
