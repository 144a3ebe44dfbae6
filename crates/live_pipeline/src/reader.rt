//! The reader: a trace file in chunks, its traces one by one on the relay. Serves `live_traces`; decided
//! by `HasRead`.
ghost use Rattle.std.specs.Prelude.{◌≡◌, [], string_bytes};
ghost use Rattle.program_frame.specs.Chunks.{MayReadOn};
ghost use Rattle.live_pipeline.specs.Order.{no_parts};
ghost use Rattle.live_pipeline.specs.Reading.{HasRead};
ghost use Rattle.live_pipeline.specs.inside.Feeding.{EndsAt, HasPut, KeepsPromise, PutsChunks, ReadsNext};

use crate::feeder::{part_of_fault, put_chunk, put_end};
use crate::part::Part;
use crate::read_done::{ReadDone, Reading, TraceFile};
use crate::relay::{PutPass, Relay};
use edge_io::Shelf;
use program_frame::{Chunks, Stop};
use std::sync::Wait;
use trace_reader::TraceReader;

// The last part for a chunk that was not read.
fn part_of_stop(stop: Stop) -> Part
    ensures { EndsAt stop result }
{
    match stop {
        Stop::Unread(_) => Part::ReadFailed,
        Stop::NoMemory | Stop::Refused(_, _) | Stop::Unwritten => Part::NoMemory,
    }
}

// Reads the next chunk of a file. `Err` has the last part if the chunk was not read.
fn next_chunk<S: Shelf>(chunks: &mut Chunks, shelf: &mut S, name: &str) -> Result<bool, Part>
    requires { MayReadOn name.now (S.state shelf.old) chunks.old.at }
    ensures { ReadsNext name.now (S.state shelf.old) (S.state shelf.new)
        chunks.old.at chunks.new.at chunks.new.bytes.items result }
{
    match chunks.next(shelf, name) {
        Ok(more) => Ok(more),
        Err(stop) => Err(part_of_stop(stop)),
    }
}

// Reads a file to its end, to the first byte above the limit or to its first fault, and puts the traces
// that close. Returns the reader that was fed. `Err` has the last part if reading ends early.
fn put_chunks<R: Wait, S: Shelf>(
    rt: &R,
    relay: &Relay,
    name: &str,
    shelf: &mut S,
    pass: &mut PutPass,
) -> Result<TraceReader, Part>
    requires own { pass.old.relay ≡ relay.now.name }
    requires first { pass.old.parts ≡ [] }
    ensures own { pass.new.relay ≡ pass.old.relay }
    ensures puts { PutsChunks name.now (S.state shelf.old) (S.state shelf.new) pass.new.parts result }
{
    let mut reader = TraceReader::open(relay.alloc());
    let mut chunks = Chunks::open(relay.alloc());
    while next_chunk(&mut chunks, shelf, name)? {
        if let Err(fault) = put_chunk(rt, relay, &mut reader, &chunks.bytes, pass) {
            return Err(part_of_fault(fault));
        }
    }
    Ok(reader)
}

// Puts the traces of a file as they close, and returns the last part that belongs after them.
fn put_file<R: Wait, S: Shelf>(
    rt: &R,
    relay: &Relay,
    name: &str,
    shelf: &mut S,
    pass: &mut PutPass,
) -> Part
    requires own { pass.old.relay ≡ relay.now.name }
    requires first { pass.old.parts ≡ [] }
    ensures own { pass.new.relay ≡ pass.old.relay }
    ensures put { HasPut name.now (S.state shelf.old) (S.state shelf.new) pass.new.parts result }
{
    let mut reader = match put_chunks(rt, relay, name, shelf, pass) {
        Ok(reader) => reader,
        Err(last) => return last,
    };
    match put_end(rt, relay, &mut reader, pass) {
        Ok(()) => Part::End,
        Err(fault) => part_of_fault(fault),
    }
}

/// Reads a file and puts its traces as they close, and then one last part. Nothing is read after the
/// chunk of the first fault.
pub fn read_traces<R: Wait, S: Shelf>(
    rt: &R,
    relay: &Relay,
    name: &str,
    shelf: &mut S,
    pass: &mut PutPass,
)
    requires own { pass.old.relay ≡ relay.now.name }
    requires first { pass.old.parts ≡ [] }
    ensures { HasRead name.now (S.state shelf.old) (S.state shelf.new) pass.old pass.new }
{
    let last = put_file(rt, relay, name, shelf, pass);
    relay.put(rt, pass, last);
}

/// [`read_traces`] of what a reader is given, unless it was refused a thread: then nothing is read.
pub fn read_unless<R: Wait, S: Shelf + Drop>(
    rt: &R,
    relay: &Relay,
    reading: Reading<'_, S>,
    refused: bool,
) -> ReadDone<S>
    requires { reading.pass ≡ no_parts relay.now.name }
    ensures { KeepsPromise S.state (string_bytes reading.entry.file.name.now) reading.entry.file.shelf
        reading.entry.pass result }
{
    let Reading { file, mut pass } = reading;
    let TraceFile { mut shelf, name } = file;
    if refused {
        return ReadDone::Unread { shelf, pass };
    }
    read_traces(rt, relay, name, &mut shelf, &mut pass);
    ReadDone::Read { shelf, pass }
}
