//! What the reader's thread is given and returns, and what it promises of it. Serves `live_traces`; decided by
//! `KeepsPromise`.
use crate::relay::PutPass;
use edge_io::Shelf;
use std::snapshot::Snapshot;
use std::thread::Promise;

/// A trace file: the shelf that holds it, and its name there.
#[derive(Drop)]
pub struct TraceFile<'a, S> {
    pub shelf: S,
    pub name: &'a String,
}

/// What a reader is given.
#[derive(Drop)]
pub struct Reading<'a, S> {
    pub file: TraceFile<'a, S>,
    pub pass: PutPass,
}

/// The shelf and the pass of a reader, after it has read, or if it has not begun.
#[derive(Drop)]
pub enum ReadDone<S> {
    Read { shelf: S, pass: PutPass },
    Unread { shelf: S, pass: PutPass },
}

/// The promise of a reader with this shelf, this pass and the file of this name.
#[derive(Drop)]
pub struct ReadPromise<S> {
    pub shelf: Snapshot<S>,
    pub pass: Snapshot<PutPass>,
    pub name: Snapshot<String>,
}

impl<S: Shelf> Promise<ReadDone<S>> for ReadPromise<S> {
    ghost use Rattle.std.specs.Prelude.{string_bytes};
    ghost use Rattle.live_pipeline.specs.inside.Feeding.{KeepsPromise};

    ghost kept_by = { λ p done. KeepsPromise S.state (string_bytes p.name.value) p.shelf.value p.pass.value done };
}
