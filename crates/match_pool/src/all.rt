//! Many traces, matched by several workers. Serves programs; decided by `match_of` and `LearnAsked`.
ghost use Rattle.std.specs.Prelude.{◌≡◌, ◌≤◌, IfOk, OnOk, length, map};
ghost use Rattle.std.specs.List.{AllZip};
ghost use Rattle.trace_match.specs.Match.{match_of};
ghost use Rattle.match_pool.specs.Learning.{AreReadersFor, LearnAsked};
ghost use Rattle.match_pool.specs.Working.{CanMatch, ReadsWithin, job};

use crate::batch::Batch;
use crate::dealing::deal;
use crate::gate::Gate;
use crate::gathering::gather;
use crate::partitions::cut;
use crate::tables::columns_of;
use crate::worker_set::WorkerSet;
use cost_model::Params;
use grid_index::Grid;
use match_text::MatchedTrace;
use plain_list::List;
use road_network::Network;
use row_store::Reader;
use std::alloc::{AllocError, Global};
use std::thread::Threads;
use trace_reader::Trace;

/// The matches of all traces, in the same order, by one worker for each reader.
///
/// There are 1 to 64 readers. The traces are divided into as many partitions by area, so that a worker
/// mostly meets rows that it found itself. Each worker takes the traces of its own partition, then helps with
/// the other partitions, with its own reader, in a thread of its own if one is available. `first` is the index
/// of the first trace in the file, from 0, and the gate gets the indices from there on. Only tests show
/// how the work is divided, and with what the gate is called. `Err` means out of memory; even then
/// each reader knows what it knew, and nothing more but rows that the traces ask for.
pub fn match_all<'s, R: Threads + Sync, G: Gate>(
    rt: &R,
    alloc: Global,
    net: &Network,
    grid: &Grid,
    p: &Params,
    first: u64,
    traces: &[Trace],
    readers: &mut List<Reader<'s>>,
    gate: &G,
) -> Result<List<MatchedTrace>, AllocError>
    requires can { CanMatch net.now p.now grid.now first traces.now }
    requires readers { AreReadersFor net.now p.now readers.old }
    ensures matched { IfOk result (λ all. all ≡ map (match_of net.now p.now) traces.now) }
    ensures readers { AllZip (ReadsWithin (job net.now p.now first traces.now))
        readers.old readers.new }
    ensures learns { OnOk result
        (LearnAsked net.now p.now traces.now readers.old readers.new) }
{
    let batch = Batch {
        alloc,
        net,
        grid,
        params: p,
        first,
        traces,
    };
    let workers = readers.len();
    let cuts = cut(alloc, traces, workers)?;
    let (partitions, by_worker) = deal(alloc, cuts, workers as u32)?;
    let mut worker_set = WorkerSet::start(alloc, readers, by_worker)?;
    let outcome = worker_set.run(rt, &batch, partitions.as_slice(), gate);
    let turns = worker_set.end(readers);
    outcome?;
    let by_partition = columns_of(alloc, turns, partitions.len())?;
    gather(&batch, partitions, by_partition)
}
