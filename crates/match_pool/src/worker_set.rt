//! Workers in threads. Serves `match_all`; decided by `DrewAll`.
ghost use Rattle.std.specs.Prelude.{◌≡◌, ◌<◌, ◌≤◌, ◌+◌, ℕ, All, IfOk, IsOk, OnErr, OnOk, length, map, slice_index_or, vec_capacity};
ghost use Rattle.std.specs.List.{AllZip};
ghost use Rattle.match_pool.specs.Drawing.{job_of};
ghost use Rattle.match_pool.specs.inside.WorkerSet.{CanDrawFrom, HasRoomForWorkers, IsWorkerSet, KeepsRoom, Ran, DrewAll, DrewFrom, reader_of, turns_of};
ghost use Rattle.match_pool.specs.Working.{ReadsWithin};

use crate::batch::Batch;
use crate::gate::Gate;
use crate::running::run_each;
use crate::turn::{Partition, Turn};
use plain_list::List;
use row_store::Reader;
use std::alloc::{AllocError, Global};
use std::mem;
use std::thread::Threads;

/// A reader, its turn at each partition, and whether memory was refused in one of them.
pub struct Worker<'s> {
    pub reader: Reader<'s>,
    pub turns: Vec<Turn>,
    pub outcome: Result<(), AllocError>,
}

// By hand, so that the functions that drop one call this.
impl<'s> Drop for Worker<'s> {
    fn drop(self) {
        let Worker {
            reader: _,
            turns: _,
            outcome: _,
        } = self;
    }
}

impl<'s> Worker<'s> {
    /// The reader, and its turns.
    fn into_parts(self) -> (Reader<'s>, Vec<Turn>)
        ensures { (result.0 ≡ self.entry.reader) × (result.1 ≡ self.entry.turns) }
    {
        let Worker {
            reader,
            turns,
            outcome: _,
        } = self;
        (reader, turns)
    }

    /// Takes its turns from one partition on and before another.
    fn take_turns<G: Gate>(
        &mut self,
        batch: &Batch,
        partitions: &[Partition],
        from: usize,
        past: usize,
        gate: &G,
    ) -> Result<(), AllocError>
        requires can { CanDrawFrom (job_of batch.now) partitions.now from past self.old }
        requires past { (from ≤ past) × (past ≤ length partitions.now) }
        ensures reader { ReadsWithin (job_of batch.now) self.old.reader self.new.reader }
        ensures drew_all { OnOk result (DrewFrom (job_of batch.now) partitions.now from past self.old self.new) }
    {
        for place in from..past {
            self.turns[place].take(batch, &partitions[place], &mut self.reader, gate)?;
        }
        Ok(())
    }

    /// Takes its turns at all partitions, from its own on and round.
    fn draw_all<G: Gate>(
        &mut self,
        batch: &Batch,
        partitions: &[Partition],
        own: usize,
        gate: &G,
    ) -> Result<(), AllocError>
        requires can { CanDrawFrom (job_of batch.now) partitions.now 0 (length partitions.now) self.old }
        requires own { own ≤ length partitions.now }
        ensures reader { ReadsWithin (job_of batch.now) self.old.reader self.new.reader }
        ensures drew_all { OnOk result (DrewAll (job_of batch.now) partitions.now self.new) }
    {
        self.take_turns(batch, partitions, own, partitions.len(), gate)?;
        self.take_turns(batch, partitions, 0, own, gate)
    }

    /// Does its work.
    fn run<G: Gate>(&mut self, batch: &Batch, partitions: &[Partition], own: usize, gate: &G)
        requires can { CanDrawFrom (job_of batch.now) partitions.now 0 (length partitions.now) self.old }
        requires own { own ≤ length partitions.now }
        ensures { Ran (job_of batch.now) partitions.now self.old self.new }
    {
        self.outcome = self.draw_all(batch, partitions, own, gate);
    }
}

/// Runs each worker, in a thread of its own where there is one. Each begins at a partition of its own.
fn run_all<'s, R: Threads + Sync, G: Gate>(
    rt: &R,
    batch: &Batch,
    partitions: &[Partition],
    workers: &mut [Worker<'s>],
    gate: &G,
)
    requires count { length workers.old ≤ length partitions.now }
    requires can { All (CanDrawFrom (job_of batch.now) partitions.now 0 (length partitions.now)) workers.old }
    ensures { (i : ℕ) (d : _) → i < length workers.old → Ran (job_of batch.now) partitions.now
        (slice_index_or workers.old i d) (slice_index_or workers.new i d) }
{
    run_each(
        rt,
        workers,
        &|place, worker: &mut Worker<'_>|
            requires { (place < length partitions.now)
                × CanDrawFrom (job_of batch.now) partitions.now 0 (length partitions.now) worker.now }
            ensures { Ran (job_of batch.entry.now) partitions.entry.now worker.entry.now worker.exit.now }
        { worker.run(batch, partitions, place, gate) },
    );
}

/// Err where one of the workers was refused memory.
fn outcome_of(workers: &[Worker<'_>]) -> Result<(), AllocError>
    ensures { OnOk result (All (λ w. IsOk w.outcome) workers.now) }
{
    for worker in workers {
        worker.outcome?;
    }
    Ok(())
}

/// Workers, and room for what is left of them.
#[derive(Drop)]
pub struct WorkerSet<'s> {
    pub workers: Vec<Worker<'s>>,
    pub readers: Vec<Reader<'s>>,
    pub turns: Vec<List<Turn>>,
}

impl<'s> WorkerSet<'s> {
    /// Takes the readers out of their list, and gives a turn at each partition to each. After Err they are
    /// still there.
    pub fn start(
        alloc: Global,
        readers: &mut List<Reader<'s>>,
        mut by_worker: Vec<List<Turn>>,
    ) -> Result<WorkerSet<'s>, AllocError>
        requires { length by_worker.items ≡ length readers.old }
        ensures worker_set { IfOk result (IsWorkerSet readers.old by_worker.items) }
        ensures err { OnErr result (readers.new ≡ readers.old) }
    {
        let count = readers.len();
        let mut workers = Vec::with_capacity(alloc, count)?;
        let home = Vec::with_capacity(alloc, count)?;
        let turns = Vec::with_capacity(alloc, count)?;
        let taken = mem::replace(readers, List::new(alloc)).into_vec();
        for reader in taken {
            let Some(own_turns) = by_worker.pop() else {
                unreachable!()
            };
            let worker = Worker {
                reader,
                turns: own_turns.into_vec(),
                outcome: Ok(()),
            };
            let Ok(()) = workers.push(worker) else {
                unreachable!()
            };
        }
        Ok(WorkerSet {
            workers,
            readers: home,
            turns,
        })
    }

    /// Lets all workers work, each in a thread of its own where there is one. Err says that memory was
    /// refused to one of them.
    pub fn run<R: Threads + Sync, G: Gate>(
        &mut self,
        rt: &R,
        batch: &Batch,
        partitions: &[Partition],
        gate: &G,
    ) -> Result<(), AllocError>
        requires count { length self.old.workers.items ≤ length partitions.now }
        requires can { All (CanDrawFrom (job_of batch.now) partitions.now 0 (length partitions.now))
            self.old.workers.items }
        ensures ran { AllZip (Ran (job_of batch.now) partitions.now) self.old.workers.items self.new.workers.items }
        ensures all { OnOk result (All (λ w. IsOk w.outcome) self.new.workers.items) }
        ensures room { KeepsRoom self.old self.new }
    {
        let workers = self.workers.as_mut_slice();
        run_all(rt, batch, partitions, workers, gate);
        outcome_of(self.workers.as_slice())
    }

    /// Puts the readers back into their list, and returns the turns of each worker. Takes no memory.
    pub fn end(self, readers: &mut List<Reader<'s>>) -> Vec<List<Turn>>
        requires { HasRoomForWorkers self }
        ensures readers { readers.new ≡ map reader_of self.entry.workers.items }
        ensures turns { result.items ≡ map turns_of self.entry.workers.items }
    {
        let WorkerSet {
            workers,
            readers: mut home,
            mut turns,
        } = self;
        for worker in workers {
            let (reader, own) = worker.into_parts();
            let Ok(()) = home.push(reader) else {
                unreachable!()
            };
            let Ok(()) = turns.push(List::from_vec(own)) else {
                unreachable!()
            };
        }
        let _emptied = mem::replace(readers, List::from_vec(home));
        turns
    }
}
