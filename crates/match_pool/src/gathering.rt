//! The answers of all workers, in the order of the traces. Serves `match_all`; decided by `FillsSlots`.
ghost use Rattle.std.specs.Prelude.{◌≡◌, ◌<◌, ◌≤◌, ◌+◌, All, IfOk, OnOk, IsSome, None, Some, length, map, replicate};
ghost use Rattle.std.specs.List.{AllZip};
ghost use Rattle.trace_match.specs.Match.{match_of};
ghost use Rattle.match_pool.specs.Drawing.{job_of};
ghost use Rattle.match_pool.specs.inside.Gathering.{AllDrawn, CoverTraces, FillsSlots, AreTurnsOver, PlacesAnswers};
ghost use Rattle.match_pool.specs.Working.{matched_at};

use crate::batch::Batch;
use crate::turn::{Partition, Turn};
use crate::worker::Done;
use match_text::MatchedTrace;
use plain_list::List;
use std::alloc::{AllocError, Global};

/// This many empty slots.
fn blank(alloc: Global, count: usize) -> Result<Vec<Option<MatchedTrace>>, AllocError>
    ensures { IfOk result (λ slots. slots.items ≡ replicate count None) }
{
    let mut slots = Vec::with_capacity(alloc, count)?;
    for _ in 0..count {
        slots.push(None)?;
    }
    Ok(slots)
}

/// Stores answers in the slots of their indices; `first` is the index of the first slot.
fn place(slots: &mut Vec<Option<MatchedTrace>>, first: u64, done: List<Done>)
    requires { All (λ d. (first ≤ d.place) × (d.place < first + length slots.old.items)) done }
    ensures count { length slots.new.items ≡ length slots.old.items }
    ensures filled { PlacesAnswers first done slots.old.items slots.new.items }
{
    for answer in done.into_vec() {
        let Done { place, matched } = answer;
        slots[(place - first) as usize] = Some(matched);
    }
}

/// Fills the slots of a partition's traces by the turns of all workers at it.
fn gather_partition(
    batch: &Batch,
    slots: &mut Vec<Option<MatchedTrace>>,
    partition: Partition,
    turns: List<Turn>,
) -> Result<(), AllocError>
    requires slots { length slots.old.items ≡ length batch.now.traces.now }
    requires turns { AreTurnsOver (job_of batch.now) partition turns }
    ensures count { length slots.new.items ≡ length slots.old.items }
    ensures filled { OnOk result
        (FillsSlots (matched_at (job_of batch.now)) partition.numbers slots.old.items slots.new.items) }
    ensures drawn { OnOk result (AllDrawn partition turns) }
{
    let mut tickets = List::new(batch.alloc);
    for turn in turns.into_vec() {
        let Turn { ticket, done } = turn;
        place(slots, batch.first, done);
        tickets.push(ticket)?;
    }
    partition.claims.gather(tickets);
    Ok(())
}

/// The contents of the slots.
fn filled(alloc: Global, slots: Vec<Option<MatchedTrace>>) -> Result<List<MatchedTrace>, AllocError>
    requires { All IsSome slots.items }
    ensures { IfOk result (λ all. map Some all ≡ slots.items) }
{
    let mut all = Vec::with_capacity(alloc, slots.len())?;
    for slot in slots {
        let Some(matched) = slot else { unreachable!() };
        all.push(matched)?;
    }
    Ok(List::from_vec(all))
}

/// The answers for the traces of the batch, in order, from the results at each partition.
pub fn gather(
    batch: &Batch,
    partitions: Vec<Partition>,
    by_partition: Vec<List<Turn>>,
) -> Result<List<MatchedTrace>, AllocError>
    requires by_partition { AllZip (AreTurnsOver (job_of batch.now)) partitions.items by_partition.items }
    requires whole { CoverTraces (job_of batch.now) partitions.items }
    ensures drawn { OnOk result (AllZip AllDrawn partitions.items by_partition.items) }
    ensures matched { IfOk result
        (λ all. all ≡ map (match_of batch.now.net.now batch.now.params.now) batch.now.traces.now) }
{
    let mut slots = blank(batch.alloc, batch.traces.len())?;
    let mut rest = by_partition.into_iter();
    for partition in partitions {
        let Some(turns) = rest.next() else {
            unreachable!()
        };
        gather_partition(batch, &mut slots, partition, turns)?;
    }
    filled(batch.alloc, slots)
}
