//! One worker's turn at one partition. Serves `match_all`; decided by `IsTurnTaken`.
ghost use Rattle.std.specs.Prelude.{◌≡◌, OnOk};
ghost use Rattle.tickets.specs.Tickets.{fresh_ticket};
ghost use Rattle.match_pool.specs.Drawing.{job_of};
ghost use Rattle.match_pool.specs.inside.Turns.{IsPartitionOf, IsTurnTaken};
ghost use Rattle.match_pool.specs.Working.{IsReaderFor, ReadsWithin};

use crate::batch::Batch;
use crate::drawing::work_on;
use crate::gate::Gate;
use crate::worker::Done;
use plain_list::List;
use row_store::Reader;
use std::alloc::AllocError;
use tickets::{Claims, Ticket};

/// Some traces of a batch, by their numbers in it, and the claims on them.
#[derive(Drop)]
pub struct Partition {
    pub numbers: List<usize>,
    pub claims: Claims,
}

/// A ticket of a partition, and what was done by the ranks that it drew.
#[derive(Drop)]
pub struct Turn {
    pub ticket: Ticket,
    pub done: List<Done>,
}

impl Turn {
    /// Matches traces of the partition, until there is none left.
    pub fn take<'s, G: Gate>(
        &mut self,
        batch: &Batch,
        partition: &Partition,
        reader: &mut Reader<'s>,
        gate: &G,
    ) -> Result<(), AllocError>
        requires partition { IsPartitionOf (job_of batch.now) partition.now }
        requires fresh { self.old.ticket ≡ fresh_ticket partition.now.claims.name }
        requires reader { IsReaderFor batch.now.net.now batch.now.params.now reader.old }
        ensures reader { ReadsWithin (job_of batch.now) reader.old reader.new }
        ensures taken { OnOk result (IsTurnTaken (job_of batch.now) partition.now self.new reader.new) }
    {
        self.done = work_on(
            batch,
            partition.numbers.as_slice(),
            &partition.claims,
            &mut self.ticket,
            reader,
            gate,
        )?;
        Ok(())
    }
}
