//! What one worker does at one partition. Serves `work` and `match_all`; decided by `WorksOn`.
ghost use Rattle.std.specs.Prelude.{◌≡◌, ◌<◌, ◌≤◌, All, IfOk, length};
ghost use Rattle.match_pool.specs.Drawing.{WorksOn, job_of};
ghost use Rattle.match_pool.specs.Working.{CanDraw, IsReaderFor, KeepsClaims};

use crate::batch::Batch;
use crate::finding::find_match;
use crate::gate::Gate;
use crate::worker::Done;
use plain_list::List;
use row_store::Reader;
use std::alloc::AllocError;
use tickets::{Claims, Ticket};

/// Matches each trace of a partition whose rank in it the ticket draws, until none is left. `numbers`
/// are the numbers of the partition's traces in the batch. The gate is called before and after each trace
/// with the place of its answer, which only tests show.
pub fn work_on<'s, G: Gate>(
    batch: &Batch,
    numbers: &[usize],
    claims: &Claims,
    ticket: &mut Ticket,
    reader: &mut Reader<'s>,
    gate: &G,
) -> Result<List<Done>, AllocError>
    requires numbers { All (λ k. k < length batch.now.traces.now) numbers.now }
    requires ticket { CanDraw (length numbers.now) claims.now ticket.old }
    requires reader { IsReaderFor batch.now.net.now batch.now.params.now reader.old }
    ensures stays { KeepsClaims (job_of batch.now) reader.old ticket.old reader.new ticket.new }
    ensures works { IfOk result (λ done. WorksOn (job_of batch.now) numbers.now
        reader.old ticket.old done reader.new ticket.new) }
{
    let mut done = List::from_vec(Vec::with_capacity(batch.alloc, numbers.len())?);
    while let Some(rank) = claims.draw(ticket) {
        let number = numbers[rank as usize];
        let place = batch.first + number as u64;
        gate.begin(place, reader.store());
        let matched = find_match(batch, reader, &batch.traces[number])?;
        gate.end(place, reader.store());
        done.push(Done { place, matched })?;
    }
    Ok(done)
}
