//! The partitions' claims, and the turns of those who are to draw. Serves `match_all`; decided by `AreDealt`.
ghost use Rattle.std.specs.Prelude.{◌≡◌, ◌≤◌, ◌^◌, All, IfOk, length, map};
ghost use Rattle.match_pool.specs.inside.Dealing.{AreDealt, ticket_of};

use crate::tables::columns_of;
use crate::turn::{Partition, Turn};
use plain_list::List;
use std::alloc::{AllocError, Global};
use tickets::{Claims, Ticket};

/// A turn with each ticket, in which nothing is done yet.
fn turns_with(alloc: Global, tickets: List<Ticket>) -> Result<List<Turn>, AllocError>
    ensures { IfOk result (λ turns. map ticket_of turns ≡ tickets) }
{
    let mut turns = Vec::with_capacity(alloc, tickets.len())?;
    for ticket in tickets.into_vec() {
        let done = List::new(alloc);
        turns.push(Turn { ticket, done })?;
    }
    Ok(List::from_vec(turns))
}

/// Partitions of these numbers, and the turns of so many workers: for each worker one at each partition.
pub fn deal(
    alloc: Global,
    cuts: Vec<List<usize>>,
    workers: u32,
) -> Result<(Vec<Partition>, Vec<List<Turn>>), AllocError>
    requires cuts { All (λ numbers. length numbers ≤ 2 ^ 32) cuts.items }
    requires workers { (1 ≤ workers) × (workers ≤ 64) }
    ensures { IfOk result (λ r. AreDealt cuts.items workers r.0.items r.1.items) }
{
    let mut partitions = Vec::with_capacity(alloc, cuts.len())?;
    let mut turns = Vec::with_capacity(alloc, cuts.len())?;
    for numbers in cuts {
        let (claims, tickets) = Claims::open(alloc, numbers.len() as u64, workers)?;
        turns.push(turns_with(alloc, tickets)?)?;
        partitions.push(Partition { numbers, claims })?;
    }
    let by_worker = columns_of(alloc, turns, workers as usize)?;
    Ok((partitions, by_worker))
}
