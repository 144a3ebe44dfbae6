//! The newest times of open drives. Serves `Drives`; decided by `idle_ids`.
ghost use Rattle.std.specs.Prelude.{◌≡◌, ◌<◌, [], None, Some, IfOk, OnErr, OnOk, nat_eq};
ghost use Rattle.std.specs.BTreeMap.{IsFromIterResult};
ghost use Rattle.std.specs.Map.{lookup, remove_entry, values_of};
ghost use Rattle.std.specs.Ordering.{nat_cmp};
ghost use Rattle.indexmap.specs.IndexMap.{insert_entry};
ghost use Rattle.follow_work.specs.inside.Times.{Moves, idle_ids, numbered, places_before, time_with};

use arrivals::Arrivals;
use plain_list::List;
use std::alloc::{AllocError, Global};
use std::collections::{BTreeMap, BTreeSet};
use std::marker::Model;

// The newest time of an open drive, and its number: the drives are numbered in the order of their first positions.
#[derive(Clone, Copy)]
struct Drive {
    newest: u32,
    number: u64,
}

// The place of a drive in the queue: its newest time, its number, and its id.
type Place = (u32, u64, u32);

// The open drives by their ids, in the order of their first positions, and the queue of their places by time. The next
// drive that begins has the number `begun`.
#[derive(Drop)]
pub(crate) struct Times {
    drives: Arrivals<Drive>,
    queue: BTreeSet<Place>,
    begun: u64,
}

impl Model for Times {
    ghost use Rattle.std.specs.Prelude.{ℕ, List as ListOf};
    ghost use Rattle.follow_work.specs.inside.Times.{AreKept, shown_times};

    ghost Value = { ListOf (ℕ × ℕ) };

    ghost view = { shown_times };

    ghost invariant = { AreKept };
}

// Puts a place in the stead of another. On `Err`, the queue is as before.
fn move_place(queue: &mut BTreeSet<Place>, before: Place, after: Place) -> Result<(), AllocError>
    ensures ok { OnOk result (Moves queue.old queue.new before after) }
    ensures err { OnErr result (queue.new.keys ≡ queue.old.keys) }
{
    queue.insert(after)?;
    queue.remove(&before);
    Ok(())
}

// The ids of the places of times before this one, by the numbers of their drives.
fn places_by_number(
    alloc: Global,
    queue: &BTreeSet<Place>,
    limit: u32,
) -> Result<BTreeMap<u64, u32>, AllocError>
    ensures { IfOk result (IsFromIterResult nat_cmp (numbered (places_before limit queue.now))) }
{
    let mut noted = BTreeMap::new(alloc);
    for place in queue.range(..(limit, 0, 0)) {
        noted.insert(place.1, place.2)?;
    }
    Ok(noted)
}

// These ids, in the order of their numbers.
fn ids_of(alloc: Global, noted: &BTreeMap<u64, u32>) -> Result<List<u32>, AllocError>
    ensures { IfOk result (λ ids. ids ≡ values_of noted.now.entries) }
{
    let mut ids = List::new(alloc);
    for (_, id) in noted {
        ids.push(*id)?;
    }
    Ok(ids)
}

impl Times {
    // No drives.
    pub(crate) fn new(alloc: Global) -> Times
        ensures { result ≡ [] }
    {
        Times {
            drives: Arrivals::new(alloc),
            queue: BTreeSet::new(alloc),
            begun: 0,
        }
    }

    // Notes the time of the first position of a drive. No run is long enough for the numbers to come to their end.
    fn begin(&mut self, id: u32, time: u32) -> Result<(), AllocError>
        requires { lookup (nat_eq id) self.old ≡ None }
        ensures { OnOk result (self.new ≡ insert_entry nat_eq self.old id time) }
    {
        let number = self.begun;
        let Some(begun) = number.checked_add(1) else {
            return Err(AllocError);
        };
        let place = (time, number, id);
        self.queue.insert(place)?;
        let kept = self.drives.insert(
            id,
            Drive {
                newest: time,
                number,
            },
        );
        if kept.is_err() {
            self.queue.remove(&place);
            return Err(AllocError);
        }
        self.begun = begun;
        Ok(())
    }

    // Notes the time of a position of the id.
    pub(crate) fn note(&mut self, id: u32, time: u32) -> Result<(), AllocError>
        ensures { OnOk result
            (self.new ≡ insert_entry nat_eq self.old id (time_with self.old id time)) }
    {
        let Some(drive) = self.drives.get(id).copied() else {
            return self.begin(id, time);
        };
        if time <= drive.newest {
            return Ok(());
        }
        let before = (drive.newest, drive.number, id);
        move_place(&mut self.queue, before, (time, drive.number, id))?;
        if let Some(held) = self.drives.get_mut(id) {
            *held = Drive {
                newest: time,
                number: drive.number,
            };
        }
        Ok(())
    }

    // The drive of the id is gone.
    pub(crate) fn remove(&mut self, id: u32)
        ensures { self.new ≡ remove_entry (nat_eq id) self.old }
    {
        if let Some(drive) = self.drives.remove(id) {
            self.queue.remove(&(drive.newest, drive.number, id));
        }
    }

    // The ids whose newest time is more than this many seconds before the clock. Takes the time of a look-up, and of one
    // for each of these ids.
    pub(crate) fn idle_ids(
        &self,
        alloc: Global,
        idle: u32,
        clock: u32,
    ) -> Result<List<u32>, AllocError>
        ensures { IfOk result (λ ids. ids ≡ idle_ids idle clock self.now) }
    {
        let noted = places_by_number(alloc, &self.queue, clock.saturating_sub(idle))?;
        ids_of(alloc, &noted)
    }
}
