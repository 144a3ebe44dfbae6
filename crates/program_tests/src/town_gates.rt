//! The places that a gate hears of, and what no clause says of the workers of `town`: they run beside each other, draw
//! the traces one by one, and leave only right rows in the slots. Each gate shows it through `run`.
ghost use Rattle.road_network.specs.Net.{HasNode};

use crate::ended::{Ended, run_to_end, shelf};
use crate::gates::{Holder, gives_many};
use match_pool::{Gate, OpenGate};
use match_work::Env;
use road_network::NodeId;
use row_store::{RowStore, Sight};
use std::alloc::{AllocError, Global};
use std::sync::atomic::AtomicU64;
use std::sync::atomic::Ordering::SeqCst;
use std::thread::Threads;

// How many traces begin and end at each place, and last how many at any other place.
#[derive(Drop)]
struct Places {
    begun: Vec<AtomicU64>,
    ended: Vec<AtomicU64>,
}

fn noughts(alloc: Global, count: u64) -> Result<Vec<AtomicU64>, AllocError> {
    let mut all = Vec::new(alloc);
    for _ in 0..count {
        all.push(AtomicU64::new(0))?;
    }
    Ok(all)
}

fn count_at(counts: &[AtomicU64], place: u64) {
    if let Some(count) = counts.get(place as usize).or(counts.last()) {
        count.fetch_add(1, SeqCst);
    }
}

// Whether each of these counts is 1, except the last, which is 0.
fn are_once_each(counts: &[AtomicU64]) -> bool {
    let [each @ .., others] = counts else {
        return false;
    };
    for count in each {
        if count.load(SeqCst) != 1 {
            return false;
        }
    }
    others.load(SeqCst) == 0
}

impl Gate for Places {
    fn begin(&self, trace: u64, _store: &RowStore<'_>) {
        count_at(self.begun.as_slice(), trace);
    }

    fn end(&self, trace: u64, _store: &RowStore<'_>) {
        count_at(self.ended.as_slice(), trace);
    }
}

const MANY: &[u8] = b"total traces 600 points 600 pieces 600 rows 0\n";

fn make_places(alloc: Global, count: u64) -> Result<Places, AllocError> {
    let begun = noughts(alloc, count)?;
    let ended = noughts(alloc, count)?;
    Ok(Places { begun, ended })
}

// Whether the gate hears of each place from 0 to 599 once.
fn are_heard_once<R: Threads + Sync>(rt: &R, alloc: Global) -> bool {
    let Ok(gate) = make_places(alloc, 601) else {
        return false;
    };
    gives_many(rt, alloc, 600, MANY, &gate)
        && are_once_each(gate.begun.as_slice())
        && are_once_each(gate.ended.as_slice())
}

// A run that counts the places of each batch from 0 fails here.
#[test]
fn each_place_of_the_file_is_heard_once(rt: HostRuntime) {
    assert!(rt; are_heard_once(&rt, rt.alloc()));
}

// Ends `town` with four traces by this many workers, within a bound at which the near row of a node is not its row.
fn end_town<R: Threads + Sync, G: Gate>(
    rt: &R,
    alloc: Global,
    workers: &str,
    gate: &G,
) -> Result<Ended, AllocError> {
    let mut shelf = shelf(alloc, &[], &[], u32::MAX)?;
    let words = [
        "town",
        "3",
        "4",
        "1",
        "--bound",
        "30000",
        "--workers",
        workers,
    ];
    run_to_end(&Env { rt, alloc, gate }, &words, &mut shelf, [&[], &[]])
}

// Whether `town` by two workers writes what it writes by one.
fn gives_town<R: Threads + Sync, G: Gate>(rt: &R, alloc: Global, gate: &G) -> bool {
    let alone = end_town(rt, alloc, "1", &OpenGate);
    match (alone, end_town(rt, alloc, "2", gate)) {
        (Ok(alone), Ok(ended)) => ended.status == 0 && ended.is_same(&alone),
        _ => false,
    }
}

// Whether the gate hears of each trace of a town once.
fn is_town_heard<R: Threads + Sync>(rt: &R, alloc: Global) -> bool {
    let Ok(gate) = make_places(alloc, 5) else {
        return false;
    };
    gives_town(rt, alloc, &gate)
        && are_once_each(gate.begun.as_slice())
        && are_once_each(gate.ended.as_slice())
}

#[test]
fn each_trace_of_a_town_is_heard_once(rt: HostRuntime) {
    assert!(rt; is_town_heard(&rt, rt.alloc()));
}

// Whether the other traces of a town end while this one is held.
fn does_town_end_beside<R: Threads + Sync>(rt: &R, alloc: Global, held: u64) -> bool {
    let gate = Holder::new(held, 3);
    gives_town(rt, alloc, &gate) && !gate.was_late()
}

// A town that one worker matches, or whose workers have fixed parts, fails here.
#[test]
fn workers_of_a_town_run_beside_each_other(rt: HostRuntime) {
    for held in 0..4 {
        assert!(rt; does_town_end_beside(&rt, rt.alloc(), held));
    }
}

// Counts the rows in the slots after the last of four traces, by whether they are right. An empty slot is filled with a
// right row.
#[derive(Drop)]
struct Inspector {
    ended: AtomicU64,
    right: AtomicU64,
    foreign: AtomicU64,
}

impl Inspector {
    fn new() -> Inspector {
        Inspector {
            ended: AtomicU64::new(0),
            right: AtomicU64::new(0),
            foreign: AtomicU64::new(0),
        }
    }

    fn count(&self, sight: Sight<'_>) {
        match sight {
            Sight::Table(_) => self.right.fetch_add(1, SeqCst),
            Sight::Foreign(_) => self.foreign.fetch_add(1, SeqCst),
        };
    }

    // Looks at both slots of node n.
    fn look(&self, store: &RowStore<'_>, n: NodeId) -> Result<(), AllocError>
        requires { HasNode store.now.network n.0 }
    {
        let mut reader = store.reader()?;
        self.count(reader.look(n)?);
        if store.has_near_rows() {
            self.count(reader.look_near(n)?);
        }
        Ok(())
    }
}

impl Gate for Inspector {
    fn begin(&self, _trace: u64, _store: &RowStore<'_>) {}

    fn end(&self, _trace: u64, store: &RowStore<'_>) {
        if self.ended.fetch_add(1, SeqCst) != 3 {
            return;
        }
        for n in 0..store.network().node_count() {
            let _ = self.look(store, NodeId(n));
        }
    }
}

// Whether the traces of a town, which has nine nodes, leave two right rows for each node.
fn leaves_right_rows<R: Threads + Sync>(rt: &R, alloc: Global) -> bool {
    let gate = Inspector::new();
    gives_town(rt, alloc, &gate) && gate.foreign.load(SeqCst) == 0 && gate.right.load(SeqCst) == 18
}

// Workers that put a row of one slot into the other, or the row of another node anywhere, fail here.
#[test]
fn no_slot_of_a_town_is_foreign(rt: HostRuntime) {
    assert!(rt; leaves_right_rows(&rt, rt.alloc()));
}
