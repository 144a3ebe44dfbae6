//! Runs of `live` with two threads that are observed, failing reads and failing puts.
use crate::ended::{self, sink, words};
use crate::texts::many_traces;
use edge_io::{MemoryShelf, MemorySink, Put, Shelf, Sink, Taken};
use live_pipeline::live;
use plain_list::List;
use row_tests::small::TWO_EDGES;
use std::alloc::{AllocError, Global};
use std::sync::Wait;
use std::sync::atomic::{AtomicBool, Ordering};
use std::thread;
use std::thread::Threads;

// The first piece has traces 1 and 2, and the first line of trace 3.
const TRACES: &[u8] = b"trace,x,y\n1,1000,0\n2,1000,0\n3,1000,0\n3,2000,0\n";

const FIRST_PIECE: u32 = 37;

// A shelf of the network `net` and the traces `tra`.
fn shelf(alloc: Global, traces: &[u8], most: u32, fail: &[u64]) -> Result<MemoryShelf, AllocError> {
    ended::shelf(alloc, &[("net", TWO_EDGES), ("tra", traces)], fail, most)
}

// Whether the run over the shelf ends with this status and line.
fn ends_with<R: Threads + Wait + Sync, S: Shelf + Send + Drop, K: Sink>(
    rt: &R,
    alloc: Global,
    shelf: S,
    out: &mut K,
    (status, line): (u8, &[u8]),
) -> bool {
    let Ok(words) = words(alloc, &["net", "tra"]) else {
        return false;
    };
    let mut err = MemorySink::new(alloc, List::new(alloc));
    let (ended, _) = live(rt, alloc, &words, shelf, out, &mut err);
    ended == status && err.bytes() == line
}

// A shelf that gives what is behind the first piece of the traces only when trace 1 was written, or
// after many turns.
#[derive(Drop)]
struct GatedShelf<'a> {
    inner: MemoryShelf,
    seen: &'a AtomicBool,
    late: &'a AtomicBool,
}

impl<'a> Shelf for GatedShelf<'a> {
    ghost state = { λ s. ⟦<MemoryShelf as Shelf>⟧.state s.inner };

    fn read(&mut self, name: &str, at: u64, into: &mut Vec<u8>, most: u32) -> Taken {
        if name == "tra" && at > 0 && !is_set(self.seen) {
            self.late.store(true, Ordering::SeqCst);
        }
        self.inner.read(name, at, into, most)
    }
}

// Whether the flag is set within many turns.
fn is_set(flag: &AtomicBool) -> bool {
    for _ in 0..10_000_000u32 {
        if flag.load(Ordering::SeqCst) {
            return true;
        }
        thread::yield_now();
    }
    false
}

// A sink that tells when trace 1 was written.
#[derive(Drop)]
struct SeeingSink<'a> {
    inner: MemorySink,
    seen: &'a AtomicBool,
}

impl<'a> Sink for SeeingSink<'a> {
    ghost state = { λ s. ⟦<MemorySink as Sink>⟧.state s.inner };

    fn put(&mut self, text: &[u8]) -> Put {
        let put = self.inner.put(text);
        if text.ends_with(b"end 1\n") {
            self.seen.store(true, Ordering::SeqCst);
        }
        put
    }
}

const TOTAL: &[u8] = b"total traces 3 points 4 pieces 3 rows 2\n";

fn is_written_while_read<R: Threads + Wait + Sync>(rt: &R, alloc: Global) -> bool {
    let Ok(inner) = shelf(alloc, TRACES, FIRST_PIECE, &[]) else {
        return false;
    };
    let seen = AtomicBool::new(false);
    let late = AtomicBool::new(false);
    let shelf = GatedShelf {
        inner,
        seen: &seen,
        late: &late,
    };
    let mut out = SeeingSink {
        inner: MemorySink::new(alloc, List::new(alloc)),
        seen: &seen,
    };
    ends_with(rt, alloc, shelf, &mut out, (0, b""))
        && out.inner.bytes().ends_with(TOTAL)
        && !late.load(Ordering::SeqCst)
}

// What no clause says: a trace is written while the file is still being read.
#[test]
fn both_threads_run(rt: HostRuntime) {
    assert!(rt; is_written_while_read(&rt, rt.alloc()));
}

// What is on out where the reads of these numbers fail. None where the run ends with another status or
// line.
fn out_of<R: Threads + Wait + Sync>(
    rt: &R,
    alloc: Global,
    fail: &[u64],
    wanted: (u8, &[u8]),
) -> Option<MemorySink> {
    let Ok(shelf) = shelf(alloc, TRACES, u32::MAX, fail) else {
        return None;
    };
    let mut out = MemorySink::new(alloc, List::new(alloc));
    if ends_with(rt, alloc, shelf, &mut out, wanted) {
        Some(out)
    } else {
        None
    }
}

// Whether this failing read ends the run with status 3, this line and a beginning of the whole text.
fn is_cut<R: Threads + Wait + Sync>(
    rt: &R,
    alloc: Global,
    read: u64,
    line: &[u8],
    whole: &[u8],
) -> bool {
    match out_of(rt, alloc, &[read], (3, line)) {
        Some(out) => whole.starts_with(out.bytes()),
        None => false,
    }
}

const NO_NETWORK: &[u8] = b"fmm: cannot read network\n";

const NO_TRACES: &[u8] = b"fmm: cannot read traces\n";

// Each failing read and its line: two reads are for the network, and two for the traces.
static READS: [(u64, &[u8]); 4] = [
    (1, NO_NETWORK),
    (2, NO_NETWORK),
    (3, NO_TRACES),
    (4, NO_TRACES),
];

fn fails_at_each_read<R: Threads + Wait + Sync>(rt: &R, alloc: Global, whole: &[u8]) -> bool {
    for (read, line) in &READS {
        if !is_cut(rt, alloc, *read, line, whole) {
            return false;
        }
    }
    true
}

#[test]
fn each_read_fails_in_turn(rt: HostRuntime) {
    let whole = out_of(&rt, rt.alloc(), &[5], (0, b""));
    assert!(rt; matches!(&whole, Some(out) if fails_at_each_read(&rt, rt.alloc(), out.bytes())));
}

fn shelf_of_many(alloc: Global, count: u64) -> Result<MemoryShelf, AllocError> {
    let traces = many_traces(alloc, count)?;
    shelf(alloc, traces.as_slice(), u32::MAX, &[])
}

fn fails_at_its_first_put<R: Threads + Wait + Sync>(rt: &R, alloc: Global) -> bool {
    let (Ok(shelf), Ok(mut out)) = (shelf_of_many(alloc, 600), sink(alloc, &[1])) else {
        return false;
    };
    ends_with(rt, alloc, shelf, &mut out, (4, b"fmm: write failed\n"))
}

// More traces than the relay has room for: the matcher takes on, and drops them.
#[test]
fn a_failed_put_ends_the_run(rt: HostRuntime) {
    assert!(rt; fails_at_its_first_put(&rt, rt.alloc()));
}
