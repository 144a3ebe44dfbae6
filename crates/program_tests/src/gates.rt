//! What no clause says of the workers: they run beside each other, draw the traces one by one, and share
//! the rows of one store. Each gate shows it through `run`. Those of `town` are in `town_gates`.
ghost use Rattle.std.specs.Prelude.{◌≡◌, IfOk, IfSome};

use crate::commands::{ONE_TRACE, TABLE};
use crate::ended::{run_to_end, shelf};
use crate::texts::{many_texts, many_traces};
use bounded_table::Row;
use match_pool::Gate;
use match_work::Env;
use plain_list::List;
use road_network::NodeId;
use row_store::{RowStore, Sight};
use row_tests::small::{TWO_EDGES, entry};
use std::alloc::{AllocError, Global};
use std::sync::atomic::AtomicU64;
use std::sync::atomic::Ordering::SeqCst;
use std::thread;
use std::thread::Threads;

// Whether `match` by two workers ends with status 0 and writes this text.
fn gives<R: Threads + Sync, G: Gate>(
    rt: &R,
    alloc: Global,
    traces: &[u8],
    text: &[u8],
    gate: &G,
) -> bool {
    let files = [("net", TWO_EDGES), ("tra", traces)];
    let Ok(mut shelf) = shelf(alloc, &files, &[], u32::MAX) else {
        return false;
    };
    let words = ["match", "net", "tra", "--workers", "2"];
    match run_to_end(&Env { rt, alloc, gate }, &words, &mut shelf, [&[], &[]]) {
        Ok(ended) => ended.is(0, text, b""),
        Err(_) => false,
    }
}

/// The same for so many traces of one position, with their total line.
pub fn gives_many<R: Threads + Sync, G: Gate>(
    rt: &R,
    alloc: Global,
    count: u64,
    total: &[u8],
    gate: &G,
) -> bool {
    match (many_traces(alloc, count), many_texts(alloc, count, total)) {
        (Ok(traces), Ok(text)) => gives(rt, alloc, traces.as_slice(), text.as_slice(), gate),
        _ => false,
    }
}

const TWO: &[u8] = b"total traces 2 points 2 pieces 2 rows 0\n";

const FOUR: &[u8] = b"total traces 4 points 4 pieces 4 rows 0\n";

/// Holds a trace until so many others have ended, but no longer than its turns last.
#[derive(Drop)]
pub struct Holder {
    held: u64,
    others: u64,
    ended: AtomicU64,
    late: AtomicU64,
}

impl Holder {
    pub fn new(held: u64, others: u64) -> Holder {
        Holder {
            held,
            others,
            ended: AtomicU64::new(0),
            late: AtomicU64::new(0),
        }
    }

    /// Whether the turns did not last until then.
    pub fn was_late(&self) -> bool {
        self.late.load(SeqCst) != 0
    }
}

impl Gate for Holder {
    fn begin(&self, trace: u64, _store: &RowStore<'_>) {
        if trace != self.held {
            return;
        }
        for _ in 0..10_000_000 {
            if self.ended.load(SeqCst) == self.others {
                return;
            }
            thread::yield_now();
        }
        self.late.store(1, SeqCst);
    }

    fn end(&self, trace: u64, _store: &RowStore<'_>) {
        if trace != self.held {
            self.ended.fetch_add(1, SeqCst);
        }
    }
}

// Whether two workers match as many traces and one more, where one is held until the others have ended.
fn end_beside<R: Threads + Sync>(
    rt: &R,
    alloc: Global,
    held: u64,
    others: u64,
    total: &[u8],
) -> bool {
    let gate = Holder::new(held, others);
    gives_many(rt, alloc, others.saturating_add(1), total, &gate) && !gate.was_late()
}

// Workers that run one after the other fail here: the second trace never ends while the first is held.
#[test]
fn workers_run_beside_each_other(rt: HostRuntime) {
    assert!(rt; end_beside(&rt, rt.alloc(), 0, 1, TWO));
}

// Workers with fixed parts of the traces fail here: where the first trace of a part is held, the others
// of that part never end.
#[test]
fn no_worker_has_a_fixed_part(rt: HostRuntime) {
    for held in 0..4 {
        assert!(rt; end_beside(&rt, rt.alloc(), held, 3, FOUR));
    }
}

const ALONG: &[u8] = b"trace,x,y\n7,1000,300\n7,9000,-300\n";

const ALONG_TEXT: &[u8] =
    b"trace 7\nat 0 edge 10 offset 1000 d2 90000\nat 1 edge 10 offset 9000 d2 90000\npiece 0 1 cost 112 route 10\nend 7\ntotal traces 1 points 2 pieces 1 rows 2\n";

// A row `1:0:-` of node 1, which is not the node's.
fn cut_row(alloc: Global) -> Result<Option<Row>, AllocError>
    ensures { IfOk result (λ o. IfSome o (λ row. row.origin ≡ 1)) }
{
    let mut entries = List::new(alloc);
    entries.push(entry(1, 0, None))?;
    Ok(Row::of(NodeId(1), entries))
}

// A row `0:5:0 2:0:-` of node 2, which is not the node's.
fn long_row(alloc: Global) -> Result<Option<Row>, AllocError>
    ensures { IfOk result (λ o. IfSome o (λ row. row.origin ≡ 2)) }
{
    let mut entries = List::new(alloc);
    entries.push(entry(0, 5, Some(0)))?;
    entries.push(entry(2, 0, None))?;
    Ok(Row::of(NodeId(2), entries))
}

// Whether the store takes a wrong near row for node 1.
fn takes_cut_row(alloc: Global, store: &RowStore<'_>) -> Result<bool, AllocError> {
    if store.network().node_count() < 3 || !store.has_near_rows() {
        return Ok(false);
    }
    let Some(row) = cut_row(alloc)? else {
        return Ok(false);
    };
    let mut reader = store.reader()?;
    let held = reader.offer_near(NodeId(1), row)?;
    Ok(held.entries() == [entry(1, 0, None)].as_slice())
}

fn is_cut_row(sight: Sight<'_>) -> bool {
    match sight {
        Sight::Table(_) => false,
        Sight::Foreign(row) => row.entries() == [entry(1, 0, None)].as_slice(),
    }
}

// Whether the wrong near row is still there for node 1, and the right one for node 2, which a wrong one that
// is offered does not replace.
fn has_both_rows(alloc: Global, store: &RowStore<'_>) -> Result<bool, AllocError> {
    if store.network().node_count() < 3 || !store.has_near_rows() {
        return Ok(false);
    }
    let mut reader = store.reader()?;
    if !is_cut_row(reader.look_near(NodeId(1))?) {
        return Ok(false);
    }
    let Some(row) = long_row(alloc)? else {
        return Ok(false);
    };
    let held = reader.offer_near(NodeId(2), row)?;
    Ok(held.entries() == [entry(2, 0, None)].as_slice())
}

// Puts a wrong row into the store before the trace, and looks at the store after it.
#[derive(Drop)]
struct Planter {
    alloc: Global,
    steps: AtomicU64,
}

impl Gate for Planter {
    fn begin(&self, _trace: u64, store: &RowStore<'_>) {
        if let Ok(true) = takes_cut_row(self.alloc, store) {
            self.steps.fetch_add(1, SeqCst);
        }
    }

    fn end(&self, _trace: u64, store: &RowStore<'_>) {
        if let Ok(true) = has_both_rows(self.alloc, store) {
            self.steps.fetch_add(1, SeqCst);
        }
    }
}

// Whether a trace is matched as always where a gate plants rows, and both looks of the gate find them.
fn share_the_store<R: Threads + Sync>(rt: &R, alloc: Global) -> bool {
    let gate = Planter {
        alloc,
        steps: AtomicU64::new(0),
    };
    gives(rt, alloc, ALONG, ALONG_TEXT, &gate) && gate.steps.load(SeqCst) == 2
}

// Workers with rows of their own past the store fail here: the near slot of node 2 is empty afterwards, and
// takes the wrong row.
#[test]
fn workers_share_the_store(rt: HostRuntime) {
    assert!(rt; share_the_store(&rt, rt.alloc()));
}

// Whether the store has the right row of node 1. A store without a row takes the wrong one.
fn has_row_of_table(alloc: Global, store: &RowStore<'_>) -> Result<bool, AllocError> {
    if store.network().node_count() < 3 {
        return Ok(false);
    }
    let Some(row) = cut_row(alloc)? else {
        return Ok(false);
    };
    let mut reader = store.reader()?;
    let held = reader.offer(NodeId(1), row)?;
    Ok(held.entries() == [entry(1, 0, None), entry(2, 10_000, Some(1))].as_slice())
}

// Counts the traces before which the store has the row of node 1.
#[derive(Drop)]
struct Finder {
    alloc: Global,
    found: AtomicU64,
}

impl Gate for Finder {
    fn begin(&self, _trace: u64, store: &RowStore<'_>) {
        if let Ok(true) = has_row_of_table(self.alloc, store) {
            self.found.fetch_add(1, SeqCst);
        }
    }

    fn end(&self, _trace: u64, _store: &RowStore<'_>) {}
}

// Whether the row of the table file is in the store before the only trace is matched.
fn finds_rows_of_table<R: Threads + Sync>(rt: &R, alloc: Global) -> bool {
    let gate = Finder {
        alloc,
        found: AtomicU64::new(0),
    };
    let files = [("net", TWO_EDGES), ("tra", ONE_TRACE), ("tab", TABLE)];
    let Ok(mut shelf) = shelf(alloc, &files, &[], u32::MAX) else {
        return false;
    };
    let words = ["match", "net", "tra", "--table", "tab"];
    let env = Env {
        rt,
        alloc,
        gate: &gate,
    };
    match run_to_end(&env, &words, &mut shelf, [&[], &[]]) {
        Ok(ended) => ended.status == 0 && gate.found.load(SeqCst) == 1,
        Err(_) => false,
    }
}

// A table file whose rows are checked and not offered fails here.
#[test]
fn rows_of_a_table_file_are_offered(rt: HostRuntime) {
    assert!(rt; finds_rows_of_table(&rt, rt.alloc()));
}
