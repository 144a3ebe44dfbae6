//! What no clause says of the slots of the store: workers find rows in them and put rows into them, in the near slot
//! for a step between near positions, and in the table's slot for a step between far ones. A near row that leaves nothing
//! out is put into both. Each gate shows it through `run`, within a bound at which the near row of a node is not its row.
ghost use Rattle.std.specs.Prelude.{◌≡◌, IfOk, IfSome, IsSome};
ghost use Rattle.road_network.specs.Net.{HasNode};

use crate::ended::{run_to_end, shelf};
use bounded_table::{Entry, Row};
use match_pool::Gate;
use match_work::Env;
use plain_list::List;
use road_network::NodeId;
use row_store::RowStore;
use row_tests::small::{TWO_EDGES, entry, offered};
use std::alloc::{AllocError, Global};
use std::sync::atomic::AtomicU64;
use std::sync::atomic::Ordering::SeqCst;
use std::thread::Threads;

/// Two positions 4,000 cm apart. Within a bound of 24,000 cm near rows reach 8,000 cm, and a step of at most half of that
/// is a near one.
const NEAR: &[u8] = b"trace,x,y\n7,1000,300\n7,5000,300\n";

const NEAR_TEXT: &[u8] =
    b"trace 7\nat 0 edge 10 offset 1000 d2 90000\nat 1 edge 10 offset 5000 d2 90000\npiece 0 1 cost 90 route 10\nend 7\ntotal traces 1 points 2 pieces 1 rows 2\n";

/// Two positions a centimetre farther apart, which is a far step within this bound.
const FAR: &[u8] = b"trace,x,y\n7,1000,300\n7,5001,300\n";

const FAR_TEXT: &[u8] =
    b"trace 7\nat 0 edge 10 offset 1000 d2 90000\nat 1 edge 10 offset 5001 d2 90000\npiece 0 1 cost 90 route 10\nend 7\ntotal traces 1 points 2 pieces 1 rows 2\n";

#[derive(Clone, Copy)]
enum Drive {
    Near,
    Far,
}

// Whether `match` by two workers within a bound of 24,000 cm ends with status 0 and writes the text of the drive.
fn gives<R: Threads + Sync, G: Gate>(rt: &R, alloc: Global, drive: Drive, gate: &G) -> bool {
    let (traces, text) = match drive {
        Drive::Near => (NEAR, NEAR_TEXT),
        Drive::Far => (FAR, FAR_TEXT),
    };
    let files = [("net", TWO_EDGES), ("tra", traces)];
    let Ok(mut shelf) = shelf(alloc, &files, &[], u32::MAX) else {
        return false;
    };
    let words = ["match", "net", "tra", "--bound", "24000", "--workers", "2"];
    match run_to_end(&Env { rt, alloc, gate }, &words, &mut shelf, [&[], &[]]) {
        Ok(ended) => ended.is(0, text, b""),
        Err(_) => false,
    }
}

// The entries of a row that is not that of node n.
fn strange(n: u32) -> [Entry; 2] {
    [entry(0, 5, Some(0)), entry(n, 0, None)]
}

// A row of node n with these entries, which is not the node's.
fn strange_row(alloc: Global, n: u32) -> Result<Option<Row>, AllocError>
    ensures { IfOk result (λ o. IfSome o (λ row. row.origin ≡ n)) }
{
    let mut entries = List::new(alloc);
    for entry in strange(n) {
        entries.push(entry)?;
    }
    Ok(Row::of(NodeId(n), entries))
}

/// What a gate puts into a slot of node 1.
#[derive(Clone, Copy)]
enum Plant {
    Nothing,
    /// The near row, which has one entry.
    Near,
    /// The row, which has two.
    Whole,
    Strange,
}

fn planted(alloc: Global, plant: Plant) -> Result<Option<Row>, AllocError>
    ensures { IfOk result (λ o. IfSome o (λ row. row.origin ≡ 1)) }
{
    match plant {
        Plant::Nothing => Ok(None),
        Plant::Near => offered(alloc, None),
        Plant::Whole => offered(alloc, Some(entry(2, 10_000, Some(1)))),
        Plant::Strange => strange_row(alloc, 1),
    }
}

// Puts rows into the near slot of node 1 and into its table's slot.
fn put_plants(
    alloc: Global,
    store: &RowStore<'_>,
    near: Plant,
    table: Plant,
) -> Result<(), AllocError> {
    if store.network().node_count() < 3 || !store.has_near_rows() {
        return Ok(());
    }
    let mut reader = store.reader()?;
    if let Some(row) = planted(alloc, near)? {
        reader.offer_near(NodeId(1), row)?;
    }
    if let Some(row) = planted(alloc, table)? {
        reader.offer(NodeId(1), row)?;
    }
    Ok(())
}

// How many entries a row of node n has, or 0 for the strange row.
fn size(row: &Row, n: u32) -> u64 {
    if row.entries() == strange(n).as_slice() {
        0
    } else {
        row.entries().len() as u64
    }
}

// How many entries the rows have in the near slot of node n and in its table's slot. The strange row is offered to both,
// so that a slot that was empty counts as 0.
fn sizes(alloc: Global, store: &RowStore<'_>, n: u32) -> Result<Option<(u64, u64)>, AllocError>
    requires { HasNode store.now.network n × IsSome store.now.near }
{
    let (Some(one), Some(other)) = (strange_row(alloc, n)?, strange_row(alloc, n)?) else {
        return Ok(None);
    };
    let mut reader = store.reader()?;
    let near = size(reader.offer_near(NodeId(n), one)?, n);
    let table = size(reader.offer(NodeId(n), other)?, n);
    Ok(Some((near, table)))
}

/// How many entries the rows have in the two slots of a node.
#[derive(Drop)]
struct Found {
    near: AtomicU64,
    table: AtomicU64,
}

impl Found {
    fn new() -> Found {
        Found {
            near: AtomicU64::new(9),
            table: AtomicU64::new(9),
        }
    }

    fn set(&self, sizes: Result<Option<(u64, u64)>, AllocError>) {
        if let Ok(Some((near, table))) = sizes {
            self.near.store(near, SeqCst);
            self.table.store(table, SeqCst);
        }
    }
}

// Puts rows into the slots of node 1 before a trace, and looks at the slots of nodes 1 and 2 after it.
#[derive(Drop)]
struct Planter {
    alloc: Global,
    near: Plant,
    table: Plant,
    first: Found,
    second: Found,
}

impl Planter {
    fn new(alloc: Global, near: Plant, table: Plant) -> Planter {
        Planter {
            alloc,
            near,
            table,
            first: Found::new(),
            second: Found::new(),
        }
    }

    // Whether the rows of node 1 had so many entries after the trace, and a worker had found the row of node 2, which
    // has one entry, in the slot for such steps. No edge leaves node 2, so its near row is put into both slots.
    fn has_found(&self, drive: Drive, near: u64, table: u64) -> bool {
        let near_found = match drive {
            Drive::Near => self.second.near.load(SeqCst) == 1,
            Drive::Far => true,
        };
        self.first.near.load(SeqCst) == near
            && self.first.table.load(SeqCst) == table
            && near_found
            && self.second.table.load(SeqCst) == 1
    }
}

impl Gate for Planter {
    fn begin(&self, _trace: u64, store: &RowStore<'_>) {
        let _ = put_plants(self.alloc, store, self.near, self.table);
    }

    fn end(&self, _trace: u64, store: &RowStore<'_>) {
        if store.network().node_count() >= 3 && store.has_near_rows() {
            self.first.set(sizes(self.alloc, store, 1));
            self.second.set(sizes(self.alloc, store, 2));
        }
    }
}

// Whether a trace is matched as always where these rows are planted, and leaves rows with so many entries in the two
// slots of node 1.
fn leaves<R: Threads + Sync>(
    rt: &R,
    alloc: Global,
    drive: Drive,
    plants: [Plant; 2],
    sizes: [u64; 2],
) -> bool {
    let [near, table] = plants;
    let gate = Planter::new(alloc, near, table);
    gives(rt, alloc, drive, &gate) && gate.has_found(drive, sizes[0], sizes[1])
}

// The near row of node 1 has one entry, and its row two. Workers that keep near rows or whole rows for themselves, that
// find either where the other serves, or that take a quarter or half of the bound for a third fail here.
#[test]
fn each_step_fills_its_own_slot(rt: HostRuntime) {
    let none = [Plant::Nothing, Plant::Nothing];
    assert!(rt;
        leaves(&rt, rt.alloc(), Drive::Near, none, [1, 0]),
        "a near step"
    );
    assert!(rt;
        leaves(&rt, rt.alloc(), Drive::Far, none, [0, 2]),
        "a far step"
    );
}

// Whether a near step and a far step are matched as always where these rows are planted, and leave these sizes.
fn is_not_misled<R: Threads + Sync>(
    rt: &R,
    alloc: Global,
    plants: [Plant; 2],
    after_near: [u64; 2],
    after_far: [u64; 2],
) -> bool {
    leaves(rt, alloc, Drive::Near, plants, after_near)
        && leaves(rt, alloc, Drive::Far, plants, after_far)
}

#[test]
fn a_strange_row_in_either_slot_misleads_nobody(rt: HostRuntime) {
    let alloc = rt.alloc();
    let in_near = [Plant::Strange, Plant::Nothing];
    let in_table = [Plant::Nothing, Plant::Strange];
    let in_both = [Plant::Strange, Plant::Strange];
    assert!(rt;
        is_not_misled(&rt, alloc, in_near, [0, 0], [0, 2]),
        "in the near slot"
    );
    assert!(rt;
        is_not_misled(&rt, alloc, in_table, [1, 0], [0, 0]),
        "in the table's slot"
    );
    assert!(rt;
        is_not_misled(&rt, alloc, in_both, [0, 0], [0, 0]),
        "in both"
    );
}

// Readers that take a row of either slot for a row of the other fail here.
#[test]
fn the_row_of_one_slot_is_foreign_in_the_other(rt: HostRuntime) {
    let plants = [Plant::Whole, Plant::Near];
    assert!(rt; is_not_misled(&rt, rt.alloc(), plants, [2, 1], [2, 1]));
}
