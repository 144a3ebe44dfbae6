//! Workers over a store that has a wrong row.
ghost use Rattle.std.specs.Prelude.{◌≡◌, IfOk};
ghost use Rattle.match_pool.specs.Learning.{AreReadersFor};
ghost use Rattle.road_network.specs.Net.{HasNode};

use crate::workers::{DEFAULTS, knows_no_foreign_row, matched_with, trace_at};
use bounded_table::{Entry, Row};
use match_text::{Label, MatchedTrace, Routed};
use plain_list::List;
use road_network::{Network, NodeId, read_network};
use row_store::{Reader, RowStore};
use row_tests::small::{TWO_EDGES, offered, wrong};
use std::alloc::{AllocError, Global};
use std::thread::Threads;

/// Two places beside the first edge, one after the other.
pub const ALONG: [(i32, i32); 2] = [(1_000, 300), (9_000, -300)];

fn on_first(offset: u32) -> Label {
    Label::On {
        edge: 10,
        offset,
        d2: 90_000,
    }
}

fn is_one_piece(piece: &Routed) -> bool {
    (piece.first, piece.last, piece.cost) == (0, 1, 112)
        && piece.route.as_slice() == [10].as_slice()
}

/// Whether this is the match of two places along the first edge.
pub fn is_along_first(matched: &MatchedTrace) -> bool {
    let labels = [on_first(1_000), on_first(9_000)];
    let pieces = matched.pieces.as_slice();
    matched.id == 7
        && matched.labels.as_slice() == labels.as_slice()
        && pieces.len() == 1
        && pieces.iter().all(|piece| is_one_piece(piece))
}

/// Puts a row into the empty cell of node 1.
fn plant(store: &RowStore<'_>, row: Row) -> Result<(), AllocError>
    requires node { HasNode store.now.network 1 }
    requires origin { row.origin ≡ 1 }
{
    store.reader()?.offer(NodeId(1), row)?;
    Ok(())
}

/// A reader of a store, which has looked at node 1 if this is wanted.
fn reader_of<'s>(store: &'s RowStore<'s>, look: bool) -> Result<Reader<'s>, AllocError>
    requires { HasNode store.now.network 1 }
    ensures { IfOk result (λ reader. reader.store ≡ store.now) }
{
    let mut reader = store.reader()?;
    if look {
        reader.look(NodeId(1))?;
    }
    Ok(reader)
}

/// Two readers of a store, which have looked at node 1 if this is wanted.
fn two_readers<'s>(
    alloc: Global,
    store: &'s RowStore<'s>,
    look: bool,
) -> Result<List<Reader<'s>>, AllocError>
    requires node { HasNode store.now.network 1 }
    requires bound { store.now.bound ≡ DEFAULTS.bound }
    ensures { IfOk result (AreReadersFor store.now.network DEFAULTS) }
{
    let a = reader_of(store, look)?;
    let b = reader_of(store, look)?;
    let mut readers = List::new(alloc);
    readers.push(a)?;
    readers.push(b)?;
    Ok(readers)
}

/// Whether each of the readers knows a foreign row.
fn know_it(readers: List<Reader<'_>>) -> Result<bool, AllocError> {
    for mut reader in readers.into_vec() {
        if knows_no_foreign_row(&mut reader)? {
            return Ok(false);
        }
    }
    Ok(true)
}

/// Whether two workers match a trace that asks for the row of node 1 as if its cell were empty, and still know
/// the row there if they looked at it before.
fn is_matched<R: Threads + Sync>(
    rt: &R,
    alloc: Global,
    net: &Network,
    store: &RowStore<'_>,
    look: bool,
) -> Result<bool, AllocError>
    requires store { (store.now.network ≡ net.now) × (store.now.bound ≡ DEFAULTS.bound) }
    requires node { HasNode store.now.network 1 }
{
    let readers = two_readers(alloc, store, look)?;
    let traces = [trace_at(alloc, &ALONG)?];
    let Some((all, readers)) = matched_with(rt, alloc, net, &traces, readers)? else {
        return Ok(false);
    };
    let right = all.len() == 1 && all.as_slice().iter().all(|matched| is_along_first(matched));
    Ok(right && (!look || know_it(readers)?))
}

/// Whether the trace is matched all the same where the row of node 1 in the store has this second entry.
fn is_not_misled<R: Threads + Sync>(
    rt: &R,
    alloc: Global,
    second: Option<Entry>,
    look: bool,
) -> Option<bool> {
    let net = read_network(alloc, TWO_EDGES).ok()?;
    if net.node_count() < 2 {
        return None;
    }
    let row = offered(alloc, second).ok()??;
    let store = RowStore::open(alloc, &net, DEFAULTS.bound).ok()?;
    plant(&store, row).ok()?;
    is_matched(rt, alloc, &net, &store, look).ok()
}

#[test]
fn a_foreign_row_misleads_nobody(rt: HostRuntime) {
    for second in wrong() {
        for look in [false, true] {
            assert!(rt;
                is_not_misled(&rt, rt.alloc(), second, look) == Some(true),
                "looked: {look}"
            );
        }
    }
}
