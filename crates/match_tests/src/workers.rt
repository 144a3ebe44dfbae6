//! Traces of a town, matched by workers over one store.
ghost use Rattle.std.specs.Prelude.{◌≡◌, ◌≤◌, IfOk};
ghost use Rattle.match_pool.specs.Learning.{AreReadersFor};

use cost_model::Params;
use grid_index::Grid;
use match_pool::{OpenGate, match_all};
use match_text::MatchedTrace;
use plain_list::List;
use road_network::{Network, NodeId, read_network};
use row_store::{Reader, RowStore, Sight};
use row_tests::lawful_traces::are_lawful;
use std::alloc::{AllocError, Global};
use std::thread::Threads;
use town::{town_network, town_traces};
use trace_reader::{Fix, Trace, TraceReader};

pub const DEFAULTS: Params = Params::DEFAULT;

/// Trace 7 with fixes at these places.
pub fn trace_at(alloc: Global, places: &[(i32, i32)]) -> Result<Trace, AllocError> {
    let mut fixes = List::new(alloc);
    for (x, y) in places {
        fixes.push(Fix {
            x: *x,
            y: *y,
            time: 0,
        })?;
    }
    Ok(Trace { id: 7, fixes })
}

/// So many readers of a store, which know nothing.
fn readers_of<'s>(
    alloc: Global,
    store: &'s RowStore<'s>,
    count: u32,
) -> Result<List<Reader<'s>>, AllocError>
    requires bound { store.now.bound ≡ DEFAULTS.bound }
    requires count { (1 ≤ count) × (count ≤ 64) }
    ensures { IfOk result (AreReadersFor store.now.network DEFAULTS) }
{
    let mut readers = List::new(alloc);
    for _ in 0..count {
        readers.push(store.reader()?)?;
    }
    Ok(readers)
}

/// The matches of traces by one worker for each of these readers, and the readers. None where they are
/// no traces that a file can have.
pub fn matched_with<'s, R: Threads + Sync>(
    rt: &R,
    alloc: Global,
    net: &Network,
    traces: &[Trace],
    mut readers: List<Reader<'s>>,
) -> Result<Option<(List<MatchedTrace>, List<Reader<'s>>)>, AllocError>
    requires { AreReadersFor net.now DEFAULTS readers }
{
    if traces.len() > 200 || !are_lawful(traces) {
        return Ok(None);
    }
    let grid = Grid::build(alloc, net, DEFAULTS.radius)?;
    let all = match_all(
        rt,
        alloc,
        net,
        &grid,
        &DEFAULTS,
        0,
        traces,
        &mut readers,
        &OpenGate,
    )?;
    Ok(Some((all, readers)))
}

fn is_foreign(sight: Sight<'_>) -> bool {
    matches!(sight, Sight::Foreign(_))
}

/// Whether each slot of a node that a reader knows has the row, or the near row, of its node.
pub fn knows_no_foreign_row(reader: &mut Reader<'_>) -> Result<bool, AllocError> {
    for n in 0..reader.store().network().node_count() {
        if reader.known(NodeId(n)) {
            if is_foreign(reader.look(NodeId(n))?) {
                return Ok(false);
            }
            if reader.store().has_near_rows() && is_foreign(reader.look_near(NodeId(n))?) {
                return Ok(false);
            }
        }
    }
    Ok(true)
}

/// Whether four workers match 200 traces, and none of their readers knows a foreign row.
fn are_matched<R: Threads + Sync>(
    rt: &R,
    alloc: Global,
    net: &Network,
    store: &RowStore<'_>,
    traces: &[Trace],
) -> Result<bool, AllocError>
    requires { (store.now.network ≡ net.now) × (store.now.bound ≡ DEFAULTS.bound) }
{
    let readers = readers_of(alloc, store, 4)?;
    let Some((all, readers)) = matched_with(rt, alloc, net, traces, readers)? else {
        return Ok(false);
    };
    for mut reader in readers.into_vec() {
        if !knows_no_foreign_row(&mut reader)? {
            return Ok(false);
        }
    }
    Ok(all.len() == 200)
}

fn town_traces_of(alloc: Global) -> Option<List<Trace>> {
    let text = town_traces(alloc, 20, 200, 1).ok()?;
    let mut traces = List::new(alloc);
    let mut reader = TraceReader::open(alloc);
    reader.feed(text.as_slice(), &mut traces).ok()?;
    reader.finish(&mut traces).ok()?;
    Some(traces)
}

fn is_town_matched<R: Threads + Sync>(rt: &R, alloc: Global) -> Option<bool> {
    let text = town_network(alloc, 20).ok()?;
    let net = read_network(alloc, text.as_slice()).ok()?;
    let traces = town_traces_of(alloc)?;
    let traces = traces.as_slice();
    let bound = DEFAULTS.bound;
    let table = RowStore::open(alloc, &net, bound).ok()?;
    let near = RowStore::open_near(alloc, &net, bound).ok()?;
    let by_table = are_matched(rt, alloc, &net, &table, traces).ok()?;
    let by_near = are_matched(rt, alloc, &net, &near, traces).ok()?;
    Some(by_table && by_near)
}

// A worker whose reader takes a row from the store unchecked, or that puts a wrong one there, fails here.
#[test]
fn no_row_of_the_town_is_foreign(rt: HostRuntime) {
    assert!(rt; is_town_matched(&rt, rt.alloc()) == Some(true));
}
