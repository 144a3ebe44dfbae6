//! Readers of one store, and batches of traces matched by them. Serves `match` and `town`; decided
//! by `MatchesBatch`.
ghost use Rattle.std.specs.Prelude.{◌≡◌, IfOk, None};
ghost use Rattle.match_pool.specs.Learning.{AreReadersFor};
ghost use Rattle.match_pool.specs.Working.{AreJobTraces};
ghost use Rattle.row_store.specs.Store.{HasNearRows};
ghost use Rattle.match_work.specs.Sharing.{IsStoreFor, MatchesBatch, ShareStore, fresh_readers};

use crate::env::Env;
use match_pool::{Gate, match_all};
use match_text::MatchedTrace;
use plain_list::List;
use row_store::{Reader, RowStore};
use std::alloc::{AllocError, Global};
use std::thread::Threads;
use trace_match::Matcher;
use trace_reader::Trace;

/// What traces are matched on, and the store of the rows that the workers share.
#[derive(Clone, Copy)]
pub struct Shared<'s> {
    pub matcher: &'s Matcher<'s>,
    pub store: &'s RowStore<'s>,
}

/// A store for the rows of the network within the bound of the options.
pub fn open_store<'n>(alloc: Global, matcher: &Matcher<'n>) -> Result<RowStore<'n>, AllocError>
    ensures { IfOk result (λ store. IsStoreFor matcher.now store × (store.near ≡ None)) }
{
    RowStore::open(alloc, matcher.network(), matcher.params().bound)
}

/// A store as `open_store` makes it, with near rows, which serve most steps along a trace.
pub fn open_near_store<'n>(alloc: Global, matcher: &Matcher<'n>) -> Result<RowStore<'n>, AllocError>
    ensures { IfOk result (λ store. IsStoreFor matcher.now store × HasNearRows store) }
{
    RowStore::open_near(alloc, matcher.network(), matcher.params().bound)
}

/// As many readers of a store as the options have workers, from 1 to 64. They know nothing.
pub fn open_readers<'s>(
    alloc: Global,
    matcher: &Matcher<'_>,
    store: &'s RowStore<'s>,
) -> Result<List<Reader<'s>>, AllocError>
    requires { IsStoreFor matcher.now store.now }
    ensures fresh { IfOk result (λ readers. readers ≡ fresh_readers matcher.now store.now) }
    ensures shared { IfOk result (ShareStore matcher.now) }
{
    let params = matcher.params();
    let mut readers = List::new(alloc);
    for _ in 0..params.workers {
        readers.push(store.reader()?)?;
    }
    Ok(readers)
}

/// The matches of some traces, in order, by one worker for each reader. `first` is the index of the
/// first trace in the file, from 0.
pub fn match_batch<'s, R: Threads + Sync, G: Gate>(
    env: &Env<'_, R, G>,
    matcher: &Matcher<'_>,
    first: u64,
    traces: &[Trace],
    readers: &mut List<Reader<'s>>,
) -> Result<List<MatchedTrace>, AllocError>
    requires traces { AreJobTraces first traces.now }
    requires readers { AreReadersFor matcher.now.network matcher.now.params readers.old }
    ensures { MatchesBatch matcher.now traces.now readers.old result readers.new }
{
    let network = matcher.network();
    let grid = matcher.grid();
    let params = matcher.params();
    match_all(
        env.rt, env.alloc, network, grid, params, first, traces, readers, env.gate,
    )
}
