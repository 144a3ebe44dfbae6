//! `match NET TRACES --table FILE`: the rows of the table file are offered to the store before the traces
//! are matched. Serves the programs; decided by `table_match_plan`.
ghost use Rattle.std.specs.Prelude.{Ok};
ghost use Rattle.cost_model.specs.Options.{IsAccepted};
ghost use Rattle.program_frame.specs.Performs.{Performs};
ghost use Rattle.match_work.specs.TableMatch.{table_match_plan};

use crate::batches::{Shared, open_store};
use crate::env::Env;
use crate::matches::match_file;
use command_line::MatchFiles;
use edge_io::{Shelf, Sink};
use match_pool::Gate;
use program_frame::{Request, Stop, load_network};
use std::thread::Threads;
use table_work::preload;
use trace_match::Matcher;

/// Reads the network, then this table file, and then the traces, which it matches batch by batch. The text
/// is that of `match_traces`, which reads no table file.
pub fn match_with_table<R: Threads + Sync, G: Gate, S: Shelf, K: Sink>(
    env: &Env<'_, R, G>,
    request: &Request<MatchFiles<'_>>,
    table: &str,
    shelf: &mut S,
    out: &mut K,
) -> Result<(), Stop>
    requires { IsAccepted request.now.options }
    ensures { Performs (Ok (table_match_plan request.now.limits request.now.files.network.now
        table.now request.now.files.traces.now request.now.options))
        (S.state shelf.old) (S.state shelf.new) (K.state out.old) (K.state out.new) result }
{
    let roads = load_network(env.alloc, shelf, request.files.network, request.limits)?;
    let matcher = Matcher::open(env.alloc, &roads, request.options)?;
    let store = open_store(env.alloc, &matcher)?;
    preload(env.alloc, shelf, table, &store)?;
    let shared = Shared {
        matcher: &matcher,
        store: &store,
    };
    match_file(env, &shared, request.files.traces, shelf, out)
}
