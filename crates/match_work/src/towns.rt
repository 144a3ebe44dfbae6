//! `town N T SEED`. Serves the program; decided by `town_plan`.
ghost use Rattle.std.specs.Prelude.{◌≡◌, ◌≤◌, ◌<◌, ◌^◌, ◌++◌, length, Ok, IfOk, OnOk};
ghost use Rattle.cost_model.specs.Options.{IsAccepted, IsWithin};
ghost use Rattle.edge_io.specs.State.{ShelfState};
ghost use Rattle.program_frame.specs.Jobs.{IsBounded};
ghost use Rattle.program_frame.specs.Performs.{Performs};
ghost use Rattle.town.specs.Network.{network_text};
ghost use Rattle.town.specs.Traces.{traces_text};
ghost use Rattle.trace_reader.specs.Reading.{file_traces};
ghost use Rattle.match_work.specs.Matched.{pieces_in};
ghost use Rattle.match_work.specs.Sharing.{IsStoreFor};
ghost use Rattle.match_work.specs.Towns.{cost_line, network_in, report_of_town, town_plan, town_text};
ghost use Rattle.match_work.specs.inside.TownsDone.{AreMatchCosts, IsMatchCost};

use crate::batches::{Shared, match_batch, open_near_store, open_readers};
use crate::env::Env;
use command_line::TownNumbers;
use cost_model::Params;
use edge_io::Sink;
use itoa::Buffer;
use match_pool::Gate;
use match_text::MatchedTrace;
use plain_list::List;
use program_frame::{Stop, Tally, put_text};
use road_network::{Network, read_network};
use row_store::known_count;
use std::alloc::{AllocError, Global};
use std::thread::Threads;
use town::{town_network, town_traces};
use trace_match::Matcher;
use trace_reader::{Trace, TraceReader};

/// The sums over the matches of some traces.
#[derive(Clone, Copy)]
struct Costs {
    pieces: u64,
    /// The sum of the scaled costs of all pieces.
    cost: u128,
}

// Reads the network of a town. Its file has no fault, so the only error is out of memory.
fn open_network(alloc: Global, side: u32) -> Result<Network, AllocError>
    requires { IsWithin 2 100 side }
    ensures { IfOk result (λ network. network ≡ network_in (network_text side)) }
{
    let bytes = town_network(alloc, side)?;
    match read_network(alloc, bytes.as_slice()) {
        Ok(network) => Ok(network),
        Err(_) => Err(AllocError),
    }
}

// Reads the traces of a town. Their file has no fault either.
fn read_traces(alloc: Global, numbers: TownNumbers) -> Result<List<Trace>, AllocError>
    requires { IsWithin 2 100 numbers.side × IsWithin 1 2_000 numbers.traces }
    ensures { IfOk result (λ traces. traces
        ≡ file_traces (traces_text numbers.side numbers.traces numbers.seed)) }
{
    let bytes = town_traces(alloc, numbers.side, numbers.traces, numbers.seed)?;
    let mut reader = TraceReader::open(alloc);
    let mut traces = List::new(alloc);
    let Ok(()) = reader.feed(bytes.as_slice(), &mut traces) else {
        return Err(AllocError);
    };
    let Ok(()) = reader.finish(&mut traces) else {
        return Err(AllocError);
    };
    Ok(traces)
}

// The sum of the costs of the pieces of a match.
fn add_costs(matched: &MatchedTrace) -> u128
    requires { length matched.now.pieces ≤ 2 ^ 62 }
    ensures { IsMatchCost matched.now result }
{
    let mut cost = 0;
    for piece in matched.pieces.as_slice() {
        cost += u128::from(piece.cost);
    }
    cost
}

// The sums over some matches.
fn add_up(matches: &[MatchedTrace]) -> Costs
    requires { pieces_in matches.now ≤ 2 ^ 62 }
    ensures { AreMatchCosts matches.now result }
{
    let mut costs = Costs { pieces: 0, cost: 0 };
    for matched in matches {
        costs.pieces += matched.pieces.len() as u64;
        costs.cost += add_costs(matched);
    }
    costs
}

// Appends the line of a sum of costs.
fn append_cost(cost: u128, into: &mut List<u8>) -> Result<(), AllocError>
    ensures { OnOk result (into.new ≡ into.old ++ cost_line cost) }
{
    into.extend_from_slice(b"cost ")?;
    into.extend_from_slice(Buffer::new().format(cost).as_bytes())?;
    into.extend_from_slice(b"\n")
}

// The output of a town.
fn report<'s, R: Threads + Sync, G: Gate>(
    env: &Env<'_, R, G>,
    shared: &Shared<'s>,
    traces: &[Trace],
) -> Result<List<u8>, AllocError>
    requires store { IsStoreFor shared.now.matcher.now shared.now.store.now }
    requires traces { IsBounded traces.now × (length traces.now ≤ 2_000) }
    ensures { IfOk result (λ text. text ≡ town_text shared.now.matcher.now traces.now) }
{
    let mut readers = open_readers(env.alloc, shared.matcher, shared.store)?;
    let matches = match_batch(env, shared.matcher, 0, traces, &mut readers)?;
    let costs = add_up(matches.as_slice());
    let mut tally = Tally::NONE;
    tally.add(traces, costs.pieces);
    let rows = known_count(env.alloc, readers.as_slice())?;
    let mut text = List::new(env.alloc);
    tally.append_line(u64::from(rows), &mut text)?;
    append_cost(costs.cost, &mut text)?;
    Ok(text)
}

fn town_report<R: Threads + Sync, G: Gate>(
    env: &Env<'_, R, G>,
    numbers: TownNumbers,
    options: Params,
) -> Result<List<u8>, AllocError>
    requires within { IsWithin 2 100 numbers.side × IsWithin 1 2_000 numbers.traces }
    requires options { IsAccepted options }
    ensures { IfOk result (λ text. text
        ≡ report_of_town numbers.side numbers.traces numbers.seed options) }
{
    let network = open_network(env.alloc, numbers.side)?;
    let traces = read_traces(env.alloc, numbers)?;
    let matcher = Matcher::open(env.alloc, &network, options)?;
    let store = open_near_store(env.alloc, &matcher)?;
    let shared = Shared {
        matcher: &matcher,
        store: &store,
    };
    report(env, &shared, traces.as_slice())
}

/// Makes the files of a town, and matches its traces on its network. Reads no file.
pub fn match_town<R: Threads + Sync, G: Gate, K: Sink>(
    env: &Env<'_, R, G>,
    numbers: TownNumbers,
    options: Params,
    out: &mut K,
) -> Result<(), Stop>
    requires within { IsWithin 2 100 numbers.side × IsWithin 1 2_000 numbers.traces }
    requires options { IsAccepted options }
    ensures { (shelf : ShelfState)
        → Performs (Ok (town_plan numbers.side numbers.traces numbers.seed options))
        shelf shelf (K.state out.old) (K.state out.new) result }
{
    let text = town_report(env, numbers, options)?;
    put_text(out, text.as_slice())
}
