//! `table NET`. Serves the program; decided by `table_plan`.
ghost use Rattle.std.specs.Prelude.{◌≡◌, ◌≤◌, Ok, length};
ghost use Rattle.cost_model.specs.Options.{IsAccepted};
ghost use Rattle.program_frame.specs.inside.Refusing.{Accepts};
ghost use Rattle.program_frame.specs.Performs.{Performs};
ghost use Rattle.road_network.specs.Net.{IsLawful};
ghost use Rattle.table_work.specs.Table.{table_plan, table_said};
ghost use Rattle.table_work.specs.inside.TableDone.{AddsRows, WritesTable};

use crate::fault::TableWriteFault;
use crate::recent_rows::RecentRows;
use crate::writing::TableWriter;
use command_line::TableFiles;
use edge_io::{Shelf, Sink};
use plain_list::List;
use program_frame::{Refusal, Request, Stop, load_network, put_text, refuse};
use road_network::{Network, NodeId};
use row_search::Searcher;
use std::alloc::Global;

// Finds the row of each node, by the rows found last, and adds it.
fn add_rows(
    searcher: &mut Searcher,
    recent: &mut RecentRows,
    nodes: u32,
    writer: &mut TableWriter,
) -> Result<(), TableWriteFault>
    requires nodes { nodes ≡ length searcher.old.network.nodes }
    requires recent { recent.old ≡ searcher.old }
    requires lawful { IsLawful searcher.old.network }
    ensures { AddsRows searcher.old nodes writer.old writer.new result }
{
    for node in 0..nodes {
        let row = searcher.row_from(recent, NodeId(node))?;
        writer.add(&row)?;
        recent.keep(row)?;
    }
    Ok(())
}

// The table text of a network.
fn write_rows(alloc: Global, network: &Network, bound: u32) -> Result<List<u8>, TableWriteFault>
    requires { bound ≤ 10_000_000 }
    ensures { WritesTable network.now bound result }
{
    network.invariants();
    let nodes = network.node_count();
    let mut searcher = Searcher::open(alloc, network, bound)?;
    let mut writer = TableWriter::open(alloc, bound, nodes, network.edge_count())?;
    let mut recent = RecentRows::new(alloc, network, bound);
    add_rows(&mut searcher, &mut recent, nodes, &mut writer)?;
    writer.finish()
}

// The table text of a network, or its refusal as too long.
fn text_of_table(alloc: Global, network: &Network, bound: u32) -> Result<List<u8>, Stop>
    requires { bound ≤ 10_000_000 }
    ensures { Accepts Refusal.TooLong (table_said network.now bound) result }
{
    match write_rows(alloc, network, bound) {
        Ok(text) => Ok(text),
        Err(TableWriteFault::TooLong) => {
            Err(refuse(alloc, Refusal::TooLong, b"fmm: table too long\n"))
        }
        Err(TableWriteFault::Memory) => Err(Stop::NoMemory),
    }
}

/// Reads the network, and writes the table text with the row of every node. The text is in memory at once,
/// so that nothing is written if it is too long.
pub fn write_table<S: Shelf, K: Sink>(
    alloc: Global,
    request: &Request<TableFiles<'_>>,
    shelf: &mut S,
    out: &mut K,
) -> Result<(), Stop>
    requires { IsAccepted request.now.options }
    ensures { Performs
        (Ok (table_plan request.now.limits request.now.files.network.now request.now.options))
        (S.state shelf.old) (S.state shelf.new) (K.state out.old) (K.state out.new) result }
{
    let roads = load_network(alloc, shelf, request.files.network, request.limits)?;
    let text = text_of_table(alloc, &roads, request.options.bound)?;
    put_text(out, text.as_slice())
}
