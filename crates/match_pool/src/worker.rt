//! The work of one worker. Serves `match_all`; decided by `Works`.
ghost use Rattle.std.specs.Prelude.{◌≡◌, ◌≤◌, IfOk, length};
ghost use Rattle.match_pool.specs.Working.{CanDraw, CanMatch, IsReaderFor, KeepsClaims, Works, job};

use crate::batch::Batch;
use crate::drawing::work_on;
use crate::gate::Gate;
use crate::partitions::numbers_below;
use cost_model::Params;
use grid_index::Grid;
use match_text::MatchedTrace;
use plain_list::List;
use road_network::Network;
use row_store::Reader;
use std::alloc::{AllocError, Global};
use tickets::{Claims, Ticket};
use trace_reader::Trace;

/// The match of the trace at an index of the file, from 0.
#[derive(Drop)]
pub struct Done {
    pub place: u64,
    pub matched: MatchedTrace,
}

/// Matches each trace whose number the ticket draws, until none is left. `first` is the index of the
/// first trace in the file, from 0.
///
/// After `Ok` the reader knows the rows that it knew before, and those that these traces ask for. No
/// contract says that the matches are computed from them: each match is the same from any rows. The gate
/// is called before and after each trace, which only tests show. `Err` means out of memory.
pub fn work<'s, G: Gate>(
    alloc: Global,
    net: &Network,
    grid: &Grid,
    p: &Params,
    first: u64,
    traces: &[Trace],
    claims: &Claims,
    ticket: &mut Ticket,
    reader: &mut Reader<'s>,
    gate: &G,
) -> Result<List<Done>, AllocError>
    requires can { CanMatch net.now p.now grid.now first traces.now }
    requires ticket { CanDraw (length traces.now) claims.now ticket.old }
    requires reader { IsReaderFor net.now p.now reader.old }
    ensures stays { KeepsClaims (job net.now p.now first traces.now)
        reader.old ticket.old reader.new ticket.new }
    ensures works { IfOk result (λ done. Works (job net.now p.now first traces.now)
        reader.old ticket.old done reader.new ticket.new) }
{
    let batch = Batch {
        alloc,
        net,
        grid,
        params: p,
        first,
        traces,
    };
    let numbers = numbers_below(alloc, traces.len())?;
    work_on(&batch, numbers.as_slice(), claims, ticket, reader, gate)
}
