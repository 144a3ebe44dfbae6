//! The match of one trace. Serves `match_one`; decided by `match_of`.
ghost use Rattle.std.specs.Prelude.{◌≡◌, true, IfOk};
ghost use Rattle.bounded_table.specs.Rows.{AreRowsOf, AsksFor, AsksOnly};
ghost use Rattle.matching.specs.PieceSteps.{AsksTrace};
ghost use Rattle.route_rebuild.specs.Chosen.{IsSolved};
ghost use Rattle.trace_match.specs.Ground.{IsGridFor};
ghost use Rattle.trace_match.specs.Match.{asks, matched_of};
ghost use Rattle.trace_match.specs.inside.Solved.{as_solution};
ghost use Rattle.trace_reader.specs.Trace.{IsLawfulTrace};
ghost use Rattle.match_pool.specs.Answers.{IsAnswerTo};

use crate::routes::{Found, pieces};
use bounded_table::Rows;
use cost_model::Params;
use grid_index::Grid;
use match_text::MatchedTrace;
use matching::Layer;
use plain_list::List;
use road_network::Network;
use std::alloc::{AllocError, Global};
use trace_match::{labels, layers};
use trace_reader::Trace;
use trellis::Solved;
use viterbi::match_trace;

/// The match of a trace, and the intermediate results.
#[derive(Drop)]
pub struct Answer {
    /// The positions, with their candidates and times.
    pub layers: List<Layer>,
    /// The ranks, pieces and cells.
    pub solved: Solved,
    /// The match in the ids of the network file.
    pub matched: MatchedTrace,
}

/// What was found in the ids of the network file, for a trace with this id.
fn in_ids<R: Rows>(
    alloc: Global,
    rows: &mut R,
    id: u32,
    found: &Found,
) -> Result<MatchedTrace, AllocError>
    requires rows { AreRowsOf (R.state rows.old) found.now.net.now found.now.params.now.bound }
    requires solved { IsSolved found.now.net.now found.now.params.now found.now.layers.now found.now.solved.now }
    ensures matched { IfOk result (λ m. m ≡ matched_of found.now.net.now found.now.params.now id
        found.now.layers.now (as_solution found.now.solved.now)) }
    ensures asks { AsksOnly (R.state rows.old) (R.state rows.new) (AsksTrace found.now.net.now
        found.now.params.now found.now.layers.now found.now.solved.now.pieces) }
{
    found.net.invariants();
    let ranks = found.solved.ranks.as_slice();
    let labels = labels(alloc, found.net, found.layers, ranks)?;
    let pieces = pieces(alloc, rows, found)?;
    Ok(MatchedTrace { id, labels, pieces })
}

/// The match of a trace. Exactly the rows that it asks for become known.
///
/// `grid` is of this network, with cells of at least the radius, and `rows` are of this network and
/// the bound of these options. `Err` means out of memory; then some of these rows may be unknown still.
pub fn match_one<R: Rows>(
    alloc: Global,
    net: &Network,
    grid: &Grid,
    p: &Params,
    rows: &mut R,
    trace: &Trace,
) -> Result<Answer, AllocError>
    requires ground { IsGridFor net.now p.now grid.now }
    requires rows { AreRowsOf (R.state rows.old) net.now p.now.bound }
    requires trace { IsLawfulTrace trace.now }
    ensures answer { IfOk result (IsAnswerTo net.now p.now trace.now) }
    ensures asks { AsksFor (R.state rows.old) (λ v. asks net.now p.now trace.now v ≡ true)
        result (R.state rows.new) }
{
    net.invariants();
    let layers = layers(alloc, net, grid, p, trace.fixes.as_slice())?;
    let solved = match_trace(alloc, net, p, rows, layers.as_slice())?;
    let found = Found {
        net,
        params: p,
        layers: layers.as_slice(),
        solved: &solved,
    };
    let matched = in_ids(alloc, rows, trace.id, &found)?;
    Ok(Answer {
        layers,
        solved,
        matched,
    })
}
