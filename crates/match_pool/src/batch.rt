//! A batch of traces, and what they are matched on. Serves `work_on`.
ghost use Rattle.trace_match.specs.Ground.{IsGridFor};
ghost use Rattle.match_pool.specs.Working.{AreJobTraces};

use cost_model::Params;
use grid_index::Grid;
use road_network::Network;
use std::alloc::Global;
use trace_reader::Trace;

/// Consecutive traces, the first of which has index `first` in the file, from 0, and the network,
/// its grid and the options by which they are matched.
#[derive(Clone, Copy)]
pub struct Batch<'a> {
    pub alloc: Global,
    pub net: &'a Network,
    pub grid: &'a Grid<'a>,
    pub params: &'a Params,
    pub first: u64,
    pub traces: &'a [Trace],
    pub ghost ground: { IsGridFor net.now params.now grid.now },
    pub ghost lawful: { AreJobTraces first traces.now },
}
