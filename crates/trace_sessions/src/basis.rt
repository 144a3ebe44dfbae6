//! What a trace is followed on. Serves `follow_trace`.
ghost use Rattle.trace_match.specs.Ground.{IsGridFor};

use cost_model::Params;
use grid_index::Grid;
use road_network::Network;

/// A network, its grid with cells of at least the radius, and the options.
#[derive(Clone, Copy)]
pub struct Basis<'a> {
    pub net: &'a Network,
    pub grid: &'a Grid<'a>,
    pub params: &'a Params,
    pub ghost is: { IsGridFor net.now params.now grid.now },
}
