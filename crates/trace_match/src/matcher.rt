//! What traces are matched on: a network with the grid of its edges, and the options. Serves the jobs of
//! every program; decided by `Setting`.
ghost use Rattle.std.specs.Prelude.{◌≡◌, ◌≤◌, IfOk};
ghost use Rattle.cost_model.specs.Options.{IsAccepted};
ghost use Rattle.trace_match.specs.Ground.{IsGridFor};

use cost_model::Params;
use grid_index::Grid;
use road_network::Network;
use std::alloc::{AllocError, Global};
use std::marker::Model;
use trellis::near_reach;

// The least side of a cell of the grid, in cm.
const LEAST_SIDE: u32 = 10_000;

/// A network with the grid of its edges, and the options that traces are matched by.
pub struct Matcher<'n> {
    network: &'n Network,
    grid: Grid<'n>,
    params: Params,
}

// By hand, so that the functions that drop one call this.
impl<'n> Drop for Matcher<'n> {
    fn drop(self) {
        let Matcher {
            network: _,
            grid: _,
            params: _,
        } = self;
    }
}

impl<'n> Model for Matcher<'n> {
    ghost use Rattle.trace_match.specs.Setting.{Setting};

    ghost Value = { Setting };

    ghost use Rattle.trace_match.specs.inside.MatcherInside.{setting_of, IsLaidOut};

    ghost view = { setting_of };

    ghost invariant = { IsLaidOut };
}

impl<'n> Matcher<'n> {
    /// Builds the grid of a network.
    pub fn open(
        alloc: Global,
        network: &'n Network,
        params: Params,
    ) -> Result<Matcher<'n>, AllocError>
        requires { IsAccepted params }
        ensures { IfOk result
            (λ matcher. matcher ≡ record { network = network.now; params = params }) }
    {
        let grid = Grid::build(alloc, network, params.radius.max(LEAST_SIDE))?;
        Ok(Matcher {
            network,
            grid,
            params,
        })
    }

    /// The network.
    pub fn network(&self) -> &'n Network
        ensures { result.now ≡ self.now.network }
    {
        self.network
    }

    /// The grid of the edges, with cells of at least the radius.
    pub fn grid(&self) -> &Grid<'n>
        ensures { IsGridFor self.now.network self.now.params result.now }
    {
        &self.grid
    }

    /// The options, which are in their ranges.
    pub fn params(&self) -> &Params
        ensures is { result.now ≡ self.now.params }
        ensures accepted { IsAccepted result.now }
    {
        &self.params
    }

    /// How far, in cm, rows are to reach that are read along a trace, before any longer ones are found.
    pub fn near_reach(&self) -> u32
        ensures { result ≤ self.now.params.bound }
    {
        near_reach(self.params.bound)
    }
}
