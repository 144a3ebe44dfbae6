//! The arcs of each node as four in one place. Serves the search; decided by `IsFan`.
ghost use Rattle.std.specs.Prelude.{◌≡◌, IfOk, IsTrue, length, map};
ghost use Rattle.road_network.specs.Net.{HasNode, IsLawful, arc_of, leaving};
ghost use Rattle.row_search.specs.inside.Fans.{IsFan};

use road_network::{Arc, EdgeId, Network, NodeId};
use std::alloc::{AllocError, Global};
use std::marker::Model;

/// How many arcs a fan has. Most nodes have no more.
pub const FAN_ARCS: usize = 4;

const NO_ARC: Arc = Arc {
    edge: EdgeId(0),
    length: 0,
    to: NodeId(0),
};

/// The arcs of a node as four, so that a search tries them without a loop, whose end the processor could not predict.
/// If there are fewer, the last one is repeated: trying an arc again changes nothing.
///
/// The fan of a node without arcs, or with more than four, is not whole, and says nothing of them.
#[derive(Clone, Copy)]
pub struct Fan {
    pub first: Arc,
    pub second: Arc,
    pub third: Arc,
    pub fourth: Arc,
    pub is_whole: bool,
}

impl Fan {
    /// The fan of these arcs.
    pub fn of(arcs: &[Arc]) -> Fan
        ensures { IsFan arcs.now result }
    {
        let Some(last) = arcs.len().checked_sub(1) else {
            return Fan {
                first: NO_ARC,
                second: NO_ARC,
                third: NO_ARC,
                fourth: NO_ARC,
                is_whole: false,
            };
        };
        Fan {
            first: arcs[0],
            second: arcs[last.min(1)],
            third: arcs[last.min(2)],
            fourth: arcs[last.min(3)],
            is_whole: last < FAN_ARCS,
        }
    }
}

/// A network with the fans of its nodes, by node number. They take 52 bytes for each node.
pub struct Fans<'n> {
    network: &'n Network,
    fans: Vec<Fan>,
}

// By hand, so that the functions that drop one call this.
impl<'n> Drop for Fans<'n> {
    fn drop(self) {
        let Fans {
            network: _,
            fans: _,
        } = self;
    }
}

impl<'n> Model for Fans<'n> {
    ghost use Rattle.road_network.specs.Net.{Net};

    ghost Value = { Net };

    ghost use Rattle.row_search.specs.inside.FansInside.{AreFans};

    ghost view = { λ a. a.network.now };

    ghost invariant = { AreFans };
}

impl<'n> Fans<'n> {
    /// The fans of the nodes of a network.
    pub fn new(alloc: Global, network: &'n Network) -> Result<Fans<'n>, AllocError>
        ensures { IfOk result (λ fans. fans ≡ network.now) }
    {
        let mut fans = Vec::with_capacity(alloc, network.node_count() as usize)?;
        for n in 0..network.node_count() {
            fans.push(Fan::of(network.arcs(NodeId(n))))?;
        }
        Ok(Fans { network, fans })
    }

    /// What the network always meets.
    pub(crate) fn invariants(&self)
        ensures { IsLawful self.now }
    {
        self.network.invariants();
    }

    /// The fan of a node.
    pub(crate) fn fan(&self, n: NodeId) -> &Fan
        requires { HasNode self.now n.0 }
        ensures { IsFan (map (arc_of self.now) (leaving self.now n.0)) result.now }
    {
        &self.fans[n.0 as usize]
    }

    /// The arcs of a node.
    pub(crate) fn arcs(&self, n: NodeId) -> &[Arc]
        requires { HasNode self.now n.0 }
        ensures { result.now ≡ map (arc_of self.now) (leaving self.now n.0) }
    {
        self.network.arcs(n)
    }
}
