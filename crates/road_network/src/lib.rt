//! The road network: read from its file, and available part by part.
//!
//! - [`read_network`] reads a network file within the standard limits, and [`read_network_within`]
//! within any [`NetworkLimits`]; [`NetworkFault`] is the fault of a file, and writes its error line.
//! - [`Network`] gives access to nodes and edges by their numbers, [`NodeId`] and [`EdgeId`]; an edge
//! has an id, two nodes, a line and a length in cm. [`Arc`] is an edge seen from the node where
//! it begins.
//! - [`Candidate`] is an edge with the snap of a point to it.
//!
//! Contracts see a network as the record `Net` of `specs/Net.antt`. Walks and their order are in
//! `specs/Walk.antt`, the candidates of a point in `specs/Near.antt`, and the meaning of a file in
//! `specs/NetworkFile.antt`. Read the clauses of [`read_network`] first.
#![tactic(auto)]

ghost use Rattle.std.specs.Prelude.{◌≡◌, ◌<◌, ◌≤◌, length, map};
ghost use Rattle.std.specs.List.{All};
ghost use Rattle.polyline_geometry.specs.Offsets.{line_offsets};
ghost use Rattle.road_network.specs.Net.{Net, ContainsLeaving, HasEdge, HasNode, IsLawful, arc_of, edge_line, edge_name, leaving, node_name, source, span, target};

mod counting;
mod draft;
mod edge_names;
mod fault;
mod fields;
mod file;
mod laws;
mod limits;
mod text;

use counting::Adjacency;
pub use fault::NetworkFault;
pub use file::{read_network, read_network_text, read_network_within};
pub use laws::{candidates_are_nearest, candidates_differ, limits_agree};
pub use limits::{COORDINATE_LIMIT, LENGTH_LIMIT, LINE_POINT_LIMIT, NetworkLimits};
use polyline_geometry::Point;
use std::marker::Model;

/// The number of a node of a network, from 0.
#[derive(Clone, Copy, Debug, PartialEq, Eq, PartialOrd, Ord)]
pub struct NodeId(pub u32);

/// The number of an edge of a network, from 0: its place in the file.
#[derive(Clone, Copy, Debug, PartialEq, Eq, PartialOrd, Ord)]
pub struct EdgeId(pub u32);

/// An outgoing edge of a node, with its length in cm and the node where it ends.
///
/// The edge and its length are adjacent, so that a search reads both as one number of eight bytes.
#[derive(Clone, Copy, Debug, PartialEq, Eq)]
pub struct Arc {
    pub edge: EdgeId,
    pub length: u32,
    pub to: NodeId,
}

/// An edge with the snap of a point to it.
#[derive(Clone, Copy, Debug, PartialEq, Eq)]
pub struct Candidate {
    pub edge: EdgeId,
    /// The squared distance from the point to the edge, in cm².
    pub d2: u64,
    /// How far along the edge the snapped point lies, in cm.
    pub offset: u32,
}

/// An edge as a network stores it. Its line is `points[first..end]`.
#[derive(Clone, Copy)]
struct StoredEdge {
    name: u32,
    from: NodeId,
    to: NodeId,
    length: u32,
    first: u32,
    end: u32,
}

/// A network: nodes and directed edges with lines. All points are in one list, their offsets in a
/// second list in the same order, and `adjacency` has the outgoing edges of each node.
pub struct Network {
    nodes: Vec<u64>,
    edges: Vec<StoredEdge>,
    points: Vec<Point>,
    offsets: Vec<u32>,
    adjacency: Adjacency,
}

// By hand, so that the functions that drop one call this.
impl Drop for Network {
    fn drop(self) {
        let Network {
            nodes: _,
            edges: _,
            points: _,
            offsets: _,
            adjacency: _,
        } = self;
    }
}

impl Model for Network {
    ghost use Rattle.road_network.specs.Net.{Net};

    ghost Value = { Net };

    ghost use Rattle.road_network.specs.inside.Stored.{shown, IsKept};

    ghost view = { shown };

    ghost invariant = { IsKept };
}

impl Network {
    /// Does nothing: its clause states the invariants of every network.
    pub fn invariants(&self)
        ensures { IsLawful self.now }
    {
        let _ = &self.edges;
    }

    /// The number of nodes.
    pub fn node_count(&self) -> u32
        ensures { result ≡ length self.now.nodes }
    {
        self.nodes.len() as u32
    }

    /// The number of edges.
    pub fn edge_count(&self) -> u32
        ensures { result ≡ length self.now.edges }
    {
        self.edges.len() as u32
    }

    /// The node where an edge begins.
    pub fn from(&self, e: EdgeId) -> NodeId
        requires { HasEdge self.now e.0 }
        ensures { result.0 ≡ source self.now e.0 }
    {
        self.edges[e.0 as usize].from
    }

    /// The node where an edge ends.
    pub fn to(&self, e: EdgeId) -> NodeId
        requires { HasEdge self.now e.0 }
        ensures { result.0 ≡ target self.now e.0 }
    {
        self.edges[e.0 as usize].to
    }

    /// The length of an edge, in cm.
    pub fn length(&self, e: EdgeId) -> u32
        requires { HasEdge self.now e.0 }
        ensures { result ≡ span self.now e.0 }
    {
        self.edges[e.0 as usize].length
    }

    /// The line of an edge: at least two points, and neighbouring points differ.
    pub fn line(&self, e: EdgeId) -> &[Point]
        requires { HasEdge self.now e.0 }
        ensures { result.now ≡ edge_line self.now e.0 }
    {
        let edge = &self.edges[e.0 as usize];
        &self.points[edge.first as usize..edge.end as usize]
    }

    /// How far along the edge each point of its line lies, in cm.
    pub fn offsets(&self, e: EdgeId) -> &[u32]
        requires { HasEdge self.now e.0 }
        ensures { result.now ≡ line_offsets (edge_line self.now e.0) }
    {
        let edge = &self.edges[e.0 as usize];
        &self.offsets[edge.first as usize..edge.end as usize]
    }

    /// The edge's id in the file.
    pub fn name(&self, e: EdgeId) -> u32
        requires { HasEdge self.now e.0 }
        ensures { result ≡ edge_name self.now e.0 }
    {
        self.edges[e.0 as usize].name
    }

    /// The node's id in the file.
    pub fn node_name(&self, n: NodeId) -> u64
        requires { HasNode self.now n.0 }
        ensures { result ≡ node_name self.now n.0 }
    {
        self.nodes[n.0 as usize]
    }

    /// The edges that begin at a node, by ascending number.
    pub fn out(&self, n: NodeId) -> &[EdgeId]
        requires { HasNode self.now n.0 }
        ensures list { result.now ≡ leaving self.now n.0 }
        ensures each { All (λ e. HasEdge self.now e.0 × (source self.now e.0 ≡ n.0)) result.now }
        ensures every { ContainsLeaving self.now n.0 result.now }
    {
        let first = self.adjacency.starts[n.0 as usize] as usize;
        let end = self.adjacency.starts[n.0 as usize + 1] as usize;
        &self.adjacency.leaving[first..end]
    }

    /// The edges that begin at a node, by ascending number, each with its length and its end. They are
    /// adjacent in memory, so that a search need not look up an edge by its number.
    pub fn arcs(&self, n: NodeId) -> &[Arc]
        requires { HasNode self.now n.0 }
        ensures { result.now ≡ map (arc_of self.now) (leaving self.now n.0) }
    {
        let place = n.0 as usize;
        let first = self.adjacency.starts[place] as usize;
        let end = self.adjacency.starts[place + 1] as usize;
        &self.adjacency.arcs[first..end]
    }
}
