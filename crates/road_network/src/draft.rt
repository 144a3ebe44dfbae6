//! A network under construction. Serves `read_network`; decided by `network_of` and its faults.
ghost use Rattle.std.specs.Prelude.{◌≡◌, ◌≢◌, ◌+◌, ◌≤◌, None, Some, IfOk, IfErr, OnOk, length};
ghost use Rattle.std.specs.List.{All};
ghost use Rattle.polyline_geometry.specs.Plane.{InRange};
ghost use Rattle.road_network.specs.NetworkFile.{add_row, first_fault, limit_faults, line_faults, no_net, place_of, repeated_point, with_node};
ghost use Rattle.road_network.specs.inside.Drafted.{drafted, AddsRow, IsDraft, IsLineTaken};
ghost use Rattle.road_network.specs.inside.Rows.{row_with};

use crate::counting::adjacency_of;
use crate::edge_names::note_name;
use crate::fault::NetworkFault;
use crate::limits::{LENGTH_LIMIT, LINE_POINT_LIMIT, NetworkLimits};
use crate::{EdgeId, Network, NodeId, StoredEdge};
use indexmap::IndexSet;
use plain_list::List;
use polyline_geometry::{Point, extend_offsets};
use std::alloc::Global;

/// The first three fields of a record: the id of an edge and the ids of its two nodes.
#[derive(Clone, Copy)]
pub(crate) struct RowHead {
    pub name: u32,
    pub from: u64,
    pub to: u64,
}

/// A network whose edges are still being read.
pub(crate) struct Draft {
    nodes: IndexSet<u64>,
    names: Option<IndexSet<u32>>,
    edges: List<StoredEdge>,
    points: List<Point>,
    offsets: List<u32>,
    alloc: Global,
}

// By hand, so that the functions that drop a draft call this one.
impl Drop for Draft {
    fn drop(self) {
        let Draft {
            nodes,
            names,
            edges: _,
            points: _,
            offsets: _,
            alloc: _,
        } = self;
        leave_sets(nodes, names);
    }
}

/// Drops two sets, so that the functions that drop a draft call this.
fn leave_sets(nodes: IndexSet<u64>, names: Option<IndexSet<u32>>) {
    let _ = (nodes, names);
}

/// The place, from 1, of the first point that equals the previous one.
fn repeated_point(line: &[Point]) -> Option<u64>
    ensures { result ≡ repeated_point line.now }
{
    for i in 1..line.len() {
        if line[i] == line[i - 1] {
            return Some(i as u64 + 1);
        }
    }
    None
}

/// The length of an edge's line in cm, if the line has no fault. Appends the offsets of its points.
fn check_line(rec: u32, line: &[Point], offsets: &mut List<u32>) -> Result<u32, NetworkFault>
    requires { All InRange line.now }
    ensures ok { IfOk result (λ length.
        IsLineTaken rec line.now length offsets.old offsets.new) }
    ensures fault { IfErr result
        (λ e. e ≢ NetworkFault.Memory → first_fault (line_faults rec line.now) ≡ Some e) }
{
    if line.len() < 2 {
        return Err(NetworkFault::ShortLine(rec));
    }
    if let Some(place) = repeated_point(line) {
        return Err(NetworkFault::RepeatedPoint(rec, place));
    }
    let Some(length) = extend_offsets(line, LENGTH_LIMIT, offsets)? else {
        return Err(NetworkFault::EdgeTooLong(rec));
    };
    Ok(length)
}

/// The number of a node; a new number if no earlier record names the node.
fn number_of(nodes: &mut IndexSet<u64>, name: u64) -> Result<NodeId, NetworkFault>
    requires { length nodes.old.keys ≤ 1_000_000_001 }
    ensures nodes { OnOk result (nodes.new.keys ≡ with_node nodes.old.keys name) }
    ensures place { IfOk result (λ node. node.0 ≡ place_of nodes.new.keys name) }
    ensures memory { IfErr result (λ e. e ≡ NetworkFault.Memory) }
{
    let (place, _) = nodes.insert_full(name)?;
    Ok(NodeId(place as u32))
}

/// What a network has with one more edge, and how many points the line of this edge has.
#[derive(Clone, Copy)]
struct Sizes {
    edges: usize,
    nodes: usize,
    points: usize,
    line: usize,
}

/// Whether a network of these sizes keeps the limits.
fn check_limits(limits: NetworkLimits, rec: u32, sizes: Sizes) -> Result<(), NetworkFault>
    ensures ok { OnOk result (first_fault
        (limit_faults limits rec sizes.edges sizes.nodes sizes.points sizes.line) ≡ None) }
    ensures fault { IfErr result (λ e. first_fault
        (limit_faults limits rec sizes.edges sizes.nodes sizes.points sizes.line) ≡ Some e) }
{
    if sizes.edges > limits.edges() {
        return Err(NetworkFault::TooManyEdges(rec));
    }
    if sizes.nodes > limits.nodes() {
        return Err(NetworkFault::TooManyNodes(rec));
    }
    if sizes.points > limits.points() {
        return Err(NetworkFault::TooManyPoints(rec));
    }
    if sizes.line > LINE_POINT_LIMIT {
        return Err(NetworkFault::TooManyPoints(rec));
    }
    Ok(())
}

impl Draft {
    /// The network without nodes and edges.
    pub fn new(alloc: Global) -> Draft
        ensures network { drafted result ≡ no_net }
        ensures draft { IsDraft result }
    {
        Draft {
            nodes: IndexSet::new(alloc),
            names: None,
            edges: List::new(alloc),
            points: List::new(alloc),
            offsets: List::new(alloc),
            alloc,
        }
    }

    /// The number of the record whose edge comes next, from 1.
    pub fn next_record(&self) -> u32
        requires { IsDraft self.now }
        ensures { result ≡ length (drafted self.now).edges + 1 }
    {
        self.edges.len() as u32 + 1
    }

    /// Adds the edge of the next record. After an error the draft cannot be used.
    pub fn add(
        &mut self,
        limits: NetworkLimits,
        head: &RowHead,
        line: &[Point],
    ) -> Result<(), NetworkFault>
        requires draft { IsDraft self.old }
        requires within { All InRange line.now }
        ensures ok { OnOk result (AddsRow limits self.old (row_with head.now line.now) self.new) }
        ensures fault { IfErr result (λ e. e ≢ NetworkFault.Memory
            → add_row limits (drafted self.old) (row_with head.now line.now) ≡ Err e) }
    {
        let rec = self.next_record();
        let is_new = note_name(
            self.alloc,
            &mut self.names,
            self.edges.as_slice(),
            head.name,
        )?;
        if !is_new {
            return Err(NetworkFault::DuplicateEdge(rec));
        }
        let length = check_line(rec, line, &mut self.offsets)?;
        let from = number_of(&mut self.nodes, head.from)?;
        let to = number_of(&mut self.nodes, head.to)?;
        let first = self.points.len();
        let end = first + line.len();
        let sizes = Sizes {
            edges: self.edges.len() + 1,
            nodes: self.nodes.len(),
            points: end,
            line: line.len(),
        };
        check_limits(limits, rec, sizes)?;
        let edge = StoredEdge {
            name: head.name,
            from,
            to,
            length,
            first: first as u32,
            end: end as u32,
        };
        self.points.extend_from_slice(line)?;
        self.edges.push(edge)?;
        Ok(())
    }

    /// The network of all added edges.
    pub fn finish(self, alloc: Global) -> Result<Network, NetworkFault>
        requires { IsDraft self }
        ensures network { IfOk result (λ n. n ≡ drafted self) }
        ensures memory { IfErr result (λ e. e ≡ NetworkFault.Memory) }
    {
        let nodes = self.nodes.as_slice().to_vec(alloc)?;
        let Draft {
            nodes: node_set,
            names,
            edges,
            points,
            offsets,
            alloc: _,
        } = self;
        leave_sets(node_set, names);
        let adjacency = adjacency_of(alloc, nodes.len(), edges.as_slice())?;
        Ok(Network {
            nodes,
            edges: edges.into_vec(),
            points: points.into_vec(),
            offsets: offsets.into_vec(),
            adjacency,
        })
    }
}
