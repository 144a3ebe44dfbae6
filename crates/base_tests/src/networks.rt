//! Networks of files.
use polyline_geometry::Point;
use road_network::{
    EdgeId, Network, NetworkFault, NetworkLimits, NodeId, read_network, read_network_text,
    read_network_within,
};
use std::alloc::Global;

// An edge, with the indices of its nodes.
struct Edge {
    name: u32,
    ends: (u32, u32),
    line: &'static [(i32, i32)],
    offsets: &'static [u32],
}

// A node. Each edge that leaves it has an index, a length and the node to which it leads.
struct Node {
    name: u64,
    out: &'static [(u32, u32, u32)],
}

struct Case {
    shows: &'static str,
    file: &'static [u8],
    edges: &'static [Edge],
    nodes: &'static [Node],
}

static CASES: [Case; 6] = [
    Case {
        shows: "one edge after another",
        file: b"edge,from,to,line\n10,1,2,0 0;10000 0\n11,2,3,10000 0;20000 0\n",
        edges: &[
            Edge {
                name: 10,
                ends: (0, 1),
                line: &[(0, 0), (10_000, 0)],
                offsets: &[0, 10_000],
            },
            Edge {
                name: 11,
                ends: (1, 2),
                line: &[(10_000, 0), (20_000, 0)],
                offsets: &[0, 10_000],
            },
        ],
        nodes: &[
            Node {
                name: 1,
                out: &[(0, 10_000, 1)],
            },
            Node {
                name: 2,
                out: &[(1, 10_000, 2)],
            },
            Node { name: 3, out: &[] },
        ],
    },
    Case {
        shows: "two edges between the same nodes",
        file: b"edge,from,to,line\n20,12000000000,2,0 0;10000 0\n5,12000000000,2,0 0;10000 0\n",
        edges: &[
            Edge {
                name: 20,
                ends: (0, 1),
                line: &[(0, 0), (10_000, 0)],
                offsets: &[0, 10_000],
            },
            Edge {
                name: 5,
                ends: (0, 1),
                line: &[(0, 0), (10_000, 0)],
                offsets: &[0, 10_000],
            },
        ],
        nodes: &[
            Node {
                name: 12_000_000_000,
                out: &[(0, 10_000, 1), (1, 10_000, 1)],
            },
            Node { name: 2, out: &[] },
        ],
    },
    Case {
        shows: "blanks and quotes in a line",
        file: b"edge,from,to,line\n10,1,2,\" 0 0 ; 5000\t0;10000 0\"\n",
        edges: &[Edge {
            name: 10,
            ends: (0, 1),
            line: &[(0, 0), (5_000, 0), (10_000, 0)],
            offsets: &[0, 5_000, 10_000],
        }],
        nodes: &[
            Node {
                name: 1,
                out: &[(0, 10_000, 1)],
            },
            Node { name: 2, out: &[] },
        ],
    },
    Case {
        shows: "the longest edge",
        file: b"edge,from,to,line\n10,1,2,0 0;100000000 0\n",
        edges: &[Edge {
            name: 10,
            ends: (0, 1),
            line: &[(0, 0), (100_000_000, 0)],
            offsets: &[0, 100_000_000],
        }],
        nodes: &[
            Node {
                name: 1,
                out: &[(0, 100_000_000, 1)],
            },
            Node { name: 2, out: &[] },
        ],
    },
    Case {
        shows: "no edge",
        file: b"edge,from,to,line\n",
        edges: &[],
        nodes: &[],
    },
    // One part in one pass, and parts with blanks, of ten digits and of many zeros.
    Case {
        shows: "coordinates of many spellings",
        file: b"edge,from,to,line\n10,1,2,-123456789 -7;-0123456789 0;-123450000\t0;-123400000 12345678 \n",
        edges: &[Edge {
            name: 10,
            ends: (0, 1),
            line: &[
                (-123_456_789, -7),
                (-123_456_789, 0),
                (-123_450_000, 0),
                (-123_400_000, 12_345_678),
            ],
            offsets: &[0, 7, 6_796, 12_352_575],
        }],
        nodes: &[
            Node {
                name: 1,
                out: &[(0, 12_352_575, 1)],
            },
            Node { name: 2, out: &[] },
        ],
    },
];

fn is_line(line: &[Point], wanted: &[(i32, i32)]) -> bool {
    for (point, place) in line.iter().zip(wanted) {
        if (point.x, point.y) != *place {
            return false;
        }
    }
    line.len() == wanted.len()
}

fn has_edge(net: &Network, index: u32, edge: &Edge) -> bool {
    if index >= net.edge_count() {
        return false;
    }
    let e = EdgeId(index);
    net.name(e) == edge.name
        && (net.from(e).0, net.to(e).0) == edge.ends
        && is_line(net.line(e), edge.line)
        && net.offsets(e) == edge.offsets
        && edge.offsets.last() == Some(&net.length(e))
}

fn has_node(net: &Network, index: u32, node: &Node) -> bool {
    if index >= net.node_count() {
        return false;
    }
    let (edges, arcs) = (net.out(NodeId(index)), net.arcs(NodeId(index)));
    for ((edge, arc), out) in edges.iter().zip(arcs).zip(node.out) {
        if (edge.0, arc.length, arc.to.0) != *out || arc.edge.0 != edge.0 {
            return false;
        }
    }
    net.node_name(NodeId(index)) == node.name
        && edges.len() == node.out.len()
        && arcs.len() == node.out.len()
}

fn is_network(net: &Network, case: &Case) -> bool {
    for index in 0..net.edge_count() {
        let Some(edge) = case.edges.get(index as usize) else {
            return false;
        };
        if !has_edge(net, index, edge) {
            return false;
        }
    }
    for index in 0..net.node_count() {
        let Some(node) = case.nodes.get(index as usize) else {
            return false;
        };
        if !has_node(net, index, node) {
            return false;
        }
    }
    net.edge_count() as usize == case.edges.len() && net.node_count() as usize == case.nodes.len()
}

fn is_as_wanted(read: Result<Network, NetworkFault>, case: &Case) -> bool {
    match read {
        Ok(net) => is_network(&net, case),
        Err(_) => false,
    }
}

// Reads the network from a text that is dropped meanwhile.
fn read_copy(alloc: Global, file: &[u8]) -> Result<Network, NetworkFault> {
    let text = file.to_vec(alloc)?;
    read_network_text(alloc, NetworkLimits::Large, text)
}

// Whether each of the three functions reads the network of the file.
fn is_read_by_each(alloc: Global, case: &Case) -> bool {
    is_as_wanted(read_network(alloc, case.file), case)
        && is_as_wanted(
            read_network_within(alloc, NetworkLimits::Large, case.file),
            case,
        )
        && is_as_wanted(read_copy(alloc, case.file), case)
}

#[test]
fn networks_of_files(rt: HostRuntime) {
    for case in &CASES {
        assert!(rt; is_read_by_each(rt.alloc(), case), "{}", case.shows);
    }
}
