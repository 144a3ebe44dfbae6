//! What a grid has near a position.
ghost use Rattle.std.specs.Prelude.{◌≡◌, ◌≤◌};
ghost use Rattle.polyline_geometry.specs.Plane.{InRange};

use crate::lawful_traces::is_in_range;
use crate::small::TWO_EDGES;
use grid_index::Grid;
use polyline_geometry::Point;
use road_network::{EdgeId, Network, read_network};
use std::alloc::{AllocError, Global};

/// The edges of a network near a position, by a grid of cells as wide as the reach.
struct Case {
    shows: &'static str,
    network: &'static [u8],
    reach: u32,
    at: Point,
    edges: &'static [u32],
}

const WIDE_EDGE: &[u8] = b"edge,from,to,line\n1,1,2,-1000000000 0;-900000000 0\n";

const WIDE_STREET: &[u8] =
    b"edge,from,to,line\n1,1,2,0 0;500000 9;900000 0\n2,2,1,900000 0;500000 9;0 0\n";

const CASES: [Case; 4] = [
    Case {
        shows: "both of two edges",
        network: TWO_EDGES,
        reach: 10_000,
        at: Point { x: 1_000, y: 300 },
        edges: &[0, 1],
    },
    Case {
        shows: "an edge over many cells",
        network: WIDE_EDGE,
        reach: 10_000,
        at: Point {
            x: -950_000_000,
            y: 5,
        },
        edges: &[0],
    },
    Case {
        shows: "both ways of a street over many cells",
        network: WIDE_STREET,
        reach: 1_000,
        at: Point { x: 700_000, y: 5 },
        edges: &[0, 1],
    },
    Case {
        shows: "nothing",
        network: b"edge,from,to,line\n",
        reach: 10_000,
        at: Point { x: 0, y: 0 },
        edges: &[],
    },
];

fn are(found: &[EdgeId], edges: &[u32]) -> bool {
    found.len() == edges.len() && found.iter().zip(edges).all(|(a, b)| a.0 == *b)
}

fn has_near(alloc: Global, net: &Network, case: &Case) -> Result<bool, AllocError>
    requires reach { (1 ≤ case.now.reach) × (case.now.reach ≤ 1_000_000) }
    requires at { InRange case.now.at }
{
    let grid = Grid::build(alloc, net, case.reach)?;
    let near = grid.near(alloc, case.at, case.reach)?;
    Ok(are(near.as_slice(), case.edges))
}

/// Whether the grid has just these edges near the position.
fn are_near(alloc: Global, case: &Case) -> Option<bool> {
    if case.reach < 1 || 1_000_000 < case.reach || !is_in_range(case.at.x, case.at.y) {
        return None;
    }
    let net = read_network(alloc, case.network).ok()?;
    has_near(alloc, &net, case).ok()
}

#[test]
fn edges_near_a_position(rt: HostRuntime) {
    for case in &CASES {
        assert!(rt; are_near(rt.alloc(), case) == Some(true), "{}", case.shows);
    }
}

/// Whether a grid of the wide street has a run for each way, and just a position beyond the reach is far.
fn is_of_wide_street(grid: &Grid) -> bool
    requires { grid.now.side ≡ 1_000 }
{
    grid.wide_runs().len() == 2
        && grid.is_far(Point { x: 901_001, y: 5 }, 1_000)
        && !grid.is_far(Point { x: 901_000, y: 5 }, 1_000)
}

/// Whether the one run at the start of an edge has a distance there alone.
fn has_one_run(grid: &Grid) -> bool {
    let (start, p) = (Point { x: 0, y: 0 }, Point { x: -300, y: -400 });
    let (column, row) = (grid.column_of(start), grid.row_of(start));
    let next = column.saturating_add(1);
    let runs = grid.runs_at(column, row);
    grid.invariants();
    for run in runs {
        if grid.distance2_in_cell(run, p, column, row) != Some(250_000)
            || grid.distance2_in_cell(run, p, next, row).is_some()
            || grid
                .distance2_in_cell(run, p, column, grid.row_of(p))
                .is_some()
        {
            return false;
        }
    }
    runs.len() == 1
}

fn wide_street(alloc: Global) -> Option<bool> {
    let net = read_network(alloc, WIDE_STREET).ok()?;
    let grid = Grid::build(alloc, &net, 1_000).ok()?;
    Some(is_of_wide_street(&grid))
}

fn one_edge(alloc: Global) -> Option<bool> {
    let net = read_network(alloc, b"edge,from,to,line\n1,1,2,0 0;10000 0\n").ok()?;
    let grid = Grid::build(alloc, &net, 10_000).ok()?;
    Some(has_one_run(&grid))
}

#[test]
fn runs_in_cells(rt: HostRuntime) {
    assert!(rt;
        wide_street(rt.alloc()) == Some(true),
        "a street over many cells"
    );
    assert!(rt; one_edge(rt.alloc()) == Some(true), "an edge of one cell");
}
