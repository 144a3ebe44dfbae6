//! The candidates of positions: in a grid, by a plain search, and by a scan for many positions.
ghost use Rattle.std.specs.Prelude.{◌≡◌, ◌<◌, ◌^◌, length};
ghost use Rattle.std.specs.List.{All};
ghost use Rattle.cost_model.specs.Options.{IsAccepted};
ghost use Rattle.polyline_geometry.specs.Plane.{InRange};

use crate::lawful_traces::is_in_range;
use crate::small::{TWO_EDGES, TWO_ROADS};
use candidate_search::{EdgeScan, candidates, candidates_plain};
use cost_model::Params;
use grid_index::Grid;
use plain_list::List;
use polyline_geometry::Point;
use road_network::{Candidate, Network, read_network};
use std::alloc::{AllocError, Global};

/// A candidate as (edge, d2, offset).
type Found = (u32, u64, u32);

/// The first k candidates of a position.
#[derive(Clone, Copy)]
struct Case {
    shows: &'static str,
    network: &'static [u8],
    k: u32,
    at: Point,
    found: &'static [Found],
}

const WIDE_EDGE: &[u8] = b"edge,from,to,line\n1,1,2,-1000000000 0;-900000000 0\n";

const TWIN_EDGES: &[u8] = b"edge,from,to,line\n20,1,2,0 0;10000 0\n5,1,2,0 0;10000 0\n";

const HAIRPIN_STREET: &[u8] =
    b"edge,from,to,line\n1,1,2,0 0;10000 0;10000 400;0 400\n2,2,1,0 400;10000 400;10000 0;0 0\n";

const NEAR_FIRST: Case = Case {
    shows: "the nearest first",
    network: TWO_EDGES,
    k: 8,
    at: Point { x: 9_000, y: -300 },
    found: &[(0, 90_000, 9_000), (1, 1_090_000, 0)],
};

const CASES: [Case; 10] = [
    NEAR_FIRST,
    Case {
        shows: "as many as are wanted",
        k: 2,
        ..NEAR_FIRST
    },
    Case {
        shows: "no more than are wanted",
        k: 1,
        found: &[(0, 90_000, 9_000)],
        ..NEAR_FIRST
    },
    Case {
        shows: "at the radius",
        at: Point {
            x: 5_000,
            y: 10_000,
        },
        found: &[(0, 100_000_000, 5_000)],
        ..NEAR_FIRST
    },
    Case {
        shows: "beyond the radius",
        at: Point {
            x: 5_000,
            y: 10_001,
        },
        found: &[],
        ..NEAR_FIRST
    },
    Case {
        shows: "an edge over many cells",
        network: WIDE_EDGE,
        k: 8,
        at: Point {
            x: -950_000_000,
            y: 5,
        },
        found: &[(0, 25, 50_000_000)],
    },
    Case {
        shows: "the earlier record at a tie",
        network: TWIN_EDGES,
        k: 8,
        at: Point { x: 5_000, y: 100 },
        found: &[(0, 10_000, 5_000), (1, 10_000, 5_000)],
    },
    Case {
        shows: "the first of two lanes",
        network: TWO_ROADS,
        k: 8,
        at: Point { x: 1_000, y: 100 },
        found: &[(0, 10_000, 1_000), (1, 90_000, 1_000)],
    },
    Case {
        shows: "the second of two lanes",
        network: TWO_ROADS,
        k: 8,
        at: Point { x: 2_000, y: 300 },
        found: &[(1, 10_000, 2_000), (0, 90_000, 2_000)],
    },
    Case {
        shows: "both ways of a street that comes back",
        network: HAIRPIN_STREET,
        k: 8,
        at: Point { x: 5_000, y: 200 },
        found: &[(0, 40_000, 5_000), (1, 40_000, 5_000)],
    },
];

fn are(list: &List<Candidate>, found: &[Found]) -> bool {
    let same = list
        .as_slice()
        .iter()
        .zip(found)
        .all(|(a, b)| (a.edge.0, a.d2, a.offset) == *b);
    list.len() == found.len() && same
}

fn by_grid(alloc: Global, net: &Network, p: &Params, case: &Case) -> Result<bool, AllocError>
    requires options { IsAccepted p.now }
    requires radius { p.now.radius ≡ 10_000 }
    requires at { InRange case.now.at }
{
    let grid = Grid::build(alloc, net, 10_000)?;
    let list = candidates(alloc, net, &grid, p, case.at)?;
    Ok(are(&list, case.found))
}

fn by_plain_search(
    alloc: Global,
    net: &Network,
    p: &Params,
    case: &Case,
) -> Result<bool, AllocError>
    requires options { IsAccepted p.now }
    requires at { InRange case.now.at }
{
    let list = candidates_plain(alloc, net, p, case.at)?;
    Ok(are(&list, case.found))
}

fn by_scan(
    alloc: Global,
    net: &Network,
    p: &Params,
    points: &[Point],
    found: &[&[Found]],
) -> Result<bool, AllocError>
    requires options { IsAccepted p.now }
    requires points { All InRange points.now }
    requires few { length points.now < 2 ^ 32 }
{
    let scan = EdgeScan::open(alloc, net)?;
    let lists = scan.candidates(alloc, p, points)?;
    let same = lists.as_slice().iter().zip(found).all(|(a, b)| are(a, b));
    Ok(lists.len() == found.len() && same)
}

fn by_all(alloc: Global, net: &Network, p: &Params, case: &Case) -> Result<bool, AllocError>
    requires options { IsAccepted p.now }
    requires radius { p.now.radius ≡ 10_000 }
    requires at { InRange case.now.at }
{
    Ok(
        by_grid(alloc, net, p, case)?
            && by_plain_search(alloc, net, p, case)?
            && by_scan(alloc, net, p, &[case.at], &[case.found])?,
    )
}

/// Whether all calls find these candidates.
fn are_found(alloc: Global, case: &Case) -> Option<bool> {
    if case.k < 1 || 32 < case.k || !is_in_range(case.at.x, case.at.y) {
        return None;
    }
    let p = Params {
        k: case.k,
        ..Params::DEFAULT
    };
    let net = read_network(alloc, case.network).ok()?;
    by_all(alloc, &net, &p, case).ok()
}

#[test]
fn candidates_of_a_position(rt: HostRuntime) {
    for case in &CASES {
        assert!(rt; are_found(rt.alloc(), case) == Some(true), "{}", case.shows);
    }
}

/// Whether a scan of two lanes finds the candidates of each of many positions.
fn are_scanned(alloc: Global) -> Option<bool> {
    let points = [
        Point { x: 9_000, y: 300 },
        Point { x: 1_000, y: 100 },
        Point { x: 90_000, y: 0 },
        Point { x: 9_000, y: 300 },
        Point {
            x: 5_000,
            y: 10_400,
        },
        Point {
            x: 5_000,
            y: -9_000,
        },
    ];
    let found: [&[Found]; 6] = [
        &[(1, 10_000, 9_000), (0, 90_000, 9_000)],
        &[(0, 10_000, 1_000), (1, 90_000, 1_000)],
        &[],
        &[(1, 10_000, 9_000), (0, 90_000, 9_000)],
        &[(1, 100_000_000, 5_000)],
        &[(0, 81_000_000, 5_000), (1, 88_360_000, 5_000)],
    ];
    let net = read_network(alloc, TWO_ROADS).ok()?;
    by_scan(alloc, &net, &Params::DEFAULT, &points, &found).ok()
}

#[test]
fn candidates_of_many_positions(rt: HostRuntime) {
    assert!(rt; are_scanned(rt.alloc()) == Some(true));
}
