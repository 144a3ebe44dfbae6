//! Rows of positions with what is handed out after each of them, worked out by hand. Each call for a row is refused
//! once, and the same position is fed again.
ghost use Rattle.std.specs.Prelude.{◌≡◌, IfOk};
ghost use Rattle.bounded_table.specs.Rows.{no_rows};

use cost_model::Params;
use matching::is_layer;
use online_commit::{Item, Online};
use plain_list::List;
use polyline_geometry::Point;
use road_network::{Candidate, EdgeId, Network, read_network};
use row_search::RefusingRows;
use row_tests::small::{TWO_EDGES, TWO_ROADS};
use std::alloc::{AllocError, Global};
use trellis::Layer;

const OPTIONS: Params = Params {
    gap: 60,
    ..Params::DEFAULT
};

const JOINED: &[u8] =
    b"edge,from,to,line\n1,1,3,0 0;10000 0\n2,2,3,0 400;10000 400\n3,3,4,10000 200;20000 200\n";

/// A position: x, y, its time, and its candidates as (edge, d2, offset).
type Seen = (i32, i32, u32, &'static [(u32, u64, u32)]);

/// An item in numbers: a label as (0, index, edge, offset), a position without candidates as (1, index, 0, 0), and
/// a piece as (2, first, last, cost) with its route behind it, each edge as (3, edge, 0, 0).
pub type Told = (u32, u32, u32, u64);

const NEXT: Told = (4, 0, 0, 0);

/// More calls than a position asks for rows.
const MOST_CALLS: u64 = 10;

struct Case {
    shows: &'static str,
    network: &'static [u8],
    points: &'static [Seen],
    /// What is handed out, with `NEXT` behind the items of each position.
    told: &'static [Told],
}

const CASES: [Case; 6] = [
    Case {
        shows: "no points",
        network: TWO_EDGES,
        points: &[],
        told: &[],
    },
    Case {
        shows: "two roads meet, and all is committed at once",
        network: JOINED,
        points: &[
            (1_000, 100, 0, &[(0, 10_000, 1_000), (1, 90_000, 1_000)]),
            (2_000, 100, 0, &[(0, 10_000, 2_000), (1, 90_000, 2_000)]),
            (15_000, 200, 0, &[(2, 0, 5_000)]),
        ],
        told: &[
            NEXT,
            NEXT,
            (0, 0, 0, 1_000),
            (0, 1, 0, 2_000),
            (0, 2, 2, 5_000),
            NEXT,
            (2, 0, 2, 10),
            (3, 0, 0, 0),
            (3, 2, 0, 0),
        ],
    },
    Case {
        shows: "two roads that never meet wait for the end",
        network: TWO_ROADS,
        points: &[
            (1_000, 100, 0, &[(0, 10_000, 1_000), (1, 90_000, 1_000)]),
            (2_000, 300, 0, &[(1, 10_000, 2_000), (0, 90_000, 2_000)]),
        ],
        told: &[
            NEXT,
            NEXT,
            (0, 0, 1, 1_000),
            (0, 1, 1, 2_000),
            (2, 0, 1, 69),
            (3, 1, 0, 0),
        ],
    },
    Case {
        shows: "a break closes the piece before the next begins",
        network: TWO_ROADS,
        points: &[
            (1_000, 100, 0, &[(0, 10_000, 1_000)]),
            (2_000, 300, 0, &[(1, 10_000, 2_000)]),
        ],
        told: &[
            (0, 0, 0, 1_000),
            NEXT,
            (2, 0, 0, 5),
            (3, 0, 0, 0),
            (0, 1, 1, 2_000),
            NEXT,
            (2, 1, 1, 5),
            (3, 1, 0, 0),
        ],
    },
    Case {
        shows: "a point without candidates closes the piece",
        network: TWO_EDGES,
        points: &[
            (1_000, 0, 0, &[(0, 0, 1_000), (1, 81_000_000, 0)]),
            (1_000, 50_000, 0, &[]),
            (2_000, 0, 0, &[(0, 0, 2_000), (1, 64_000_000, 0)]),
        ],
        told: &[
            NEXT,
            (0, 0, 0, 1_000),
            (2, 0, 0, 0),
            (3, 0, 0, 0),
            (1, 1, 0, 0),
            NEXT,
            NEXT,
            (0, 2, 0, 2_000),
            (2, 2, 2, 0),
            (3, 0, 0, 0),
        ],
    },
    Case {
        shows: "a gap in time closes the piece",
        network: TWO_EDGES,
        points: &[
            (1_000, 300, 0, &[(0, 90_000, 1_000), (1, 81_090_000, 0)]),
            (9_000, -300, 61, &[(0, 90_000, 9_000), (1, 1_090_000, 0)]),
        ],
        told: &[
            NEXT,
            (0, 0, 0, 1_000),
            (2, 0, 0, 45),
            (3, 0, 0, 0),
            NEXT,
            (0, 1, 0, 9_000),
            (2, 1, 1, 45),
            (3, 0, 0, 0),
        ],
    },
];

fn layer_of(alloc: Global, seen: &Seen) -> Result<Layer, AllocError> {
    let mut candidates = List::new(alloc);
    for (edge, d2, offset) in seen.3 {
        candidates.push(Candidate {
            edge: EdgeId(*edge),
            d2: *d2,
            offset: *offset,
        })?;
    }
    Ok(Layer {
        point: Point {
            x: seen.0,
            y: seen.1,
        },
        candidates,
        time: seen.2,
    })
}

/// The item in numbers.
fn in_numbers(item: &Item, into: &mut Vec<Told>) -> Result<(), AllocError> {
    match item {
        Item::At { index, candidate } => {
            let offset = u64::from(candidate.offset);
            into.push((0, *index, candidate.edge.0, offset))?;
        }
        Item::Missing(index) => into.push((1, *index, 0, 0))?,
        Item::Closed { piece, route } => {
            into.push((2, piece.first, piece.last, piece.cost))?;
            for edge in route.as_slice() {
                into.push((3, edge.0, 0, 0))?;
            }
        }
    }
    Ok(())
}

/// Rows that refuse the call of this number.
fn rows_refusing<'n>(
    alloc: Global,
    session: &Online<'n>,
    call: u64,
) -> Result<RefusingRows<'n>, AllocError>
    ensures { IfOk result (λ rows. rows.rows ≡ no_rows session.now.network session.now.params.bound) }
{
    let mut refuse = List::new(alloc);
    refuse.push(call)?;
    let bound = session.params().bound;
    if bound > 10_000_000 {
        return Err(AllocError);
    }
    RefusingRows::open(alloc, session.network(), bound, refuse)
}

/// The items of the next position, over rows that refuse this call. None where it is no position of the network.
fn fed(
    alloc: Global,
    session: &mut Online,
    layer: Layer,
    call: u64,
) -> Result<Option<List<Item>>, AllocError> {
    let (net, p) = (session.network(), *session.params());
    if !is_layer(net, &p, &layer) || layer.candidates.len() > 32 || session.count() >= 100_000 {
        return Ok(None);
    }
    let mut rows = rows_refusing(alloc, session, call)?;
    Ok(Some(session.feed(layer, &mut rows)?))
}

/// The items of the next position, which is fed again over rows that refuse a later call for as long as one is
/// refused. The refused calls are counted.
fn fed_at_last(
    alloc: Global,
    session: &mut Online,
    seen: &Seen,
    refused: &mut u32,
) -> Option<List<Item>> {
    for call in 1..MOST_CALLS {
        let layer = layer_of(alloc, seen).ok()?;
        match fed(alloc, session, layer, call) {
            Ok(items) => return items,
            Err(_) => *refused = refused.saturating_add(1),
        }
    }
    None
}

/// The items that are left, over rows that refuse this call.
fn ended(alloc: Global, session: &mut Online, call: u64) -> Result<List<Item>, AllocError> {
    let mut rows = rows_refusing(alloc, session, call)?;
    session.finish(&mut rows)
}

/// The items that are left, asked for again in the same way.
fn ended_at_last(alloc: Global, session: &mut Online, refused: &mut u32) -> Option<List<Item>> {
    for call in 1..MOST_CALLS {
        match ended(alloc, session, call) {
            Ok(items) => return Some(items),
            Err(_) => *refused = refused.saturating_add(1),
        }
    }
    None
}

pub fn append_told(items: &List<Item>, told: &mut Vec<Told>) -> Result<(), AllocError> {
    for item in items.as_slice() {
        in_numbers(item, told)?;
    }
    Ok(())
}

/// What a session hands out for these positions, in numbers.
fn told_of(alloc: Global, net: &Network, points: &[Seen], refused: &mut u32) -> Option<Vec<Told>> {
    let mut session = Online::open(alloc, net, &OPTIONS);
    let mut told = Vec::new(alloc);
    for seen in points {
        let items = fed_at_last(alloc, &mut session, seen, refused)?;
        append_told(&items, &mut told).ok()?;
        told.push(NEXT).ok()?;
    }
    let items = ended_at_last(alloc, &mut session, refused)?;
    append_told(&items, &mut told).ok()?;
    Some(told)
}

/// Whether this is handed out.
fn is_told(alloc: Global, case: &Case, refused: &mut u32) -> Option<bool> {
    let net = read_network(alloc, case.network).ok()?;
    let told = told_of(alloc, &net, case.points, refused)?;
    Some(told.as_slice() == case.told)
}

#[test]
fn what_is_handed_out(rt: HostRuntime) {
    let mut refused = 0;
    for case in &CASES {
        assert!(rt;
            is_told(rt.alloc(), case, &mut refused) == Some(true),
            "{}",
            case.shows
        );
    }
    assert!(rt; refused > 0, "no call was refused");
}
