//! The nearest candidates so far, kept in order while edges are taken by ascending number. Serves
//! `candidates` and `candidates_plain`; decided by `with_one`.
ghost use Rattle.std.specs.Prelude.{◌≡◌, ℕ, ◌+◌, ◌*◌, ◌≤◌, ◌<◌, ◌⊎◌, length, take, OnOk};
ghost use Rattle.std.specs.List.{All};
ghost use Rattle.std.specs.List.Sorted.{IsNonDecreasingBy};
ghost use Rattle.road_network.specs.Net.{HasEdge, edge_line};
ghost use Rattle.road_network.specs.Near.{candidate_at, placed};
ghost use Rattle.candidate_search.specs.inside.Nearest.{AllAreFar, IsFound, IsNearestOf, IsPlace, with_one};

use crate::wanted::Search;
use polyline_geometry::{NearSegment, nearest_segment, snap_on};
use road_network::{Candidate, EdgeId, Network};
use std::alloc::AllocError;

/// The place of the first candidate that is farther.
fn place_of(found: &[Candidate], d2: u64) -> usize
    requires { IsNonDecreasingBy (λ c. c.d2) found.now }
    ensures { IsPlace found.now d2 result }
{
    found.partition_point(|candidate| candidate.d2 <= d2)
}

/// The squared distance from which on a later edge is not a candidate.
pub(crate) fn limit_of(found: &[Candidate], search: Search) -> u64
    requires few { length found.now ≤ search.k }
    requires sorted { IsNonDecreasingBy (λ c. c.d2) found.now }
    ensures within { result ≤ search.radius * search.radius + 1 }
    ensures far { (d2 : ℕ) → result ≤ d2 → AllAreFar search found.now d2 }
{
    let beyond = search.radius * search.radius + 1;
    if found.len() < search.k {
        beyond
    } else {
        found[search.k - 1].d2.min(beyond)
    }
}

/// Inserts a candidate of a later edge at its place, and drops what is then beyond the first k.
fn insert(found: &mut Vec<Candidate>, k: usize, candidate: Candidate) -> Result<(), AllocError>
    requires { IsFound k candidate.edge.0 found.old.items }
    ensures list { OnOk result (found.new.items ≡ take k (placed candidate found.old.items)) }
    ensures found { OnOk result (IsFound k (candidate.edge.0 + 1) found.new.items) }
{
    let place = place_of(found.as_slice(), candidate.d2);
    found.insert(place, candidate)?;
    found.truncate(k);
    Ok(())
}

/// Takes one more edge, by ascending number, whose nearest segment is known; `None` if no segment
/// is near enough.
pub(crate) fn take_segment(
    net: &Network,
    found: &mut Vec<Candidate>,
    search: Search,
    edge: EdgeId,
    near: Option<NearSegment>,
) -> Result<(), AllocError>
    requires edge { HasEdge net.now edge.0 }
    requires found { IsFound search.k edge.0 found.old.items }
    requires near { IsNearestOf (edge_line net.now edge.0) search found.old.items near }
    ensures list { OnOk result (found.new.items
        ≡ with_one search.k search.radius found.old.items (candidate_at net.now search.at edge.0)) }
    ensures found { OnOk result (IsFound search.k (edge.0 + 1) found.new.items) }
{
    net.invariants();
    match near {
        None => Ok(()),
        Some(near) => {
            let before = net.offsets(edge)[near.segment];
            let snap = snap_on(net.line(edge), before, search.at, near.segment);
            let candidate = Candidate {
                edge,
                d2: snap.d2,
                offset: snap.offset,
            };
            insert(found, search.k, candidate)
        }
    }
}

/// Takes one more edge, by ascending number.
pub(crate) fn consider(
    net: &Network,
    found: &mut Vec<Candidate>,
    search: Search,
    edge: EdgeId,
) -> Result<(), AllocError>
    requires edge { HasEdge net.now edge.0 }
    requires found { IsFound search.k edge.0 found.old.items }
    ensures list { OnOk result (found.new.items
        ≡ with_one search.k search.radius found.old.items (candidate_at net.now search.at edge.0)) }
    ensures found { OnOk result (IsFound search.k (edge.0 + 1) found.new.items) }
{
    net.invariants();
    let line = net.line(edge);
    let limit = limit_of(found.as_slice(), search);
    let near = nearest_segment(line, 0, line.len() - 1, search.at, limit);
    take_segment(net, found, search, edge, near)
}
