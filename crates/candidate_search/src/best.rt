//! The nearest edges so far, while runs are visited in any order. Serves `candidates`; decided by
//! `Takes` and `TakesPair`.
ghost use Rattle.std.specs.Prelude.{◌≡◌, ◌+◌, ◌-◌, ◌*◌, ◌≤◌, ◌<◌, ◌↔◌, ◌++◌, ◌∷◌, [], IsTrue, length, take, OnOk};
ghost use Rattle.std.specs.List.{All, remove};
ghost use Rattle.candidate_search.specs.inside.Best.{AreApart, ComesBefore, HasNeither, Inserts, IsBehind, IsLimit, IsNewPair, IsNoLater, IsPlaceOf, Puts, PutsPair, Takes, TakesPair};

use crate::wanted::Search;
use road_network::EdgeId;
use std::alloc::AllocError;

/// An edge with its nearest segment seen so far, and the squared distance in cm².
#[derive(Clone, Copy)]
pub(crate) struct NearEdge {
    pub(crate) edge: EdgeId,
    pub(crate) segment: u32,
    pub(crate) d2: u64,
}

impl NearEdge {
    /// Whether it is nearer than the other, or as near and earlier in the file.
    fn is_before(self, other: NearEdge) -> bool
        ensures { IsTrue result ↔ ComesBefore self other }
    {
        self.d2 < other.d2 || self.d2 == other.d2 && self.edge.0 < other.edge.0
    }

    /// Whether its segment is nearer than the other, or as near and no later.
    fn is_no_later(self, other: NearEdge) -> bool
        ensures { IsTrue result ↔ IsNoLater self other.d2 other.segment }
    {
        self.d2 < other.d2 || self.d2 == other.d2 && self.segment <= other.segment
    }
}

/// The squared distance from which on a segment is not wanted.
pub(crate) fn limit_for(found: &[NearEdge], search: Search) -> u64
    requires few { length found.now ≤ search.k }
    requires apart { AreApart found.now }
    ensures { IsLimit search found.now result }
{
    let beyond = search.radius * search.radius + 1;
    if found.len() < search.k {
        beyond
    } else {
        found[search.k - 1].d2.min(beyond - 1) + 1
    }
}

/// Whether k edges are found that precede an edge at this squared distance.
fn is_behind(found: &[NearEdge], search: Search, edge: EdgeId, d2: u64) -> bool
    requires few { length found.now ≤ search.k }
    requires apart { AreApart found.now }
    ensures { IsTrue result ↔ IsBehind search.k found.now d2 edge.0 }
{
    if found.len() < search.k {
        return false;
    }
    let last = found[search.k - 1];
    last.d2 < d2 || last.d2 == d2 && last.edge.0 < edge.0
}

/// The place of an edge among those found, or their number.
fn place_of_edge(found: &[NearEdge], edge: EdgeId) -> usize
    ensures { IsPlaceOf found.now edge.0 result }
{
    let mut place = 0;
    while place < found.len() && found[place].edge.0 != edge.0 {
        place += 1;
    }
    place
}

/// Moves the last edge up to its place among the others.
fn move_last_up(found: &mut [NearEdge], near: NearEdge)
    requires apart { AreApart (take (length found.old - 1) found.old) }
    requires others { All (λ c. c.edge.0 ≡ near.edge.0 → ⊥) (take (length found.old - 1) found.old) }
    requires last { found.old ≡ take (length found.old - 1) found.old ++ near ∷ [] }
    ensures { Inserts (take (length found.old - 1) found.old) found.new near }
{
    let mut place = found.len() - 1;
    while place > 0 && near.is_before(found[place - 1]) {
        found[place] = found[place - 1];
        found[place - 1] = near;
        place -= 1;
    }
}

/// Inserts one more edge at its place.
fn insert(found: &mut Vec<NearEdge>, near: NearEdge) -> Result<(), AllocError>
    requires apart { AreApart found.old.items }
    requires others { All (λ c. c.edge.0 ≡ near.edge.0 → ⊥) found.old.items }
    ensures { OnOk result (Inserts found.old.items found.new.items near) }
{
    found.push(near)?;
    move_last_up(found.as_mut_slice(), near);
    Ok(())
}

/// Inserts one more edge at its place, and drops what is then beyond the first k.
fn put(found: &mut Vec<NearEdge>, k: usize, near: NearEdge) -> Result<(), AllocError>
    requires apart { AreApart found.old.items }
    requires others { All (λ c. c.edge.0 ≡ near.edge.0 → ⊥) found.old.items }
    ensures { OnOk result (Puts k found.old.items found.new.items near) }
{
    insert(found, near)?;
    found.truncate(k);
    Ok(())
}

/// Moves an edge to the place of its nearer segment.
fn move_up(
    found: &mut Vec<NearEdge>,
    k: usize,
    place: usize,
    near: NearEdge,
) -> Result<(), AllocError>
    requires apart { AreApart found.old.items }
    requires place { IsPlaceOf found.old.items near.edge.0 place }
    requires inside { place < length found.old.items }
    ensures { OnOk result (Puts k (remove found.old.items place) found.new.items near) }
{
    found.remove(place);
    put(found, k, near)
}

/// Takes one more segment: the nearest segment of each edge is kept, and of the edges the first k.
pub(crate) fn take_near(
    found: &mut Vec<NearEdge>,
    search: Search,
    near: NearEdge,
) -> Result<(), AllocError>
    requires few { length found.old.items ≤ search.k }
    requires apart { AreApart found.old.items }
    ensures { OnOk result (Takes search.k found.old.items found.new.items near) }
{
    if is_behind(found.as_slice(), search, near.edge, near.d2) {
        return Ok(());
    }
    let place = place_of_edge(found.as_slice(), near.edge);
    if place == found.len() {
        return put(found, search.k, near);
    }
    if found[place].is_no_later(near) {
        return Ok(());
    }
    move_up(found, search.k, place, near)
}

/// Whether neither edge is among those found.
fn has_neither(found: &[NearEdge], one: EdgeId, other: EdgeId) -> bool
    ensures { IsTrue result ↔ HasNeither found.now one.0 other.0 }
{
    for near in found {
        if near.edge.0 == one.0 || near.edge.0 == other.0 {
            return false;
        }
    }
    true
}

/// Whether two edges are in order and both are new and wanted.
fn is_new_pair(found: &[NearEdge], search: Search, own: NearEdge, twin: NearEdge) -> bool
    requires few { length found.now ≤ search.k }
    requires apart { AreApart found.now }
    ensures { IsTrue result ↔ IsNewPair search.k found.now own twin }
{
    if own.d2 > twin.d2 || own.edge.0 >= twin.edge.0 {
        return false;
    }
    if is_behind(found, search, twin.edge, twin.d2) {
        return false;
    }
    has_neither(found, own.edge, twin.edge)
}

/// Inserts two more edges at their places, and drops what is then beyond the first k.
fn put_pair(
    found: &mut Vec<NearEdge>,
    k: usize,
    own: NearEdge,
    twin: NearEdge,
) -> Result<(), AllocError>
    requires apart { AreApart found.old.items }
    requires pair { IsNewPair k found.old.items own twin }
    ensures { OnOk result (PutsPair k found.old.items found.new.items own twin) }
{
    insert(found, own)?;
    insert(found, twin)?;
    found.truncate(k);
    Ok(())
}

/// Takes the nearest segments of two edges, both at once where they are new.
pub(crate) fn take_pair(
    found: &mut Vec<NearEdge>,
    search: Search,
    own: NearEdge,
    twin: NearEdge,
) -> Result<(), AllocError>
    requires few { length found.old.items ≤ search.k }
    requires apart { AreApart found.old.items }
    ensures { OnOk result (TakesPair search.k found.old.items found.new.items own twin) }
{
    if is_new_pair(found.as_slice(), search, own, twin) {
        return put_pair(found, search.k, own, twin);
    }
    take_near(found, search, own)?;
    take_near(found, search, twin)
}
