//! Whether a row is the table's: the edges out of each entry's node are looked at once, and the last edges
//! among them are counted. Serves `check_row`; decided by `IsRow`.
ghost use Rattle.std.specs.Prelude.{◌≡◌, ◌<◌, ◌≤◌, ◌+◌, ◌↔◌, ℕ, false, length, Some, IfSome, IsSome, IsTrue};
ghost use Rattle.std.specs.List.{count_by};
ghost use Rattle.road_network.specs.Net.{HasNode, leaving};
ghost use Rattle.bounded_table.specs.Closed.{IsNoWorse, LeavesRelaxed};
ghost use Rattle.bounded_table.specs.inside.Given.{IsArcRelaxed, IsGiven, IsRelaxedAt, arc_gives, given_by, gives, is_label_by};
ghost use Rattle.bounded_table.specs.Table.{IsRow, RisesFrom, label_in, label_of};

use crate::table_row::{Entry, Row};
use road_network::{Arc, EdgeId, Network, NodeId};

/// Whether a row is the row of `origin` in the table of this network and bound.
///
/// Any row may be asked about: a node or edge that the network does not have, and a distance above
/// the bound, make the answer false. No memory is taken and no sum wraps. It costs at most one binary
/// search for each edge out of an entry's node. Where many rows are to be checked, a
/// [`RowChecker`](crate::RowChecker) needs none.
pub fn check_row(net: &Network, bound: u32, origin: NodeId, row: &Row) -> bool
    requires { HasNode net.now origin.0 }
    ensures { IsTrue result ↔ IsRow net.now bound origin.0 row.now }
{
    net.invariants();
    row.invariants();
    row.origin() == origin && gives_all(net, bound, row)
}

/// Whether the edges out of all entries' nodes are relaxed, and give all labels but the origin's.
///
/// An edge gives the label where it ends if it is that label's last edge, at that label's distance. So each
/// label is given once at most, and a count tells that none is left out.
fn gives_all(net: &Network, bound: u32, row: &Row) -> bool
    ensures { IsTrue result ↔ IsGiven net.now bound row.now.entries }
{
    row.invariants();
    let entries = row.entries();
    let mut given = 0;
    for x in entries {
        let Some(count) = given_at(net, bound, row, x) else {
            return false;
        };
        given += count;
    }
    given + 1 == entries.len()
}

/// How many labels the edges out of an entry's node give, where the entry is within the bound and they
/// are relaxed.
fn given_at(net: &Network, bound: u32, row: &Row, x: &Entry) -> Option<usize>
    ensures some { IsSome result
        ↔ IsRelaxedAt net.now bound (label_in row.now.entries) x.now }
    ensures count { IfSome result (λ count. count
        ≡ given_by net.now bound row.now.entries x.now) }
{
    if x.node.0 >= net.node_count() || x.distance > bound {
        return None;
    }
    count_given(net, bound, row, x)
}

/// How many labels the edges out of an entry's node give, where they are relaxed.
fn count_given(net: &Network, bound: u32, row: &Row, x: &Entry) -> Option<usize>
    requires { HasNode net.now x.now.node.0 }
    ensures some { IsSome result
        ↔ LeavesRelaxed net.now bound (label_in row.now.entries) x.now.node.0 x.now.distance }
    ensures count { IfSome result (λ count. count ≡ count_by (λ e. gives net.now bound
        (label_in row.now.entries) x.now.distance e.0) (leaving net.now x.now.node.0)) }
{
    let mut count = 0;
    for arc in net.arcs(x.node) {
        if try_arc(bound, row, *arc, x.distance)? {
            count += 1;
        }
    }
    Some(count)
}

/// Whether an arc gives the label where it ends, if it is relaxed or leads beyond the bound.
fn try_arc(bound: u32, row: &Row, arc: Arc, distance: u32) -> Option<bool>
    ensures some { IsSome result ↔ IsArcRelaxed bound (label_in row.now.entries) distance arc }
    ensures given { IfSome result (λ given. given
        ≡ arc_gives bound (label_in row.now.entries) distance arc) }
{
    let at = u64::from(distance) + u64::from(arc.length);
    if at > u64::from(bound) {
        return Some(false);
    }
    let found = row.find(arc.to)?;
    compare(found, arc.edge, at)
}

/// Whether an entry has just the label that an edge gives at a distance, if it is no worse.
fn compare(found: Entry, e: EdgeId, distance: u64) -> Option<bool>
    ensures some { IsSome result ↔ IsNoWorse (label_of found) distance e.0 }
    ensures same { IfSome result (λ same. same ≡ is_label_by (Some (label_of found)) distance e.0) }
{
    let least = u64::from(found.distance);
    if least < distance {
        return Some(false);
    }
    let last = found.last?;
    if least > distance || last > e {
        return None;
    }
    Some(last == e)
}
