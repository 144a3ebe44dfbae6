//! The walk to a node, rebuilt from the last edges of a row.
ghost use Rattle.std.specs.Prelude.{◌≡◌, ◌≤◌, ℕ, length, reverse, IfOk};
ghost use Rattle.std.specs.Option.{IsSome};
ghost use Rattle.road_network.specs.Walk.{IsLeastWalk};
ghost use Rattle.bounded_table.specs.Table.{IsRow, entry_in};
ghost use Rattle.route_rebuild.specs.Numbers.{numbers};

use bounded_table::Row;
use plain_list::List;
use road_network::{EdgeId, Network, NodeId};
use std::alloc::{AllocError, Global};

/// The least walk from the row's origin to a listed node, in order of travel. It is empty exactly
/// if the node is the origin.
///
/// The row is the row of its origin for some bound. The call costs one lookup in the row for each
/// edge of the walk.
pub fn walk(alloc: Global, net: &Network, row: &Row, n: NodeId) -> Result<List<EdgeId>, AllocError>
    requires row { (bound : ℕ) × IsRow net.now bound row.now.origin row.now }
    requires listed { IsSome (entry_in row.now.entries n.0) }
    ensures { IfOk result (λ es. IsLeastWalk net.now row.now.origin (reverse (numbers es)) n.0) }
{
    let mut edges = walk_back(alloc, net, row, n)?;
    edges.reverse();
    Ok(List::from_vec(edges))
}

/// The least walk from the row's origin to a node, from its last edge to its first.
fn walk_back(alloc: Global, net: &Network, row: &Row, n: NodeId) -> Result<Vec<EdgeId>, AllocError>
    requires row { (bound : ℕ) × IsRow net.now bound row.now.origin row.now }
    requires listed { IsSome (entry_in row.now.entries n.0) }
    ensures { IfOk result (λ es. IsLeastWalk net.now row.now.origin (numbers es.items) n.0) }
{
    net.invariants();
    let mut edges = Vec::new(alloc);
    let mut at = row.find(n);
    while let Some(entry) = at
        && let Some(last) = entry.last
    {
        edges.push(last)?;
        at = row.find(net.from(last));
    }
    Ok(edges)
}
