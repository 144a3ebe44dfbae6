//! The number of nodes with a known row. Serves `known_count`; decided by `count_known`.
ghost use Rattle.std.specs.Prelude.{◌≡◌, All, IfOk};
ghost use Rattle.road_network.specs.Net.{HasNode};
ghost use Rattle.row_store.specs.Store.{Stored, count_known, is_known_to_any};

use crate::reader::Reader;
use road_network::NodeId;
use std::alloc::{AllocError, Global};

/// Whether one of these readers knows a row for node n.
fn is_known_to_any(readers: &[Reader<'_>], n: NodeId) -> bool
    requires { All (λ r. HasNode r.store.network n.0) readers.now }
    ensures { result ≡ is_known_to_any readers.now n.0 }
{
    for reader in readers {
        if reader.known(n) {
            return true;
        }
    }
    false
}

/// The number of nodes for which at least one of these readers of one store knows a row.
///
/// It asks each reader for each node until one knows it.
pub fn known_count(_alloc: Global, readers: &[Reader<'_>]) -> Result<u32, AllocError>
    requires { (store : Stored) × All (λ r. r.store ≡ store) readers.now }
    ensures { IfOk result (λ count. count ≡ count_known readers.now) }
{
    let Some(first) = readers.first() else {
        return Ok(0);
    };
    let mut count = 0;
    for n in 0..first.store().network().node_count() {
        if is_known_to_any(readers, NodeId(n)) {
            count += 1;
        }
    }
    Ok(count)
}
