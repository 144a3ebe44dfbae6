//! Small networks, and rows of them. Other crates of tests use them too.
ghost use Rattle.std.specs.Prelude.{◌≡◌, IfOk, IfSome};

use bounded_table::{Entry, Row};
use plain_list::List;
use road_network::{EdgeId, NodeId};
use std::alloc::{AllocError, Global};

/// Two edges of 10,000 cm, one after the other: 0 to 1, and 1 to 2.
pub const TWO_EDGES: &[u8] = b"edge,from,to,line\n10,1,2,0 0;10000 0\n11,2,3,10000 0;20000 0\n";

/// Two edges side by side.
pub const TWO_ROADS: &[u8] = b"edge,from,to,line\n1,1,2,0 0;10000 0\n2,3,4,0 400;10000 400\n";

/// Two ways from 1 to 4 of 2,828 cm each: over 2 by edges 1 and 4, and over 3 by edges 2 and 3.
pub const TWO_WAYS: &[u8] =
    b"edge,from,to,line\n1,1,2,0 0;1000 0\n2,2,3,1000 0;2000 1000\n3,2,4,1000 0;2000 -1000\n4,4,5,2000 -1000;3000 0\n5,3,5,2000 1000;3000 0\n6,5,6,3000 0;4000 0\n";

/// An entry of a row.
pub fn entry(node: u32, distance: u32, last: Option<u32>) -> Entry {
    Entry {
        node: NodeId(node),
        distance,
        last: match last {
            Some(edge) => Some(EdgeId(edge)),
            None => None,
        },
    }
}

/// Entries after `1:0:-` with which a row is not that of node 1 of the two edges.
pub fn wrong() -> [Option<Entry>; 4] {
    [
        None,
        Some(entry(2, 10_000, Some(7))),
        Some(entry(9, 5, Some(0))),
        Some(entry(2, 4_294_967_295, Some(1))),
    ]
}

/// The row with `1:0:-` and this entry.
pub fn offered(alloc: Global, more: Option<Entry>) -> Result<Option<Row>, AllocError>
    ensures { IfOk result (λ o. IfSome o (λ row. row.origin ≡ 1)) }
{
    let mut entries = List::new(alloc);
    entries.push(entry(1, 0, None))?;
    if let Some(entry) = more {
        entries.push(entry)?;
    }
    Ok(Row::of(NodeId(1), entries))
}
