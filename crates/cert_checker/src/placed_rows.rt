//! The rows of a certificate with an index by node. Serves `way` and `ways_by_step`; decided by
//! `FindsRow`.
ghost use Rattle.std.specs.Prelude.{◌≡◌, ◌<◌, IfOk, length, slice_index_or};
ghost use Rattle.bounded_table.specs.Table.{TableRow};
ghost use Rattle.cert_checker.specs.inside.RowPlaces.{HaveNoBadRow, FindsRow};

use bounded_table::Row;
use road_network::{Network, NodeId};
use std::alloc::{AllocError, Global};
use std::marker::Model;

/// Rows by ascending origin. The row of a node is found in constant time.
#[derive(Drop)]
pub struct PlacedRows<'a> {
    rows: &'a [Row],
    /// By node: the index of its row plus one, or 0 if it has none.
    places: Vec<u32>,
}

impl<'a> Model for PlacedRows<'a> {
    ghost use Rattle.std.specs.Prelude.{List};
    ghost use Rattle.bounded_table.specs.Table.{TableRow};

    ghost Value = { List TableRow };

    ghost use Rattle.cert_checker.specs.inside.PlacedInside.{rows_placed, AreRowsPlaced};

    ghost view = { rows_placed };

    ghost invariant = { AreRowsPlaced };
}

impl<'a> PlacedRows<'a> {
    /// These rows; none of them is bad. Uses 4 bytes for each node.
    pub fn of(alloc: Global, net: &Network, rows: &'a [Row]) -> Result<PlacedRows<'a>, AllocError>
        requires { HaveNoBadRow net.now rows.now }
        ensures { IfOk result (λ placed. placed ≡ rows.now) }
    {
        net.invariants();
        let mut places = vec![in alloc; 0u32; net.node_count() as usize]?;
        for place in 0..rows.len() {
            places[rows[place].origin().0 as usize] = place as u32 + 1;
        }
        Ok(PlacedRows { rows, places })
    }

    /// The place of the row of a node.
    pub fn place(&self, node: NodeId) -> Option<usize>
        ensures { FindsRow self.now node.0 result }
    {
        match self.places.get(node.0 as usize) {
            Some(place) if *place > 0 => Some(*place as usize - 1),
            _ => None,
        }
    }

    /// The row at a place.
    pub fn at(&self, place: usize) -> &Row
        requires { place < length self.now }
        ensures { (row : TableRow) → slice_index_or self.now place row ≡ result.now }
    {
        let rows = self.rows;
        &rows[place]
    }
}
