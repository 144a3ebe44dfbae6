//! Rows that are known already, which a search may use. Serves `Searcher::row_from`; decided by `IsRow`.
ghost use Rattle.std.specs.Prelude.{◌≡◌, IfSome};
ghost use Rattle.road_network.specs.Net.{HasNode};
ghost use Rattle.row_search.specs.inside.OwnInside.{HoldsRows};
ghost use Rattle.bounded_table.specs.Table.{BoundedTable, IsRow};

use bounded_table::Row;
use road_network::{Network, NodeId};
use std::marker::Model;

/// An owner of known rows of a network within a bound, so that a search need not find them again.
pub trait KnownRows {
    /// The network and the bound of the rows.
    ghost table: { Self → BoundedTable };

    /// The row of a node, if it is known. Allocates nothing.
    fn known_row(&self, n: NodeId) -> Option<&Row>
        requires { HasNode (table self.now).network n.0 }
        ensures { IfSome result (λ row. IsRow (table self.now).network (table self.now).bound n.0 row.now) };
}

/// No known row of this network and bound.
#[derive(Clone, Copy)]
pub struct NoRows<'n> {
    pub network: &'n Network,
    pub bound: u32,
}

impl<'n> KnownRows for NoRows<'n> {
    ghost table = { λ none. record { network = none.network.now; bound = none.bound } };

    fn known_row(&self, _n: NodeId) -> Option<&Row> {
        None
    }
}

/// The rows in a list with one place for each node.
pub struct HeldRows<'a> {
    network: &'a Network,
    bound: u32,
    rows: &'a [Option<Row>],
}

// By hand, so that the functions that drop one call this.
impl<'a> Drop for HeldRows<'a> {
    fn drop(self) {
        let HeldRows {
            network: _,
            bound: _,
            rows: _,
        } = self;
    }
}

impl<'a> Model for HeldRows<'a> {
    ghost use Rattle.row_search.specs.inside.OwnInside.{HoldsRows};
    ghost use Rattle.bounded_table.specs.Table.{BoundedTable};

    ghost Value = { BoundedTable };

    ghost view = { λ a. record { network = a.network.now; bound = a.bound } };

    ghost invariant = { λ a. HoldsRows (record { network = a.network.now; bound = a.bound }) a.rows.now };
}

impl<'a> HeldRows<'a> {
    /// The rows in these places.
    pub fn of(network: &'a Network, bound: u32, rows: &'a [Option<Row>]) -> HeldRows<'a>
        requires { HoldsRows (record { network = network.now; bound = bound }) rows.now }
        ensures { result ≡ record { network = network.now; bound = bound } }
    {
        HeldRows {
            network,
            bound,
            rows,
        }
    }
}

impl<'a> KnownRows for HeldRows<'a> {
    ghost table = { λ held. held };

    fn known_row(&self, n: NodeId) -> Option<&Row> {
        self.rows[n.0 as usize].as_ref()
    }
}
