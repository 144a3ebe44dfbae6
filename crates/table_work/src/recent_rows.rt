//! The rows that were found last. Serves `table NET`; decided by `IsRow`.
ghost use Rattle.std.specs.Prelude.{◌≡◌, OnOk};
ghost use Rattle.bounded_table.specs.Table.{IsRow};

use bounded_table::Row;
use road_network::{Network, NodeId};
use row_search::KnownRows;
use std::alloc::{AllocError, Global};
use std::marker::Model;

// Nodes with similar numbers mostly are neighbours, so a few rows help as much as all would. Speed only: any value
// is right.
const PLACES: usize = 256;

/// The last rows of a network within a bound, where they are found by rising node number from 0 on: the row of
/// node n stands at place n % 256.
#[derive(Drop)]
pub struct RecentRows<'n> {
    network: &'n Network,
    bound: u32,
    rows: Vec<Row>,
}

impl<'n> Model for RecentRows<'n> {
    ghost use Rattle.bounded_table.specs.Table.{BoundedTable};

    ghost Value = { BoundedTable };

    ghost use Rattle.table_work.specs.inside.RecentInside.{AreRight};

    ghost view = { λ a. record { network = a.network.now; bound = a.bound } };

    ghost invariant = { AreRight };
}

impl<'n> RecentRows<'n> {
    /// No row. Takes no memory.
    pub fn new(alloc: Global, network: &'n Network, bound: u32) -> RecentRows<'n>
        ensures { result ≡ record { network = network.now; bound = bound } }
    {
        RecentRows {
            network,
            bound,
            rows: Vec::new(alloc),
        }
    }

    /// Keeps a row, in place of the one that was found 256 rows before.
    pub fn keep(&mut self, row: Row) -> Result<(), AllocError>
        requires { IsRow self.old.network self.old.bound row.origin row }
        ensures { self.new ≡ self.old }
    {
        let place = row.origin().0 as usize % PLACES;
        if place < self.rows.len() {
            self.rows[place] = row;
        } else {
            self.rows.push(row)?;
        }
        Ok(())
    }
}

impl<'n> KnownRows for RecentRows<'n> {
    ghost table = { λ recent. recent };

    fn known_row(&self, n: NodeId) -> Option<&Row> {
        let row = self.rows.get(n.0 as usize % PLACES)?;
        if row.origin() == n { Some(row) } else { None }
    }
}
