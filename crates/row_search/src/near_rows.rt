//! Rows that reach only as far as they are needed. Serves those who match along a trace; decided by `Rows`.
ghost use Rattle.std.specs.Prelude.{◌≡◌, ◌≤◌, length, IfOk};
ghost use Rattle.std.specs.Borrow.{sem};
ghost use Rattle.std.specs.Io.BufRead.{Rests};
ghost use Rattle.road_network.specs.Net.{HasNode};
ghost use Rattle.bounded_table.specs.Known.{IsKnownList};
ghost use Rattle.row_search.specs.Lenders.{near_rows_type};
ghost use Rattle.bounded_table.specs.Table.{IsNearRow, IsRow};
ghost use Rattle.bounded_table.specs.Rows.{AsksFor, no_rows};

use crate::own_rows::OwnRows;
use bounded_table::{Row, Rows};
use road_network::{Network, NodeId};
use std::alloc::{AllocError, Global};
use std::marker::Model;

/// Rows of a network within a bound, and within a shorter one.
///
/// A node whose row was asked for has a row within the shorter bound. Its row within the whole bound is found
/// when `row` is first called for it, or `near_row` with a longer reach.
#[derive(Drop)]
pub struct NearRows<'n> {
    near: OwnRows<'n>,
    whole: OwnRows<'n>,
}

impl<'n> Model for NearRows<'n> {
    ghost use Rattle.bounded_table.specs.Rows.{RowsState};

    ghost Value = { RowsState };

    ghost use Rattle.row_search.specs.inside.NearInside.{near_rows, AreOfOne};

    ghost view = { near_rows };

    ghost invariant = { AreOfOne };
}

impl<'n> NearRows<'n> {
    /// Rows of this network with a bound in cm of at most 10,000,000, and with a shorter one, `reach`. No node is
    /// known.
    pub fn open(
        alloc: Global,
        network: &'n Network,
        bound: u32,
        reach: u32,
    ) -> Result<NearRows<'n>, AllocError>
        requires bound { bound ≤ 10_000_000 }
        requires reach { reach ≤ bound }
        ensures { IfOk result (λ rows. rows ≡ no_rows network.now bound) }
    {
        let near = OwnRows::open(alloc, network, reach)?;
        let whole = OwnRows::open(alloc, network, bound)?;
        Ok(NearRows { near, whole })
    }

    /// The invariant of the known nodes.
    pub fn invariants(&self)
        ensures { IsKnownList self.now.network self.now.known }
    {
        self.near.invariants();
    }

    /// The number of known nodes.
    pub fn count(&self) -> u32
        ensures { result ≡ length self.now.known }
    {
        self.near.count()
    }
}

impl<'n> Rows for NearRows<'n> {
    ghost state = { λ rows. rows };

    fn row(&mut self, n: NodeId) -> Result<&Row, AllocError>
        requires { HasNode self.old.network n.0 }
        ensures value { IfOk result (λ row. IsRow self.old.network self.old.bound n.0 row.now) }
        ensures* after { sem 𝓛 (Rests near_rows_type self.entry
            (λ new. AsksFor self.old (λ v. v ≡ n.0) result new)) }
    {
        // The known nodes are those whose near row is.
        self.near.fill(n)?;
        self.whole.fill(n)?;
        Ok(self.whole.get(n))
    }

    /// The row within the shorter bound, if that is at least `reach`.
    fn near_row(&mut self, n: NodeId, reach: u32) -> Result<&Row, AllocError>
        requires node { HasNode self.old.network n.0 }
        requires reach { reach ≤ self.old.bound }
        ensures value { IfOk result
            (λ row. IsNearRow self.old.network reach self.old.bound n.0 row.now) }
        ensures* after { sem 𝓛 (Rests near_rows_type self.entry
            (λ new. AsksFor self.old (λ v. v ≡ n.0) result new)) }
    {
        self.near.fill(n)?;
        if reach <= self.near.bound() {
            return Ok(self.near.get(n));
        }
        self.whole.fill(n)?;
        Ok(self.whole.get(n))
    }
}
