//! Rows that fail at chosen calls, to test their callers. Serves tests; decided by `FollowsCall`.
ghost use Rattle.std.specs.Prelude.{◌≡◌, ◌≤◌, ◌↔◌, IfOk, IsErr};
ghost use Rattle.std.specs.Borrow.{sem};
ghost use Rattle.std.specs.Io.BufRead.{Rests};
ghost use Rattle.road_network.specs.Net.{HasNode};
ghost use Rattle.row_search.specs.Lenders.{refusing_rows_type};
ghost use Rattle.row_search.specs.Refusing.{next_call, AnswersCall, FollowsCall, IsRefused};
ghost use Rattle.bounded_table.specs.Rows.{AsksFor, no_rows};
ghost use Rattle.bounded_table.specs.Table.{IsNearRow, IsRow};

use crate::own_rows::OwnRows;
use bounded_table::{Row, Rows};
use plain_list::List;
use road_network::{Network, NodeId};
use std::alloc::{AllocError, Global};
use std::marker::Model;

/// Own rows that are out of memory at the calls whose numbers are listed.
#[derive(Drop)]
pub struct RefusingRows<'n> {
    rows: OwnRows<'n>,
    refuse: List<u64>,
    calls: u64,
}

impl<'n> Model for RefusingRows<'n> {
    ghost use Rattle.row_search.specs.Refusing.{RefusingState};

    ghost Value = { RefusingState };

    ghost view = { λ a. record { rows = a.rows; refuse = a.refuse; calls = a.calls } };
}

impl<'n> RefusingRows<'n> {
    /// Rows of this network and bound that refuse these calls, counted from 1.
    pub fn open(
        alloc: Global,
        network: &'n Network,
        bound: u32,
        refuse: List<u64>,
    ) -> Result<RefusingRows<'n>, AllocError>
        requires { bound ≤ 10_000_000 }
        ensures { IfOk result (λ rows. rows
            ≡ record { rows = no_rows network.now bound; refuse = refuse; calls = 0 }) }
    {
        let rows = OwnRows::open(alloc, network, bound)?;
        Ok(RefusingRows {
            rows,
            refuse,
            calls: 0,
        })
    }

    /// Counts a call, and refuses it if its number is listed.
    fn admit(&mut self) -> Result<(), AllocError>
        ensures rows { self.new.rows ≡ self.old.rows }
        ensures refuse { self.new.refuse ≡ self.old.refuse }
        ensures counted { self.new.calls ≡ next_call self.old }
        ensures refused { IsErr result ↔ IsRefused self.old }
    {
        self.calls = self.calls.saturating_add(1);
        if self.refuse.as_slice().contains(&self.calls) {
            return Err(AllocError);
        }
        Ok(())
    }

    /// Counts a call for the row of a node, and finds the row if the call is not refused.
    fn fill(&mut self, n: NodeId) -> Result<(), AllocError>
        requires { HasNode self.old.rows.network n.0 }
        ensures follows { FollowsCall self.old n.0 result self.new }
        ensures answers { AnswersCall self.old n.0 result }
    {
        self.admit()?;
        self.rows.fill(n)
    }

    /// The row of a node, as `row` of [`Rows`] returns it. The call is counted; a listed call is refused and
    /// makes nothing known, and at any other call the row of a known node needs no memory.
    pub fn ask(&mut self, n: NodeId) -> Result<&Row, AllocError>
        requires { HasNode self.old.rows.network n.0 }
        ensures value { IfOk result (λ row. IsRow self.old.rows.network self.old.rows.bound n.0 row.now) }
        ensures answers { AnswersCall self.old n.0 result }
        ensures* after { sem 𝓛 (Rests refusing_rows_type self.entry (FollowsCall self.old n.0 result)) }
    {
        self.fill(n)?;
        Ok(self.rows.get(n))
    }
}

impl<'n> Rows for RefusingRows<'n> {
    ghost state = { λ a. a.rows };

    /// A listed call is refused; at any other call the row of a known node needs no memory.
    fn row(&mut self, n: NodeId) -> Result<&Row, AllocError>
        requires { HasNode self.old.rows.network n.0 }
        ensures value { IfOk result (λ row. IsRow self.old.rows.network self.old.rows.bound n.0 row.now) }
        ensures answers { AnswersCall self.old n.0 result }
        ensures* after { sem 𝓛 (Rests refusing_rows_type self.entry
            (λ new. AsksFor self.old.rows (λ v. v ≡ n.0) result new.rows)) }
    {
        self.ask(n)
    }

    /// Counted and refused as a call of `row`, with the row within the whole bound.
    fn near_row(&mut self, n: NodeId, reach: u32) -> Result<&Row, AllocError>
        requires node { HasNode self.old.rows.network n.0 }
        requires reach { reach ≤ self.old.rows.bound }
        ensures value { IfOk result
            (λ row. IsNearRow self.old.rows.network reach self.old.rows.bound n.0 row.now) }
        ensures answers { AnswersCall self.old n.0 result }
        ensures* after { sem 𝓛 (Rests refusing_rows_type self.entry
            (λ new. AsksFor self.old.rows (λ v. v ≡ n.0) result new.rows)) }
    {
        self.ask(n)
    }
}
