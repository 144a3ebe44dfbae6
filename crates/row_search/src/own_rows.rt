//! Rows with one owner. Serves all who ask for rows; decided by `Rows`.
ghost use Rattle.std.specs.Prelude.{◌≡◌, ◌≤◌, ◌↔◌, length, map, Contains, IfOk, OnErr, IsTrue, IsOk};
ghost use Rattle.std.specs.Borrow.{sem};
ghost use Rattle.std.specs.Io.BufRead.{Rests};
ghost use Rattle.road_network.specs.Net.{HasNode};
ghost use Rattle.row_search.specs.Lenders.{own_rows_type};
ghost use Rattle.bounded_table.specs.Table.{IsNearRow, IsRow};
ghost use Rattle.bounded_table.specs.Known.{IsKnownList};
ghost use Rattle.row_search.specs.inside.OwnInside.{AreHeldRows, HoldsRows};
ghost use Rattle.bounded_table.specs.RowValue.{row_of};
ghost use Rattle.bounded_table.specs.Rows.{AsksFor, no_rows};

use crate::known_rows::HeldRows;
use crate::searcher::Searcher;
use bounded_table::{Row, Rows};
use plain_list::List;
use road_network::{Network, NodeId};
use std::alloc::{AllocError, Global};
use std::marker::Model;

/// Rows of a network within a bound, which are found when they are first asked for, and kept.
#[derive(Drop)]
pub struct OwnRows<'n> {
    searcher: Searcher<'n>,
    rows: Vec<Option<Row>>,
    count: u32,
}

impl<'n> Model for OwnRows<'n> {
    ghost use Rattle.bounded_table.specs.Rows.{RowsState};

    ghost Value = { RowsState };

    ghost use Rattle.row_search.specs.inside.OwnInside.{own_rows, IsKept};

    ghost view = { own_rows };

    ghost invariant = { IsKept };
}

impl<'n> OwnRows<'n> {
    /// Rows of this network with a bound in cm of at most 10,000,000. No node is known.
    pub fn open(alloc: Global, network: &'n Network, bound: u32) -> Result<OwnRows<'n>, AllocError>
        requires { bound ≤ 10_000_000 }
        ensures { IfOk result (λ rows. rows ≡ no_rows network.now bound) }
    {
        network.invariants();
        let mut rows = Vec::with_capacity(alloc, network.node_count() as usize)?;
        for _ in 0..network.node_count() {
            rows.push(None)?;
        }
        let searcher = Searcher::open(alloc, network, bound)?;
        Ok(OwnRows {
            searcher,
            rows,
            count: 0,
        })
    }

    /// The invariant of the known nodes.
    pub fn invariants(&self)
        ensures { IsKnownList self.now.network self.now.known }
    {
        let _ = &self.rows;
    }

    /// The bound, in cm.
    pub(crate) fn bound(&self) -> u32
        ensures { result ≡ self.now.bound }
    {
        self.searcher.bound()
    }

    /// The number of known nodes.
    pub fn count(&self) -> u32
        ensures { result ≡ length self.now.known }
    {
        self.count
    }

    /// Whether a node is known.
    pub fn has(&self, n: NodeId) -> bool
        requires { HasNode self.now.network n.0 }
        ensures { IsTrue result ↔ Contains self.now.known n.0 }
    {
        self.rows[n.0 as usize].is_some()
    }

    /// The rows of the known nodes, by ascending node number. They are moved, not copied.
    pub fn into_rows(self, alloc: Global) -> Result<List<Row>, AllocError>
        ensures { IfOk result (λ found. found
            ≡ map (row_of self.entry.network self.entry.bound) self.entry.known) }
    {
        self.searcher.invariants();
        rows_in(alloc, self.rows, self.count)
    }

    /// Finds the row of a node, if it is not known, and keeps it. A known node needs no memory.
    pub fn fill(&mut self, n: NodeId) -> Result<(), AllocError>
        requires { HasNode self.old.network n.0 }
        ensures asks { AsksFor self.old (λ v. v ≡ n.0) result self.new }
        ensures err { OnErr result (self.new ≡ self.old) }
        ensures again { Contains self.old.known n.0 → IsOk result }
    {
        let place = n.0 as usize;
        if self.rows[place].is_some() {
            return Ok(());
        }
        let row = find_from(&mut self.searcher, self.rows.as_slice(), n)?;
        self.rows[place] = Some(row);
        self.count += 1;
        Ok(())
    }

    /// The row of a known node. Allocates nothing.
    pub fn get(&self, n: NodeId) -> &Row
        requires { Contains self.now.known n.0 }
        ensures { IsRow self.now.network self.now.bound n.0 result.now }
    {
        self.rows[n.0 as usize].as_ref().unwrap()
    }
}

// The row of a node, found with the help of the rows in these places.
fn find_from(
    searcher: &mut Searcher<'_>,
    places: &[Option<Row>],
    n: NodeId,
) -> Result<Row, AllocError>
    requires node { HasNode searcher.old.network n.0 }
    requires places { HoldsRows searcher.old places.now }
    ensures same { searcher.new ≡ searcher.old }
    ensures row { IfOk result (IsRow searcher.old.network searcher.old.bound n.0) }
{
    let known = HeldRows::of(searcher.network(), searcher.bound(), places);
    searcher.row_from(&known, n)
}

// The rows in places, of which `count` are filled, in order. They are moved, not copied.
fn rows_in(alloc: Global, places: Vec<Option<Row>>, count: u32) -> Result<List<Row>, AllocError>
    ensures { IfOk result (AreHeldRows places.items) }
{
    let mut found = List::from_vec(Vec::with_capacity(alloc, count as usize)?);
    for place in places {
        if let Some(row) = place {
            found.push(row)?;
        }
    }
    Ok(found)
}

impl<'n> Rows for OwnRows<'n> {
    ghost state = { λ rows. rows };

    /// The row of a known node needs no memory.
    fn row(&mut self, n: NodeId) -> Result<&Row, AllocError>
        requires { HasNode self.old.network n.0 }
        ensures value { IfOk result (λ row. IsRow self.old.network self.old.bound n.0 row.now) }
        ensures again { Contains self.old.known n.0 → IsOk result }
        ensures* after { sem 𝓛 (Rests own_rows_type self.entry
            (λ new. AsksFor self.old (λ v. v ≡ n.0) result new)) }
    {
        self.fill(n)?;
        Ok(self.get(n))
    }

    /// The row within the whole bound, as `row` returns it.
    fn near_row(&mut self, n: NodeId, reach: u32) -> Result<&Row, AllocError>
        requires node { HasNode self.old.network n.0 }
        requires reach { reach ≤ self.old.bound }
        ensures value { IfOk result
            (λ row. IsNearRow self.old.network reach self.old.bound n.0 row.now) }
        ensures again { Contains self.old.known n.0 → IsOk result }
        ensures* after { sem 𝓛 (Rests own_rows_type self.entry
            (λ new. AsksFor self.old (λ v. v ≡ n.0) result new)) }
    {
        self.row(n)
    }
}
