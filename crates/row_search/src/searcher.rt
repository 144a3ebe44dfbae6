//! Searches for many rows of one network. Serves `search` and `OwnRows`; decided by `IsRow`.
ghost use Rattle.std.specs.Prelude.{◌≡◌, ◌≤◌, ◌↔◌, IfOk, IfSome, IsTrue, OnErr, OnOk, Some, length};
ghost use Rattle.road_network.specs.Net.{HasNode, IsLawful};
ghost use Rattle.row_search.specs.inside.Marked.{IsClean};
ghost use Rattle.bounded_table.specs.Table.{IsRow};

use crate::dijkstra::Workspace;
use crate::fans::Fans;
use crate::known_rows::{KnownRows, NoRows};
use bounded_table::{Row, is_row};
use road_network::{Network, NodeId};
use std::alloc::{AllocError, Global};
use std::marker::Model;

/// Searches for rows of one network within one bound.
///
/// It keeps its arrays over many rows, and leaves them empty: a row costs what it reaches, whatever the size of
/// the network. If it shares no fans, its first search looks at every edge, and makes them.
pub struct Searcher<'n> {
    alloc: Global,
    network: &'n Network,
    // Made for the first search, if none are shared.
    fans: Option<Fans<'n>>,
    shared: Option<&'n Fans<'n>>,
    workspace: Workspace,
}

// By hand, so that the functions that drop one call this.
impl<'n> Drop for Searcher<'n> {
    fn drop(self) {
        let Searcher {
            alloc: _,
            network: _,
            fans: _,
            shared: _,
            workspace: _,
        } = self;
    }
}

impl<'n> Model for Searcher<'n> {
    ghost use Rattle.bounded_table.specs.Table.{BoundedTable};

    ghost Value = { BoundedTable };

    ghost use Rattle.row_search.specs.inside.SearcherInside.{searched, IsReady};

    ghost view = { searched };

    ghost invariant = { IsReady };
}

impl<'n> Searcher<'n> {
    /// A searcher for rows of this network, with a bound in cm of at most 10,000,000.
    pub fn open(alloc: Global, network: &'n Network, bound: u32) -> Result<Searcher<'n>, AllocError>
        requires { bound ≤ 10_000_000 }
        ensures { IfOk result (λ searcher. searcher ≡ record { network = network.now; bound = bound }) }
    {
        let workspace = Workspace::new(alloc, network, bound)?;
        Ok(Searcher {
            alloc,
            network,
            fans: None,
            shared: None,
            workspace,
        })
    }

    /// A searcher as `open` makes it, which shares these fans with others.
    pub fn open_with(
        alloc: Global,
        network: &'n Network,
        fans: &'n Fans<'n>,
        bound: u32,
    ) -> Result<Searcher<'n>, AllocError>
        requires bound { bound ≤ 10_000_000 }
        requires fans { fans.now ≡ network.now }
        ensures { IfOk result (λ searcher. searcher ≡ record { network = network.now; bound = bound }) }
    {
        let workspace = Workspace::new(alloc, network, bound)?;
        Ok(Searcher {
            alloc,
            network,
            fans: None,
            shared: Some(fans),
            workspace,
        })
    }

    /// What the network always meets.
    pub(crate) fn invariants(&self)
        ensures { IsLawful self.now.network }
    {
        self.network.invariants();
    }

    /// Whether a row is the row of an origin, as [`RowChecker::check`](bounded_table::RowChecker::check) decides it, over the
    /// array of the searches. Takes no memory.
    pub fn check(&mut self, origin: NodeId, row: &Row) -> bool
        requires { HasNode self.old.network origin.0 }
        ensures same { self.new ≡ self.old }
        ensures row { IsTrue result ↔ IsRow self.old.network self.old.bound origin.0 row.now }
    {
        let bound = self.workspace.bound;
        let words = self.workspace.words.as_mut_slice();
        is_row(self.network, bound, words, origin, row)
    }

    /// The network.
    pub(crate) fn network(&self) -> &'n Network
        ensures { result.now ≡ self.now.network }
    {
        self.network
    }

    /// The bound, in cm.
    pub(crate) fn bound(&self) -> u32
        ensures { result ≡ self.now.bound }
    {
        self.workspace.bound
    }

    /// The row of an origin, as `search` finds it.
    pub fn row(&mut self, origin: NodeId) -> Result<Row, AllocError>
        requires { HasNode self.old.network origin.0 }
        ensures same { self.new ≡ self.old }
        ensures row { IfOk result (IsRow self.old.network self.old.bound origin.0) }
    {
        let none = NoRows {
            network: self.network,
            bound: self.workspace.bound,
        };
        self.row_from(&none, origin)
    }

    /// The row of an origin, as `search` finds it, with the help of rows that are known.
    ///
    /// The search does not look again for what is beyond a near node whose row is known. So the more rows are known
    /// near the origin, the less it costs.
    pub fn row_from<K: KnownRows>(&mut self, known: &K, origin: NodeId) -> Result<Row, AllocError>
        requires known { K.table known.now ≡ self.old }
        requires origin { HasNode self.old.network origin.0 }
        ensures same { self.new ≡ self.old }
        ensures row { IfOk result (IsRow self.old.network self.old.bound origin.0) }
    {
        self.network.invariants();
        if let Some(fans) = self.shared {
            return find_row(self.alloc, &mut self.workspace, fans, known, origin);
        }
        make_fans(self.alloc, self.network, &mut self.fans)?;
        let fans = self.fans.as_ref().unwrap();
        find_row(self.alloc, &mut self.workspace, fans, known, origin)
    }
}

// The row of an origin, found in these arrays, which are left empty.
fn find_row<K: KnownRows>(
    alloc: Global,
    workspace: &mut Workspace,
    fans: &Fans<'_>,
    known: &K,
    origin: NodeId,
) -> Result<Row, AllocError>
    requires known { K.table known.now ≡ record { network = fans.now; bound = workspace.old.bound } }
    requires origin { HasNode fans.now origin.0 }
    requires clean { IsClean (length fans.now.nodes) workspace.old }
    ensures bound { workspace.new.bound ≡ workspace.old.bound }
    ensures clean { IsClean (length fans.now.nodes) workspace.new }
    ensures row { IfOk result (IsRow fans.now workspace.old.bound origin.0) }
{
    fans.invariants();
    match workspace.entries(alloc, fans, known, origin) {
        Ok(entries) => Ok(Row::from_entries(origin, entries)),
        Err(error) => {
            workspace.clear();
            Err(error)
        }
    }
}

// Makes the fans of a network, if there are none.
fn make_fans<'n>(
    alloc: Global,
    network: &'n Network,
    fans: &mut Option<Fans<'n>>,
) -> Result<(), AllocError>
    requires { IfSome fans.old (λ made. made ≡ network.now) }
    ensures made { OnOk result (fans.new ≡ Some network.now) }
    ensures err { OnErr result (fans.new ≡ fans.old) }
{
    if fans.is_none() {
        *fans = Some(Fans::new(alloc, network)?);
    }
    Ok(())
}

/// The row of an origin in the table of this network and bound (in cm, at most 10,000,000).
///
/// It lists by rising node number every node that a walk within the bound reaches from the origin,
/// with the length and the last edge of the least of these walks. For
///
/// ```text
///        ┌─ 1: 14 ─► 2 ─ 4: 10 ─┐
///   0 ───┤                      ├─► 4
///        └─ 2: 14 ─► 3 ─ 3: 14 ─┘
/// ```
///
/// (edges as number and length) and bound 28 it is 0 at 0, 2 at 14 by edge 1, 3 at 14 by edge 2, and
/// 4 at 24 by edge 4. Of several shortest walks the one whose edges, read from the last to the first,
/// are earliest in the file gives the last edge.
///
/// One row costs arrays of the network's size, and a look at every edge. For many rows take a
/// [`Searcher`].
pub fn search(alloc: Global, net: &Network, bound: u32, origin: NodeId) -> Result<Row, AllocError>
    requires origin { HasNode net.now origin.0 }
    requires bound { bound ≤ 10_000_000 }
    ensures { IfOk result (IsRow net.now bound origin.0) }
{
    let mut searcher = Searcher::open(alloc, net, bound)?;
    searcher.row(origin)
}
