//! Rows of the table: labels, entries, and a row's three rules. Serves everyone; decided by `MeetsRowRules`.
ghost use Rattle.std.specs.Prelude.{◌≡◌, ◌<◌, ◌≤◌, ◌↔◌, ℕ, length, None, IsTrue};
ghost use Rattle.std.specs.List.{All};
ghost use Rattle.bounded_table.specs.Finding.{IsPlaceOf};
ghost use Rattle.bounded_table.specs.RowRules.{MeetsRowRules, IsRowEntry, IsRowWith};
ghost use Rattle.bounded_table.specs.Table.{RisesFrom, entry_in};

use crate::places::{place_between, place_from};
use plain_list::List;
use road_network::{EdgeId, NodeId};
use std::marker::Model;

/// What a table says of a node: the length of its least walk in cm, and the last edge of that walk.
#[derive(Clone, Copy)]
pub struct Label {
    pub distance: u32,
    pub last: Option<EdgeId>,
}

/// A node with its label.
#[derive(Clone, Copy, Debug, PartialEq, Eq)]
pub struct Entry {
    pub node: NodeId,
    pub distance: u32,
    pub last: Option<EdgeId>,
}

/// The row of an origin: its entries by rising node number.
///
/// The type keeps three rules: the nodes rise strictly, the origin is listed at distance 0 without a
/// last edge, and every other entry has a distance of at least 1 and a last edge.
#[derive(Drop)]
pub struct Row {
    origin: NodeId,
    /// The place of the origin's entry. Looks for a node begin there, since most nodes are asked near it.
    middle: usize,
    entries: List<Entry>,
}

impl Model for Row {
    ghost use Rattle.bounded_table.specs.inside.RowInside.{row_shown, IsRowInside};
    ghost use Rattle.bounded_table.specs.Table.{TableRow};

    ghost Value = { TableRow };

    ghost view = { row_shown };

    ghost invariant = { IsRowInside };
}

impl Row {
    /// The row of this origin with these entries, where they meet the three rules of a row.
    pub fn of(origin: NodeId, entries: List<Entry>) -> Option<Row>
        ensures { IsRowWith origin.0 entries result }
    {
        if !rises(entries.as_slice()) || !others_have_edges(origin, entries.as_slice()) {
            return None;
        }
        let middle = place_between(entries.as_slice(), 0, entries.len(), origin)?;
        let own = entries.as_slice()[middle];
        if own.distance != 0 || own.last.is_some() {
            return None;
        }
        Some(Row {
            origin,
            middle,
            entries,
        })
    }

    /// The row of this origin with these entries, which meet the three rules of a row. Allocates nothing.
    pub fn from_entries(origin: NodeId, entries: Vec<Entry>) -> Row
        requires { MeetsRowRules (record { origin = origin.0; entries = entries.items }) }
        ensures { result ≡ record { origin = origin.0; entries = entries.items } }
    {
        Row {
            origin,
            middle: place_between(&entries, 0, entries.len(), origin).unwrap(),
            entries: List::from_vec(entries),
        }
    }

    /// What every row meets.
    pub fn invariants(&self)
        ensures { MeetsRowRules self.now }
    {
        let _ = &self.entries;
    }

    /// The origin.
    pub fn origin(&self) -> NodeId
        ensures { result.0 ≡ self.now.origin }
    {
        self.origin
    }

    /// The place of the origin's entry.
    pub fn middle(&self) -> usize
        ensures { IsPlaceOf self.now.entries self.now.origin result }
    {
        self.middle
    }

    /// The entries, by rising node number.
    pub fn entries(&self) -> &[Entry]
        ensures { result.now ≡ self.now.entries }
    {
        self.entries.as_slice()
    }

    /// The entry of a node, by binary search. It begins at the origin, and takes the fewer steps the nearer the
    /// numbers of the two nodes are. The origin's own entry is not looked for.
    pub fn find(&self, n: NodeId) -> Option<Entry>
        ensures { result ≡ entry_in self.now.entries n.0 }
    {
        if n == self.origin {
            return Some(Entry {
                node: n,
                distance: 0,
                last: None,
            });
        }
        let entries = self.entries.as_slice();
        let place = place_from(entries, self.middle, self.origin, n)?;
        Some(entries[place])
    }
}

/// Whether the nodes rise strictly.
fn rises(entries: &[Entry]) -> bool
    ensures { IsTrue result ↔ RisesFrom 0 entries.now }
{
    let mut next: u64 = 0;
    for x in entries {
        if u64::from(x.node.0) < next {
            return false;
        }
        next = u64::from(x.node.0) + 1;
    }
    true
}

/// Whether every node but the origin has a distance of at least 1 and a last edge.
fn others_have_edges(origin: NodeId, entries: &[Entry]) -> bool
    ensures { IsTrue result ↔ All (IsRowEntry origin.0) entries.now }
{
    entries.iter().all(|x| x.node == origin || (x.distance >= 1 && x.last.is_some()))
}
