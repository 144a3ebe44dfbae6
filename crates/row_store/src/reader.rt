//! What one thread knows of a store. Serves those who look and offer; decided by `Reading`.
ghost use Rattle.std.specs.Prelude.{◌≡◌, ◌↔◌, [], IfOk, IsOk, IsSome, MatchOption, OnErr, Some, length, slice_get};
ghost use Rattle.road_network.specs.Net.{HasNode};
ghost use Rattle.bounded_table.specs.Table.{IsRow};
ghost use Rattle.row_store.specs.Store.{IsSeen, SeesNear, SeesTable, fresh_reading, knows, table_of};
ghost use Rattle.row_store.specs.Sights.{row_seen, IsTable};

use crate::opening::{agree_in, knows_in, look_in, offer_in, offer_right_in};
use crate::sight::Sight;
use crate::store::RowStore;
use crate::view::View;
use bounded_table::Row;
use road_network::NodeId;
use std::alloc::AllocError;
use std::marker::Model;

/// What one thread has seen of a store and found out about it. A view of the table's slots, and one of the near rows'
/// slots, are each opened at first need: a place for each node, and the arrays of a search.
pub struct Reader<'s> {
    pub(crate) store: &'s RowStore<'s>,
    pub(crate) table: Option<View<'s>>,
    pub(crate) near: Option<View<'s>>,
}

// By hand, so that the functions that drop one call this.
impl<'s> Drop for Reader<'s> {
    fn drop(self) {
        let Reader {
            store: _,
            table: _,
            near: _,
        } = self;
    }
}

impl<'s> Model for Reader<'s> {
    ghost use Rattle.row_store.specs.Store.{Reading};

    ghost Value = { Reading };

    ghost use Rattle.row_store.specs.inside.ReaderInside.{reading_of, IsKept};

    ghost view = { reading_of };

    ghost invariant = { IsKept };
}

impl<'n> RowStore<'n> {
    /// A reader of this store that knows nothing. It allocates nothing before its first look.
    pub fn reader<'s>(&'s self) -> Result<Reader<'s>, AllocError>
        ensures { IfOk result (λ r. r ≡ fresh_reading self.now) }
    {
        Ok(Reader {
            store: self,
            table: None,
            near: None,
        })
    }
}

impl<'s> Reader<'s> {
    /// The store of this reader. Allocates nothing.
    pub fn store(&self) -> &'s RowStore<'s>
        ensures { result.now ≡ self.now.store }
    {
        self.store
    }

    /// How many places there are: one for each node, and for near rows as many or, without slots for them, none.
    pub fn invariants(&self)
        ensures places { length self.now.places ≡ length self.now.store.network.nodes }
        ensures near { MatchOption self.now.store.near (self.now.near ≡ [])
            (λ _. length self.now.near ≡ length self.now.store.network.nodes) }
    {
        let _ = &self.table;
    }

    /// Whether a row is known for node n, in either slot. Allocates nothing.
    pub fn known(&self, n: NodeId) -> bool
        requires { HasNode self.now.store.network n.0 }
        ensures { result ≡ knows self.now n.0 }
    {
        let store = self.store;
        if knows_in(&self.table, &store.table, n) {
            return true;
        }
        match &store.near {
            Some(slots) => knows_in(&self.near, slots, n),
            None => false,
        }
    }

    /// The row that the table's slot of n contains for good, and whether it is the row of n. An empty slot is
    /// first filled with that row.
    ///
    /// `Err` means out of memory. If a row of that slot is known, the call is Ok, even if memory is refused.
    pub fn look(&mut self, n: NodeId) -> Result<Sight<'s>, AllocError>
        requires { HasNode self.old.store.network n.0 }
        ensures seen { IfOk result (λ s. SeesTable self.old n.0 (row_seen s) self.new) }
        ensures table { IfOk result (λ s. IsTable s
            ↔ IsRow self.old.store.network self.old.store.bound n.0 (row_seen s)) }
        ensures err { OnErr result (self.new ≡ self.old) }
        ensures again { IsSeen (table_of self.old) n.0 → IsOk result }
    {
        let store = self.store;
        look_in(&mut self.table, &store.table, &store.fans, n)
    }

    /// Offers a row to the table's slot of n. Returns the row that the slot contains for good, which is another
    /// one if it was set before.
    ///
    /// The row may be wrong, with any numbers in it. `Err` means out of memory. If a row of that slot is known, the
    /// call is Ok, even if memory is refused.
    pub fn offer(&mut self, n: NodeId, row: Row) -> Result<&'s Row, AllocError>
        requires node { HasNode self.old.store.network n.0 }
        requires origin { row.origin ≡ n.0 }
        ensures seen { IfOk result (λ r. SeesTable self.old n.0 r.now self.new) }
        ensures err { OnErr result (self.new ≡ self.old) }
        ensures again { IsSeen (table_of self.old) n.0 → IsOk result }
    {
        let store = self.store;
        offer_in(&mut self.table, &store.table, &store.fans, n, row)
    }

    /// Offers the row of n, which is known to be right, to the table's slot of n. It is not checked again. Returns
    /// the row that the slot contains for good, which is another one if it was set before.
    ///
    /// `Err` means out of memory. If a row of that slot is known, the call is Ok, even if memory is refused.
    pub fn offer_right(&mut self, n: NodeId, row: Row) -> Result<&'s Row, AllocError>
        requires node { HasNode self.old.store.network n.0 }
        requires right { IsRow self.old.store.network self.old.store.bound n.0 row }
        ensures seen { IfOk result (λ r. SeesTable self.old n.0 r.now self.new) }
        ensures err { OnErr result (self.new ≡ self.old) }
        ensures again { IsSeen (table_of self.old) n.0 → IsOk result }
    {
        let store = self.store;
        offer_right_in(&mut self.table, &store.table, &store.fans, n, row)
    }
}

/// The row that two readers of one store know in the table's slot of node n, even a foreign one. Allocates nothing.
pub fn agree<'s>(a: &mut Reader<'s>, b: &mut Reader<'s>, n: NodeId) -> &'s Row
    requires store { a.old.store ≡ b.old.store }
    requires known { HasNode a.old.store.network n.0 × IsSeen (table_of a.old) n.0 × IsSeen (table_of b.old) n.0 }
    ensures same { (a.new ≡ a.old) × (b.new ≡ b.old) }
    ensures first { slice_get a.old.places n.0 ≡ Some (Some result.now) }
    ensures second { slice_get b.old.places n.0 ≡ Some (Some result.now) }
{
    let store = a.store;
    agree_in(&mut a.table, &mut b.table, &store.table, n)
}
