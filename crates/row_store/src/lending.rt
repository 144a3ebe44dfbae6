//! A reader as a source of rows. Serves those who ask through `Rows`; decided by `IsRow` and `IsNearRow`.
ghost use Rattle.std.specs.Prelude.{◌≡◌, ◌≤◌, IfOk, IfSome, IsOk, IsSome};
ghost use Rattle.std.specs.Borrow.{sem};
ghost use Rattle.std.specs.Io.BufRead.{Rests};
ghost use Rattle.road_network.specs.Net.{HasNode};
ghost use Rattle.bounded_table.specs.Rows.{AsksFor};
ghost use Rattle.bounded_table.specs.Table.{IsNearRow, IsRow};
ghost use Rattle.row_store.specs.Lenders.{reader_type};
ghost use Rattle.row_store.specs.inside.ReaderInside.{IsNearOf};
ghost use Rattle.row_store.specs.Store.{AsksSlot, SeesRow, lender, lent_places, looks_near, near_of, rows_state, table_of, takes_near};

use crate::opening::{fill_both, fill_in, knows_in, lend_from};
use crate::reader::Reader;
use crate::vouched::VouchedSlots;
use bounded_table::{Row, Rows};
use road_network::NodeId;
use std::alloc::AllocError;

impl<'s> Rows for Reader<'s> {
    ghost state = { λ r. rows_state r };

    /// The row of n within the bound of the store, by `ask`.
    fn row(&mut self, n: NodeId) -> Result<&Row, AllocError>
        requires { HasNode self.old.store.network n.0 }
        ensures value { IfOk result (λ row. IsRow self.old.store.network self.old.store.bound n.0 row.now) }
        ensures again { SeesRow (table_of self.old) n.0 → IsOk result }
        ensures* after { sem 𝓛 (Rests reader_type self.entry
            (λ new. AsksFor (rows_state self.old) (λ v. v ≡ n.0) result (rows_state new))) }
    {
        self.ask(n)
    }

    /// The row of n, or its near row where that reaches so far, by `ask_near`.
    fn near_row(&mut self, n: NodeId, reach: u32) -> Result<&Row, AllocError>
        requires node { HasNode self.old.store.network n.0 }
        requires reach { reach ≤ self.old.store.bound }
        ensures value { IfOk result
            (λ row. IsNearRow self.old.store.network reach self.old.store.bound n.0 row.now) }
        ensures lent { IfOk result (λ row. IsRow self.old.store.network
            (lender self.old self.old.store.near reach n.0).slots.bound n.0 row.now) }
        ensures again { SeesRow (lender self.old self.old.store.near reach n.0) n.0 → IsOk result }
        ensures* after { sem 𝓛 (Rests reader_type self.entry
            (λ new. AsksFor (rows_state self.old) (λ v. v ≡ n.0) result (rows_state new))) }
    {
        self.ask_near(n, reach)
    }
}

impl<'s> Reader<'s> {
    /// The row of n within the bound of the store, by the table's slot, in which a row was then seen.
    ///
    /// If the slot contains another row, the reader makes the row of n for itself. It keeps this row for
    /// later calls, which the clauses do not promise. If the known row is the row of n, the call is Ok,
    /// even if memory is refused.
    pub fn ask(&mut self, n: NodeId) -> Result<&Row, AllocError>
        requires { HasNode self.old.store.network n.0 }
        ensures value { IfOk result (λ row. IsRow self.old.store.network self.old.store.bound n.0 row.now) }
        ensures again { SeesRow (table_of self.old) n.0 → IsOk result }
        ensures* after { sem 𝓛 (Rests reader_type self.entry (λ new. AsksSlot self.old n.0 result new new.places)) }
    {
        let store = self.store;
        fill_in(&mut self.table, &store.table, &store.fans, n)?;
        Ok(lend_from(&self.table, &store.table, n))
    }

    /// The row of n by its near slot, if near rows reach that far, and otherwise by the table's slot. If only a row of
    /// the table's slot is known, that one is taken, which also reaches that far. A row was then seen in the slot that
    /// was taken.
    #[tactic(auto, using(crate::proofs::Readings::lent_near, crate::proofs::Readings::lent_table))]
    pub fn ask_near(&mut self, n: NodeId, reach: u32) -> Result<&Row, AllocError>
        requires node { HasNode self.old.store.network n.0 }
        requires reach { reach ≤ self.old.store.bound }
        ensures value { IfOk result
            (λ row. IsNearRow self.old.store.network reach self.old.store.bound n.0 row.now) }
        ensures lent { IfOk result (λ row. IsRow self.old.store.network
            (lender self.old self.old.store.near reach n.0).slots.bound n.0 row.now) }
        ensures again { SeesRow (lender self.old self.old.store.near reach n.0) n.0 → IsOk result }
        ensures* after { sem 𝓛 (Rests reader_type self.entry
            (λ new. AsksSlot self.old n.0 result new (lent_places self.old new reach n.0))) }
    {
        if !self.takes_near(n, reach) {
            return self.ask(n);
        }
        self.near_slot_row(n)
    }

    /// Whether a row of n that reaches so far is to be taken from the near slot.
    fn takes_near(&self, n: NodeId, reach: u32) -> bool
        requires { HasNode self.now.store.network n.0 }
        ensures { result ≡ takes_near self.now self.now.store.near reach n.0 }
    {
        let store = self.store;
        match &store.near {
            Some(slots) => reach <= slots.slots.bound && self.looks_near(slots, n),
            None => false,
        }
    }

    /// Whether the near slot of n is to be looked at, although the row of n may be known.
    fn looks_near(&self, slots: &VouchedSlots<'_>, n: NodeId) -> bool
        requires node { HasNode self.now.store.network n.0 }
        requires slots { IsNearOf self.now.store slots.now }
        ensures { result ≡ looks_near self.now n.0 }
    {
        let store = self.store;
        knows_in(&self.near, slots, n) || !knows_in(&self.table, &store.table, n)
    }

    /// The near row of n, by its slot. If it leaves nothing out, it is put into the table's slot too.
    fn near_slot_row(&mut self, n: NodeId) -> Result<&Row, AllocError>
        requires { HasNode self.old.store.network n.0 × IsSome self.old.store.near }
        ensures value { IfOk result (λ row. IfSome self.old.store.near (λ near. (near.bound ≤ self.old.store.bound)
            × IsRow self.old.store.network near.bound n.0 row.now)) }
        ensures again { IfSome self.old.store.near (λ near. SeesRow (near_of self.old near) n.0 → IsOk result) }
        ensures* after { sem 𝓛 (Rests reader_type self.entry (λ new. AsksSlot self.old n.0 result new new.near)) }
    {
        let store = self.store;
        let Some(slots) = &store.near else {
            unreachable!()
        };
        fill_both(&mut self.near, slots, &store.table, &store.fans, n)?;
        Ok(lend_from(&self.near, slots, n))
    }
}
