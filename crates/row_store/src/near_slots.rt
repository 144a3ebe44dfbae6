//! What a reader sees and offers in the slots of near rows. Serves gates and tests; decided by `SeesNear`.
ghost use Rattle.std.specs.Prelude.{◌≡◌, ◌↔◌, IfOk, IfSome, IsOk, IsSome, OnErr, Some, slice_get};
ghost use Rattle.road_network.specs.Net.{HasNode};
ghost use Rattle.bounded_table.specs.Table.{IsRow};
ghost use Rattle.row_store.specs.Store.{IsSeen, SeesNear, near_of};
ghost use Rattle.row_store.specs.Sights.{row_seen, IsTable};

use crate::opening::{agree_in, look_in, offer_in};
use crate::reader::Reader;
use crate::sight::Sight;
use bounded_table::Row;
use road_network::NodeId;
use std::alloc::AllocError;

impl<'s> Reader<'s> {
    /// The row that the near slot of n contains for good, and whether it is the near row of n, as `look` has it of
    /// the table's slot.
    pub fn look_near(&mut self, n: NodeId) -> Result<Sight<'s>, AllocError>
        requires { HasNode self.old.store.network n.0 × IsSome self.old.store.near }
        ensures seen { IfOk result (λ s. IfSome self.old.store.near (λ near. SeesNear near self.old n.0 (row_seen s) self.new)) }
        ensures near { IfOk result (λ s. IfSome self.old.store.near (λ near. IsTable s
            ↔ IsRow self.old.store.network near.bound n.0 (row_seen s))) }
        ensures err { OnErr result (self.new ≡ self.old) }
        ensures again { IfSome self.old.store.near (λ near. IsSeen (near_of self.old near) n.0 → IsOk result) }
    {
        let store = self.store;
        let Some(slots) = &store.near else {
            unreachable!()
        };
        look_in(&mut self.near, slots, &store.fans, n)
    }

    /// Offers a row to the near slot of n, as `offer` does to the table's slot.
    pub fn offer_near(&mut self, n: NodeId, row: Row) -> Result<&'s Row, AllocError>
        requires node { HasNode self.old.store.network n.0 × IsSome self.old.store.near }
        requires origin { row.origin ≡ n.0 }
        ensures seen { IfOk result (λ r. IfSome self.old.store.near (λ near. SeesNear near self.old n.0 r.now self.new)) }
        ensures err { OnErr result (self.new ≡ self.old) }
        ensures again { IfSome self.old.store.near (λ near. IsSeen (near_of self.old near) n.0 → IsOk result) }
    {
        let store = self.store;
        let Some(slots) = &store.near else {
            unreachable!()
        };
        offer_in(&mut self.near, slots, &store.fans, n, row)
    }
}

/// The row that two readers of one store know in the near slot of node n, as `agree` has it of the table's slot.
pub fn agree_near<'s>(a: &mut Reader<'s>, b: &mut Reader<'s>, n: NodeId) -> &'s Row
    requires store { a.old.store ≡ b.old.store }
    requires node { HasNode a.old.store.network n.0 × IsSome a.old.store.near }
    requires known { IfSome a.old.store.near (λ near. IsSeen (near_of a.old near) n.0 × IsSeen (near_of b.old near) n.0) }
    ensures same { (a.new ≡ a.old) × (b.new ≡ b.old) }
    ensures first { slice_get a.old.near n.0 ≡ Some (Some result.now) }
    ensures second { slice_get b.old.near n.0 ≡ Some (Some result.now) }
{
    let store = a.store;
    let Some(slots) = &store.near else {
        unreachable!()
    };
    agree_in(&mut a.near, &mut b.near, slots, n)
}
