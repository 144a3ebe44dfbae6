//! The slots of the table, and those of near rows. Serves `RowStore`; decided by `Stored`.
ghost use Rattle.std.specs.Prelude.{◌≡◌, ◌≤◌, IfOk, None, is_some};
ghost use Rattle.row_store.specs.Store.{HasNearRows, IsOpened, near_bound};

use crate::vouched::VouchedSlots;
use road_network::Network;
use row_search::Fans;
use std::alloc::{AllocError, Global};
use std::marker::Model;

/// A slot for the row of each node of a network within a bound, and perhaps another for its near row, which is
/// its row within a third of the bound. Each is set once.
pub struct RowStore<'n> {
    // The searches of all readers share them.
    pub(crate) fans: Fans<'n>,
    pub(crate) table: VouchedSlots<'n>,
    pub(crate) near: Option<VouchedSlots<'n>>,
}

// By hand, so that the functions that drop one call this.
impl<'n> Drop for RowStore<'n> {
    fn drop(self) {
        let RowStore {
            fans: _,
            table: _,
            near: _,
        } = self;
    }
}

impl<'n> Model for RowStore<'n> {
    ghost use Rattle.row_store.specs.Store.{Stored};
    ghost use Rattle.row_store.specs.inside.StoreInside.{IsStored, stored};

    ghost Value = { Stored };

    ghost view = { stored };

    ghost invariant = { IsStored };
}

/// The bound of near rows where rows have this bound, in cm: the next position of a trace is most often much nearer
/// than the bound.
pub fn near_bound(bound: u32) -> u32
    ensures { result ≡ near_bound bound }
{
    bound / 3
}

impl<'n> RowStore<'n> {
    /// An empty slot for each node of this network, for rows with a bound in cm of at most 10,000,000.
    pub fn open(alloc: Global, network: &'n Network, bound: u32) -> Result<RowStore<'n>, AllocError>
        requires { bound ≤ 10_000_000 }
        ensures { IfOk result (λ s. IsOpened network.now bound s × (s.near ≡ None)) }
    {
        let fans = Fans::new(alloc, network)?;
        let table = VouchedSlots::open(alloc, network, bound)?;
        Ok(RowStore {
            fans,
            table,
            near: None,
        })
    }

    /// An empty slot for each node as `open` makes it, and another for its near row.
    ///
    /// This serves those who match along traces, where most rows need not reach far.
    pub fn open_near(
        alloc: Global,
        network: &'n Network,
        bound: u32,
    ) -> Result<RowStore<'n>, AllocError>
        requires { bound ≤ 10_000_000 }
        ensures { IfOk result (λ s. IsOpened network.now bound s × HasNearRows s) }
    {
        let fans = Fans::new(alloc, network)?;
        let table = VouchedSlots::open(alloc, network, bound)?;
        let near = VouchedSlots::open(alloc, network, near_bound(bound))?;
        Ok(RowStore {
            fans,
            table,
            near: Some(near),
        })
    }

    /// The network of the rows. Allocates nothing.
    pub fn network(&self) -> &'n Network
        ensures { result.now ≡ self.now.network }
    {
        self.table.slots.network
    }

    /// The bound of the rows in the table's slots, in cm. Allocates nothing.
    pub fn bound(&self) -> u32
        ensures { result ≡ self.now.bound }
    {
        self.table.slots.bound
    }

    /// Whether there are slots for near rows. Allocates nothing.
    pub fn has_near_rows(&self) -> bool
        ensures { result ≡ is_some self.now.near }
    {
        self.near.is_some()
    }
}
