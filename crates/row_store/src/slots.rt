//! The slots for the rows within one bound, one for each node. Serves `Slots`; decided by `SlotSet`.
ghost use Rattle.std.specs.Prelude.{◌≡◌, ◌≤◌, IfOk, length};

use bounded_table::Row;
use once_cell::race::OnceBox;
use road_network::Network;
use std::alloc::{AllocError, Global};
use std::marker::Model;

/// A slot for the row of each node of a network within a bound. It is a cell that is set once.
pub struct Slots<'n> {
    pub(crate) alloc: Global,
    pub(crate) network: &'n Network,
    pub(crate) bound: u32,
    pub(crate) cells: Vec<OnceBox<Row>>,
}

// By hand, so that the functions that drop one call this.
impl<'n> Drop for Slots<'n> {
    fn drop(self) {
        let Slots {
            alloc: _,
            network: _,
            bound: _,
            cells: _,
        } = self;
    }
}

impl<'n> Model for Slots<'n> {
    ghost use Rattle.std.specs.Prelude.{◌≡◌, ◌≤◌, map, length};
    ghost use Rattle.once_cell.specs.Once.{cell_name};
    ghost use Rattle.row_store.specs.Store.{SlotSet};

    ghost Value = { SlotSet };

    ghost view = { λ s. record {
      network = s.network.now;
      bound = s.bound;
      cells = map cell_name s.cells.items;
    } };

    ghost invariant = { λ s. (length s.cells.items ≡ length s.network.now.nodes)
        × (s.bound ≤ 10_000_000) };
}

impl<'n> Slots<'n> {
    /// An empty slot for each node of this network, for rows with a bound in cm of at most 10,000,000.
    pub fn open(alloc: Global, network: &'n Network, bound: u32) -> Result<Slots<'n>, AllocError>
        requires { bound ≤ 10_000_000 }
        ensures { IfOk result (λ s. (s.network ≡ network.now) × (s.bound ≡ bound)
            × (length s.cells ≡ length network.now.nodes)) }
    {
        network.invariants();
        let mut cells = Vec::with_capacity(alloc, network.node_count() as usize)?;
        for _ in 0..network.node_count() {
            cells.push(OnceBox::new(alloc))?;
        }
        Ok(Slots {
            alloc,
            network,
            bound,
            cells,
        })
    }
}
