//! Checks many rows of one network. Serves the crates that check rows and search for none; decided by `IsRow`.
ghost use Rattle.std.specs.Prelude.{◌≡◌, ◌≤◌, ◌↔◌, IfOk, IsTrue};
ghost use Rattle.road_network.specs.Net.{HasNode};
ghost use Rattle.bounded_table.specs.Table.{IsRow};

use crate::label_words::no_label;
use crate::table_row::Row;
use crate::word_check::is_row;
use road_network::{Network, NodeId};
use std::alloc::{AllocError, Global};
use std::marker::Model;

/// Checks rows of one network within one bound.
///
/// It keeps an array over many rows, and leaves it blank: a check costs what the row lists, whatever the size of
/// the network.
///
/// Whoever searches as well takes `Searcher::check` of the crate `row_search`, which needs no second array. A checker
/// has that array alone, without the marks and lists of a search.
pub struct RowChecker<'n> {
    network: &'n Network,
    bound: u32,
    words: Vec<u64>,
}

// By hand, so that the functions that drop one call this.
impl<'n> Drop for RowChecker<'n> {
    fn drop(self) {
        let RowChecker {
            network: _,
            bound: _,
            words: _,
        } = self;
    }
}

impl<'n> Model for RowChecker<'n> {
    ghost use Rattle.bounded_table.specs.Table.{BoundedTable};

    ghost Value = { BoundedTable };

    ghost use Rattle.bounded_table.specs.inside.CheckerInside.{checked, IsBlankInside};

    ghost view = { checked };

    ghost invariant = { IsBlankInside };
}

impl<'n> RowChecker<'n> {
    /// A checker for rows of this network, with a bound in cm of at most 10,000,000.
    pub fn open(
        alloc: Global,
        network: &'n Network,
        bound: u32,
    ) -> Result<RowChecker<'n>, AllocError>
        requires { bound ≤ 10_000_000 }
        ensures { IfOk result (λ checker. checker ≡ record { network = network.now; bound = bound }) }
    {
        network.invariants();
        let words = vec![in alloc; no_label(bound); network.node_count() as usize]?;
        Ok(RowChecker {
            network,
            bound,
            words,
        })
    }

    /// Whether a row is the row of an origin, as `check_row` decides it.
    ///
    /// The labels are spread over an array by node, so it costs one look for each edge out of an entry's node.
    /// Takes no memory.
    pub fn check(&mut self, origin: NodeId, row: &Row) -> bool
        requires { HasNode self.old.network origin.0 }
        ensures same { self.new ≡ self.old }
        ensures row { IsTrue result ↔ IsRow self.old.network self.old.bound origin.0 row.now }
    {
        is_row(
            self.network,
            self.bound,
            self.words.as_mut_slice(),
            origin,
            row,
        )
    }
}
