//! Rows of the bounded table: shortest distances and last edges from one node to all nodes within a bound.
//!
//! - A [`Row`] lists what the table says of its origin. [`check_row`] decides whether any row is the row of its
//!   origin, and a [`RowChecker`] does so faster for many of them.
//! - All crates above ask for rows through [`Rows`]. The crate `row_search` finds them.
//! - [`laws`] has what follows from the definitions: a row is its origin's exactly if it is closed
//!   under its edges, rows are unique, and how walks follow last edges.
//! - [`label_words`] writes labels as words; [`is_row`] and [`place_between`] are for callers that keep arrays of
//!   such words, or entries, of their own.
//!
//! Distances are in cm. Read first the clause of [`check_row`]: `IsRow` in `specs/Table.antt`
//! is a minimum over all walks, and no code ever lists walks.
#![tactic(auto)]

pub mod label_words;
pub mod laws;
mod places;
mod row_check;
mod row_checker;
mod table_row;
mod word_check;

pub use places::place_between;
use road_network::NodeId;
pub use row_check::check_row;
pub use row_checker::RowChecker;
use std::alloc::AllocError;
pub use table_row::{Entry, Label, Row};
pub use word_check::is_row;

/// A source of the rows of a network within a bound.
pub trait Rows {
    ghost use Rattle.std.specs.Prelude.{◌≡◌, ◌≤◌, IfOk};
    ghost use Rattle.std.specs.Borrow.{sem};
    ghost use Rattle.std.specs.Io.BufRead.{Rests};
    ghost use Rattle.road_network.specs.Net.{HasNode};
    ghost use Rattle.bounded_table.specs.Table.{IsNearRow, IsRow};
    ghost use Rattle.bounded_table.specs.Rows.{RowsState, AsksFor};

    /// The network and the bound of the rows, their store, the known rows, and the rows seen in that store.
    ghost state: { Self → RowsState };

    /// The row of a node, which is then known.
    ///
    /// After `Err` everything known stays known, and at most this node has become known.
    fn row(&mut self, n: NodeId) -> Result<&Row, AllocError>
        requires { HasNode (state self.old).network n.0 }
        ensures value { IfOk result
            (λ row. IsRow (state self.old).network (state self.old).bound n.0 row.now) }
        ensures* after { sem 𝓛 (Rests Self.row self.entry
            (λ new. AsksFor (state self.old) (λ v. v ≡ n.0) result (state new))) };

    /// The row of a node within some bound between `reach` and that of `row`, in cm. The node is then known.
    ///
    /// Such a row may list fewer nodes, and then takes less time to find and to read. After `Err` as for `row`.
    fn near_row(&mut self, n: NodeId, reach: u32) -> Result<&Row, AllocError>
        requires node { HasNode (state self.old).network n.0 }
        requires reach { reach ≤ (state self.old).bound }
        ensures value { IfOk result
            (λ row. IsNearRow (state self.old).network reach (state self.old).bound n.0 row.now) }
        ensures* after { sem 𝓛 (Rests Self.row self.entry
            (λ new. AsksFor (state self.old) (λ v. v ≡ n.0) result (state new))) };
}
