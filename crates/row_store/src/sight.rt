//! What a reader finds in a cell. Serves `Reader::look`.

use bounded_table::Row;

/// The row of a cell, as a reader found it.
#[derive(Clone, Copy)]
pub enum Sight<'s> {
    /// The row of the node in the table of the store's network and bound.
    Table(&'s Row),
    /// Any other row.
    Foreign(&'s Row),
}
