//! Consecutive rows of a certificate, checked by one thread. Serves `check_all`; decided by `bad_in_part`.
ghost use Rattle.std.specs.Prelude.{◌<◌, ◌+◌, ◌^◌, length};

use bounded_table::Row;

/// Consecutive rows; `first` is the index of the first.
#[derive(Clone, Copy)]
pub struct RowPart<'a> {
    pub first: u64,
    /// The least origin that the first row may have: one more than the origin of the previous row.
    pub least: u64,
    pub rows: &'a [Row],
    pub ghost numbered: { first + length rows.now < 2 ^ 64 },
}
