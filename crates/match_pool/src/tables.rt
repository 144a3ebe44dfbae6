//! Tables of turns, by workers and by partitions. Serves `match_all`; decided by `AreColumnsOf`.
ghost use Rattle.std.specs.Prelude.{◌≡◌, [], All, IfOk, OnOk, length, replicate};
ghost use Rattle.match_pool.specs.inside.Tables.{AddsTurns, AreColumnsOf};

use crate::turn::Turn;
use plain_list::List;
use std::alloc::{AllocError, Global};

/// So many empty lists.
pub fn empty_lists<T>(alloc: Global, count: usize) -> Result<Vec<List<T>>, AllocError>
where
    T: Drop,
    ensures { IfOk result (λ lists. lists.items ≡ replicate count []) }
{
    let mut lists = Vec::with_capacity(alloc, count)?;
    for _ in 0..count {
        lists.push(List::new(alloc))?;
    }
    Ok(lists)
}

/// Adds one turn to each column.
fn add_row(columns: &mut Vec<List<Turn>>, row: List<Turn>) -> Result<(), AllocError>
    requires { length row ≡ length columns.old.items }
    ensures { OnOk result (AddsTurns row columns.old.items columns.new.items) }
{
    let mut place = 0;
    for turn in row.into_vec() {
        columns[place].push(turn)?;
        place += 1;
    }
    Ok(())
}

/// The columns of a table of turns with these rows.
pub fn columns_of(
    alloc: Global,
    rows: Vec<List<Turn>>,
    width: usize,
) -> Result<Vec<List<Turn>>, AllocError>
    requires { All (λ row. length row ≡ width) rows.items }
    ensures { IfOk result (λ columns. AreColumnsOf rows.items width columns.items) }
{
    let mut columns = empty_lists(alloc, width)?;
    for row in rows {
        add_row(&mut columns, row)?;
    }
    Ok(columns)
}
