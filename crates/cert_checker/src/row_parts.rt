//! The rows of a certificate, partitioned. Serves `check_all`; decided by `bad_in_part`.
ghost use Rattle.std.specs.Prelude.{◌≡◌, ℕ, IfOk, map};
ghost use Rattle.road_network.specs.Net.{Net};
ghost use Rattle.cert_checker.specs.inside.RowParts.{bad_in_part, first_place};
ghost use Rattle.cert_checker.specs.Rows.{first_bad_row};

use crate::row_part::RowPart;
use bounded_table::Row;
use plain_list::List;
use std::alloc::{AllocError, Global};

/// About how many parts many rows are divided into. Speed only: any value is right.
const PARTS: usize = 16;

/// The least number of rows of a part, except the last. Speed only: any value is right.
const PART_ROWS: usize = 256;

/// The rows in parts, so that the first bad row of a part is the first bad row of all.
pub fn row_parts<'a>(alloc: Global, rows: &'a [Row]) -> Result<List<RowPart<'a>>, AllocError>
    ensures { IfOk result (λ parts. (n : Net) → (bound : ℕ)
        → first_place (map (bad_in_part n bound) parts) ≡ first_bad_row n bound rows.now) }
{
    let most = (rows.len() / PARTS + 1).max(PART_ROWS);
    let mut parts = List::new(alloc);
    let mut least = 0;
    let mut first = 0;
    while first < rows.len() {
        let end = first + most.min(rows.len() - first);
        parts.push(RowPart {
            first: first as u64,
            least,
            rows: &rows[first..end],
        })?;
        least = u64::from(rows[end - 1].origin().0) + 1;
        first = end;
    }
    Ok(parts)
}
