//! The rows of a certificate. Decided by `first_bad_row`.
ghost use Rattle.std.specs.Prelude.{◌≡◌};
ghost use Rattle.bounded_table.specs.RightRow.{is_right_row};
ghost use Rattle.cert_checker.specs.Rows.{first_bad_row, is_next_row};

use bounded_table::{Row, check_row};
use road_network::Network;

/// Whether a row is the row of its origin.
fn is_right(net: &Network, bound: u32, row: &Row) -> bool
    ensures { result ≡ is_right_row net.now bound row.now }
{
    net.invariants();
    row.origin().0 < net.node_count() && check_row(net, bound, row.origin(), row)
}

/// Whether a row is the row of its origin, which is not below `least`.
fn is_next(net: &Network, bound: u32, least: u32, row: &Row) -> bool
    ensures { result ≡ is_next_row net.now bound least row.now }
{
    least <= row.origin().0 && is_right(net, bound, row)
}

/// The index of the first row that is not the row of its origin within the bound, or whose origin is
/// not above that of the previous row. Allocates nothing.
pub fn check_rows(net: &Network, bound: u32, rows: &[Row]) -> Option<u32>
    ensures { result ≡ first_bad_row net.now bound rows.now }
{
    net.invariants();
    let mut least = 0;
    for place in 0..rows.len() {
        if !is_next(net, bound, least, &rows[place]) {
            return Some(place as u32);
        }
        least = rows[place].origin().0 + 1;
    }
    None
}
