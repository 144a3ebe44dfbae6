//! The rows of a certificate, checked in parallel. Serves `check_all`; decided by `first_bad_row`.
ghost use Rattle.std.specs.Prelude.{◌≡◌, ◌≤◌, IfOk, map};
ghost use Rattle.cert_checker.specs.inside.RowParts.{bad_in_part, first_place};
ghost use Rattle.bounded_table.specs.RightRow.{is_right_row};
ghost use Rattle.cert_checker.specs.Rows.{first_bad_row, is_next_row};

use crate::row_part::RowPart;
use crate::row_parts::row_parts;
use bounded_table::{Row, RowChecker};
use rayon::prelude::*;
use road_network::Network;
use std::alloc::{AllocError, Global};
use std::thread::Threads;

/// Whether a row is the row of its origin.
fn is_right(net: &Network, checker: &mut RowChecker, row: &Row) -> bool
    requires { checker.old.network ≡ net.now }
    ensures right { result ≡ is_right_row net.now checker.old.bound row.now }
    ensures same { checker.new ≡ checker.old }
{
    net.invariants();
    row.origin().0 < net.node_count() && checker.check(row.origin(), row)
}

/// Whether a row is the row of its origin, which is not below `least`.
fn is_next(net: &Network, checker: &mut RowChecker, least: u64, row: &Row) -> bool
    requires { checker.old.network ≡ net.now }
    ensures next { result ≡ is_next_row net.now checker.old.bound least row.now }
    ensures same { checker.new ≡ checker.old }
{
    least <= u64::from(row.origin().0) && is_right(net, checker, row)
}

/// The number of the first bad row of a part; the checker is for this network.
fn first_bad(net: &Network, checker: &mut RowChecker, part: &RowPart) -> Option<u64>
    requires { checker.old.network ≡ net.now }
    ensures { result ≡ bad_in_part net.now checker.old.bound part.now }
{
    let mut least = part.least;
    for place in 0..part.rows.len() {
        if !is_next(net, checker, least, &part.rows[place]) {
            return Some(part.first + place as u64);
        }
        least = u64::from(part.rows[place].origin().0) + 1;
    }
    None
}

/// The number of the first bad row of a part.
fn bad_in_part(
    alloc: Global,
    net: &Network,
    bound: u32,
    part: &RowPart,
) -> Result<Option<u64>, AllocError>
    requires { bound ≤ 10_000_000 }
    ensures { IfOk result (λ number. number ≡ bad_in_part net.now bound part.now) }
{
    let mut checker = RowChecker::open(alloc, net, bound)?;
    Ok(first_bad(net, &mut checker, part))
}

/// The numbers of the first bad rows of parts, in parallel.
fn bad_in_parts<R: Threads + Sync>(
    rt: &R,
    alloc: Global,
    net: &Network,
    bound: u32,
    parts: &[RowPart],
) -> Result<Vec<Option<u64>>, AllocError>
    requires { bound ≤ 10_000_000 }
    ensures { IfOk result (λ numbers. numbers.items ≡ map (bad_in_part net.now bound) parts.now) }
{
    parts
        .par_iter()
        .with_min_len(1)
        .map(
            |part: &RowPart| -> Result<Option<u64>, AllocError>
                requires { bound ≤ 10_000_000 }
                ensures { IfOk result
                    (λ number. number ≡ bad_in_part net.entry.now bound part.now) }
            { bad_in_part(alloc, net, bound, part) },
        )
        .collect::<Result<Vec<Option<u64>>, AllocError>>(rt, alloc)?
}

/// The first number that is present.
fn first_place(numbers: &[Option<u64>]) -> Option<u64>
    ensures { result ≡ first_place numbers.now }
{
    for number in numbers {
        if number.is_some() {
            return *number;
        }
    }
    None
}

/// The number of the first row that is not the row of its origin, or whose origin is not above that of
/// the previous row, as `check_rows` finds it. The rows are checked in parts, in parallel. Each part
/// uses memory for each node, and is faster for it: one lookup for each edge out of a listed node.
pub fn bad_row<R: Threads + Sync>(
    rt: &R,
    alloc: Global,
    net: &Network,
    bound: u32,
    rows: &[Row],
) -> Result<Option<u64>, AllocError>
    requires { bound ≤ 10_000_000 }
    ensures { IfOk result (λ number. number ≡ first_bad_row net.now bound rows.now) }
{
    let parts = row_parts(alloc, rows)?;
    let numbers = bad_in_parts(rt, alloc, net, bound, parts.as_slice())?;
    Ok(first_place(&numbers))
}
