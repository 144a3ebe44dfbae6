//! Rows that are right, and rows that are not.
use bounded_table::Row;
use cert_checker::check_rows;
use plain_list::List;
use road_network::read_network;
use row_tests::small::TWO_EDGES;
use row_text::read_row;
use std::alloc::{AllocError, Global};

const FIRST: &[u8] = b"row 0 0:0:- 1:10000:0\n";

const SECOND: &[u8] = b"row 1 1:0:- 2:10000:1\n";

/// Rows within a bound, and the place of the first bad one.
#[derive(Clone, Copy)]
struct Case {
    shows: &'static str,
    bound: u32,
    rows: &'static [&'static [u8]],
    bad: Option<u32>,
}

const CASES: [Case; 5] = [
    Case {
        shows: "right rows",
        bound: 10_000,
        rows: &[FIRST, SECOND],
        bad: None,
    },
    Case {
        shows: "a row twice",
        bound: 10_000,
        rows: &[FIRST, SECOND, SECOND],
        bad: Some(2),
    },
    Case {
        shows: "an entry is missing",
        bound: 20_000,
        rows: &[FIRST, SECOND],
        bad: Some(0),
    },
    Case {
        shows: "a distance too great",
        bound: 10_001,
        rows: &[b"row 0 0:0:- 1:10001:0\n"],
        bad: Some(0),
    },
    Case {
        shows: "no such node",
        bound: 10_000,
        rows: &[b"row 7 7:0:- 8:10000:7\n"],
        bad: Some(0),
    },
];

/// The rows of these lines.
fn rows_of(alloc: Global, lines: &[&[u8]]) -> Result<List<Row>, AllocError> {
    let mut rows = List::new(alloc);
    for line in lines {
        if let Some((row, _)) = read_row(alloc, line)? {
            rows.push(row)?;
        }
    }
    Ok(rows)
}

/// Whether the first bad row is found.
fn is_found(alloc: Global, case: Case) -> Option<bool> {
    let net = read_network(alloc, TWO_EDGES).ok()?;
    let rows = rows_of(alloc, case.rows).ok()?;
    let bad = check_rows(&net, case.bound, rows.as_slice());
    Some(rows.len() == case.rows.len() && bad == case.bad)
}

#[test]
fn the_first_bad_row(rt: HostRuntime) {
    for case in CASES {
        assert!(rt; is_found(rt.alloc(), case) == Some(true), "{}", case.shows);
    }
}
