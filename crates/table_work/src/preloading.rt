//! `--table FILE` of `match`: a table computed beforehand, whose rows are checked one by one
//! and offered to a store. Serves the program; decided by `table_file_said`.
ghost use Rattle.std.specs.Prelude.{◌≡◌, ◌≢◌, ◌≤◌, ◌++◌, All, IfOk, OnOk};
ghost use Rattle.program_frame.specs.Loads.{Loads};
ghost use Rattle.program_frame.specs.inside.Refusing.{Accepts};
ghost use Rattle.road_network.specs.Net.{HasNode};
ghost use Rattle.table_work.specs.TableText.{table_text_limit};
ghost use Rattle.table_work.specs.Preload.{row_said, rows_in, rows_said, table_fault_line, table_file_said, wrong_row_line};

use crate::TEXT_LIMIT;
use crate::fault::TableFault;
use crate::reading::read_table;
use bounded_table::{Row, RowChecker};
use decimal_text::write_unsigned;
use edge_io::Shelf;
use plain_list::List;
use program_frame::{FaultLine, File, Refusal, Stop, read_file, refuse_fault};
use road_network::Network;
use row_store::{Reader, RowStore};
use std::alloc::{AllocError, Global};

// Appends the error line of a fault of the text.
fn append_fault(fault: TableFault, line: &mut List<u8>) -> Result<(), AllocError>
    ensures some { OnOk result (fault ≢ TableFault.Memory) }
    ensures line { OnOk result (line.new ≡ line.old ++ table_fault_line fault) }
{
    match fault {
        TableFault::BadLine(number) => {
            line.extend_from_slice(b"table line ")?;
            write_unsigned(number, line)?;
            line.extend_from_slice(b": bad line\n")
        }
        TableFault::Cut => line.extend_from_slice(b"table: cut\n"),
        TableFault::TooLong => line.extend_from_slice(b"table: too long\n"),
        TableFault::Memory => Err(AllocError),
    }
}

// Appends the error line of a wrong row, with the id of its origin.
fn append_wrong_row(id: u64, line: &mut List<u8>) -> Result<(), AllocError>
    ensures { OnOk result (line.new ≡ line.old ++ wrong_row_line id) }
{
    line.extend_from_slice(b"refused table origin ")?;
    write_unsigned(id, line)?;
    line.extend_from_slice(b": Row\n")
}

// Why a table file is refused.
#[derive(Clone, Copy)]
enum TableFileFault {
    // The text has this fault.
    Text(TableFault),
    // The row of the node of this id is wrong.
    WrongRow(u64),
}

impl FaultLine for TableFileFault {
    ghost use Rattle.table_work.specs.inside.PreloadDone.{table_file_fault_line, has_table_file_fault_line};

    ghost has_line = { λ fault. has_table_file_fault_line fault };

    ghost line = { λ fault. table_file_fault_line fault };

    fn append_line(&self, _alloc: Global, into: &mut List<u8>) -> Result<(), AllocError> {
        match self {
            TableFileFault::Text(fault) => append_fault(*fault, into),
            TableFileFault::WrongRow(id) => append_wrong_row(*id, into),
        }
    }
}

// The rows of a text, which is dropped.
fn read_rows(alloc: Global, roads: &Network, bound: u32, text: Vec<u8>) -> Result<List<Row>, Stop>
    ensures said { Accepts Refusal.Table (rows_in roads.now bound text.items) result }
    ensures nodes { IfOk result (All (λ row. HasNode roads.now row.origin)) }
{
    match read_table(alloc, bound, roads.node_count(), roads.edge_count(), &text) {
        Ok(rows) => Ok(rows),
        Err(fault) => Err(refuse_fault(alloc, Refusal::Table, &TableFileFault::Text(fault))),
    }
}

// Checks a row, and offers it if it is right.
fn offer_row(
    alloc: Global,
    roads: &Network,
    checker: &mut RowChecker<'_>,
    reader: &mut Reader<'_>,
    row: Row,
) -> Result<(), Stop>
    requires networks { (checker.old.network ≡ roads.now)
        × (reader.old.store.network ≡ roads.now) }
    requires bounds { reader.old.store.bound ≡ checker.old.bound }
    requires node { HasNode roads.now row.origin }
    ensures same { (checker.new ≡ checker.old) × (reader.new.store ≡ reader.old.store) }
    ensures said { Accepts Refusal.Table (row_said roads.now checker.old.bound row) result }
{
    roads.invariants();
    let origin = row.origin();
    if !checker.check(origin, &row) {
        let fault = TableFileFault::WrongRow(roads.node_name(origin));
        return Err(refuse_fault(alloc, Refusal::Table, &fault));
    }
    reader.offer_right(origin, row)?;
    Ok(())
}

// Checks all rows in order, and offers each right one.
fn offer_rows(
    alloc: Global,
    roads: &Network,
    checker: &mut RowChecker<'_>,
    reader: &mut Reader<'_>,
    rows: List<Row>,
) -> Result<(), Stop>
    requires networks { (checker.old.network ≡ roads.now)
        × (reader.old.store.network ≡ roads.now) }
    requires bounds { reader.old.store.bound ≡ checker.old.bound }
    requires nodes { All (λ row. HasNode roads.now row.origin) rows }
    ensures { Accepts Refusal.Table (rows_said roads.now checker.old.bound rows) result }
{
    for row in rows.into_vec() {
        offer_row(alloc, roads, checker, reader, row)?;
    }
    Ok(())
}

// Checks the rows of a text, and offers them through a reader of their own.
fn accept_table(alloc: Global, store: &RowStore<'_>, text: Vec<u8>) -> Result<(), Stop>
    requires { store.now.bound ≤ 10_000_000 }
    ensures { Accepts Refusal.Table
        (table_file_said store.now.network store.now.bound text.items) result }
{
    let roads = store.network();
    let bound = store.bound();
    let rows = read_rows(alloc, roads, bound, text)?;
    let mut checker = RowChecker::open(alloc, roads, bound)?;
    let mut reader = store.reader()?;
    offer_rows(alloc, roads, &mut checker, &mut reader, rows)
}

/// Reads a table file for the network and the bound of a store, and accepts or refuses it. All rows of an
/// accepted file are offered to the store.
///
/// The text is in memory at once, and dropped once its rows are read. A row is moved into the store.
pub fn preload<S: Shelf>(
    alloc: Global,
    shelf: &mut S,
    table: &str,
    store: &RowStore<'_>,
) -> Result<(), Stop>
    requires { store.now.bound ≤ 10_000_000 }
    ensures { Loads Refusal.Table File.Table table.now table_text_limit
        (table_file_said store.now.network store.now.bound)
        (S.state shelf.old) (S.state shelf.new) result }
{
    let text = read_file(alloc, shelf, File::Table, table, TEXT_LIMIT)?;
    accept_table(alloc, store, text)
}
