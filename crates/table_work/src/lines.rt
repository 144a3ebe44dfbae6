//! The first and the last line of a table text. Serves the writer and the reader; decided by
//! `table_first_line` and `table_end_line`.
ghost use Rattle.std.specs.Prelude.{◌≡◌, ◌++◌, length, take, OnErr, OnOk};
ghost use Rattle.table_work.specs.TableText.{table_end_line, table_first_line};

use decimal_text::write_worded;
use plain_list::List;
use std::alloc::AllocError;

/// Appends the first line. On `Err`, a part of it may remain at the end.
pub fn append_first(
    bound: u32,
    nodes: u32,
    edges: u32,
    into: &mut List<u8>,
) -> Result<(), AllocError>
    ensures ok { OnOk result (into.new ≡ into.old ++ table_first_line bound nodes edges) }
    ensures err { OnErr result (take (length into.old) into.new ≡ into.old) }
{
    write_worded(b"fmm-table 1 bound ", u64::from(bound), into)?;
    write_worded(b" nodes ", u64::from(nodes), into)?;
    write_worded(b" edges ", u64::from(edges), into)?;
    into.extend_from_slice(b"\n")
}

/// Appends the last line. On `Err`, a part of it may remain at the end.
pub fn append_end(rows: u64, into: &mut List<u8>) -> Result<(), AllocError>
    ensures ok { OnOk result (into.new ≡ into.old ++ table_end_line rows) }
    ensures err { OnErr result (take (length into.old) into.new ≡ into.old) }
{
    write_worded(b"end rows ", rows, into)?;
    into.extend_from_slice(b"\n")
}
