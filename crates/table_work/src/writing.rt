//! Writes a table text row by row. Serves the program; decided by `table_text`.
ghost use Rattle.std.specs.Prelude.{◌≡◌, ◌<◌, ◌≤◌, ◌++◌, length, IfOk, OnErr, OnOk, IsErrOf};
ghost use Rattle.table_work.specs.TableText.{table_end_line, table_text_limit};
ghost use Rattle.table_work.specs.Draft.{draft_of_no_rows, draft_with_row};

use crate::TEXT_LIMIT;
use crate::fault::TableWriteFault;
use crate::lines::{append_end, append_first};
use bounded_table::Row;
use plain_list::List;
use row_text::write_row;
use std::alloc::{AllocError, Global};
use std::marker::Model;

/// A table text under construction: its first line, and the lines of the rows added so far.
///
/// It is the text of a table if the origins of the rows ascend and their numbers are below the
/// counts. The writer stores only this text.
#[derive(Drop)]
pub struct TableWriter {
    text: List<u8>,
    rows: u64,
}

impl Model for TableWriter {
    ghost use Rattle.table_work.specs.Draft.{Draft};

    ghost Value = { Draft };

    ghost use Rattle.table_work.specs.inside.WriterInside.{draft_of, IsWithinLimit};

    ghost view = { draft_of };

    ghost invariant = { IsWithinLimit };
}

impl TableWriter {
    /// A writer with the first line and no rows.
    pub fn open(
        alloc: Global,
        bound: u32,
        nodes: u32,
        edges: u32,
    ) -> Result<TableWriter, AllocError>
        ensures { IfOk result (λ writer. writer ≡ draft_of_no_rows bound nodes edges) }
    {
        let mut text = List::new(alloc);
        append_first(bound, nodes, edges, &mut text)?;
        Ok(TableWriter { text, rows: 0 })
    }

    /// Adds a row. On `Err`, the writer is unchanged.
    pub fn add(&mut self, row: &Row) -> Result<(), TableWriteFault>
        ensures ok { OnOk result (self.new ≡ draft_with_row self.old row.now) }
        ensures err { OnErr result (self.new ≡ self.old) }
        ensures within { OnOk result (length self.new.lines ≤ table_text_limit) }
        ensures too_long { IsErrOf result TableWriteFault.TooLong
            → table_text_limit < length (draft_with_row self.old row.now).lines }
    {
        let len = self.text.len();
        write_row(row, &mut self.text)?;
        if self.text.len() as u64 > TEXT_LIMIT {
            self.text.truncate(len);
            return Err(TableWriteFault::TooLong);
        }
        self.rows += 1;
        Ok(())
    }

    /// The table text of the added rows.
    pub fn finish(self) -> Result<List<u8>, TableWriteFault>
        ensures ok { IfOk result (λ text. text ≡ self.lines ++ table_end_line self.rows) }
        ensures within { IfOk result (λ text. length text ≤ table_text_limit) }
        ensures too_long { IsErrOf result TableWriteFault.TooLong
            → table_text_limit < length (self.lines ++ table_end_line self.rows) }
    {
        let mut text = self.text;
        append_end(self.rows, &mut text)?;
        if text.len() as u64 > TEXT_LIMIT {
            return Err(TableWriteFault::TooLong);
        }
        Ok(text)
    }
}
