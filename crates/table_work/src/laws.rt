//! Laws of table texts. Each function exists for its clause and does nothing.
ghost use Rattle.table_work.specs.Faults.{BadTableLinesAreFirst, CutTablesLackTheirEnd};
ghost use Rattle.table_work.specs.Laws.{DraftsAreTables, TablesHaveOneText, TablesReadBack};

/// A table written within the limit reads back as the same table.
pub fn tables_read_back()
    ensures { TablesReadBack }
{}

/// A table that was read has exactly the text that was read, and it is within the limit.
pub fn tables_have_one_text()
    ensures { TablesHaveOneText }
{}

/// A writer that took exactly these rows has their table text.
pub fn drafts_are_tables()
    ensures { DraftsAreTables }
{}

/// `BadLine` has the number of the first line that is not allowed at its place: the lines before it
/// begin the text of some table, and with it they do not.
pub fn bad_lines_are_first()
    ensures { BadTableLinesAreFirst }
{}

/// `Cut` says that each complete line is allowed and that the last line is missing.
pub fn cuts_lack_their_end()
    ensures { CutTablesLackTheirEnd }
{}
