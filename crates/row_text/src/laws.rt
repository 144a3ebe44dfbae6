//! Laws of the lines of rows. Each function exists for its clause and does nothing.
ghost use Rattle.row_text.specs.Laws.{RowsHaveOneLine, RowsReadBack};

/// A written row reads back as the same row, whatever follows its line.
pub fn rows_read_back()
    ensures { RowsReadBack }
{}

/// A row that was read has exactly the line that was read.
pub fn rows_have_one_line()
    ensures { RowsHaveOneLine }
{}
