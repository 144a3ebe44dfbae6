//! Laws of the definitions. Each function exists for its clause and does nothing.
ghost use Rattle.bounded_table.specs.Laws.{ClosedTables, LastEdgesLead, OneRow, RightRows, RowValues};

/// A table is that of its origin exactly if it is closed under its edges.
///
/// The search ends in a closed table, and `check_row` decides closedness; neither looks at a walk.
pub fn closed_tables()
    ensures { ClosedTables }
{}

/// An origin has exactly one row.
pub fn one_row()
    ensures { OneRow }
{}

/// The row of a node is the value `row_of`: it is unique, so what is printed from it is determined.
pub fn row_values()
    ensures { RowValues }
{}

/// Whether a row is the row of its origin is the value `is_right_row`.
pub fn right_rows()
    ensures { RightRows }
{}

/// Each last edge of a row comes from a listed node, adds its length to that node's distance, and
/// continues the least walk to it. So walks are rebuilt from last edges.
pub fn last_edges_lead()
    ensures { LastEdgesLead }
{}
