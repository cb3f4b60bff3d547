//! What holds of every node, as clauses of functions that do nothing.

ghost use Rattle.og_node.specs.Laws.{RowsAreTested};

/// The test for a row answers whether the message has one.
pub fn rows_are_tested()
    ensures { RowsAreTested }
{}
