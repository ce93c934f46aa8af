//! A law about the definitions, as the contract of a function with an empty body.

ghost use Rattle.row_arena.specs.WorkedRows.{WorkedRows};

/// Rows, their sums and their room, worked out.
pub fn worked_rows()
    ensures { WorkedRows }
{}
