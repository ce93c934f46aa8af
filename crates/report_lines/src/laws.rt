//! A law about the definitions, as the contract of a function with an empty body.

ghost use Rattle.report_lines.specs.WorkedLines.{AreLines};

/// Lines, worked out: each word of each, with numbers that differ.
pub fn lines_read_so()
    ensures { AreLines }
{}
