//! Laws about the definitions, each the contract of a function with an empty body.

ghost use Rattle.script_lines.specs.WorkedLines.{AreForms, AreNone, AreCut, AreNumbers};
ghost use Rattle.script_lines.specs.WorkedPairs.{ArePairForms, AreNoPairForms};
ghost use Rattle.script_lines.specs.WorkedRanges.{AreRanges, AreLimits};

/// Each form is spelled by its worked line, and lines close to these spell none; lines, words and numbers, worked out.
pub fn worked_lines()
    ensures forms { AreForms }
    ensures none { AreNone }
    ensures lines { AreCut }
    ensures numbers { AreNumbers }
{}

/// Each form of a line of two campaigns' script is spelled by its worked line, for the campaign that it names, and lines close to
/// these spell none.
pub fn worked_pairs()
    ensures forms { ArePairForms }
    ensures none { AreNoPairForms }
{}

/// The last number within the range of each form, the first outside, and the limits of a line.
pub fn worked_ranges()
    ensures ranges { AreRanges }
    ensures limits { AreLimits }
{}
