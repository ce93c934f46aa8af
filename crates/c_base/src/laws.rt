//! A law about the definitions, as the contract of a function with an empty body.

ghost use Rattle.c_base.specs.WorkedAnswers.{WorkedAnswers};

/// The answers of calls have the numbers of the header.
pub fn worked_answers()
    ensures { WorkedAnswers }
{}
