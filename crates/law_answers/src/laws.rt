//! Laws about the answers of administrators. Each is the contract of a function that does nothing.

ghost use Rattle.law_answers.specs.Answers.{AnswersHaveCauses};

/// In every run, each act of an administrator ends with the code that its causes give, and goes on where none of them ends it.
pub fn answers_have_causes()
    ensures { AnswersHaveCauses }
{}
