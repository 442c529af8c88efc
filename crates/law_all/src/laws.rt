//! The law about all runs of a script. It is the contract of a function that does nothing.

ghost use Rattle.law_all.specs.Lawful.{RunsAreLawful};

/// Every run of a script of a cell is lawful, however far it was played.
pub fn runs_are_lawful()
    ensures { RunsAreLawful }
{}
