//! The law about breaks that are given up. It is the contract of a function that does nothing.

ghost use Rattle.law_owed.specs.Quits.{QuitsAreLate};

/// In every run, a server gives a break up only where a call that carried it to the client was timed out for the third time.
pub fn quits_are_late()
    ensures { QuitsAreLate }
{}
