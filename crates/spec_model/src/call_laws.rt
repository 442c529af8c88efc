//! Laws about the calls that a callee admits. Each is the contract of a function that does nothing.

ghost use Rattle.spec_model.specs.CallLaws.{CallsRunOnce, KeptAreOfTheirCalls};

/// In one boot no call runs again once it was started.
pub fn calls_run_once()
    ensures { CallsRunOnce }
{}

/// A kept reply is that of the call that it answers.
pub fn kept_are_of_their_calls()
    ensures { KeptAreOfTheirCalls }
{}
