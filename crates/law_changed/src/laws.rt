//! The law about what servers change. It is the contract of a function that does nothing.

ghost use Rattle.law_changed.specs.Changed.{ChangesAreOperations};

/// Each change of a server is what the ideal operation makes of a client's call on the volume that the server has, and the server has the changed volume then.
pub fn changes_are_operations()
    ensures { ChangesAreOperations }
{}
