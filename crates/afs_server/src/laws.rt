//! Laws about what a server reads from its disk. Each is the contract of a function that does nothing.

ghost use Rattle.afs_server.specs.Again.{KeptAgain, KeptAreSpelled};

/// Bytes that are read as a kept reply are its spelling.
pub fn kept_are_spelled()
    ensures { KeptAreSpelled }
{}

/// What was read from a disk is put there as it was.
pub fn kept_again()
    ensures { KeptAgain }
{}
