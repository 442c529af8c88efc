//! The law about the order of changes. It is the contract of a function that does nothing.

ghost use Rattle.law_latest.specs.Latest.{ChangesAreLater};

/// Each change of a server is the only one of its entry, and has a later key than every change that the server made before for the same node.
pub fn changes_are_later()
    ensures { ChangesAreLater }
{}
