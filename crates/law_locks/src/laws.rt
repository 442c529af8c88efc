//! Laws about what acts have locked. Each is the contract of a function that does nothing.

ghost use Rattle.law_locks.specs.Grips.{GripsAreDrawn};

/// Each lock is the last of its entry, and each act has a stamp that was drawn for its volume's entry.
pub fn grips_are_drawn()
    ensures { GripsAreDrawn }
{}
