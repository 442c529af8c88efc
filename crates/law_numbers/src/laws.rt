//! Laws about the numbers of volumes in the runs of a cell with administrators. Each is the contract of a function that does nothing.

ghost use Rattle.law_numbers.specs.Numbers.{NumbersAreApart};

/// Each entry that an act works on, or writes, has the number of a family that was drawn, and its read-only volume has another.
pub fn numbers_are_apart()
    ensures { NumbersAreApart }
{}
