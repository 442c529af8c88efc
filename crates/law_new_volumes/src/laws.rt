//! Laws about new volumes in the runs of a cell with administrators. Each is the contract of a function that does nothing.

ghost use Rattle.law_new_volumes.specs.GivenNumbers.{NumbersAreGivenOnce};
ghost use Rattle.law_new_volumes.specs.MadeEntries.{EachEntryIsMadeOnce};

/// The number of a new volume is given to one call, and is none of the script's volumes.
pub fn numbers_are_given_once()
    ensures { NumbersAreGivenOnce }
{}

/// The entry of a volume is made by one call, and never again once it was removed.
pub fn each_entry_is_made_once()
    ensures { EachEntryIsMadeOnce }
{}
