//! Laws of what is counted. Their functions do nothing: each contract is a law of the definitions alone.

ghost use Rattle.afs_summary.specs.Counting.{EntriesAreCounted};

/// Where no event was void, the number of entries that is counted is that of all entries.
pub fn entries_are_counted()
    ensures { EntriesAreCounted }
{}
