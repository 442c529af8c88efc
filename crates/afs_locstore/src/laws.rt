//! A law about what the location database keeps. It is the contract of a function that does nothing.

ghost use Rattle.afs_locstore.specs.Few.{EntriesAreFew};

/// There are no more entries than the journal has bytes: a record has more than it adds.
pub fn entries_are_few()
    ensures { EntriesAreFew }
{}
