//! Laws about the text of a history. Each is the contract of a function that does nothing.

ghost use Rattle.afs_text.specs.Shown.{LongNumbersAreCut, PrintedTellHistories, TextsTellEntries, TextsTellMessages, TextsTellRuns};

/// The text of a history tells each entry: whose it is, all its lines, and of each message what its line shows.
pub fn texts_tell_entries()
    ensures { TextsTellEntries }
{}

/// So does the text of a run. It tells what stands at the end, too, and that stands apart from all entries.
pub fn texts_tell_runs()
    ensures { TextsTellRuns }
{}

/// The text with the bytes of messages tells the messages too.
pub fn texts_tell_messages()
    ensures { TextsTellMessages }
{}

/// What is printed with the bytes of messages tells the history that the program keeps, its messages included.
pub fn printed_tell_histories()
    ensures { PrintedTellHistories }
{}

/// A number of more than 64 digits is told by its last 64, so that the other laws need numbers that are no longer.
pub fn long_numbers_are_cut()
    ensures { LongNumbersAreCut }
{}
