//! Laws about the spelling of messages. Each is the contract of a function that does nothing.

ghost use Rattle.spec_model.specs.SpellingLaws.{CallsAreFound, CallsHaveOneInterface, MessagesAreFound, ReadAreSpelled, RefusalsAreFound, RepliesAreFound, RepliesAreOfTheirCalls, RepliesHaveOneInterface, RowsMakeCalls, RowsMakeReplies, SpelledAreRead, SpellingsDontBegin};

/// What is spelled is read again.
pub fn spelled_are_read()
    ensures { SpelledAreRead }
{}

/// No message's spelling begins another's.
pub fn spellings_dont_begin()
    ensures { SpellingsDontBegin }
{}

/// A message that is read in bytes is one with a spelling, and the bytes are its spelling.
pub fn read_are_spelled()
    ensures { ReadAreSpelled }
{}

/// What any node finds in bytes, a node that serves some of the calls finds too, but for the rest of a call that it doesn't serve.
pub fn messages_are_found()
    ensures { MessagesAreFound }
{}

/// A node finds a call in bytes exactly where they spell it.
pub fn calls_are_found()
    ensures { CallsAreFound }
{}

/// A node finds a reply with code 0 in bytes exactly where they spell it.
pub fn replies_are_found()
    ensures { RepliesAreFound }
{}

/// A node finds a refusal of a call that has a row in bytes exactly where they spell it.
pub fn refusals_are_found()
    ensures { RefusalsAreFound }
{}

/// What is read by the row of a call makes a call.
pub fn rows_make_calls()
    ensures { RowsMakeCalls }
{}

/// What is read by the row of a reply makes a reply.
pub fn rows_make_replies()
    ensures { RowsMakeReplies }
{}

/// The opcode of a call tells its interface.
pub fn calls_have_one_interface()
    ensures { CallsHaveOneInterface }
{}

/// The opcode of a reply tells its interface.
pub fn replies_have_one_interface()
    ensures { RepliesHaveOneInterface }
{}

/// A reply is of the interface of its call.
pub fn replies_are_of_their_calls()
    ensures { RepliesAreOfTheirCalls }
{}
