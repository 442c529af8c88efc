//! Laws about the calls that run in a cell with administrators. Each is the contract of a function that does nothing.

ghost use Rattle.law_keys.specs.Asked.{CallsAreKnown, CallsAreOne, RanWereSent, RepliesHaveCalls};
ghost use Rattle.law_keys.specs.Once.{CallsRunInOrder, KeysAreSpent};
ghost use Rattle.law_keys.specs.Replied.{AnsweredAreSpent, RepliesWereRun};

/// In every run, a call runs at most once in a boot of its callee, and never behind a later call of its caller there.
pub fn calls_run_in_order()
    ensures { CallsRunInOrder }
{}

/// A call that changed something never runs again, in no later boot either; nor does any earlier call of its caller.
pub fn keys_are_spent()
    ensures { KeysAreSpent }
{}

/// A reply of a volume server or of the location database, if it is no refusal, is to a call that ran in the boot that it carries.
pub fn replies_were_run()
    ensures { RepliesWereRun }
{}

/// Where such a reply tells of a change, its call can run no more.
pub fn answered_are_spent()
    ensures { AnsweredAreSpent }
{}

/// No call of an administrator that was sent is later than its last one.
pub fn calls_are_known()
    ensures { CallsAreKnown }
{}

/// Two calls of an administrator under one key are one, sent to one boot of its callee or to another.
pub fn calls_are_one()
    ensures { CallsAreOne }
{}

/// Each call that ran was sent.
pub fn ran_were_sent()
    ensures { RanWereSent }
{}

/// So was the call that a reply answers, which is to the reply's sender and for the boot that it carries.
pub fn replies_have_calls()
    ensures { RepliesHaveCalls }
{}
