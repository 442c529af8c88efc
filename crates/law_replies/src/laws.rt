//! Laws about the replies of file servers. Each is the contract of a function that does nothing.

ghost use Rattle.law_replies.specs.Decided.{RepliesAreDecided};
ghost use Rattle.law_replies.specs.Heard.{RunsAnswerTheirCalls};

/// Each reply of a server to a client, wherever it is, is what the server decided on a client's call.
pub fn replies_are_decided()
    ensures { RepliesAreDecided }
{}

/// No client is given an answer that its server didn't decide for that call.
pub fn runs_answer_their_calls()
    ensures { RunsAnswerTheirCalls }
{}
