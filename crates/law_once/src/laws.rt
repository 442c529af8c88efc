//! Laws about the keys of clients. Each is the contract of a function that does nothing.

ghost use Rattle.law_once.specs.Changes.{ChangesAreOnce};
ghost use Rattle.law_once.specs.Clients.{ClientCallsAreOne};

/// Two calls of a client under one key are one, sent to one boot of its callee or to another.
pub fn client_calls_are_one()
    ensures { ClientCallsAreOne }
{}

/// No two changes that a history tells have one key, at whichever servers they were made.
pub fn changes_are_once()
    ensures { ChangesAreOnce }
{}
