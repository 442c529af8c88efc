//! Laws about the messages of a cell with administrators. Each is the contract of a function that does nothing.

ghost use Rattle.law_walks.specs.Messages.{SendersAreTold};

/// Each message says of itself that it is of the node that sent it.
pub fn senders_are_told()
    ensures { SendersAreTold }
{}
