//! What holds of a server node's steps. Each law is the contract of a function that does nothing.

ghost use Rattle.afs_node.specs.Laws.{StepsAreOfMessages};

/// Where the bytes that a node is given are a message, its step at what it finds in them is its step at that message.
pub fn steps_are_of_messages()
    ensures { StepsAreOfMessages }
{}
