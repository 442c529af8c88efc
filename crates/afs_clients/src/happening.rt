//! What a node of the cell is given, and what comes of it.

use afs_num::types::Node;
use spec_history::lines::Outs;

/// What a server is given beside messages.
#[derive(Clone, Copy, Debug)]
pub enum ServerInput {
    /// Its unanswered call to this node times out.
    TimeOut(Node),
    /// Time has passed.
    Wake,
    /// It crashes, and its disk with this pick.
    Crash(u8),
    Restart,
    /// Its disk is to pass so many device calls and then to stop it.
    Stop { calls: u32, pick: u8 },
    /// Its disk is to fail at this one of its next device calls.
    Fail { call: u32 },
}

/// What the location database is given beside messages.
#[derive(Clone, Copy, Debug)]
pub enum DatabaseInput {
    /// It crashes, and its disk with this pick.
    Crash(u8),
    Restart,
    /// Its disk is to pass so many device calls and then to stop it.
    Stop { calls: u32, pick: u8 },
    /// Its disk is to fail at this one of its next device calls.
    Fail { call: u32 },
}

/// What a client is given beside messages.
#[derive(Clone, Copy, Debug)]
pub enum ClientInput {
    /// It begins its next act.
    Act,
    /// Its unanswered call to this node times out.
    TimeOut(Node),
    Crash,
    Restart,
}

/// What an administrator is given beside messages.
#[derive(Clone, Copy, Debug)]
pub enum AdminInput {
    /// It begins its next act.
    Act,
    /// Its unanswered call to this node times out.
    TimeOut(Node),
    Crash,
    Restart,
}

/// What came of it: nothing; a step that gave this out; or memory was wanting, and the node is what it was, or what it did can't
/// be told.
#[derive(Drop)]
pub enum Happened {
    Nothing,
    Step(Outs),
    Unchanged,
    Lost,
}
