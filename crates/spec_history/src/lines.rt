//! What is told of a run.

use crate::acts::SharedAct;
use crate::orders::SharedAdminAct;
use afs_num::histories::{Actor, ReadBody, ReadSource, Version};
use afs_num::sequences::{Octets, Sequence};
use afs_num::types::{Code, Fid, Key, Node, Parcels};

/// A line of a history. Messages stand beside the lines of their entry.
#[derive(Drop)]
pub enum Line {
    /// An act begins.
    Begin {
        node: Node,
        act: SharedAct,
    },
    /// The node is given the message of this place.
    Given {
        place: u64,
    },
    /// The server promises the client to tell it of changes of this fid, until the clock reaches the expiry.
    Grant {
        server: Node,
        client: Node,
        fid: Fid,
        index: u32,
        expiry: u32,
    },
    /// The server changes under this key; so many versions follow.
    Change {
        server: Node,
        key: Key,
        count: u32,
    },
    Version {
        version: Version,
    },
    Read {
        client: Node,
        fid: Fid,
        index: u32,
        source: ReadSource,
        body: ReadBody,
    },
    Answer {
        node: Node,
        code: Code,
    },
    /// The caller's call of this epoch and number to the callee stayed unanswered; so often by now.
    Timeout {
        caller: Node,
        callee: Node,
        epoch: u32,
        number: u32,
        count: u32,
    },
    /// The clock rises by so many ticks.
    Tick {
        ticks: u32,
    },
    /// The node's disk is set to stop the node once it has passed so many device calls; the pick, 0 to 3, says what
    /// is left of the writes that weren't synced.
    Stop {
        node: Node,
        calls: u32,
        pick: u8,
    },
    /// The node's disk is set to fail at this one of its next device calls, counted from 1.
    Fail {
        node: Node,
        calls: u32,
    },
    /// The node stops, and loses all but what is on its disk.
    Crash {
        node: Node,
    },
    /// The node stops because its disk failed.
    Fault {
        node: Node,
    },
    /// The node begins again, with this boot number; a client's is its epoch.
    Restart {
        node: Node,
        boot: u32,
    },
    /// The node can't begin again: the record of its boot doesn't fit on its disk.
    Full {
        node: Node,
    },
    /// The client gives its cached entry of the fid up, or handles a break of the promise on it.
    Drop {
        client: Node,
        fid: Fid,
    },
    /// The client gives up all that the server promised, as the server breaks all of it.
    DropAll {
        client: Node,
        server: Node,
    },
    /// The server owes the client a break of its promise on the fid, or of all promises where no fid is named. A
    /// server numbers the breaks that it owes from 1 in each boot.
    Owe {
        server: Node,
        client: Node,
        fid: Option<Fid>,
        number: u32,
    },
    /// The client has answered the owed break of this number.
    Settle {
        server: Node,
        client: Node,
        number: u32,
    },
    /// The server gives up the owed break of this number: the client hasn't answered.
    Quit {
        server: Node,
        client: Node,
        number: u32,
    },
    /// The flags of the server's new read-write volume became 0 for the first time; the versions of so many vnodes
    /// follow.
    Made {
        server: Node,
        volume: u32,
        count: u32,
    },
    /// The flags of the read-write volume at the server were 0, and aren't any more.
    Fence {
        volume: u32,
        server: Node,
    },
    /// The flags of the read-write volume at the server became 0.
    Enable {
        volume: u32,
        server: Node,
    },
    /// The read-write volume was deleted at the server.
    Vanish {
        volume: u32,
        server: Node,
    },
    /// The flags of a read-only volume became 0 at the server. The family is the number of its read-write volume; the
    /// release counts its releases.
    Released {
        family: u32,
        volume: u32,
        release: u32,
        server: Node,
    },
    /// The location database has locked the volume's entry under this stamp, for this operation.
    Locked {
        volume: u32,
        stamp: u32,
        operation: u32,
    },
    /// The volume's entry has no lock any more, or is gone.
    Unlocked {
        volume: u32,
    },
    /// A recovery of the volume is done: the lock that goes was taken by force.
    Recovered {
        volume: u32,
    },
    /// The location database says now that the read-write volume is at this server.
    Located {
        volume: u32,
        server: Node,
    },
    /// The client's act ends with 105: it had no site left, and the release that one offered last is below the one that the
    /// client has seen.
    Older {
        node: Node,
        offered: u32,
        seen: u32,
    },
    /// An act of an administrator begins.
    BeginAdmin {
        node: Node,
        act: SharedAdminAct,
    },
    /// The administrator's act ends with this code, and what it left may not be in order.
    Stuck {
        node: Node,
        code: Code,
    },
    /// The administrator holds a whole dump of so many bytes under this label.
    Dumped {
        node: Node,
        label: Octets,
        length: u32,
    },
    /// Nothing happened.
    Void,
}

pub type Lines = Sequence<Line>;

/// What one step told and sent.
#[derive(Drop)]
pub struct Outs {
    pub parcels: Parcels,
    pub lines: Lines,
}

/// One step of a run: whose it is, its lines, and how many messages it sent. These have the next places behind those of
/// the entries before, and their bytes are the wire's.
#[derive(Drop)]
pub struct Entry {
    pub actor: Actor,
    pub lines: Lines,
    pub sent: usize,
}

pub type History = Sequence<Entry>;
