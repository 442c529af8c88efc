//! What a script says: the cell at set-up, the acts of its nodes in order, what is to go wrong, and the schedule.

use crate::acts::{Act, Written};
use afs_num::sequences::{Octets, Sequence};
use afs_num::types::Node;

/// An act of an administrator, on the volume of this name. Each stands for the command of `vos` that has its name.
pub enum AdminAct {
    /// A new volume, with a quota in blocks.
    Create {
        name: Octets,
        server: u8,
        quota: u32,
    },
    /// A new volume, from the dump that is held under this label.
    Restore {
        name: Octets,
        server: u8,
        label: Octets,
    },
    /// A further site of its read-only copy.
    AddSite {
        name: Octets,
        server: u8,
    },
    Backup {
        name: Octets,
    },
    Release {
        name: Octets,
    },
    Move {
        name: Octets,
        server: u8,
    },
    /// A dump of what changed from this counter on, held under the label.
    Dump {
        name: Octets,
        label: Octets,
        from: u32,
    },
    Remove {
        name: Octets,
    },
    /// What an administrator that fell left of its act is put in order.
    Recover {
        name: Octets,
    },
}

/// An act ends by a drop of its own, as a client's does.
impl Drop for AdminAct {
    fn drop(self) {
        match self {
            AdminAct::Create {
                name,
                server: _,
                quota: _,
            }
            | AdminAct::AddSite { name, server: _ }
            | AdminAct::Backup { name }
            | AdminAct::Release { name }
            | AdminAct::Move { name, server: _ }
            | AdminAct::Remove { name }
            | AdminAct::Recover { name } => drop(name),
            AdminAct::Restore {
                name,
                server: _,
                label,
            }
            | AdminAct::Dump {
                name,
                label,
                from: _,
            } => {
                drop(name);
                drop(label);
            }
        }
    }
}

/// An act, and the node that is to do it.
#[derive(Drop)]
pub enum Task {
    Client { client: u8, act: Act },
    Admin { admin: u8, act: AdminAct },
}

pub type Tasks = Sequence<Task>;

/// A line that fills a volume at set-up. A path is the names from the volume's root.
#[derive(Drop)]
pub enum SetupLine {
    Directory {
        path: Sequence<Octets>,
    },
    File {
        path: Sequence<Octets>,
        contents: Written,
    },
    Link {
        path: Sequence<Octets>,
        target: Written,
    },
    AccessList {
        path: Sequence<Octets>,
        text: Written,
    },
}

pub type SetupLines = Sequence<SetupLine>;

/// A volume at set-up.
#[derive(Drop)]
pub struct VolumeLine {
    pub id: u32,
    pub name: Octets,
    pub server: u8,
    /// In blocks of 1,024 bytes.
    pub quota: u32,
    pub lines: SetupLines,
}

pub type VolumeLines = Sequence<VolumeLine>;

/// The name of a client's user.
#[derive(Drop)]
pub struct UserLine {
    pub client: u8,
    pub name: Octets,
}

pub type UserLines = Sequence<UserLine>;

/// What goes wrong in a run by threads, counted from 1.
#[derive(Clone, Copy, Debug)]
pub enum Plan {
    /// This message from the one node to the other is lost.
    Lose { from: Node, to: Node, nth: u32 },
    /// It is given twice.
    Repeat { from: Node, to: Node, nth: u32 },
    /// The server crashes after this step.
    Crash { server: u8, nth: u32 },
}

pub type Plans = Sequence<Plan>;

/// An event of the schedule. A pick says what a crash leaves of bytes that weren't synced.
#[derive(Clone, Copy, Debug)]
pub enum Event {
    /// The node begins its next act.
    Act { node: Node },
    /// The message of this place is given to its receiver.
    Deliver { place: u64 },
    /// Messages that were never named are given, the lowest place first, until none is left.
    Drain,
    /// The node's unanswered call to the other times out.
    Timeout { node: Node, callee: Node },
    /// The server takes a step without input.
    Wake { server: u8 },
    /// The clock rises.
    Tick { ticks: u32 },
    /// A client or an administrator goes down.
    Crash { node: Node },
    /// A server or the location database goes down.
    CrashDisk { node: Node, pick: u8 },
    Restart { node: Node },
    /// After so many calls of its disk the node stops.
    Stop { node: Node, calls: u32, pick: u8 },
    /// This call of its disk, counted from 1, fails.
    Fail { node: Node, call: u32 },
}

pub type Events = Sequence<Event>;

/// A script.
#[derive(Drop)]
pub struct Script {
    pub servers: u8,
    pub clients: u8,
    pub admins: u8,
    /// The most entries of each cache.
    pub cache: u32,
    /// The most bytes of each disk.
    pub capacity: u32,
    /// Where a client has several, the last is its user.
    pub users: UserLines,
    pub volumes: VolumeLines,
    pub tasks: Tasks,
    pub plans: Plans,
    pub schedule: Option<Events>,
}
