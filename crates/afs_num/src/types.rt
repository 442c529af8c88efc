ghost use Rattle.std.specs.Prelude.{◌≡◌, IfSome};

use crate::sequences::{Octets, Sequence};
use std::alloc::AllocError;

/// Want of memory.
pub type OutOfMemory = AllocError;

/// What a call gives that wants memory.
pub type Mem<T> = Result<T, OutOfMemory>;

/// A file's name in the cell: volume, vnode and unique (AFSFid of the AFS-3 Programmer's Reference,
/// File Server/Cache Manager Interface).
#[derive(Clone, Copy, Debug, PartialEq, Eq, PartialOrd, Ord)]
pub struct Fid {
    pub volume: u32,
    pub vnode: u32,
    pub unique: u32,
}

/// A node of the cell: the location database, or a server, a client or an administrator by its number.
#[derive(Clone, Copy, Debug, PartialEq, Eq)]
pub enum Node {
    Loc,
    Server(u8),
    Client(u8),
    Admin(u8),
}

impl Node {
    ghost use Rattle.afs_num.specs.Nodes.{node_number, node_of, same_node};

    /// Whether both are one node.
    pub fn is(&self, other: &Node) -> bool
        ensures { result ≡ same_node self.now other.now }
    {
        match (*self, *other) {
            (Node::Loc, Node::Loc) => true,
            (Node::Server(i), Node::Server(j)) => i == j,
            (Node::Client(i), Node::Client(j)) => i == j,
            (Node::Admin(i), Node::Admin(j)) => i == j,
            _ => false,
        }
    }

    /// The node's number on the wire.
    pub fn number(&self) -> u32
        ensures { result ≡ node_number self.now }
    {
        match *self {
            Node::Loc => 0,
            Node::Server(i) => i as u32,
            Node::Client(i) => 100 + i as u32,
            Node::Admin(i) => 200 + i as u32,
        }
    }

    /// The node of this number: servers are 1 to 8, clients 101 to 116, administrators 201 to 204, the location
    /// database is 0. Any other number is no node.
    pub fn from_number(n: u32) -> Option<Node>
        ensures value { result ≡ node_of n }
        ensures number { IfSome result (λ m. node_number m ≡ n) }
    {
        match n {
            0 => Some(Node::Loc),
            1..=8 => Some(Node::Server(n as u8)),
            101..=116 => Some(Node::Client((n - 100) as u8)),
            201..=204 => Some(Node::Admin((n - 200) as u8)),
            _ => None,
        }
    }
}

/// The answer of an act or a call: 0, or the cause of a refusal.
#[derive(Clone, Copy, Debug, PartialEq, Eq)]
pub struct Code(pub i32);

/// What names a call for good: its caller, the caller's epoch, and the call's number in that epoch, from 1.
#[derive(Clone, Copy, Debug, PartialEq, Eq)]
pub struct Key {
    pub node: Node,
    pub epoch: u32,
    pub number: u32,
}

/// Whether a message is a call, its reply, or a notice of the callee's boot number.
#[derive(Clone, Copy, Debug, PartialEq, Eq)]
pub enum Half {
    Call,
    Reply,
    Boot,
}

/// The header of a message. A reply and a notice carry epoch, number and opcode of their call.
#[derive(Clone, Copy, Debug, PartialEq, Eq)]
pub struct Head {
    pub half: Half,
    pub from: Node,
    pub to: Node,
    pub epoch: u32,
    pub number: u32,
    pub boot: u32,
    pub stamp: u32,
    pub opcode: u32,
}

/// A message under way: its header, and all its bytes, those of the header among them.
#[derive(Debug, Drop)]
pub struct Parcel {
    pub head: Head,
    pub bytes: Octets,
}

/// Messages, in the order in which they were sent.
pub type Parcels = Sequence<Parcel>;
