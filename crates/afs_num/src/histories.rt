//! What is told of a run.

use crate::directories::Names;
use crate::sequences::{Octets, Sequence};
use crate::types::{Fid, Node};

/// What a version holds: a file's bytes, a directory's names, a link's text; or the vnode is gone.
pub enum Body {
    File(Octets),
    Dir(Names),
    Link(Octets),
    Gone,
}

/// A body ends by a drop of its own: what holds one has one drop to prove where it ends, and not one for each kind of body.
impl Drop for Body {
    fn drop(self) {
        match self {
            Body::File(contents) => drop(contents),
            Body::Dir(names) => drop(names),
            Body::Link(text) => drop(text),
            Body::Gone => {}
        }
    }
}

/// A version of a fid: the indexes of a fid are 1, 2, 3, ..
#[derive(Drop)]
pub struct Version {
    pub fid: Fid,
    pub index: u32,
    pub data_version: u32,
    pub body: Body,
}

pub type Versions = Sequence<Version>;

/// Whether a read was answered from the cache or by a call.
#[derive(Clone, Copy, Debug, PartialEq, Eq)]
pub enum ReadSource {
    Cached,
    Fetched,
}

/// What a `stat` shows of a vnode: its kind is 1 for a file, 2 for a directory, 3 for a link; the length is in bytes; the
/// mode is that of Unix.
#[derive(Clone, Copy, Debug, PartialEq, Eq)]
pub struct ReadStatus {
    pub kind: u32,
    pub link_count: u32,
    pub length: u32,
    pub mode: u32,
}

/// What a read shows: what its version holds, the vnode's status, or the text of a directory's access list.
pub enum ReadBody {
    Contents(Body),
    Status(ReadStatus),
    AccessList(Octets),
}

/// It ends by a drop of its own, as a body does.
impl Drop for ReadBody {
    fn drop(self) {
        match self {
            ReadBody::Contents(body) => drop(body),
            ReadBody::Status(_) => {}
            ReadBody::AccessList(text) => drop(text),
        }
    }
}

/// Whose a step is: a node's, the clock's where it rises, or nobody's where nothing happened.
#[derive(Clone, Copy, Debug, PartialEq, Eq)]
pub enum Actor {
    Node(Node),
    Clock,
    Nobody,
}
