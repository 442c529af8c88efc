//! Messages as values. Their bytes are their spelling.

ghost use Rattle.std.specs.Prelude.{◌≡◌};
ghost use Rattle.afs_num.specs.Messages.{file_call, file_reply};

use crate::calls::{FsCall, FsReply};
use crate::location_calls::{LocCall, LocReply};
use crate::sequences::Octets;
use crate::types::{Code, Head};
use crate::volume_calls::{VolCall, VolReply};

/// A call of the cell, by its interface: that of the file servers and clients, that of the volume servers, or that of
/// the location database.
pub enum Call {
    File(FsCall),
    Volume(VolCall),
    Location(LocCall),
}

/// A call ends by a drop of its own: what holds a call has one drop to prove where it ends, and not one for each part of each kind
/// of call.
impl Drop for Call {
    fn drop(self) {
        match self {
            Call::File(call) => drop(call),
            Call::Volume(call) => drop(call),
            Call::Location(call) => drop(call),
        }
    }
}

impl Call {
    /// The call as one of file servers and clients, where it is one.
    pub fn into_file(self) -> Option<FsCall>
        ensures { result ≡ file_call self }
    {
        match self {
            Call::File(call) => Some(call),
            Call::Volume(call) => {
                drop(call);
                None
            }
            Call::Location(call) => {
                drop(call);
                None
            }
        }
    }
}

/// What a call with code 0 is answered, by its interface.
pub enum Reply {
    File(FsReply),
    Volume(VolReply),
    Location(LocReply),
}

/// A reply ends by a drop of its own, as a call does.
impl Drop for Reply {
    fn drop(self) {
        match self {
            Reply::File(reply) => drop(reply),
            Reply::Volume(reply) => drop(reply),
            Reply::Location(reply) => drop(reply),
        }
    }
}

impl Reply {
    /// The reply as one to a call of file servers and clients, where it is one.
    pub fn into_file(self) -> Option<FsReply>
        ensures { result ≡ file_reply self }
    {
        match self {
            Reply::File(reply) => Some(reply),
            Reply::Volume(reply) => {
                drop(reply);
                None
            }
            Reply::Location(reply) => {
                drop(reply);
                None
            }
        }
    }
}

/// What a message carries behind its header: a call with its user, a reply with its code and, exactly where that is
/// 0, its fields, or nothing more in a boot notice.
#[derive(Drop)]
pub enum Carried {
    Call { user: Octets, call: Call },
    Refusal { code: Code },
    Reply { reply: Reply },
    Notice,
}

/// A message: its header and what it carries.
#[derive(Drop)]
pub struct Message {
    pub head: Head,
    pub carried: Carried,
}

/// What a node finds in the bytes that it is given, by the calls that nodes of its kind serve.
#[derive(Drop)]
pub enum Received {
    /// No message: no header that can be read, or a reply or notice that can't be read behind it.
    Nothing,
    /// A call that nodes of this kind don't serve, whatever stands behind its header.
    Unserved { head: Head },
    /// A call that they serve, whose user or fields can't be read.
    Unreadable { head: Head },
    Whole { message: Message },
}
