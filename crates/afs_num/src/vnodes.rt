//! Vnodes: the files, directories and links of a volume.

use crate::sequences::{Octets, Sequence};

/// A vnode. Its kind is 1 for a file, 2 for a directory, 3 for a link; the mode is that of Unix; the client's time is
/// what a client set, the server's the clock at the vnode's last change, in ticks; the change counter is that of its
/// volume at that change. A directory alone has an access list. The contents are the bytes of a file, the text of a
/// link, or the spelling of a directory.
#[derive(Drop)]
pub struct Vnode {
    pub vnode: u32,
    pub unique: u32,
    pub kind: u32,
    pub index: u32,
    pub data_version: u32,
    pub link_count: u32,
    pub owner: u32,
    pub group: u32,
    pub mode: u32,
    pub segment_size: u32,
    pub client_time: u32,
    pub server_time: u32,
    pub parent_vnode: u32,
    pub parent_unique: u32,
    pub change_counter: u32,
    pub acl: Octets,
    pub contents: Octets,
}

pub type Vnodes = Sequence<Vnode>;

/// Numbers of vnodes.
pub type VnodeNumbers = Sequence<u32>;
