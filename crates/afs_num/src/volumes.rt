//! Volumes: what each has besides its vnodes, and its changes.

use crate::calls::FsReply;
use crate::histories::Versions;
use crate::sequences::Octets;
use crate::vnodes::{VnodeNumbers, Vnodes};

/// A volume's head. Its kind is 0 for a read-write volume, 1 for a read-only one, 2 for a backup; the family is the
/// number of the read-write volume that it belongs to; the flags are 1 for delete on salvage and 2 for out of service;
/// the quota is in blocks of 1,024 bytes; the unique number is that of the next new vnode; the counter that of its
/// changes, from 1; the release that of its clones (AFS-3 Programmer's Reference, Volume Server interface).
#[derive(Drop)]
pub struct VolumeHead {
    pub id: u32,
    pub family: u32,
    pub name: Octets,
    pub kind: u32,
    pub flags: u32,
    pub quota: u32,
    pub unique: u32,
    pub counter: u32,
    pub release: u32,
}

/// A change of a volume: the versions that it tells; the vnodes that it changes or makes, as they stand after it, and
/// the numbers of those that go; the volume's counter and its next unique number after it; and the reply, whose promise
/// to call back is left for the server to fill.
#[derive(Drop)]
pub struct Change {
    pub versions: Versions,
    pub vnodes: Vnodes,
    pub removed: VnodeNumbers,
    pub counter: u32,
    pub unique: u32,
    pub reply: FsReply,
}
