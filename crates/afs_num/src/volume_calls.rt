//! The calls of the Volume Server Interface and their replies. Numbers and fields are this profile's own; each call
//! begins with the family of the volume, the number of the read-write volume that it belongs to.

use crate::sequences::{Octets, Sequence};

/// A volume of a family at a server. Its kind is 0 for a read-write volume, 1 for a read-only one, 2 for a backup.
#[derive(Clone, Copy, Debug, PartialEq, Eq)]
pub struct ListedVolume {
    pub volume: u32,
    pub kind: u32,
    pub flags: u32,
    pub release: u32,
}

pub type ListedVolumes = Sequence<ListedVolume>;

/// A call, by its row.
#[derive(Drop)]
pub enum VolCall {
    CreateVolume {
        family: u32,
        volume: u32,
        name: Octets,
        kind: u32,
        flags: u32,
        quota: u32,
    },
    DeleteVolume {
        family: u32,
        transaction: u32,
    },
    Restore {
        family: u32,
        transaction: u32,
        offset: u32,
        last: u32,
        piece: Octets,
    },
    Forward {
        family: u32,
        transaction: u32,
        from: u32,
        server: u32,
        its_transaction: u32,
    },
    EndTrans {
        family: u32,
        transaction: u32,
    },
    Clone {
        family: u32,
        transaction: u32,
        volume: u32,
        name: Octets,
        kind: u32,
    },
    SetFlags {
        family: u32,
        transaction: u32,
        flags: u32,
    },
    GetFlags {
        family: u32,
        transaction: u32,
    },
    TransCreate {
        family: u32,
        volume: u32,
        flags: u32,
    },
    Dump {
        family: u32,
        transaction: u32,
        from: u32,
        offset: u32,
    },
    SetForwarding {
        family: u32,
        transaction: u32,
        server: u32,
    },
    GetStatus {
        family: u32,
        transaction: u32,
    },
    ListVols {
        family: u32,
    },
    ReClone {
        family: u32,
        transaction: u32,
        volume: u32,
    },
}

/// What a call with code 0 is answered, by its row.
#[derive(Drop)]
pub enum VolReply {
    CreateVolume {
        transaction: u32,
    },
    DeleteVolume,
    Restore,
    Forward,
    EndTrans,
    Clone {
        counter: u32,
        release: u32,
    },
    SetFlags,
    GetFlags {
        flags: u32,
    },
    TransCreate {
        transaction: u32,
    },
    Dump {
        last: u32,
        piece: Octets,
    },
    SetForwarding,
    GetStatus {
        volume: u32,
        kind: u32,
        flags: u32,
        quota: u32,
        used: u32,
        counter: u32,
        release: u32,
    },
    ListVols {
        volumes: ListedVolumes,
    },
    ReClone {
        counter: u32,
        release: u32,
    },
}
