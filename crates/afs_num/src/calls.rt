//! The calls of the File Server/Cache Manager Interface and their replies, with the fields of the AFS-3
//! Programmer's Reference in their order. Numbers, and contents as one opaque, are this profile's own.

use crate::sequences::{Octets, Sequence};
use crate::types::Fid;

/// What a store sets, and which of these by the bits 1, 2, 4, 8, 16 of the mask (AFSStoreStatus).
#[derive(Clone, Copy, Debug, PartialEq, Eq)]
pub struct AfsStoreStatus {
    pub mask: u32,
    pub client_mod_time: u32,
    pub owner: u32,
    pub group: u32,
    pub unix_mode_bits: u32,
    pub seg_size: u32,
}

/// The status of a vnode (AFSFetchStatus): 21 words. The file type is 1 for a file, 2 for a directory, 3 for a link.
#[derive(Clone, Copy, Debug)]
pub struct AfsFetchStatus {
    pub interface_version: u32,
    pub file_type: u32,
    pub link_count: u32,
    pub length: u32,
    pub data_version: u32,
    pub author: u32,
    pub owner: u32,
    pub caller_access: u32,
    pub anonymous_access: u32,
    pub unix_mode_bits: u32,
    pub parent_vnode: u32,
    pub parent_unique: u32,
    pub seg_size: u32,
    pub client_mod_time: u32,
    pub server_mod_time: u32,
    pub group: u32,
    pub sync_counter: u32,
    pub spare1: u32,
    pub spare2: u32,
    pub spare3: u32,
    pub spare4: u32,
}

/// A promise to call back, or the breaking of one (AFSCallBack). The kind is 1 exclusive, 2 shared, 3 dropped.
#[derive(Clone, Copy, Debug, PartialEq, Eq)]
pub struct AfsCallBack {
    pub version: u32,
    pub expiration_time: u32,
    pub kind: u32,
}

/// The volume's six words (AFSVolSync). The first is the release number, 0 in a read-write volume.
#[derive(Clone, Copy, Debug, PartialEq, Eq)]
pub struct AfsVolSync {
    pub release: u32,
    pub spare1: u32,
    pub spare2: u32,
    pub spare3: u32,
    pub spare4: u32,
    pub spare5: u32,
}

pub type Fids = Sequence<Fid>;

pub type CallBacks = Sequence<AfsCallBack>;

pub type Statuses = Sequence<AfsFetchStatus>;

/// A call, by its row.
#[derive(Drop)]
pub enum FsCall {
    FetchData {
        fid: Fid,
        position: i32,
        length: i32,
    },
    FetchAcl {
        fid: Fid,
    },
    FetchStatus {
        fid: Fid,
    },
    StoreData {
        fid: Fid,
        status: AfsStoreStatus,
        position: i32,
        length: i32,
        file_length: i32,
        contents: Octets,
    },
    StoreAcl {
        fid: Fid,
        acl: Octets,
    },
    StoreStatus {
        fid: Fid,
        status: AfsStoreStatus,
    },
    RemoveFile {
        directory: Fid,
        name: Octets,
    },
    CreateFile {
        directory: Fid,
        name: Octets,
        status: AfsStoreStatus,
    },
    Rename {
        old_directory: Fid,
        old_name: Octets,
        new_directory: Fid,
        new_name: Octets,
    },
    Symlink {
        directory: Fid,
        name: Octets,
        target: Octets,
        status: AfsStoreStatus,
    },
    Link {
        directory: Fid,
        name: Octets,
        existing: Fid,
    },
    MakeDir {
        directory: Fid,
        name: Octets,
        status: AfsStoreStatus,
    },
    RemoveDir {
        directory: Fid,
        name: Octets,
    },
    GiveUpCallBacks {
        fids: Fids,
        callbacks: CallBacks,
    },
    GetVolumeStatus {
        volume: u32,
    },
    GetTime,
    BulkStatus {
        fids: Fids,
    },
    CallBack {
        fids: Fids,
        callbacks: CallBacks,
    },
    InitCallBackState,
    Probe,
}

/// What a call with code 0 is answered, by its row.
#[derive(Drop)]
pub enum FsReply {
    FetchData {
        contents: Octets,
        status: AfsFetchStatus,
        callback: AfsCallBack,
        sync: AfsVolSync,
    },
    FetchAcl {
        acl: Octets,
        status: AfsFetchStatus,
        sync: AfsVolSync,
    },
    FetchStatus {
        status: AfsFetchStatus,
        callback: AfsCallBack,
        sync: AfsVolSync,
    },
    StoreData {
        status: AfsFetchStatus,
        sync: AfsVolSync,
    },
    StoreAcl {
        status: AfsFetchStatus,
        sync: AfsVolSync,
    },
    StoreStatus {
        status: AfsFetchStatus,
        sync: AfsVolSync,
    },
    RemoveFile {
        directory: AfsFetchStatus,
        sync: AfsVolSync,
    },
    CreateFile {
        fid: Fid,
        status: AfsFetchStatus,
        directory: AfsFetchStatus,
        callback: AfsCallBack,
        sync: AfsVolSync,
    },
    Rename {
        old_directory: AfsFetchStatus,
        new_directory: AfsFetchStatus,
        sync: AfsVolSync,
    },
    Symlink {
        fid: Fid,
        status: AfsFetchStatus,
        directory: AfsFetchStatus,
        sync: AfsVolSync,
    },
    Link {
        status: AfsFetchStatus,
        directory: AfsFetchStatus,
        sync: AfsVolSync,
    },
    MakeDir {
        fid: Fid,
        status: AfsFetchStatus,
        directory: AfsFetchStatus,
        callback: AfsCallBack,
        sync: AfsVolSync,
    },
    RemoveDir {
        directory: AfsFetchStatus,
        sync: AfsVolSync,
    },
    GiveUpCallBacks,
    GetVolumeStatus {
        volume: u32,
        kind: u32,
        quota: u32,
        blocks_used: u32,
        name: Octets,
    },
    GetTime {
        clock: u32,
        microseconds: u32,
    },
    BulkStatus {
        statuses: Statuses,
        callbacks: CallBacks,
        sync: AfsVolSync,
    },
    CallBack,
    InitCallBackState,
    Probe,
}
