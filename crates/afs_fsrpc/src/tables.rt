//! The two tables: a row for each opcode, with the message's name and its fields in order, each of its kind.

ghost use Rattle.spec_model.specs.FsRows.{fs_calls, fs_replies};
ghost use Rattle.spec_model.proofs.FsMade.{calls_sound, replies_sound};

use afs_fields::messages::Messages;
use afs_fields::tables::{Shape, Table};
use afs_fields::{message_read, room_of, shape_of, table_of, written_of};
use afs_num::calls::{FsCall, FsReply};
use afs_num::types::Mem;
use afs_xdr::reading::Reader;
use afs_xdr::writing::Writer;
use spec_shape::faults::ShapeFault;
use std::alloc::Global;

/// A file's contents on the wire, in bytes.
pub const CONTENTS_LIMIT: u32 = 2_097_152;

/// A name in a directory, or of a volume, in bytes.
pub const NAME_LIMIT: u32 = 256;

/// An access list, in bytes.
pub const ACL_LIMIT: u32 = 1024;

/// What a symbolic link holds, in bytes.
pub const TARGET_LIMIT: u32 = 1024;

/// The fids, statuses or callbacks in a list.
pub const LIST_LIMIT: u32 = 50;

/// The calls, with the fields behind the user.
macro_rules! with_calls {
    ($arms:ident $value:tt) => {
        $arms! {
            $value
            [
                130 FetchData { fid: Fid, position: Signed, length: Signed },
                131 FetchAcl { fid: Fid },
                132 FetchStatus { fid: Fid },
                133 StoreData { fid: Fid, status: StoreStatus, position: Signed, length: Signed, file_length: Signed, contents: Opaque[CONTENTS_LIMIT] },
                134 StoreAcl { fid: Fid, acl: Opaque[ACL_LIMIT] },
                135 StoreStatus { fid: Fid, status: StoreStatus },
                136 RemoveFile { directory: Fid, name: Opaque[NAME_LIMIT] },
                137 CreateFile { directory: Fid, name: Opaque[NAME_LIMIT], status: StoreStatus },
                138 Rename { old_directory: Fid, old_name: Opaque[NAME_LIMIT], new_directory: Fid, new_name: Opaque[NAME_LIMIT] },
                139 Symlink { directory: Fid, name: Opaque[NAME_LIMIT], target: Opaque[TARGET_LIMIT], status: StoreStatus },
                140 Link { directory: Fid, name: Opaque[NAME_LIMIT], existing: Fid },
                141 MakeDir { directory: Fid, name: Opaque[NAME_LIMIT], status: StoreStatus },
                142 RemoveDir { directory: Fid, name: Opaque[NAME_LIMIT] },
                147 GiveUpCallBacks { fids: Fids[LIST_LIMIT], callbacks: CallBacks[LIST_LIMIT] },
                149 GetVolumeStatus { volume: Word },
                153 GetTime {},
                155 BulkStatus { fids: Fids[LIST_LIMIT] },
                204 CallBack { fids: Fids[LIST_LIMIT], callbacks: CallBacks[LIST_LIMIT] },
                205 InitCallBackState {},
                206 Probe {}
            ]
        }
    };
}

/// The replies, with the fields behind a code of 0.
macro_rules! with_replies {
    ($arms:ident $value:tt) => {
        $arms! {
            $value
            [
                130 FetchData { contents: Opaque[CONTENTS_LIMIT], status: FetchStatus, callback: CallBack, sync: VolSync },
                131 FetchAcl { acl: Opaque[ACL_LIMIT], status: FetchStatus, sync: VolSync },
                132 FetchStatus { status: FetchStatus, callback: CallBack, sync: VolSync },
                133 StoreData { status: FetchStatus, sync: VolSync },
                134 StoreAcl { status: FetchStatus, sync: VolSync },
                135 StoreStatus { status: FetchStatus, sync: VolSync },
                136 RemoveFile { directory: FetchStatus, sync: VolSync },
                137 CreateFile { fid: Fid, status: FetchStatus, directory: FetchStatus, callback: CallBack, sync: VolSync },
                138 Rename { old_directory: FetchStatus, new_directory: FetchStatus, sync: VolSync },
                139 Symlink { fid: Fid, status: FetchStatus, directory: FetchStatus, sync: VolSync },
                140 Link { status: FetchStatus, directory: FetchStatus, sync: VolSync },
                141 MakeDir { fid: Fid, status: FetchStatus, directory: FetchStatus, callback: CallBack, sync: VolSync },
                142 RemoveDir { directory: FetchStatus, sync: VolSync },
                147 GiveUpCallBacks {},
                149 GetVolumeStatus { volume: Word, kind: VolumeKind, quota: Word, blocks_used: Word, name: Opaque[NAME_LIMIT] },
                153 GetTime { clock: Word, microseconds: Word },
                155 BulkStatus { statuses: Statuses[LIST_LIMIT], callbacks: CallBacks[LIST_LIMIT], sync: VolSync },
                204 CallBack {},
                205 InitCallBackState {},
                206 Probe {}
            ]
        }
    };
}

pub const CALLS: Table<20, 8> = with_calls!(table_of());

pub const REPLIES: Table<20, 8> = with_replies!(table_of());

/// The calls of the interface.
pub struct FsCalls;

impl Messages for FsCalls {
    type Message = FsCall;

    ghost table = { fs_calls };

    ghost is_sound = { calls_sound };

    fn shape(opcode: u32) -> Result<Shape<8>, ShapeFault> {
        with_calls!(shape_of(opcode))
    }

    fn read(alloc: Global, opcode: u32, r: &mut Reader) -> Result<FsCall, ShapeFault> {
        with_calls!(message_read(opcode, alloc, r, FsCall))
    }

    fn room(call: &FsCall) -> usize {
        with_calls!(room_of(call, FsCall))
    }

    #[tactic(auto, using(spec_shape::proofs::Spellable::parts_spellable))]
    fn write(call: &FsCall, w: &mut Writer) -> Mem<()> {
        with_calls!(written_of(call, w, FsCall))
    }
}

/// Its replies.
pub struct FsReplies;

impl Messages for FsReplies {
    type Message = FsReply;

    ghost table = { fs_replies };

    ghost is_sound = { replies_sound };

    fn shape(opcode: u32) -> Result<Shape<8>, ShapeFault> {
        with_replies!(shape_of(opcode))
    }

    fn read(alloc: Global, opcode: u32, r: &mut Reader) -> Result<FsReply, ShapeFault> {
        with_replies!(message_read(opcode, alloc, r, FsReply))
    }

    fn room(reply: &FsReply) -> usize {
        with_replies!(room_of(reply, FsReply))
    }

    #[tactic(auto, using(spec_shape::proofs::Spellable::parts_spellable))]
    fn write(reply: &FsReply, w: &mut Writer) -> Mem<()> {
        with_replies!(written_of(reply, w, FsReply))
    }
}
