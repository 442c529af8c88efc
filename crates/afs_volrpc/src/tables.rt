//! The two tables: a row for each opcode, with the message's name and its fields in order, each of its kind.

ghost use Rattle.spec_model.specs.VolRows.{vol_calls, vol_replies};
ghost use Rattle.spec_model.proofs.VolMade.{calls_sound, replies_sound};

use afs_fields::messages::Messages;
use afs_fields::tables::{Shape, Table};
use afs_fields::{message_read, room_of, shape_of, table_of, written_of};
use afs_num::types::Mem;
use afs_num::volume_calls::{VolCall, VolReply};
use afs_xdr::reading::Reader;
use afs_xdr::writing::Writer;
use spec_shape::faults::ShapeFault;
use std::alloc::Global;

/// A piece of a dump, in bytes.
pub const PIECE_LIMIT: u32 = 33_554_432;

/// The name of a volume, in bytes.
pub const NAME_LIMIT: u32 = 32;

/// The volumes in a list.
pub const VOLUMES_LIMIT: u32 = 64;

/// The calls, with the fields behind the user.
macro_rules! with_calls {
    ($arms:ident $value:tt) => {
        $arms! {
            $value
            [
                100 CreateVolume { family: Word, volume: Word, name: Opaque[NAME_LIMIT], kind: VolumeKind, flags: Word, quota: Word },
                101 DeleteVolume { family: Word, transaction: Word },
                102 Restore { family: Word, transaction: Word, offset: Word, last: Word, piece: Opaque[PIECE_LIMIT] },
                103 Forward { family: Word, transaction: Word, from: Word, server: Server, its_transaction: Word },
                104 EndTrans { family: Word, transaction: Word },
                105 Clone { family: Word, transaction: Word, volume: Word, name: Opaque[NAME_LIMIT], kind: VolumeKind },
                106 SetFlags { family: Word, transaction: Word, flags: Word },
                107 GetFlags { family: Word, transaction: Word },
                108 TransCreate { family: Word, volume: Word, flags: Word },
                109 Dump { family: Word, transaction: Word, from: Word, offset: Word },
                111 SetForwarding { family: Word, transaction: Word, server: Server },
                113 GetStatus { family: Word, transaction: Word },
                116 ListVols { family: Word },
                120 ReClone { family: Word, transaction: Word, volume: Word }
            ]
        }
    };
}

/// The replies, with the fields behind a code of 0.
macro_rules! with_replies {
    ($arms:ident $value:tt) => {
        $arms! {
            $value
            [
                100 CreateVolume { transaction: Word },
                101 DeleteVolume {},
                102 Restore {},
                103 Forward {},
                104 EndTrans {},
                105 Clone { counter: Word, release: Word },
                106 SetFlags {},
                107 GetFlags { flags: Word },
                108 TransCreate { transaction: Word },
                109 Dump { last: Word, piece: Opaque[PIECE_LIMIT] },
                111 SetForwarding {},
                113 GetStatus { volume: Word, kind: VolumeKind, flags: Word, quota: Word, used: Word, counter: Word, release: Word },
                116 ListVols { volumes: Volumes[VOLUMES_LIMIT] },
                120 ReClone { counter: Word, release: Word }
            ]
        }
    };
}

pub const CALLS: Table<14, 8> = with_calls!(table_of());

pub const REPLIES: Table<14, 8> = with_replies!(table_of());

/// The calls of the interface.
pub struct VolCalls;

impl Messages for VolCalls {
    type Message = VolCall;

    ghost table = { vol_calls };

    ghost is_sound = { calls_sound };

    fn shape(opcode: u32) -> Result<Shape<8>, ShapeFault> {
        with_calls!(shape_of(opcode))
    }

    fn read(alloc: Global, opcode: u32, r: &mut Reader) -> Result<VolCall, ShapeFault> {
        with_calls!(message_read(opcode, alloc, r, VolCall))
    }

    fn room(call: &VolCall) -> usize {
        with_calls!(room_of(call, VolCall))
    }

    #[tactic(auto, using(spec_shape::proofs::Spellable::parts_spellable))]
    fn write(call: &VolCall, w: &mut Writer) -> Mem<()> {
        with_calls!(written_of(call, w, VolCall))
    }
}

/// Its replies.
pub struct VolReplies;

impl Messages for VolReplies {
    type Message = VolReply;

    ghost table = { vol_replies };

    ghost is_sound = { replies_sound };

    fn shape(opcode: u32) -> Result<Shape<8>, ShapeFault> {
        with_replies!(shape_of(opcode))
    }

    fn read(alloc: Global, opcode: u32, r: &mut Reader) -> Result<VolReply, ShapeFault> {
        with_replies!(message_read(opcode, alloc, r, VolReply))
    }

    fn room(reply: &VolReply) -> usize {
        with_replies!(room_of(reply, VolReply))
    }

    #[tactic(auto, using(spec_shape::proofs::Spellable::parts_spellable))]
    fn write(reply: &VolReply, w: &mut Writer) -> Mem<()> {
        with_replies!(written_of(reply, w, VolReply))
    }
}
