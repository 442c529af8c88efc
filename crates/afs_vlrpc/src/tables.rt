//! The two tables: a row for each opcode, with the message's name and its fields in order, each of its kind.

ghost use Rattle.spec_model.specs.LocRows.{loc_calls, loc_replies};
ghost use Rattle.spec_model.proofs.LocMade.{calls_sound, replies_sound};

use afs_fields::messages::Messages;
use afs_fields::tables::{Shape, Table};
use afs_fields::{message_read, room_of, shape_of, table_of, written_of};
use afs_num::location_calls::{LocCall, LocReply};
use afs_num::types::Mem;
use afs_xdr::reading::Reader;
use afs_xdr::writing::Writer;
use spec_shape::faults::ShapeFault;
use std::alloc::Global;

/// The name of a volume, in bytes.
pub const NAME_LIMIT: u32 = 32;

/// The calls, with the fields behind the user.
macro_rules! with_calls {
    ($arms:ident $value:tt) => {
        $arms! {
            $value
            [
                501 CreateEntry { entry: Entry },
                502 DeleteEntry { volume: Word },
                503 GetEntryById { volume: Word },
                504 GetEntryByName { name: Opaque[NAME_LIMIT] },
                505 GetNewVolumeId {},
                506 ReplaceEntry { volume: Word, entry: Entry },
                508 SetLock { volume: Word, operation: Word, force: Word },
                509 ReleaseLock { volume: Word },
                510 ListEntry { index: Word }
            ]
        }
    };
}

/// The replies, with the fields behind a code of 0.
macro_rules! with_replies {
    ($arms:ident $value:tt) => {
        $arms! {
            $value
            [
                501 CreateEntry { stamp: Word },
                502 DeleteEntry {},
                503 GetEntryById { entry: Entry },
                504 GetEntryByName { entry: Entry },
                505 GetNewVolumeId { volume: Word },
                506 ReplaceEntry {},
                508 SetLock { stamp: Word, entry: Entry },
                509 ReleaseLock {},
                510 ListEntry { next_index: Word, entry: Entry }
            ]
        }
    };
}

pub const CALLS: Table<9, 8> = with_calls!(table_of());

pub const REPLIES: Table<9, 8> = with_replies!(table_of());

/// The calls of the interface.
pub struct LocCalls;

impl Messages for LocCalls {
    type Message = LocCall;

    ghost table = { loc_calls };

    ghost is_sound = { calls_sound };

    fn shape(opcode: u32) -> Result<Shape<8>, ShapeFault> {
        with_calls!(shape_of(opcode))
    }

    fn read(alloc: Global, opcode: u32, r: &mut Reader) -> Result<LocCall, ShapeFault> {
        with_calls!(message_read(opcode, alloc, r, LocCall))
    }

    fn room(call: &LocCall) -> usize {
        with_calls!(room_of(call, LocCall))
    }

    #[tactic(auto, using(spec_shape::proofs::Spellable::parts_spellable))]
    fn write(call: &LocCall, w: &mut Writer) -> Mem<()> {
        with_calls!(written_of(call, w, LocCall))
    }
}

/// Its replies.
pub struct LocReplies;

impl Messages for LocReplies {
    type Message = LocReply;

    ghost table = { loc_replies };

    ghost is_sound = { replies_sound };

    fn shape(opcode: u32) -> Result<Shape<8>, ShapeFault> {
        with_replies!(shape_of(opcode))
    }

    fn read(alloc: Global, opcode: u32, r: &mut Reader) -> Result<LocReply, ShapeFault> {
        with_replies!(message_read(opcode, alloc, r, LocReply))
    }

    fn room(reply: &LocReply) -> usize {
        with_replies!(room_of(reply, LocReply))
    }

    #[tactic(auto, using(spec_shape::proofs::Spellable::parts_spellable))]
    fn write(reply: &LocReply, w: &mut Writer) -> Mem<()> {
        with_replies!(written_of(reply, w, LocReply))
    }
}
