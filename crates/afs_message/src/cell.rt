//! The calls and the replies of all three interfaces, each by the table of its own. No two interfaces share an opcode.

ghost use Rattle.spec_model.specs.CellRows.{cell_calls, cell_replies};
ghost use Rattle.spec_model.proofs.CellMade.{calls_sound, replies_sound};

use afs_fields::messages::Messages;
use afs_fields::tables::Shape;
use afs_fsrpc::tables::{FsCalls, FsReplies};
use afs_num::messages::{Call, Reply};
use afs_num::types::Mem;
use afs_vlrpc::tables::{LocCalls, LocReplies};
use afs_volrpc::tables::{VolCalls, VolReplies};
use afs_xdr::reading::Reader;
use afs_xdr::writing::Writer;
use spec_shape::faults::ShapeFault;
use std::alloc::Global;

/// The calls of the cell.
pub struct CellCalls;

impl Messages for CellCalls {
    type Message = Call;

    ghost table = { cell_calls };

    ghost is_sound = { calls_sound };

    fn shape(opcode: u32) -> Result<Shape<8>, ShapeFault> {
        match FsCalls::shape(opcode) {
            Ok(shape) => Ok(shape),
            Err(_) => match VolCalls::shape(opcode) {
                Ok(shape) => Ok(shape),
                Err(_) => LocCalls::shape(opcode),
            },
        }
    }

    fn read(alloc: Global, opcode: u32, r: &mut Reader) -> Result<Call, ShapeFault> {
        match FsCalls::shape(opcode) {
            Ok(_) => {
                let call = FsCalls::read(alloc, opcode, r)?;
                Ok(Call::File(call))
            }
            Err(_) => match VolCalls::shape(opcode) {
                Ok(_) => {
                    let call = VolCalls::read(alloc, opcode, r)?;
                    Ok(Call::Volume(call))
                }
                Err(_) => {
                    let call = LocCalls::read(alloc, opcode, r)?;
                    Ok(Call::Location(call))
                }
            },
        }
    }

    fn room(call: &Call) -> usize {
        match call {
            Call::File(call) => FsCalls::room(call),
            Call::Volume(call) => VolCalls::room(call),
            Call::Location(call) => LocCalls::room(call),
        }
    }

    fn write(call: &Call, w: &mut Writer) -> Mem<()> {
        match call {
            Call::File(call) => FsCalls::write(call, w),
            Call::Volume(call) => VolCalls::write(call, w),
            Call::Location(call) => LocCalls::write(call, w),
        }
    }
}

/// Its replies.
pub struct CellReplies;

impl Messages for CellReplies {
    type Message = Reply;

    ghost table = { cell_replies };

    ghost is_sound = { replies_sound };

    fn shape(opcode: u32) -> Result<Shape<8>, ShapeFault> {
        match FsReplies::shape(opcode) {
            Ok(shape) => Ok(shape),
            Err(_) => match VolReplies::shape(opcode) {
                Ok(shape) => Ok(shape),
                Err(_) => LocReplies::shape(opcode),
            },
        }
    }

    fn read(alloc: Global, opcode: u32, r: &mut Reader) -> Result<Reply, ShapeFault> {
        match FsReplies::shape(opcode) {
            Ok(_) => {
                let reply = FsReplies::read(alloc, opcode, r)?;
                Ok(Reply::File(reply))
            }
            Err(_) => match VolReplies::shape(opcode) {
                Ok(_) => {
                    let reply = VolReplies::read(alloc, opcode, r)?;
                    Ok(Reply::Volume(reply))
                }
                Err(_) => {
                    let reply = LocReplies::read(alloc, opcode, r)?;
                    Ok(Reply::Location(reply))
                }
            },
        }
    }

    fn room(reply: &Reply) -> usize {
        match reply {
            Reply::File(reply) => FsReplies::room(reply),
            Reply::Volume(reply) => VolReplies::room(reply),
            Reply::Location(reply) => LocReplies::room(reply),
        }
    }

    fn write(reply: &Reply, w: &mut Writer) -> Mem<()> {
        match reply {
            Reply::File(reply) => FsReplies::write(reply, w),
            Reply::Volume(reply) => VolReplies::write(reply, w),
            Reply::Location(reply) => LocReplies::write(reply, w),
        }
    }
}
