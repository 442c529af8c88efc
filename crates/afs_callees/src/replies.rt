//! What a server's replies say.

ghost use Rattle.spec_model.specs.Calls.{key_of};
ghost use Rattle.std.specs.Prelude.{◌≡◌, map, IfOk};
ghost use Rattle.afs_num.specs.declared.calls.AfsCallBack.{AfsCallBack};
ghost use Rattle.spec_rows.specs.ServerRow.{boot_told, promise_until, promised_in, read_reply_to, refusal, replied, reply_head};
ghost use Rattle.afs_num.specs.declared.messages.Carried.TheVariants as carried;
ghost use Rattle.afs_num.specs.declared.messages.Reply.TheVariants as tell;

use afs_num::calls::{AfsCallBack, CallBacks, FsReply};
use afs_num::messages::{Carried, Message, Reply};
use afs_num::types::{Code, Half, Head, Key, Mem};
use std::alloc::Global;

/// The header of the reply to a call.
fn head_of_reply(boot: u32, head: &Head) -> Head
    ensures { result ≡ reply_head boot head.now }
{
    Head {
        half: Half::Reply,
        from: head.to,
        to: head.from,
        epoch: head.epoch,
        number: head.number,
        boot,
        stamp: 0,
        opcode: head.opcode,
    }
}

pub fn key(head: &Head) -> Key
    ensures { result ≡ key_of head.now }
{
    Key {
        node: head.from,
        epoch: head.epoch,
        number: head.number,
    }
}

pub fn refusal(boot: u32, head: &Head, code: i32) -> Message
    ensures { result ≡ refusal boot head.now code }
{
    Message {
        head: head_of_reply(boot, head),
        carried: Carried::Refusal { code: Code(code) },
    }
}

/// The notice of this server's boot number.
pub fn notice(boot: u32, head: &Head) -> Message
    ensures { result ≡ boot_told boot head.now }
{
    let mut head = head_of_reply(boot, head);
    head.half = Half::Boot;
    Message {
        head,
        carried: Carried::Notice,
    }
}

/// A reply of this server's interface.
pub fn reply(boot: u32, head: &Head, reply: FsReply) -> Message
    ensures { result ≡ replied boot head.now (carried.Reply (tell.File reply)) }
{
    Message {
        head: head_of_reply(boot, head),
        carried: Carried::Reply {
            reply: Reply::File(reply),
        },
    }
}

/// A shared promise, until the clock reaches the expiry.
fn promise(expiry: u32) -> AfsCallBack
    ensures { result ≡ promise_until expiry }
{
    AfsCallBack {
        version: 1,
        expiration_time: expiry,
        kind: 2,
    }
}

/// As many promises as there are places for them.
fn promises(alloc: Global, places: &[AfsCallBack], expiry: u32) -> Mem<CallBacks>
    ensures { IfOk result (λ cs. cs ≡ map (λ (c : AfsCallBack). promise_until expiry) places.now) }
{
    let mut promises = CallBacks::new(alloc);
    for _place in places {
        promises.push(promise(expiry))?;
    }
    Ok(promises)
}

/// The reply, with the server's promise where it has a place for one.
pub fn promised(alloc: Global, reply: FsReply, expiry: u32) -> Mem<FsReply>
    ensures { IfOk result (λ r. r ≡ promised_in expiry reply) }
{
    match reply {
        FsReply::FetchData {
            contents,
            status,
            callback: _,
            sync,
        } => Ok(FsReply::FetchData {
            contents,
            status,
            callback: promise(expiry),
            sync,
        }),
        FsReply::FetchStatus {
            status,
            callback: _,
            sync,
        } => Ok(FsReply::FetchStatus {
            status,
            callback: promise(expiry),
            sync,
        }),
        FsReply::BulkStatus {
            statuses,
            callbacks,
            sync,
        } => Ok(FsReply::BulkStatus {
            statuses,
            callbacks: promises(alloc, callbacks.as_slice(), expiry)?,
            sync,
        }),
        FsReply::CreateFile {
            fid,
            status,
            directory,
            callback: _,
            sync,
        } => Ok(FsReply::CreateFile {
            fid,
            status,
            directory,
            callback: promise(expiry),
            sync,
        }),
        FsReply::MakeDir {
            fid,
            status,
            directory,
            callback: _,
            sync,
        } => Ok(FsReply::MakeDir {
            fid,
            status,
            directory,
            callback: promise(expiry),
            sync,
        }),
        other => Ok(other),
    }
}
