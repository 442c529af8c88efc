//! What the database answers where its disk is left alone.

ghost use Rattle.std.specs.Prelude.{◌≡◌, ◌∷◌, [], false, IfOk};
ghost use Rattle.spec_model.specs.Calls.{call_seat, paired, runs};
ghost use Rattle.spec_model.specs.Heads.{is_zero, IsSoundHead};
ghost use Rattle.spec_model.specs.Messages.{messages_spelled, parcels_read, HasSpelling};
ghost use Rattle.spec_rows.specs.LocRow.{drops, repeats, reply_to, tells_boot};
ghost use Rattle.spec_rows.specs.ServerRow.{refusal};
ghost use Rattle.afs_locdb.specs.Deciding.{IsReplyTo};
ghost use Rattle.afs_locdb.specs.Handling.{Answers, Does};
ghost use Rattle.afs_locdb.specs.Seen.{IsInBoot};

use crate::database::LocDb;
use afs_callees::replies::{key, notice, refusal};
use afs_disk::Disk;
use afs_message::spelled::{Sent, SpelledMessage};
use afs_num::location_calls::LocReply;
use afs_num::messages::{Carried, Message, Reply};
use afs_num::types::{Head, Mem, Parcels};
use spec_history::lines::{Lines, Outs};
use std::alloc::Global;

/// A reply of the database's interface.
pub(crate) fn reply_to(boot: u32, head: &Head, reply: LocReply) -> Message
    ensures { result ≡ reply_to boot head.now reply }
{
    Message {
        head: refusal(boot, head, 0).head,
        carried: Carried::Reply {
            reply: Reply::Location(reply),
        },
    }
}

/// One message goes out.
pub(crate) fn sent(alloc: Global, message: SpelledMessage) -> Mem<Parcels>
    ensures { IfOk result (λ ps. parcels_read ps ≡ messages_spelled (message ∷ [])) }
{
    let mut sent = Sent::new(alloc);
    sent.push(message)?;
    Ok(sent.into_parcels())
}

/// One message goes out, and nothing is told.
fn sends(alloc: Global, message: SpelledMessage) -> Mem<Outs>
    ensures sent { IfOk result (λ o. parcels_read o.parcels ≡ messages_spelled (message ∷ [])) }
    ensures lines { IfOk result (λ o. o.lines ≡ []) }
{
    Ok(Outs {
        parcels: sent(alloc, message)?,
        lines: Lines::new(alloc),
    })
}

impl<D: Disk> LocDb<D> {
    /// Nothing happens.
    pub(crate) fn pass(&mut self) -> Mem<Outs>
        requires { IsInBoot self.old }
        ensures { Does drops self.old self.new result }
    {
        Ok(Outs {
            parcels: Parcels::new(self.alloc),
            lines: Lines::new(self.alloc),
        })
    }

    /// A caller is told this node's boot number.
    pub(crate) fn tell_boot(&mut self, head: &Head) -> Mem<Outs>
        requires serves { IsInBoot self.old }
        requires head { IsSoundHead head.now }
        ensures { Does (tells_boot head.now) self.old self.new result }
    {
        let message = SpelledMessage::from_message(self.alloc, notice(self.boot_number(), head))?;
        sends(self.alloc, message)
    }

    /// A kept reply is asked again.
    pub(crate) fn repeat(&mut self, reply: SpelledMessage) -> Mem<Outs>
        requires { IsInBoot self.old }
        ensures { Does (repeats reply) self.old self.new result }
    {
        sends(self.alloc, reply)
    }

    /// A call that runs is answered with this message, which is kept in memory. What can fail comes first.
    fn answer(&mut self, head: &Head, message: Message) -> Mem<Outs>
        requires serves { IsInBoot self.old }
        requires spelling { HasSpelling message }
        requires runs { paired head.now.epoch head.now.number (call_seat head.now.from self.old.seats) ≡ runs }
        ensures { Answers head.now message self.old self.new result }
    {
        let reply = SpelledMessage::from_message(self.alloc, message)?;
        let outs = sends(self.alloc, reply.copy(self.alloc)?)?;
        self.callers.reserve(1)?;
        self.callers.answer(key(head), reply);
        Ok(outs)
    }

    /// A call that runs is refused with this code.
    pub(crate) fn refuse(&mut self, head: &Head, code: i32) -> Mem<Outs>
        requires serves { IsInBoot self.old }
        requires head { IsSoundHead head.now }
        requires runs { paired head.now.epoch head.now.number (call_seat head.now.from self.old.seats) ≡ runs }
        requires code { is_zero code ≡ false }
        ensures { Answers head.now (refusal self.old.store.durable.boot head.now code) self.old self.new result }
    {
        let message = refusal(self.boot_number(), head, code);
        self.answer(head, message)
    }

    /// A call that runs is shown this.
    pub(crate) fn show(&mut self, head: &Head, reply: LocReply) -> Mem<Outs>
        requires serves { IsInBoot self.old }
        requires head { IsSoundHead head.now }
        requires told { IsReplyTo head.now.opcode reply }
        requires runs { paired head.now.epoch head.now.number (call_seat head.now.from self.old.seats) ≡ runs }
        ensures { Answers head.now (reply_to self.old.store.durable.boot head.now reply) self.old self.new result }
    {
        let message = reply_to(self.boot_number(), head, reply);
        self.answer(head, message)
    }
}
