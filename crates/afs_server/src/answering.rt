//! What a server answers to calls that change nothing on its disk.

ghost use Rattle.std.specs.Prelude.{◌≡◌, ◌≤◌, [], false, OnErr, OnOk};
ghost use Rattle.afs_num.specs.Nodes.{IsNode};
ghost use Rattle.spec_model.specs.Calls.{runs};
ghost use Rattle.spec_model.specs.Heads.{is_zero, IsSoundHead};
ghost use Rattle.spec_breaks.specs.Promises.{expired};
ghost use Rattle.spec_rows.specs.Callbacks.{gives_up_all};
ghost use Rattle.spec_rows.specs.ServerRow.{boot_told, given_up_read, read_reply_to, replied};
ghost use Rattle.afs_message.specs.Spelled.{IsSpelling};
ghost use Rattle.afs_server.specs.Answering.{repeated_turn, KeepsReply};
ghost use Rattle.afs_server.specs.Handling.{backs_then, Turns, AnswersNow, RefusesNow, ServesOver};
ghost use Rattle.afs_server_parts.specs.Turning.{sent_turn};
ghost use Rattle.afs_sharing.specs.Callers.{IsToRun};
ghost use Rattle.afs_sharing.specs.Lasting.{lasting_of};

use crate::server::FileServer;
use afs_callbacks::answering::Replied;
use afs_callees::replies::{key, reply};
use afs_disk::Disk;
use afs_message::spelled::SpelledMessage;
use afs_num::sequences::Octets;
use afs_num::types::{Fid, Head, Key, Mem};
use afs_server_parts::callers::Callers;
use afs_sharing::answering::is_last_change;
use afs_sharing::drawing::stand;
use afs_volstore::VolStore;
use spec_history::lines::Outs;

/// The reply to the call of this header, which ran, is kept. It takes no memory.
pub fn keep_reply(callers: &mut Callers, head: &Head, reply: Octets)
    requires runs { IsToRun head.now callers.old.seats }
    requires room { 1 ≤ callers.old.room }
    requires spelling { IsSpelling reply }
    ensures boot { callers.new.boot ≡ callers.old.boot }
    ensures seats { KeepsReply head.now reply callers.old.seats callers.new.seats }
{
    callers.answer(key(head), SpelledMessage::of_spelling(reply));
}

/// The reply to the call of this header, which ran, is kept.
fn keep_answer(callers: &mut Callers, head: &Head, reply: Octets) -> Mem<()>
    requires runs { IsToRun head.now callers.old.seats }
    requires spelling { IsSpelling reply }
    ensures boot { callers.new.boot ≡ callers.old.boot }
    ensures seats { OnOk result (KeepsReply head.now reply callers.old.seats callers.new.seats) }
    ensures err { OnErr result (callers.new.seats ≡ callers.old.seats) }
{
    callers.reserve(1)?;
    keep_reply(callers, head, reply);
    Ok(())
}

impl FileServer {
    /// A caller is told this server's boot number.
    pub(crate) fn tell_boot<D: Disk>(
        &mut self,
        store: &mut VolStore<D>,
        head: &Head,
        now: u32,
    ) -> Mem<Outs>
        requires serves { ServesOver self.old store.old }
        requires head { IsSoundHead head.now }
        ensures { Turns (sent_turn (boot_told store.old.durable.boot head.now) (backs_then self.old store.old now)) self.old self.new store.old store.new result }
    {
        let ended = self.callbacks().plan_boot_told(stand(store), head, now)?;
        let outs = self.keep_at(store, ended, now);
        Ok(outs)
    }

    /// A kept reply is asked again.
    pub(crate) fn repeat<D: Disk>(
        &mut self,
        store: &mut VolStore<D>,
        reply: SpelledMessage,
        now: u32,
    ) -> Mem<Outs>
        requires serves { ServesOver self.old store.old }
        requires node { IsNode reply.head.to }
        ensures { Turns (repeated_turn reply (lasting_of store.old.durable) (backs_then self.old store.old now)) self.old self.new store.old store.new result }
    {
        let good = is_last_change(store, &reply);
        let ended = self
            .callbacks()
            .plan_repeated(stand(store), reply, good, now)?;
        let outs = self.keep_at(store, ended, now);
        Ok(outs)
    }

    /// A call that runs is refused with this code.
    pub(crate) fn refuse<D: Disk>(
        &mut self,
        store: &mut VolStore<D>,
        head: &Head,
        code: i32,
        now: u32,
    ) -> Mem<Outs>
        requires serves { ServesOver self.old store.old }
        requires head { IsSoundHead head.now }
        requires runs { IsToRun head.now self.old.seats }
        requires code { is_zero code ≡ false }
        ensures { RefusesNow head.now code now self.old self.new store.old store.new result }
    {
        let replied = self
            .callbacks()
            .plan_refused(stand(store), head, code, now)?;
        let Replied { ended, kept } = replied;
        keep_answer(&mut self.callers, head, kept)?;
        let outs = self.keep_at(store, ended, now);
        Ok(outs)
    }

    /// A caller gives up its promises on these fids.
    pub(crate) fn give_up<D: Disk>(
        &mut self,
        store: &mut VolStore<D>,
        head: &Head,
        fids: &[Fid],
        now: u32,
    ) -> Mem<Outs>
        requires serves { ServesOver self.old store.old }
        requires head { IsSoundHead head.now }
        requires opcode { head.now.opcode ≡ 147 }
        requires runs { IsToRun head.now self.old.seats }
        ensures { AnswersNow head.now (read_reply_to store.old.durable.boot head.now 0 (given_up_read fids.now)) [] (gives_up_all head.now.from fids.now (expired now self.old.lists)) self.old self.new store.old store.new result }
    {
        let replied = self.callbacks().plan_given_up(stand(store), head, now)?;
        let Replied { ended, kept } = replied;
        keep_answer(&mut self.callers, head, kept)?;
        self.callbacks.give_up(head.from, fids, now);
        let outs = self.keep(store, ended);
        Ok(outs)
    }
}
