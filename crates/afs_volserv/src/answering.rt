//! What a volume server answers to calls that change nothing on its disk.

ghost use Rattle.std.specs.Prelude.{◌≡◌, ◌<◌, ◌≤◌, ◌+◌, ◌++◌, ◌∷◌, [], false, length, true, IfOk, OnErr, OnOk};
ghost use Rattle.afs_num.specs.Nodes.{IsNode};
ghost use Rattle.spec_model.specs.Calls.{call_seat, call_seated};
ghost use Rattle.spec_model.specs.Heads.{IsSoundHead};
ghost use Rattle.spec_rows.specs.Callbacks.{held_under, is_seat_of, key_answered};
ghost use Rattle.spec_rows.specs.ServerRow.{seat_for};
ghost use Rattle.afs_voldecisions.specs.Replies.{answer_message, CanAnswer};
ghost use Rattle.afs_voldecisions.specs.Verdicts.{after_of};
ghost use Rattle.spec_volrows.specs.VolRow.{holds_of, last_after, transactions_after};
ghost use Rattle.spec_volrows.specs.VolSteps.{drops, held_vol, repeats, tells_boot};
ghost use Rattle.afs_volanswers.specs.Deciding.{answers_of, CanBecome};
ghost use Rattle.afs_volserv.specs.Handling.{backs_then, vol_turn_then, StepsVolumes};
ghost use Rattle.afs_volserv.specs.Seen.{CanRelease, HasRoom, ServesVolumes, StandsBeside};
ghost use Rattle.afs_volanswers.specs.Flagged.{AreAlone, AreFlagged};
ghost use Rattle.afs_volserv.specs.Sending.{again_then, sent_then, waits_again, waits_then, IsSent};
ghost use Rattle.afs_sharing.specs.Callers.{IsToRun};
ghost use Rattle.afs_sharing.specs.Lasting.{lasting_of};

use crate::ending::{keep_at, plan_sent};
use crate::holding::hold_instead;
use crate::server::VolServer;
use afs_callbacks::Callbacks;
use afs_callees::replies::{key, notice};
use afs_disk::Disk;
use afs_message::spelled::{Sent, SpelledMessage};
use afs_num::sequences::Sequence;
use afs_num::types::{Head, Mem};
use afs_server_parts::answering::{held_under, key_answered};
use afs_server_parts::ending::Ended;
use afs_server_parts::held::HeldReply;
use afs_server_parts::owed::alls;
use afs_sharing::answering::is_last_change;
use afs_voldecisions::replies::{Answer, answered};
use afs_voldecisions::transactions::{After, Transactions};
use afs_volstore::VolStore;
use spec_history::lines::Outs;

impl VolServer {
    /// These messages go out, and nothing else happens.
    fn send<D: Disk>(
        &mut self,
        store: &mut VolStore<D>,
        callbacks: &mut Callbacks,
        sent: Sent,
        now: u32,
    ) -> Mem<Outs>
        requires serves { ServesVolumes self.old store.old }
        requires beside { StandsBeside callbacks.old store.old }
        ensures { StepsVolumes (sent_then self.old callbacks.old store.old now sent) self.old self.new callbacks.old callbacks.new store.old store.new result }
    {
        let ended = plan_sent(store, callbacks, store.last_number(), sent, now)?;
        let outs = keep_at(store, callbacks, ended, now);
        Ok(outs)
    }

    /// This message goes out, and nothing else happens.
    fn send_one<D: Disk>(
        &mut self,
        store: &mut VolStore<D>,
        callbacks: &mut Callbacks,
        message: SpelledMessage,
        now: u32,
    ) -> Mem<Outs>
        requires serves { ServesVolumes self.old store.old }
        requires beside { StandsBeside callbacks.old store.old }
        ensures { StepsVolumes (sent_then self.old callbacks.old store.old now (message ∷ [])) self.old self.new callbacks.old callbacks.new store.old store.new result }
    {
        let mut sent = Sent::new(self.alloc);
        sent.push(message)?;
        let outs = self.send(store, callbacks, sent, now)?;
        Ok(outs)
    }

    /// Nothing happens but that time has passed.
    pub(crate) fn pass<D: Disk>(
        &mut self,
        store: &mut VolStore<D>,
        callbacks: &mut Callbacks,
        now: u32,
    ) -> Mem<Outs>
        requires serves { ServesVolumes self.old store.old }
        requires beside { StandsBeside callbacks.old store.old }
        ensures { StepsVolumes (vol_turn_then self.old callbacks.old store.old now drops) self.old self.new callbacks.old callbacks.new store.old store.new result }
    {
        let none = Sent::new(self.alloc);
        let outs = self.send(store, callbacks, none, now)?;
        Ok(outs)
    }

    /// A caller is told this server's boot number.
    pub(crate) fn tell_boot<D: Disk>(
        &mut self,
        store: &mut VolStore<D>,
        callbacks: &mut Callbacks,
        head: &Head,
        now: u32,
    ) -> Mem<Outs>
        requires serves { ServesVolumes self.old store.old }
        requires beside { StandsBeside callbacks.old store.old }
        requires head { IsSoundHead head.now }
        ensures { StepsVolumes (vol_turn_then self.old callbacks.old store.old now (tells_boot head.now)) self.old self.new callbacks.old callbacks.new store.old store.new result }
    {
        let message = notice(store.boot_number(), head);
        let told = SpelledMessage::from_message(self.alloc, message)?;
        let outs = self.send_one(store, callbacks, told, now)?;
        Ok(outs)
    }

    /// A kept reply waits for these breaks. It takes no memory.
    fn hold_again(&mut self, reply: SpelledMessage, waits: Sequence<u32>)
        requires { length self.old.held < self.old.room }
        ensures held { self.new ≡ record self.old { held = self.old.held ++ held_vol reply waits true ∷ []; room = self.new.room } }
        ensures release { CanRelease self.new }
    {
        self.held.hold(HeldReply {
            reply,
            waits,
            again: true,
        });
    }

    /// A kept reply waits for these breaks, and nothing is sent.
    fn wait_again<D: Disk>(
        &mut self,
        store: &mut VolStore<D>,
        callbacks: &mut Callbacks,
        reply: SpelledMessage,
        waits: Sequence<u32>,
        now: u32,
    ) -> Mem<Outs>
        requires serves { ServesVolumes self.old store.old }
        requires beside { StandsBeside callbacks.old store.old }
        requires room { HasRoom self.old store.old }
        ensures { StepsVolumes (waits_then self.old callbacks.old store.old now reply waits) self.old self.new callbacks.old callbacks.new store.old store.new result }
    {
        let none = Sent::new(self.alloc);
        let ended = plan_sent(store, callbacks, store.last_number(), none, now)?;
        self.hold_again(reply, waits);
        let outs = keep_at(store, callbacks, ended, now);
        Ok(outs)
    }

    /// A kept reply goes out, or waits for these breaks.
    fn give_again<D: Disk>(
        &mut self,
        store: &mut VolStore<D>,
        callbacks: &mut Callbacks,
        reply: SpelledMessage,
        waits: Sequence<u32>,
        now: u32,
    ) -> Mem<Outs>
        requires serves { ServesVolumes self.old store.old }
        requires beside { StandsBeside callbacks.old store.old }
        requires room { HasRoom self.old store.old }
        ensures { StepsVolumes (again_then self.old callbacks.old store.old now reply waits) self.old self.new callbacks.old callbacks.new store.old store.new result }
    {
        if waits.is_empty() {
            self.send_one(store, callbacks, reply, now)
        } else {
            self.wait_again(store, callbacks, reply, waits, now)
        }
    }

    /// For which breaks a kept reply waits that is asked again, if it is given at all: of one that waits nothing is sent, as the call is in
    /// progress. That of a call that changed something waits for the breaks on all.
    fn waits_again<D: Disk>(
        &self,
        store: &VolStore<D>,
        callbacks: &Callbacks,
        reply: &SpelledMessage,
        now: u32,
    ) -> Mem<Option<Sequence<u32>>>
        requires serves { ServesVolumes self.now store.now }
        requires node { IsNode reply.now.head.to }
        ensures { IfOk result (λ w. w ≡ waits_again (backs_then callbacks.now store.now now).lists.owed (held_under (key_answered reply.now) self.now.held) (is_seat_of reply.now (call_seat reply.now.head.to (lasting_of store.now.durable).kept))) }
    {
        let owed = callbacks.owed_at(now)?;
        match held_under(&key_answered(reply.head()), self.held.as_slice()) {
            Some(held) => {
                if held.again && held.is_ready(&owed) {
                    Ok(Some(Sequence::new(self.alloc)))
                } else {
                    Ok(None)
                }
            }
            None => {
                if is_last_change(store, reply) {
                    Ok(Some(alls(self.alloc, &owed)?))
                } else {
                    Ok(Some(Sequence::new(self.alloc)))
                }
            }
        }
    }

    /// A kept reply is asked again.
    pub(crate) fn repeat<D: Disk>(
        &mut self,
        store: &mut VolStore<D>,
        callbacks: &mut Callbacks,
        reply: SpelledMessage,
        now: u32,
    ) -> Mem<Outs>
        requires serves { ServesVolumes self.old store.old }
        requires beside { StandsBeside callbacks.old store.old }
        requires node { IsNode reply.head.to }
        requires room { HasRoom self.old store.old }
        ensures { StepsVolumes (vol_turn_then self.old callbacks.old store.old now (repeats reply)) self.old self.new callbacks.old callbacks.new store.old store.new result }
    {
        match self.waits_again(store, callbacks, &reply, now)? {
            Some(waits) => self.give_again(store, callbacks, reply, waits, now),
            None => self.pass(store, callbacks, now),
        }
    }

    /// The transactions once this has become of them.
    fn changed(&self, after: After) -> Mem<Transactions>
        ensures table { IfOk result (λ t. t.table ≡ transactions_after self.now.last (after_of after) self.now.transactions) }
        ensures last { IfOk result (λ t. t.last ≡ last_after self.now.last (after_of after)) }
    {
        let mut transactions = self.transactions.copy(self.alloc)?;
        transactions.change(after)?;
        Ok(transactions)
    }

    /// What comes of it that this message goes out.
    fn plan_one<D: Disk>(
        &self,
        store: &VolStore<D>,
        callbacks: &Callbacks,
        message: &SpelledMessage,
        now: u32,
    ) -> Mem<Ended>
        requires { StandsBeside callbacks.now store.now }
        ensures { IfOk result (IsSent now store.now.drawn (message.now ∷ []) callbacks.now store.now) }
    {
        let mut sent = Sent::new(self.alloc);
        sent.push(message.copy(self.alloc)?)?;
        let ended = plan_sent(store, callbacks, store.last_number(), sent, now)?;
        Ok(ended)
    }

    /// The call of this header, which ran, has ended with this reply, which is kept, and these are the transactions after it.
    fn end_call<D: Disk>(
        &mut self,
        store: &mut VolStore<D>,
        head: &Head,
        reply: SpelledMessage,
        transactions: Transactions,
    ) -> Mem<()>
        requires runs { IsToRun head.now self.old.seats }
        requires holds { store.old.holds.table ≡ holds_of self.old.transactions }
        requires alone { AreAlone self.old.transactions }
        requires flagged { AreFlagged transactions.table }
        requires few { length transactions.table ≤ length self.old.transactions + 1 }
        requires room { 0 < store.old.holds.room }
        ensures ok { OnOk result (self.new ≡ record self.old { seats = call_seated (seat_for head.now reply) self.old.seats; transactions = transactions.table; last = transactions.last }) }
        ensures err { OnErr result (self.new ≡ self.old) }
        ensures holds { OnOk result (store.new.holds.table ≡ holds_of transactions.table) }
        ensures rest { OnOk result (store.new ≡ record store.old { holds = store.new.holds }) }
        ensures store { OnErr result (store.new ≡ store.old) }
    {
        self.callers.reserve(1)?;
        self.callers.answer(key(head), reply);
        hold_instead(store, &self.transactions, &transactions);
        self.transactions = transactions;
        Ok(())
    }

    /// A call that runs is answered so, and nothing is written; then this becomes of the transactions.
    pub(crate) fn answer<D: Disk>(
        &mut self,
        store: &mut VolStore<D>,
        callbacks: &mut Callbacks,
        head: &Head,
        answer: Answer,
        after: After,
        now: u32,
    ) -> Mem<Outs>
        requires serves { ServesVolumes self.old store.old }
        requires beside { StandsBeside callbacks.old store.old }
        requires head { IsSoundHead head.now }
        requires runs { IsToRun head.now self.old.seats }
        requires can { CanAnswer head.now.opcode answer }
        requires becomes { CanBecome store.old.durable self.old.last (after_of after) self.old.transactions }
        requires room { HasRoom self.old store.old }
        ensures { StepsVolumes (vol_turn_then self.old callbacks.old store.old now (answers_of store.old.durable.boot head.now self.old.transactions self.old.last (after_of after) (answer_message store.old.durable.boot head.now answer))) self.old self.new callbacks.old callbacks.new store.old store.new result }
    {
        let transactions = self.changed(after)?;
        let reply = answered(self.alloc, store.boot_number(), head, answer)?;
        let ended = self.plan_one(store, callbacks, &reply, now)?;
        self.end_call(store, head, reply, transactions)?;
        let outs = keep_at(store, callbacks, ended, now);
        Ok(outs)
    }
}
