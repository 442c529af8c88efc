//! What a volume server does with a message.

ghost use Rattle.std.specs.Prelude.{◌≡◌, ◌≤◌, ◌+◌, ◌++◌, ℕ, List, false, true, None, Some, map, IsErrOf, OnOk};
ghost use Rattle.std.specs.Option.{option_copied};
ghost use Rattle.afs_num.specs.declared.messages.Received.TheVariants as receives;
ghost use Rattle.afs_num.specs.declared.records.StoreRecord as records;
ghost use Rattle.afs_disk.specs.Words.{SameDiskBy, LeavesOnlyBy, TellsOn, CallsAtMost};
ghost use Rattle.spec_history.specs.declared.lines.Line.{Line};
ghost use Rattle.afs_journal.specs.Records.{whole_records};
ghost use Rattle.afs_journal.specs.Words.{SameCountsBy, LeavesByPickOf, ReachesBy};
ghost use Rattle.afs_server_parts.specs.Heard.{IsUnder};
ghost use Rattle.spec_fold.specs.Effects.{effect_of};
ghost use Rattle.spec_fold.specs.Fold.{folded};
ghost use Rattle.afs_memory.specs.Telling.{in_words};
ghost use Rattle.spec_model.specs.Calls.{call_seat, paired};
ghost use Rattle.spec_model.specs.Heads.{IsSoundHead};
ghost use Rattle.spec_model.specs.Messages.{received_by, HasSpelling, IsSoundReceived};
ghost use Rattle.spec_records.specs.Durable.{Durable};
ghost use Rattle.spec_records.specs.Records.{record_bytes, FitsRecord};
ghost use Rattle.spec_rows.specs.States.{ServerState};
ghost use Rattle.spec_volrows.specs.VolSteps.{drops, vol_begun_after, vol_called, vol_device_calls, VolDecision};
ghost use Rattle.afs_volstore.specs.Stores.{LeftAround};
ghost use Rattle.afs_server_parts.specs.declared.faults.NodeFault.TheVariants as faults;
ghost use Rattle.afs_volanswers.specs.Deciding.{call_in, decision_of, full_then, leaves_disk, CanBeDone, IsAskedBy, IsOfCaller, Runs};
ghost use Rattle.afs_volserv.specs.Handling.{vol_answered_then, vol_calls_served, vol_decided, vol_decided_then, vol_noticed_then, vol_record, vol_turn_then, vol_turned_by, vol_turned_then, DrawsFew, HandlesVolumes, StaysInOrder, StepsVolumes, TookVolumes};
ghost use Rattle.afs_volserv.specs.Seen.{durable_seen, vol_seen, CanDraw, CanStep, HasRoom, ServesVolumes, StandsBeside};
ghost use Rattle.afs_sharing.specs.Stores.{IsKeptBehind, LeavesPrepared};
ghost use Rattle.afs_saving.specs.Saving.{IsQuiet, IsWritten, Ran};
ghost use Rattle.afs_sharing.specs.Lasting.{lasting_of};

use crate::server::VolServer;
use afs_callbacks::Callbacks;
use afs_disk::Disk;
use afs_message::messages::read_message;
use afs_num::messages::{Call, Carried, Message, Received};
use afs_num::types::{Code, Head, Mem};
use afs_num::volume_calls::VolCall;
use afs_server_parts::faults::NodeFault;
use afs_volanswers::answers::CALLS;
use afs_volanswers::decided::Decided;
use afs_volstore::VolStore;
use spec_history::lines::Outs;

/// The call of the volume server's interface that was received.
fn volume_call(received: &Received) -> Option<&VolCall>
    ensures { option_copied result ≡ call_in received.entry.now }
{
    match received {
        Received::Whole { message } => match &message.carried {
            Carried::Call {
                call: Call::Volume(call),
                ..
            } => Some(call),
            _ => None,
        },
        _ => None,
    }
}

/// The number of a code.
fn number_of(code: &Code) -> i32
    ensures { result ≡ code.now.0 }
{
    code.0
}

/// Whether what is decided leaves the disk as it is.
fn leaves_disk(decided: &Decided) -> bool
    ensures { result ≡ leaves_disk decided.now }
{
    match decided {
        Decided::Saves(..) => false,
        _ => true,
    }
}

impl VolServer {
    /// What is decided on the call of this header is done, where that leaves the disk as it is.
    fn answer_decided<D: Disk>(
        &mut self,
        store: &mut VolStore<D>,
        callbacks: &mut Callbacks,
        head: &Head,
        decided: Decided,
        now: u32,
    ) -> Mem<Outs>
        requires can { CanStep self.old callbacks.old store.old }
        requires head { IsSoundHead head.now }
        requires done { CanBeDone store.old.durable (vol_seen self.old) head.now.opcode decided }
        requires runs { Runs decided (paired head.now.epoch head.now.number (call_seat head.now.from self.old.seats)) }
        requires leaves { leaves_disk decided ≡ true }
        ensures { (full : VolDecision) →
            StepsVolumes (vol_turn_then self.old callbacks.old store.old now (decision_of (durable_seen store.old) (vol_seen self.old) head.now full decided)) self.old self.new callbacks.old callbacks.new store.old store.new result }
    {
        match decided {
            Decided::Drops => self.pass(store, callbacks, now),
            Decided::TellsBoot => self.tell_boot(store, callbacks, head, now),
            Decided::Repeats(reply) => self.repeat(store, callbacks, reply, now),
            Decided::Answers(answer, after) => {
                self.answer(store, callbacks, head, answer, after, now)
            }
            Decided::Dispatches(dispatch) => {
                self.dispatch(store, callbacks, head, dispatch, now)
            }
            Decided::Saves(..) => unreachable!(),
        }
    }

    /// What is decided on the call of this header is done, where that leaves the disk as it is.
    fn take_answered<D: Disk>(
        &mut self,
        store: &mut VolStore<D>,
        callbacks: &mut Callbacks,
        head: &Head,
        decided: Decided,
        now: u32,
    ) -> Result<Outs, NodeFault>
        requires can { CanStep self.old callbacks.old store.old }
        requires head { IsSoundHead head.now }
        requires done { CanBeDone store.old.durable (vol_seen self.old) head.now.opcode decided }
        requires runs { Runs decided (paired head.now.epoch head.now.number (call_seat head.now.from self.old.seats)) }
        requires leaves { leaves_disk decided ≡ true }
        ensures { (full : VolDecision) →
            let d = decision_of (durable_seen store.old) (vol_seen self.old) head.now full decided in
            TookVolumes D.Disk d (vol_turn_then self.old callbacks.old store.old now d) self.old self.new callbacks.old callbacks.new store.old store.new result }
    {
        let outs = self.answer_decided(store, callbacks, head, decided, now)?;
        Ok(outs)
    }

    /// What is decided to be written is put on the disk.
    fn save_decided<D: Disk>(
        &mut self,
        store: &mut VolStore<D>,
        callbacks: &mut Callbacks,
        head: &Head,
        received: &Received,
        decided: Decided,
        now: u32,
    ) -> Result<Outs, NodeFault>
        requires can { CanStep self.old callbacks.old store.old }
        requires head { IsSoundHead head.now }
        requires under { IsUnder head.now received.now }
        requires done { CanBeDone store.old.durable (vol_seen self.old) head.now.opcode decided }
        requires runs { Runs decided (paired head.now.epoch head.now.number (call_seat head.now.from self.old.seats)) }
        requires asked { IsAskedBy received.now decided }
        requires caller { IsOfCaller head.now decided }
        requires saves { leaves_disk decided ≡ false }
        ensures { let d = decision_of (durable_seen store.old) (vol_seen self.old) head.now (full_then (durable_seen store.old) (vol_seen self.old) head.now received.now) decided in
            TookVolumes D.Disk d (vol_turn_then self.old callbacks.old store.old now d) self.old self.new callbacks.old callbacks.new store.old store.new result }
    {
        let Decided::Saves(saving) = decided else {
            unreachable!()
        };
        let Some(call) = volume_call(received) else {
            unreachable!()
        };
        self.save(store, callbacks, head, call, saving, now)
    }

    /// What is decided on the call of this header is done.
    fn take_decided<D: Disk>(
        &mut self,
        store: &mut VolStore<D>,
        callbacks: &mut Callbacks,
        head: &Head,
        received: &Received,
        decided: Decided,
        now: u32,
    ) -> Result<Outs, NodeFault>
        requires can { CanStep self.old callbacks.old store.old }
        requires head { IsSoundHead head.now }
        requires under { IsUnder head.now received.now }
        requires done { CanBeDone store.old.durable (vol_seen self.old) head.now.opcode decided }
        requires runs { Runs decided (paired head.now.epoch head.now.number (call_seat head.now.from self.old.seats)) }
        requires asked { IsAskedBy received.now decided }
        requires caller { IsOfCaller head.now decided }
        ensures { let d = decision_of (durable_seen store.old) (vol_seen self.old) head.now (full_then (durable_seen store.old) (vol_seen self.old) head.now received.now) decided in
            TookVolumes D.Disk d (vol_turn_then self.old callbacks.old store.old now d) self.old self.new callbacks.old callbacks.new store.old store.new result }
    {
        if leaves_disk(&decided) {
            self.take_answered(store, callbacks, head, decided, now)
        } else {
            self.save_decided(store, callbacks, head, received, decided, now)
        }
    }

    /// A call has come, with this header.
    fn take_call<D: Disk>(
        &mut self,
        store: &mut VolStore<D>,
        callbacks: &mut Callbacks,
        head: &Head,
        received: &Received,
        now: u32,
    ) -> Result<Outs, NodeFault>
        requires can { CanStep self.old callbacks.old store.old }
        requires head { IsSoundHead head.now }
        requires under { IsUnder head.now received.now }
        ensures { let d = vol_called store.old.node (durable_seen store.old) (vol_seen self.old) head.now received.now in
            TookVolumes D.Disk d (vol_turn_then self.old callbacks.old store.old now d) self.old self.new callbacks.old callbacks.new store.old store.new result }
    {
        let decided = self.called(store, head, received)?;
        self.take_decided(store, callbacks, head, received, decided, now)
    }

    /// No message was found.
    fn take_nothing<D: Disk>(
        &mut self,
        store: &mut VolStore<D>,
        callbacks: &mut Callbacks,
        now: u32,
    ) -> Result<Outs, NodeFault>
        requires can { CanStep self.old callbacks.old store.old }
        ensures { TookVolumes D.Disk drops (vol_turn_then self.old callbacks.old store.old now drops) self.old self.new callbacks.old callbacks.new store.old store.new result }
    {
        let outs = self.pass(store, callbacks, now)?;
        Ok(outs)
    }

    /// A refusal with this code has come, or a reply, which has the code 0.
    fn take_reply<D: Disk>(
        &mut self,
        store: &mut VolStore<D>,
        callbacks: &mut Callbacks,
        head: &Head,
        code: i32,
        now: u32,
    ) -> Result<Outs, NodeFault>
        requires can { CanStep self.old callbacks.old store.old }
        ensures { TookVolumes D.Disk drops (vol_answered_then self.old callbacks.old store.old now head.now code) self.old self.new callbacks.old callbacks.new store.old store.new result }
    {
        let outs = self.hear_answer(store, callbacks, head, code, now)?;
        Ok(outs)
    }

    /// A notice has come, with this header.
    fn take_notice<D: Disk>(
        &mut self,
        store: &mut VolStore<D>,
        callbacks: &mut Callbacks,
        head: &Head,
        now: u32,
    ) -> Result<Outs, NodeFault>
        requires can { CanStep self.old callbacks.old store.old }
        ensures { TookVolumes D.Disk drops (vol_noticed_then self.old callbacks.old store.old now head.now) self.old self.new callbacks.old callbacks.new store.old store.new result }
    {
        let outs = self.hear_notice(store, callbacks, head, now)?;
        Ok(outs)
    }

    /// A message has come that can be read, as this.
    fn take_whole<D: Disk>(
        &mut self,
        store: &mut VolStore<D>,
        callbacks: &mut Callbacks,
        received: &Received,
        message: &Message,
        now: u32,
    ) -> Result<Outs, NodeFault>
        requires can { CanStep self.old callbacks.old store.old }
        requires whole { received.now ≡ receives.Whole message.now }
        requires sound { HasSpelling message.now }
        ensures { TookVolumes D.Disk (vol_decided self.old store.old received.now) (vol_turned_by self.old callbacks.old store.old now received.now) self.old self.new callbacks.old callbacks.new store.old store.new result }
    {
        let head = &message.head;
        match &message.carried {
            Carried::Call { .. } => self.take_call(store, callbacks, head, received, now),
            Carried::Reply { .. } => self.take_reply(store, callbacks, head, 0, now),
            Carried::Refusal { code } => {
                let number = number_of(code);
                self.take_reply(store, callbacks, head, number, now)
            }
            Carried::Notice => self.take_notice(store, callbacks, head, now),
        }
    }

    /// This was found in the bytes of a message.
    fn take<D: Disk>(
        &mut self,
        store: &mut VolStore<D>,
        callbacks: &mut Callbacks,
        received: &Received,
        now: u32,
    ) -> Result<Outs, NodeFault>
        requires can { CanStep self.old callbacks.old store.old }
        requires sound { IsSoundReceived received.now }
        ensures { TookVolumes D.Disk (vol_decided self.old store.old received.now) (vol_turned_by self.old callbacks.old store.old now received.now) self.old self.new callbacks.old callbacks.new store.old store.new result }
    {
        match received {
            Received::Nothing => self.take_nothing(store, callbacks, now),
            Received::Unserved { head } => self.take_call(store, callbacks, head, received, now),
            Received::Unreadable { head } => {
                self.take_call(store, callbacks, head, received, now)
            }
            Received::Whole { message } => {
                self.take_whole(store, callbacks, received, message, now)
            }
        }
    }

    /// These are the bytes of a message.
    fn take_bytes<D: Disk>(
        &mut self,
        store: &mut VolStore<D>,
        callbacks: &mut Callbacks,
        bytes: &[u8],
        now: u32,
    ) -> Result<Outs, NodeFault>
        requires can { CanStep self.old callbacks.old store.old }
        ensures { TookVolumes D.Disk (vol_decided_then self.old store.old bytes.now) (vol_turned_then self.old callbacks.old store.old now bytes.now) self.old self.new callbacks.old callbacks.new store.old store.new result }
    {
        let received = read_message(self.alloc, &CALLS, bytes)?;
        self.take(store, callbacks, &received, now)
    }

    /// What the server does with one message, at this time in ticks. It isn't told the message's place in the run, and leaves out the line
    /// of that. A step makes at most one record. Replies that waited for breaks go out behind it, by `release`. Where memory was wanting, the
    /// step's record may be left prepared, which does nothing: a step commits what it prepared itself. A server that goes down is to be thrown
    /// away: its disk keeps what it kept before the step, or what it keeps after it.
    pub fn handle<D: Disk>(
        &mut self,
        store: &mut VolStore<D>,
        callbacks: &mut Callbacks,
        bytes: &[u8],
        now: u32,
    ) -> Result<Outs, NodeFault>
        requires serves { ServesVolumes self.old store.old }
        requires beside { StandsBeside callbacks.old store.old }
        requires draws { CanDraw callbacks.old }
        requires room { HasRoom self.old store.old }
        requires up { store.old.closed ≡ false }
        ensures step { HandlesVolumes (vol_turned_then self.old callbacks.old store.old now bytes.now) self.old self.new callbacks.old callbacks.new store.old store.new result }

        // What both servers of the node keep stays in order, and replies can go out.
        ensures order { OnOk result (StaysInOrder self.old self.new callbacks.new store.new) }
        ensures draws { OnOk result (DrawsFew callbacks.old callbacks.new store.old store.new) }

        // A disk that tells goes on telling, whatever the result.
        ensures told { TellsOn D.Disk store.old.disk store.new.disk }

        ensures store { OnOk result (store.new ≡ record store.old { durable = store.new.durable; disk = store.new.disk; prepared = store.new.prepared; count = store.new.count; drawn = store.new.drawn; holds = store.new.holds }) }
        ensures kept { OnOk result (IsKeptBehind (vol_record (vol_decided_then self.old store.old bytes.now)) store.old store.new) }

        // It leaves no record prepared but what was there before: one that it writes is no more, and only want of memory may leave it.
        ensures prepared { LeavesPrepared (vol_record (vol_decided_then self.old store.old bytes.now)) store.old store.new result }

        // Where the disk fails, what may be left with the record is what the row leaves behind it, whatever the file server's state besides.
        ensures down { IsErrOf result faults.Down → vol_record (vol_decided_then self.old store.old bytes.now) ≡ None → ⊥ }
        ensures interrupted { IsErrOf result faults.Down → (r : records.StoreRecord) → vol_record (vol_decided_then self.old store.old bytes.now) ≡ Some r → (e : Durable) → folded r store.old.durable ≡ Some e
            → (f : ServerState) → f.lasting ≡ lasting_of store.old.durable → lasting_of e ≡ (vol_begun_after store.old.node f (vol_decided_then self.old store.old bytes.now)).state.lasting }

        // Without a record the disk is left alone.
        ensures quiet { IsQuiet (vol_record (vol_decided_then self.old store.old bytes.now)) result
            → SameDiskBy D.Disk store.old.disk store.new.disk
            × SameCountsBy D.Disk store.old.disk store.new.disk }

        // Else a crash at any moment leaves what was kept before, or what is kept with this record.
        ensures any_moment { (r : records.StoreRecord) → IsWritten r (vol_record (vol_decided_then self.old store.old bytes.now)) result
            → (bytes : List ℕ) → D.seen store.old.disk ≡ Some bytes → LeavesOnlyBy D.Disk store.old.disk store.new.disk (LeftAround (whole_records bytes) r store.old.durable) }

        // Where the disk was set to stop or to fail at one of the calls, that one tells what a crash with each pick leaves.
        ensures reached { IsErrOf result faults.Down → ReachesBy D.Disk store.old.disk store.new.disk }
        ensures left { IsErrOf result faults.Down → (r : records.StoreRecord) → vol_record (vol_decided_then self.old store.old bytes.now) ≡ Some r
            → (bytes : List ℕ) → D.seen store.old.disk ≡ Some bytes → LeavesByPickOf D.Disk (whole_records bytes) (record_bytes r) store.old.disk store.new.disk }

        ensures fits { (r : records.StoreRecord) → IsWritten r (vol_record (vol_decided_then self.old store.old bytes.now)) result → FitsRecord r }

        // What a restart tells of this record is what the row tells then of the step.
        ensures effects { (r : records.StoreRecord) → IsWritten r (vol_record (vol_decided_then self.old store.old bytes.now)) result
            → (f : ServerState) → f.lasting ≡ lasting_of store.old.durable → (ls : List Line) → (vol_begun_after store.old.node f (vol_decided_then self.old store.old bytes.now)).before ls ≡ map in_words (effect_of store.old.node r store.old.durable) ++ ls }

        ensures most { CallsAtMost 4 D.Disk store.old.disk store.new.disk }
        ensures limit { D.limit store.new.disk ≡ D.limit store.old.disk }
        ensures calls { OnOk result (D.calls store.new.disk ≡ D.calls store.old.disk + vol_device_calls (durable_seen store.old) (vol_decided_then self.old store.old bytes.now)) }
        ensures ran { Ran D.Disk store.old.disk store.new.disk result }
        ensures setting { D.setting store.new.disk ≡ D.setting store.old.disk }
    {
        self.take_bytes(store, callbacks, bytes, now)
    }
}
