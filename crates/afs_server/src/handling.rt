//! What a file server does with a message.

ghost use Rattle.std.specs.Prelude.{◌≡◌, ◌≤◌, ◌+◌, ◌++◌, ◌∷◌, [], ℕ, List, false, true, None, Some, length, map, IsErrOf, OnOk};
ghost use Rattle.afs_num.specs.declared.messages.Received.TheVariants as receives;
ghost use Rattle.afs_num.specs.declared.records.StoreRecord as records;
ghost use Rattle.afs_disk.specs.Words.{SameDiskBy, LeavesOnlyBy, TellsOn, CallsAtMost};
ghost use Rattle.spec_history.specs.declared.lines.Line.{Line};
ghost use Rattle.spec_history.specs.declared.lines.Line.TheVariants as lines;
ghost use Rattle.afs_journal.specs.Records.{whole_records};
ghost use Rattle.afs_journal.specs.Words.{SameCountsBy, LeavesByPickOf, ReachesBy};
ghost use Rattle.spec_model.specs.Calls.{call_seat, paired};
ghost use Rattle.spec_model.specs.Heads.{IsSoundHead};
ghost use Rattle.spec_model.specs.Messages.{received_by, HasSpelling, IsSoundReceived};
ghost use Rattle.spec_records.specs.Durable.{Durable};
ghost use Rattle.spec_fold.specs.Effects.{effect_of};
ghost use Rattle.spec_fold.specs.Fold.{folded};
ghost use Rattle.spec_records.specs.Records.{record_bytes, FitsRecord};
ghost use Rattle.spec_rows.specs.Callbacks.{no_turn};
ghost use Rattle.spec_rows.specs.ServerRow.{begun_after, device_calls, drops, Decision};
ghost use Rattle.spec_volrows.specs.FileRow.{file_called, file_decides, file_row};
ghost use Rattle.afs_volstore.specs.Stores.{LeftAround};
ghost use Rattle.afs_memory.specs.Telling.{in_words};
ghost use Rattle.afs_decisions.specs.Deciding.{leaves_disk, CanBeTold, Decides, FitsDecided, Runs, CanBeDone};
ghost use Rattle.afs_server_parts.specs.Heard.{IsUnder};
ghost use Rattle.afs_server.specs.Handling.{decided_then, record_then, backs_then, turn_then, turned_then, calls_served, holds_seen, server_seen, Handles, CanStep, ServesOver};
ghost use Rattle.afs_server.specs.Hearing.{answered_turn, noticed_turn};
ghost use Rattle.afs_server.specs.Putting.{Took};
ghost use Rattle.afs_server.specs.Seen.{CanDraw};
ghost use Rattle.afs_server_parts.specs.declared.faults.NodeFault.TheVariants as faults;
ghost use Rattle.afs_sharing.specs.Stores.{IsKeptBehind, LeavesPrepared};
ghost use Rattle.afs_saving.specs.Saving.{IsQuiet, IsWritten, Ran};
ghost use Rattle.afs_sharing.specs.Lasting.{lasting_of};

use crate::server::FileServer;
use afs_decisions::decided::Decided;
use afs_decisions::deciding::CALLS;
use afs_disk::Disk;
use afs_message::messages::read_message;
use afs_num::messages::{Carried, Message, Received};
use afs_num::types::Head;
use afs_server_parts::faults::NodeFault;
use afs_volstore::VolStore;
use spec_history::lines::Outs;

/// Whether what is decided leaves the disk as it is.
fn leaves_disk(decided: &Decided) -> bool
    ensures { result ≡ leaves_disk decided.now }
{
    match decided {
        Decided::Changes(..) => false,
        _ => true,
    }
}

impl FileServer {
    /// What is decided on the call of this header is done, where that leaves the disk as it is.
    fn take_answer<D: Disk>(
        &mut self,
        store: &mut VolStore<D>,
        head: &Head,
        decided: Decided,
        now: u32,
    ) -> Result<Outs, NodeFault>
        requires leaves { leaves_disk decided ≡ true }
        requires serves { ServesOver self.old store.old }
        requires head { IsSoundHead head.now }
        requires told { CanBeTold head.now.opcode decided }
        requires fits { FitsDecided decided }
        requires runs { Runs decided (paired head.now.epoch head.now.number (call_seat head.now.from self.old.seats)) }
        requires now { now ≤ 1000000000 }
        ensures { (d : Decision) → Decides (server_seen self.old store.old) now head.now d decided →
            Took D.Disk now d (turn_then self.old store.old now d) self.old self.new store.old store.new result }
    {
        let outs = self.answer(store, head, decided, now)?;
        Ok(outs)
    }

    /// The change that is decided on is made.
    fn take_change<D: Disk>(
        &mut self,
        store: &mut VolStore<D>,
        head: &Head,
        decided: Decided,
        now: u32,
    ) -> Result<Outs, NodeFault>
        requires changes { leaves_disk decided ≡ false }
        requires can { CanStep self.old store.old now }
        requires head { IsSoundHead head.now }
        requires decided { (d : Decision) × CanBeDone (server_seen self.old store.old) now head.now d decided }
        ensures { (d : Decision) → Decides (server_seen self.old store.old) now head.now d decided →
            Took D.Disk now d (turn_then self.old store.old now d) self.old self.new store.old store.new result }
    {
        match decided {
            Decided::Changes(id, change) => self.save(store, head, id, change, now),
            _other => unreachable!(),
        }
    }

    /// What is decided on the call of this header is done.
    fn take_decided<D: Disk>(
        &mut self,
        store: &mut VolStore<D>,
        head: &Head,
        decided: Decided,
        now: u32,
    ) -> Result<Outs, NodeFault>
        requires can { CanStep self.old store.old now }
        requires head { IsSoundHead head.now }
        requires decided { (d : Decision) × CanBeDone (server_seen self.old store.old) now head.now d decided }
        ensures { (d : Decision) → Decides (server_seen self.old store.old) now head.now d decided →
            Took D.Disk now d (turn_then self.old store.old now d) self.old self.new store.old store.new result }
    {
        if leaves_disk(&decided) {
            self.take_answer(store, head, decided, now)
        } else {
            self.take_change(store, head, decided, now)
        }
    }

    /// A call has come, with this header.
    fn take_call<D: Disk>(
        &mut self,
        store: &mut VolStore<D>,
        head: &Head,
        received: &Received,
        now: u32,
    ) -> Result<Outs, NodeFault>
        requires can { CanStep self.old store.old now }
        requires head { IsSoundHead head.now }
        requires heard { IsUnder head.now received.now }
        ensures { let d = file_called store.old.node (holds_seen store.old) (server_seen self.old store.old) now head.now received.now in
            Took D.Disk now d (turn_then self.old store.old now d) self.old self.new store.old store.new result }
    {
        let decided = self.called(store, head, received, now)?;
        self.take_decided(store, head, decided, now)
    }

    /// A message has come in which nothing can be read.
    fn take_nothing<D: Disk>(
        &mut self,
        store: &mut VolStore<D>,
        now: u32,
    ) -> Result<Outs, NodeFault>
        requires { ServesOver self.old store.old }
        ensures { Took D.Disk now drops (no_turn (backs_then self.old store.old now)) self.old self.new store.old store.new result }
    {
        let outs = self.pass(store, now)?;
        Ok(outs)
    }

    /// A reply or a refusal has come, with this header.
    fn take_reply<D: Disk>(
        &mut self,
        store: &mut VolStore<D>,
        head: &Head,
        now: u32,
    ) -> Result<Outs, NodeFault>
        requires { ServesOver self.old store.old }
        ensures { Took D.Disk now drops (answered_turn store.old.node store.old.durable.boot head.now (backs_then self.old store.old now)) self.old self.new store.old store.new result }
    {
        let outs = self.hear_answer(store, head, now)?;
        Ok(outs)
    }

    /// A notice has come, with this header.
    fn take_notice<D: Disk>(
        &mut self,
        store: &mut VolStore<D>,
        head: &Head,
        now: u32,
    ) -> Result<Outs, NodeFault>
        requires { ServesOver self.old store.old }
        ensures { Took D.Disk now drops (noticed_turn store.old.node store.old.durable.boot head.now (backs_then self.old store.old now)) self.old self.new store.old store.new result }
    {
        let outs = self.hear_notice(store, head, now)?;
        Ok(outs)
    }

    /// A message has come that can be read, as this.
    fn take_whole<D: Disk>(
        &mut self,
        store: &mut VolStore<D>,
        received: &Received,
        message: &Message,
        now: u32,
    ) -> Result<Outs, NodeFault>
        requires can { CanStep self.old store.old now }
        requires whole { received.now ≡ receives.Whole message.now }
        requires sound { HasSpelling message.now }
        ensures { let d = file_decides store.old.node (holds_seen store.old) (server_seen self.old store.old) now received.now in
            Took D.Disk now d (turned_then self.old store.old now d received.now) self.old self.new store.old store.new result }
    {
        match &message.carried {
            Carried::Call { .. } => { self.take_call(store, &message.head, received, now) }
            Carried::Reply { .. } => self.take_reply(store, &message.head, now),
            Carried::Refusal { .. } => self.take_reply(store, &message.head, now),
            Carried::Notice => self.take_notice(store, &message.head, now),
        }
    }

    /// This was found in the bytes of a message.
    fn take<D: Disk>(
        &mut self,
        store: &mut VolStore<D>,
        received: &Received,
        now: u32,
    ) -> Result<Outs, NodeFault>
        requires can { CanStep self.old store.old now }
        requires sound { IsSoundReceived received.now }
        ensures { let d = file_decides store.old.node (holds_seen store.old) (server_seen self.old store.old) now received.now in
            Took D.Disk now d (turned_then self.old store.old now d received.now) self.old self.new store.old store.new result }
    {
        match received {
            Received::Nothing => self.take_nothing(store, now),
            Received::Unserved { head } => { self.take_call(store, head, received, now) }
            Received::Unreadable { head } => { self.take_call(store, head, received, now) }
            Received::Whole { message } => { self.take_whole(store, received, message, now) }
        }
    }

    /// These are the bytes of a message.
    fn take_bytes<D: Disk>(
        &mut self,
        store: &mut VolStore<D>,
        bytes: &[u8],
        now: u32,
    ) -> Result<Outs, NodeFault>
        requires can { CanStep self.old store.old now }
        ensures { let d = decided_then self.old store.old now bytes.now in
            Took D.Disk now d (turned_then self.old store.old now d (received_by calls_served bytes.now)) self.old self.new store.old store.new result }
    {
        let received = read_message(self.alloc, &CALLS, bytes)?;
        self.take(store, &received, now)
    }

    /// What the server does with one message, at this time in ticks. It isn't told the message's place in the run, and
    /// leaves out the line of that. A step makes at most one record. A server that goes down is to be thrown away: its
    /// disk keeps what it kept before the step, or what it keeps after it.
    pub fn handle<D: Disk>(
        &mut self,
        store: &mut VolStore<D>,
        bytes: &[u8],
        now: u32,
    ) -> Result<Outs, NodeFault>
        requires serves { ServesOver self.old store.old }
        requires draws { CanDraw self.old store.old.drawn }
        requires up { store.old.closed ≡ false }
        requires now { now ≤ 1000000000 }
        ensures step { (place : ℕ) → Handles (file_row store.old.node (holds_seen store.old) (server_seen self.old store.old) now place (received_by calls_served bytes.now)) (lines.Given place ∷ []) self.old self.new store.old store.new result }
        ensures serves { OnOk result (ServesOver self.new store.new) }

        // A disk that tells goes on telling, whatever the result.
        ensures told { TellsOn D.Disk store.old.disk store.new.disk }

        ensures store { OnOk result (store.new ≡ record store.old { durable = store.new.durable; disk = store.new.disk; prepared = store.new.prepared; count = store.new.count; drawn = store.new.drawn }) }
        ensures kept { OnOk result (IsKeptBehind (record_then self.old store.old now bytes.now) store.old store.new) }

        // It leaves no record prepared but what was there before: one that it writes is no more, and only want of memory may leave it.
        ensures prepared { LeavesPrepared (record_then self.old store.old now bytes.now) store.old store.new result }

        // A step draws few numbers: one for a node, and one for a promise that it grants.
        ensures draws { OnOk result ((store.new.drawn ≤ store.old.drawn + 204) × (self.new.lists.last_owed + length self.new.lists.promises ≤ self.old.lists.last_owed + length self.old.lists.promises + 50)) }

        // Where the disk fails, what may be left with the record is what the row leaves behind it.
        ensures down { IsErrOf result faults.Down → record_then self.old store.old now bytes.now ≡ None → ⊥ }
        ensures interrupted { IsErrOf result faults.Down → (r : records.StoreRecord) → record_then self.old store.old now bytes.now ≡ Some r → (e : Durable) → folded r store.old.durable ≡ Some e
            → lasting_of e ≡ (begun_after store.old.node (server_seen self.old store.old) now (decided_then self.old store.old now bytes.now)).state.lasting }

        // Without a record the disk is left alone.
        ensures quiet { IsQuiet (record_then self.old store.old now bytes.now) result
            → SameDiskBy D.Disk store.old.disk store.new.disk
            × SameCountsBy D.Disk store.old.disk store.new.disk }

        // Else a crash at any moment leaves what was kept before, or what is kept with this record.
        ensures any_moment { (r : records.StoreRecord) → IsWritten r (record_then self.old store.old now bytes.now) result
            → (bytes : List ℕ) → D.seen store.old.disk ≡ Some bytes → LeavesOnlyBy D.Disk store.old.disk store.new.disk (LeftAround (whole_records bytes) r store.old.durable) }

        // Where the disk was set to stop or to fail at one of the calls, that one tells what a crash with each pick leaves.
        ensures reached { IsErrOf result faults.Down → ReachesBy D.Disk store.old.disk store.new.disk }
        ensures left { IsErrOf result faults.Down → (r : records.StoreRecord) → record_then self.old store.old now bytes.now ≡ Some r
            → (bytes : List ℕ) → D.seen store.old.disk ≡ Some bytes → LeavesByPickOf D.Disk (whole_records bytes) (record_bytes r) store.old.disk store.new.disk }

        ensures fits { (r : records.StoreRecord) → IsWritten r (record_then self.old store.old now bytes.now) result → FitsRecord r }

        // What a restart tells of this record is what the row tells then of the step.
        ensures effects { (r : records.StoreRecord) → IsWritten r (record_then self.old store.old now bytes.now) result
            → (ls : List Line) → (begun_after store.old.node (server_seen self.old store.old) now (decided_then self.old store.old now bytes.now)).before ls ≡ map in_words (effect_of store.old.node r store.old.durable) ++ ls }

        ensures most { CallsAtMost 4 D.Disk store.old.disk store.new.disk }
        ensures limit { D.limit store.new.disk ≡ D.limit store.old.disk }
        ensures calls { OnOk result (D.calls store.new.disk ≡ D.calls store.old.disk + device_calls (server_seen self.old store.old) now (decided_then self.old store.old now bytes.now)) }
        ensures ran { Ran D.Disk store.old.disk store.new.disk result }
        ensures setting { D.setting store.new.disk ≡ D.setting store.old.disk }
    {
        self.take_bytes(store, bytes, now)
    }
}
