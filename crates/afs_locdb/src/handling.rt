//! What the location database does with a message.

ghost use Rattle.std.specs.Prelude.{◌≡◌, ◌≤◌, ◌↔◌, ◌+◌, ◌++◌, ◌∷◌, [], ℕ, List, Some, None, false, true, IsErrOf, IsSome, OnOk};
ghost use Rattle.afs_disk.specs.Words.{CallsAtMost, LeavesOnlyBy, SameDiskBy, TellsOn};
ghost use Rattle.afs_journal.specs.Words.{LeavesByPickOf, ReachesBy, SameCountsBy};
ghost use Rattle.spec_history.specs.declared.lines.Line.{Line};
ghost use Rattle.spec_history.specs.declared.lines.Line.TheVariants as lines;
ghost use Rattle.afs_journal.specs.Records.{whole_records};
ghost use Rattle.spec_model.specs.Calls.{call_seat, paired};
ghost use Rattle.spec_model.specs.Heads.{IsSoundHead};
ghost use Rattle.spec_model.specs.Messages.{received_by, HasSpelling, IsSoundReceived};
ghost use Rattle.afs_num.specs.declared.messages.Received.TheVariants as receives;
ghost use Rattle.spec_records.specs.LocDurable.{loc_folded, LocDurable};
ghost use Rattle.spec_records.specs.LocEffects.{loc_effect_of};
ghost use Rattle.spec_records.specs.LocRecords as records;
ghost use Rattle.spec_records.specs.LocRecords.{loc_record_bytes, FitsLocRecord};
ghost use Rattle.spec_rows.specs.LocRow.{called, drops, loc_device_calls, loc_decides};
ghost use Rattle.spec_rows.specs.LocSteps.{loc_begun_after, loc_row};
ghost use Rattle.afs_store.specs.Stores.{LeftAround};
ghost use Rattle.afs_locstore.specs.LocFold.{loc_fold};
ghost use Rattle.afs_locdb.specs.Deciding.{decision_of, leaves_disk, CanBeTold, IsByAnother, IsMadeIn, Runs};
ghost use Rattle.afs_server_parts.specs.Heard.{IsUnder};
ghost use Rattle.afs_locdb.specs.Handling.{loc_calls_served, loc_decided_then, loc_record_decided, loc_record_then, Does, Handles, IsKeptBehind, IsQuiet, IsWritten};
ghost use Rattle.afs_locdb.specs.Saving.{DoesAll, OnDisk, Ran, LeavesPrepared};
ghost use Rattle.afs_locdb.specs.Seen.{lasting_of, loc_seen, IsInBoot, Serves};
ghost use Rattle.afs_server_parts.specs.declared.faults.NodeFault.TheVariants as faults;

use crate::database::LocDb;
use crate::decided::Decided;
use crate::deciding::CALLS;
use afs_disk::Disk;
use afs_message::messages::read_message;
use afs_num::messages::{Carried, Message, Received};
use afs_num::types::{Head, Mem};
use afs_server_parts::faults::NodeFault;
use spec_history::lines::Outs;

/// Whether what is decided leaves the disk as it is.
fn leaves_disk(decided: &Decided) -> bool
    ensures { result ≡ leaves_disk decided.now }
{
    match decided {
        Decided::Saves(_) => false,
        _ => true,
    }
}

impl<D: Disk> LocDb<D> {
    /// What is decided on the call of this header is done, where that leaves the disk as it is.
    fn answer_decided(&mut self, head: &Head, decided: Decided) -> Mem<Outs>
        requires serves { IsInBoot self.old }
        requires head { IsSoundHead head.now }
        requires told { CanBeTold head.now.opcode decided }
        requires runs { Runs decided (paired head.now.epoch head.now.number (call_seat head.now.from self.old.seats)) }
        requires leaves { leaves_disk decided ≡ true }
        ensures { Does (decision_of (loc_seen self.old) head.now decided) self.old self.new result }
    {
        match decided {
            Decided::Drops => self.pass(),
            Decided::TellsBoot => self.tell_boot(head),
            Decided::Repeats(reply) => self.repeat(reply),
            Decided::Refuses(code) => self.refuse(head, code),
            Decided::Shows(reply) => self.show(head, reply),
            Decided::Saves(_change) => unreachable!(),
        }
    }

    /// The same, in a step that goes on.
    fn take_answer(&mut self, head: &Head, decided: Decided) -> Result<Outs, NodeFault>
        requires serves { IsInBoot self.old }
        requires head { IsSoundHead head.now }
        requires told { CanBeTold head.now.opcode decided }
        requires runs { Runs decided (paired head.now.epoch head.now.number (call_seat head.now.from self.old.seats)) }
        requires leaves { leaves_disk decided ≡ true }
        ensures does { DoesAll (decision_of (loc_seen self.old) head.now decided) self.old self.new result }
        ensures disk { OnDisk D.Disk (loc_record_decided self.old.store.durable.boot (decision_of (loc_seen self.old) head.now decided)) self.old.store.durable self.old.store.disk self.new.store.disk result }
    {
        let outs = self.answer_decided(head, decided)?;
        Ok(outs)
    }

    /// The change that is decided on is made.
    fn take_change(&mut self, head: &Head, decided: Decided) -> Result<Outs, NodeFault>
        requires serves { IsInBoot self.old }
        requires up { self.old.store.closed ≡ false }
        requires head { IsSoundHead head.now }
        requires told { CanBeTold head.now.opcode decided }
        requires made { IsMadeIn (loc_seen self.old) decided }
        requires another { IsByAnother head.now decided }
        requires runs { Runs decided (paired head.now.epoch head.now.number (call_seat head.now.from self.old.seats)) }
        requires changes { leaves_disk decided ≡ false }
        ensures does { DoesAll (decision_of (loc_seen self.old) head.now decided) self.old self.new result }
        ensures disk { OnDisk D.Disk (loc_record_decided self.old.store.durable.boot (decision_of (loc_seen self.old) head.now decided)) self.old.store.durable self.old.store.disk self.new.store.disk result }
    {
        match decided {
            Decided::Saves(change) => self.save(head, change),
            _other => unreachable!(),
        }
    }

    /// What is decided on the call of this header is done.
    fn take_decided(&mut self, head: &Head, decided: Decided) -> Result<Outs, NodeFault>
        requires serves { IsInBoot self.old }
        requires up { self.old.store.closed ≡ false }
        requires head { IsSoundHead head.now }
        requires told { CanBeTold head.now.opcode decided }
        requires made { IsMadeIn (loc_seen self.old) decided }
        requires another { IsByAnother head.now decided }
        requires runs { Runs decided (paired head.now.epoch head.now.number (call_seat head.now.from self.old.seats)) }
        ensures does { DoesAll (decision_of (loc_seen self.old) head.now decided) self.old self.new result }
        ensures disk { OnDisk D.Disk (loc_record_decided self.old.store.durable.boot (decision_of (loc_seen self.old) head.now decided)) self.old.store.durable self.old.store.disk self.new.store.disk result }
    {
        if leaves_disk(&decided) {
            self.take_answer(head, decided)
        } else {
            self.take_change(head, decided)
        }
    }

    /// A call has come, with this header.
    fn take_call(&mut self, head: &Head, received: &Received) -> Result<Outs, NodeFault>
        requires serves { IsInBoot self.old }
        requires up { self.old.store.closed ≡ false }
        requires head { IsSoundHead head.now }
        requires heard { IsUnder head.now received.now }
        ensures does { DoesAll (called (loc_seen self.old) head.now received.now) self.old self.new result }
        ensures disk { OnDisk D.Disk (loc_record_decided self.old.store.durable.boot (called (loc_seen self.old) head.now received.now)) self.old.store.durable self.old.store.disk self.new.store.disk result }
    {
        let decided = self.called(head, received)?;
        self.take_decided(head, decided)
    }

    /// A message has come that runs nothing.
    fn take_nothing(&mut self) -> Result<Outs, NodeFault>
        requires { IsInBoot self.old }
        ensures does { DoesAll drops self.old self.new result }
        ensures disk { OnDisk D.Disk None self.old.store.durable self.old.store.disk self.new.store.disk result }
    {
        let outs = self.pass()?;
        Ok(outs)
    }

    /// A message has come that can be read, as this. A reply and a notice run nothing.
    fn take_whole(&mut self, received: &Received, message: &Message) -> Result<Outs, NodeFault>
        requires serves { IsInBoot self.old }
        requires up { self.old.store.closed ≡ false }
        requires whole { received.now ≡ receives.Whole message.now }
        requires sound { HasSpelling message.now }
        ensures does { DoesAll (loc_decides (loc_seen self.old) received.now) self.old self.new result }
        ensures disk { OnDisk D.Disk (loc_record_decided self.old.store.durable.boot (loc_decides (loc_seen self.old) received.now)) self.old.store.durable self.old.store.disk self.new.store.disk result }
    {
        match &message.carried {
            Carried::Call { .. } => self.take_call(&message.head, received),
            _ => self.take_nothing(),
        }
    }

    /// This was found in the bytes of a message.
    fn take(&mut self, received: &Received) -> Result<Outs, NodeFault>
        requires serves { IsInBoot self.old }
        requires up { self.old.store.closed ≡ false }
        requires sound { IsSoundReceived received.now }
        ensures does { DoesAll (loc_decides (loc_seen self.old) received.now) self.old self.new result }
        ensures disk { OnDisk D.Disk (loc_record_decided self.old.store.durable.boot (loc_decides (loc_seen self.old) received.now)) self.old.store.durable self.old.store.disk self.new.store.disk result }
    {
        match received {
            Received::Nothing => self.take_nothing(),
            Received::Unserved { head } => self.take_call(head, received),
            Received::Unreadable { head } => self.take_call(head, received),
            Received::Whole { message } => self.take_whole(received, message),
        }
    }

    /// These are the bytes of a message.
    fn take_bytes(&mut self, bytes: &[u8]) -> Result<Outs, NodeFault>
        requires serves { IsInBoot self.old }
        requires up { self.old.store.closed ≡ false }
        ensures does { DoesAll (loc_decided_then self.old bytes.now) self.old self.new result }
        ensures disk { OnDisk D.Disk (loc_record_then self.old bytes.now) self.old.store.durable self.old.store.disk self.new.store.disk result }
    {
        let received = read_message(self.alloc, &CALLS, bytes)?;
        self.take(&received)
    }

    /// What the database does with one message. It isn't told the message's place in the run, and leaves out the line of that. A step
    /// makes at most one record, and its reply goes out once that stands on the disk. A database that goes down is to be thrown away:
    /// its disk keeps what it kept before the step, or what it keeps after it.
    pub fn handle(&mut self, bytes: &[u8]) -> Result<Outs, NodeFault>
        requires serves { Serves self.old }
        requires up { self.old.store.closed ≡ false }
        ensures step { (place : ℕ) → Handles (loc_row (loc_seen self.old) place (received_by loc_calls_served bytes.now)) (lines.Given place ∷ []) self.old self.new result }
        ensures serves { OnOk result (Serves self.new) }

        // A disk that tells goes on telling, whatever the result.
        ensures told { TellsOn D.Disk self.old.store.disk self.new.store.disk }

        ensures store { OnOk result (self.new.store ≡ record self.old.store { durable = self.new.store.durable; disk = self.new.store.disk; prepared = self.new.store.prepared; count = self.new.store.count }) }
        ensures kept { OnOk result (IsKeptBehind (loc_record_then self.old bytes.now) self.old self.new) }

        // It leaves no record prepared but what was there before: one that it writes is no more, and only want of memory may leave it.
        ensures prepared { LeavesPrepared (loc_record_then self.old bytes.now) self.old self.new result }

        // Where the disk fails, what may be left with the record is what the row leaves behind it.
        ensures down { IsErrOf result faults.Down → loc_record_then self.old bytes.now ≡ None → ⊥ }
        ensures interrupted { IsErrOf result faults.Down → (r : records.LocRecord) → loc_record_then self.old bytes.now ≡ Some r → (e : LocDurable) → loc_folded r self.old.store.durable ≡ Some e
            → lasting_of e ≡ (loc_begun_after (loc_seen self.old) (loc_decided_then self.old bytes.now)).state.lasting }

        // Without a record the disk is left alone.
        ensures quiet { IsQuiet (loc_record_then self.old bytes.now) result
            → SameDiskBy D.Disk self.old.store.disk self.new.store.disk
            × SameCountsBy D.Disk self.old.store.disk self.new.store.disk }

        // Else a crash at any moment leaves what was kept before, or what is kept with this record.
        ensures any_moment { (r : records.LocRecord) → IsWritten r (loc_record_then self.old bytes.now) result
            → (content : List ℕ) → D.seen self.old.store.disk ≡ Some content → LeavesOnlyBy D.Disk self.old.store.disk self.new.store.disk (LeftAround loc_fold (whole_records content) r self.old.store.durable) }

        // Where the disk was set to stop or to fail at one of the calls, that one tells what a crash with each pick leaves.
        ensures reached { IsErrOf result faults.Down → ReachesBy D.Disk self.old.store.disk self.new.store.disk }
        ensures left { IsErrOf result faults.Down → (r : records.LocRecord) → loc_record_then self.old bytes.now ≡ Some r
            → (content : List ℕ) → D.seen self.old.store.disk ≡ Some content → LeavesByPickOf D.Disk (whole_records content) (loc_record_bytes r) self.old.store.disk self.new.store.disk }

        ensures fits { (r : records.LocRecord) → IsWritten r (loc_record_then self.old bytes.now) result → FitsLocRecord r }

        // What a restart tells of this record is what the row tells then of the step.
        ensures effects { (r : records.LocRecord) → IsWritten r (loc_record_then self.old bytes.now) result
            → (ls : List Line) → (loc_begun_after (loc_seen self.old) (loc_decided_then self.old bytes.now)).before ls ≡ loc_effect_of r self.old.store.durable ++ ls }

        ensures most { CallsAtMost 4 D.Disk self.old.store.disk self.new.store.disk }
        ensures limit { D.limit self.new.store.disk ≡ D.limit self.old.store.disk }
        ensures calls { OnOk result (D.calls self.new.store.disk ≡ D.calls self.old.store.disk + loc_device_calls (loc_seen self.old) (loc_decided_then self.old bytes.now)) }
        ensures ran { Ran D.Disk self.old.store.disk self.new.store.disk result }
        ensures setting { D.setting self.new.store.disk ≡ D.setting self.old.store.disk }
    {
        self.take_bytes(bytes)
    }
}
