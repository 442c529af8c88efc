//! One record more: made ready, then put on the disk.

ghost use Rattle.std.specs.Prelude.{◌≡◌, ◌≤◌, ◌+◌, ◌++◌, ◌↔◌, ◌⊎◌, ◌∷◌, ◌&&◌, ℕ, List, [], None, Some, true, false, length, nat_lt, IfErr, IsErrOf, IsOk, IsSome, OnErr, OnOk};
ghost use Rattle.afs_num.specs.declared.faults.StoreFault.TheVariants as faults;
ghost use Rattle.afs_disk.specs.Words.{SameDiskBy, LeavesOnlyBy, TellsOn, SetAs, CallsAtMost};
ghost use Rattle.afs_journal.specs.Log.{HasRoom, IsJournal, KeepsRoom, Unchanged};
ghost use Rattle.afs_journal.specs.Records.{whole_records, IsBeforeOrAfter};
ghost use Rattle.afs_journal.specs.Words.{SameCountsBy, LeavesByPickOf, ReachesBy};
ghost use Rattle.afs_store.specs.Folds.{has_room};
ghost use Rattle.afs_store.specs.Stores.{IsEarly, IsKept, LeftAround, SameBut};
ghost use Rattle.afs_store.specs.Waiting.{HasPlaceOn, IsTooLong, KeepsMemory};
ghost use Rattle.afs_store.specs.Words.{ServedBy};

use crate::fold::{Fold, Unfit};
use crate::store::Store;
use afs_disk::Disk;
use afs_journal::Journal;
use afs_num::faults::{JournalFault, StoreFault};
use afs_num::types::Mem;
use std::mem::replace;

/// The highest boot number.
const LAST_BOOT: u32 = u32::MAX;

/// Makes room for what a record does, and for so many bytes on the disk.
fn make_room<D: Disk, R: Drop, T: Drop, S: Fold<R, T>>(
    journal: &mut Journal<D>,
    state: &mut S,
    ready: &S::Ready,
    len: u64,
) -> Mem<()>
    ensures place { OnOk result (S.fold.HasRoomFor ready.now state.new) }
    ensures room { OnOk result (HasRoom D.limit D.space len journal.new) }
    ensures held { S.fold.held state.new ≡ S.fold.held state.old }
    ensures keeps { KeepsMemory S.fold state.old state.new }
    ensures keeps_places { KeepsRoom D.limit D.space journal.old journal.new }
    ensures same { Unchanged D.seen D.left_by D.size D.may_leave D.moment D.left_since journal.old journal.new }
    ensures counts { SameCountsBy D.Disk journal.old.disk journal.new.disk }
{
    state.reserve(ready)?;
    journal.reserve(len)?;
    Ok(())
}

/// Makes room on the disk and in memory for a record that is ready.
pub(crate) fn place<D: Disk, R: Drop, T: Drop, S: Fold<R, T>>(
    journal: &mut Journal<D>,
    state: &mut S,
    ready: &S::Ready,
) -> Result<(), StoreFault>
    requires ready { S.fold.IsReady ready.now }
    ensures place { OnOk result (S.fold.HasRoomFor ready.now state.new) }
    ensures room { OnOk result (HasPlaceOn D.limit D.space (length (S.fold.spelled (S.fold.record_of ready.now))) journal.new) }
    ensures held { S.fold.held state.new ≡ S.fold.held state.old }
    ensures keeps { KeepsMemory S.fold state.old state.new }
    ensures keeps_places { KeepsRoom D.limit D.space journal.old journal.new }
    ensures same { Unchanged D.seen D.left_by D.size D.may_leave D.moment D.left_since journal.old journal.new }
    ensures counts { SameCountsBy D.Disk journal.old.disk journal.new.disk }
    ensures full { (used capacity : ℕ) → IsErrOf result (faults.Full used capacity) → (journal.old.closed ≡ false) × ((used ≡ journal.old.gate + 1) × ((capacity ≡ D.limit journal.old.disk) × IsTooLong S.fold journal.old.gate (D.limit journal.old.disk) (S.fold.record_of ready.now))) }
    ensures fitting { journal.old.closed ≡ false → IsTooLong S.fold journal.old.gate (D.limit journal.old.disk) (S.fold.record_of ready.now) → OnOk result ⊥ }
    ensures refusals { IfErr result (λ e. (e ≡ faults.OutOfMemory) ⊎ (e ≡ faults.Full (journal.old.gate + 1) (D.limit journal.old.disk))) }
{
    let len = S::bytes(ready).len() as u64;
    if !journal.is_closed() && !journal.fits(len) {
        return Err(StoreFault::Full(journal.len(), journal.capacity()));
    }
    match make_room::<D, R, T, S>(journal, state, ready, len) {
        Ok(()) => Ok(()),
        Err(_) => Err(StoreFault::OutOfMemory),
    }
}

/// Puts bytes on the disk that have a place there.
pub(crate) fn append<D: Disk>(journal: &mut Journal<D>, bytes: &[u8]) -> Result<(), StoreFault>
    requires open { journal.old.closed ≡ false }
    requires room { HasPlaceOn D.limit D.space (length bytes.now) journal.old }
    ensures failed { OnErr result (journal.new.closed ≡ true) }
    ensures stays { OnErr result ((journal.new.count ≡ journal.old.count) × (journal.new.gate ≡ journal.old.gate)) }
    ensures refusals { IfErr result (λ e. e ≡ faults.Failed) }
    ensures number { OnOk result ((journal.new.count ≡ journal.old.count + 1) × ((journal.new.gate ≡ journal.old.gate + length bytes.now + 9) × (journal.new.closed ≡ false))) }
    ensures told { TellsOn D.Disk journal.old.disk journal.new.disk }
    ensures added { OnOk result ((content : List ℕ) → D.seen journal.old.disk ≡ Some content → IsJournal (whole_records content ++ bytes.now ∷ []) (D.seen journal.new.disk) (D.may_leave journal.new.disk)) }
    ensures any_moment { (content : List ℕ) → D.seen journal.old.disk ≡ Some content
        → LeavesOnlyBy D.Disk journal.old.disk journal.new.disk (IsBeforeOrAfter (whole_records content) bytes.now) }
    ensures reached { OnErr result (ReachesBy D.Disk journal.old.disk journal.new.disk) }
    ensures left { OnErr result ((content : List ℕ) → D.seen journal.old.disk ≡ Some content → LeavesByPickOf D.Disk (whole_records content) bytes.now journal.old.disk journal.new.disk) }
    ensures calls { OnOk result (D.calls journal.new.disk ≡ D.calls journal.old.disk + 4) }
    ensures most { CallsAtMost 4 D.Disk journal.old.disk journal.new.disk }
    ensures served { ServedBy D.Disk journal.old.disk journal.new.disk result }
    ensures setting { SetAs D.Disk journal.old.disk journal.new.disk }
{
    match journal.append(bytes) {
        Ok(_) => Ok(()),
        Err(JournalFault::Failed) => Err(StoreFault::Failed),
        Err(JournalFault::Full(_, _)) => unreachable!(),
        Err(JournalFault::Closed) => unreachable!(),
        Err(JournalFault::OutOfMemory) => unreachable!(),
    }
}

impl<D: Disk, R: Drop, T: Drop, S: Fold<R, T>> Store<D, R, T, S> {
    /// Takes all memory for one commit of a record that was made ready. A refusal leaves everything as it was; so does `Ok`,
    /// but for what the next `commit` puts on the disk.
    pub fn prepare_ready(&mut self, ready: S::Ready) -> Result<(), StoreFault>
        requires ready { S.fold.IsReady ready }
        requires suits { S.fold.Suits ready self.old.durable }
        requires taken { IsSome (S.fold.folded (S.fold.record_of ready) self.old.durable) }
        ensures ok { OnOk result (self.new ≡ record self.old { prepared = Some (S.fold.record_of ready); disk = self.new.disk }) }
        ensures err { OnErr result (SameBut self.old self.new) }
        ensures full { (used capacity : ℕ) → IsErrOf result (faults.Full used capacity) → (self.old.closed ≡ false) × ((used ≡ S.fold.journal self.old.durable) × ((capacity ≡ S.fold.capacity self.old.durable) × (has_room S.fold self.old.durable (S.fold.record_of ready) ≡ false))) }
        ensures room { self.old.closed ≡ false → has_room S.fold self.old.durable (S.fold.record_of ready) ≡ false → OnOk result ⊥ }
        ensures refusals { IfErr result (λ e. (e ≡ faults.OutOfMemory) ⊎ IsErrOf result (faults.Full (S.fold.journal self.old.durable) (S.fold.capacity self.old.durable))) }
        ensures disk { SameDiskBy D.Disk self.old.disk self.new.disk }
        ensures counts { SameCountsBy D.Disk self.old.disk self.new.disk }
    {
        place::<D, R, T, S>(&mut self.journal, &mut self.state, &ready)?;
        self.prepared = Some(ready);
        Ok(())
    }

    /// Takes all memory for one commit of this record, as `prepare_ready` does.
    pub fn prepare(&mut self, rec: &R) -> Result<(), StoreFault>
        requires fits { S.fold.Fits rec.now }
        requires taken { IsSome (S.fold.folded rec.now self.old.durable) }
        ensures ok { OnOk result (self.new ≡ record self.old { prepared = Some rec.now; disk = self.new.disk }) }
        ensures err { OnErr result (SameBut self.old self.new) }
        ensures full { (used capacity : ℕ) → IsErrOf result (faults.Full used capacity) → (self.old.closed ≡ false) × ((used ≡ S.fold.journal self.old.durable) × ((capacity ≡ S.fold.capacity self.old.durable) × (has_room S.fold self.old.durable rec.now ≡ false))) }
        ensures room { self.old.closed ≡ false → has_room S.fold self.old.durable rec.now ≡ false → OnOk result ⊥ }
        ensures refusals { IfErr result (λ e. (e ≡ faults.OutOfMemory) ⊎ IsErrOf result (faults.Full (S.fold.journal self.old.durable) (S.fold.capacity self.old.durable))) }
        ensures disk { SameDiskBy D.Disk self.old.disk self.new.disk }
        ensures counts { SameCountsBy D.Disk self.old.disk self.new.disk }
    {
        match self.state.ready(self.alloc, rec) {
            Ok(ready) => self.prepare_ready(ready),
            Err(Unfit::OutOfMemory) => Err(StoreFault::OutOfMemory),
            Err(Unfit::Bad) => unreachable!(),
        }
    }

    /// Puts the prepared record on the disk, and does what it says. It takes no memory. At `Ok` every crash leaves the
    /// record; a crash at any moment of the call leaves what was kept before, or what is kept after it. After a `Failed`
    /// the store is closed: take the disk, and attach it again.
    pub fn commit(&mut self) -> Result<(), StoreFault>
        requires { IsSome self.old.prepared }
        ensures taken { OnOk result ((r : R) → self.old.prepared ≡ Some r → S.fold.folded r self.old.durable ≡ Some self.new.durable) }
        ensures done { OnOk result (self.new ≡ record self.old { durable = self.new.durable; disk = self.new.disk; prepared = None; count = self.old.count + 1 }) }
        ensures closed { IsErrOf result faults.Closed ↔ (self.old.closed ≡ true) }
        ensures closed_same { IsErrOf result faults.Closed → self.new ≡ self.old }
        ensures failed { IsErrOf result faults.Failed → self.new ≡ record self.old { disk = self.new.disk; prepared = None; closed = true } }
        ensures refusals { IfErr result (λ e. (e ≡ faults.Failed) ⊎ (e ≡ faults.Closed)) }
        ensures told { TellsOn D.Disk self.old.disk self.new.disk }

        // Where the disk tells: every crash leaves what is kept now.
        ensures kept { OnOk result (IsKept S.fold self.new.durable (D.seen self.new.disk) (D.may_leave self.new.disk)) }

        // The record stands behind the others.
        ensures added { OnOk result ((r : R) → self.old.prepared ≡ Some r → (bytes : List ℕ) → D.seen self.old.disk ≡ Some bytes → IsJournal (whole_records bytes ++ S.fold.spelled r ∷ []) (D.seen self.new.disk) (D.may_leave self.new.disk)) }

        // A crash at any moment leaves what was kept before, or what is kept with the record.
        ensures any_moment { self.old.closed ≡ false → (r : R) → self.old.prepared ≡ Some r → (bytes : List ℕ) → D.seen self.old.disk ≡ Some bytes
            → LeavesOnlyBy D.Disk self.old.disk self.new.disk (LeftAround S.fold (whole_records bytes) r self.old.durable) }

        // Where the disk was set to stop or to fail at one of the calls, that one tells what a crash with each pick leaves.
        ensures reached { IsErrOf result faults.Failed → ReachesBy D.Disk self.old.disk self.new.disk }
        ensures left { IsErrOf result faults.Failed → (r : R) → self.old.prepared ≡ Some r → (bytes : List ℕ) → D.seen self.old.disk ≡ Some bytes
            → LeavesByPickOf D.Disk (whole_records bytes) (S.fold.spelled r) self.old.disk self.new.disk }

        ensures calls { OnOk result (D.calls self.new.disk ≡ D.calls self.old.disk + 4) }
        ensures most { CallsAtMost 4 D.Disk self.old.disk self.new.disk }
        ensures served { ServedBy D.Disk self.old.disk self.new.disk result }
        ensures setting { SetAs D.Disk self.old.disk self.new.disk }
    {
        if self.journal.is_closed() {
            return Err(StoreFault::Closed);
        }
        let Some(ready) = replace(&mut self.prepared, None) else {
            unreachable!()
        };
        append(&mut self.journal, S::bytes(&ready))?;
        self.state.redo(ready);
        Ok(())
    }

    /// The second half of a restart: one record that raises the boot number. `Full` also where the boot number is the last.
    /// Want of memory leaves the store as it was.
    pub fn boot(&mut self) -> Result<(), StoreFault>
        requires { self.old.closed ≡ false }
        ensures taken { OnOk result (S.fold.folded (S.fold.start (S.fold.boot self.old.durable + 1)) self.old.durable ≡ Some self.new.durable) }
        ensures started { OnOk result (self.new ≡ record self.old { durable = self.new.durable; disk = self.new.disk; prepared = None; count = self.old.count + 1 }) }
        ensures full { (used capacity : ℕ) → IsErrOf result (faults.Full used capacity) → ((nat_lt (S.fold.boot self.old.durable) 4294967295 && has_room S.fold self.old.durable (S.fold.start (S.fold.boot self.old.durable + 1))) ≡ false) × ((used ≡ S.fold.journal self.old.durable) × (capacity ≡ S.fold.capacity self.old.durable)) }
        ensures room { (nat_lt (S.fold.boot self.old.durable) 4294967295 && has_room S.fold self.old.durable (S.fold.start (S.fold.boot self.old.durable + 1))) ≡ false
            → IfErr result (λ e. (e ≡ faults.OutOfMemory) ⊎ IsErrOf result (faults.Full (S.fold.journal self.old.durable) (S.fold.capacity self.old.durable))) × (IsOk result → ⊥) }
        ensures early { IsEarly result (SameBut self.old self.new) }
        ensures still { IsEarly result (SameDiskBy D.Disk self.old.disk self.new.disk × SameCountsBy D.Disk self.old.disk self.new.disk) }
        ensures failed { IsErrOf result faults.Failed → self.new ≡ record self.old { disk = self.new.disk; prepared = None; closed = true } }
        ensures told { TellsOn D.Disk self.old.disk self.new.disk }
        ensures never { (IsErrOf result faults.Closed → ⊥) × ((n : ℕ) → IsErrOf result (faults.BadRecord n) → ⊥) }
        ensures kept { OnOk result (IsKept S.fold self.new.durable (D.seen self.new.disk) (D.may_leave self.new.disk)) }
        ensures added { OnOk result ((bytes : List ℕ) → D.seen self.old.disk ≡ Some bytes → IsJournal (whole_records bytes ++ S.fold.spelled (S.fold.start (S.fold.boot self.old.durable + 1)) ∷ []) (D.seen self.new.disk) (D.may_leave self.new.disk)) }
        ensures any_moment { (bytes : List ℕ) → D.seen self.old.disk ≡ Some bytes
            → LeavesOnlyBy D.Disk self.old.disk self.new.disk (LeftAround S.fold (whole_records bytes) (S.fold.start (S.fold.boot self.old.durable + 1)) self.old.durable) }
        ensures calls { OnOk result (D.calls self.new.disk ≡ D.calls self.old.disk + 4) }
        ensures most { CallsAtMost 4 D.Disk self.old.disk self.new.disk }
        ensures served { ServedBy D.Disk self.old.disk self.new.disk result }
        ensures setting { SetAs D.Disk self.old.disk self.new.disk }
    {
        let boot = self.state.boot();
        if boot == LAST_BOOT {
            return Err(StoreFault::Full(self.journal.len(), self.journal.capacity()));
        }
        let rec = S::start(self.alloc, boot + 1);
        let prepared = self.prepare(&rec);
        drop(rec);
        prepared?;
        self.commit()?;
        Ok(())
    }
}
