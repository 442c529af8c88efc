//! One record more: prepared, then put on the disk.

ghost use Rattle.std.specs.Prelude.{◌≡◌, ◌≤◌, ◌+◌, ◌++◌, ◌↔◌, ◌⊎◌, ◌∷◌, ℕ, List, [], None, Some, true, false, map, IfErr, IfOk, IsErrOf, IsOk, IsSome, OnErr, OnOk};
ghost use Rattle.afs_num.specs.declared.faults.StoreFault.TheVariants as faults;
ghost use Rattle.afs_num.specs.declared.records.StoreRecord as records;
ghost use Rattle.afs_disk.specs.Words.{SameDiskBy, LeavesOnlyBy, TellsOn, SetAs, CallsAtMost};
ghost use Rattle.afs_journal.specs.Log.{IsJournal};
ghost use Rattle.afs_journal.specs.Records.{whole_records};
ghost use Rattle.afs_journal.specs.Words.{SameCountsBy, LeavesByPickOf, ReachesBy};
ghost use Rattle.spec_records.specs.Records.{record_bytes, FitsRecord};
ghost use Rattle.spec_records.specs.Changes.{boot_record, can_boot};
ghost use Rattle.spec_records.specs.Durable.{has_room};
ghost use Rattle.spec_fold.specs.Effects.{effect_of, vanished_lines};
ghost use Rattle.spec_fold.specs.Fold.{folded};
ghost use Rattle.spec_fold.specs.Laws.{started};
ghost use Rattle.afs_memory.specs.Named.{IsNamed, IsRestored, IsRestoredThere};
ghost use Rattle.afs_volstore.specs.Stores.{IsEarly, IsFull, IsKept, IsNoChange, LeftAround, SameBut};
ghost use Rattle.afs_memory.specs.Telling.{in_words};
ghost use Rattle.afs_store.specs.Words.{ServedBy};

use crate::store::VolStore;
use afs_disk::Disk;
use afs_num::faults::StoreFault;
use afs_num::records::StoreRecord;
use afs_num::types::Mem;
use afs_readying::readying::{prepared_change, prepared_restored};
use afs_volume::{ReadyNames, Volume};
use spec_fold::laws::starts_are_kept;
use spec_history::lines::Lines;

impl<D: Disk> VolStore<D> {
    /// Takes all memory for one commit of this record. A refusal leaves everything as it was; so does `Ok`, but for what
    /// the next `commit` puts on the disk.
    pub fn prepare(&mut self, rec: &StoreRecord) -> Result<(), StoreFault>
        requires fits { FitsRecord rec.now }
        requires taken { IsSome (folded rec.now self.old.durable) }
        ensures ok { OnOk result (self.new ≡ record self.old { prepared = Some rec.now; disk = self.new.disk }) }
        ensures err { OnErr result (SameBut self.old self.new) }
        ensures full { (used capacity : ℕ) → IsErrOf result (faults.Full used capacity) → (self.old.closed ≡ false) × IsFull self.old.durable rec.now used capacity }
        ensures room { self.old.closed ≡ false → has_room self.old.durable rec.now ≡ false → OnOk result ⊥ }
        ensures refusals { IfErr result (λ e. (e ≡ faults.OutOfMemory) ⊎ IsErrOf result (faults.Full self.old.durable.journal self.old.durable.capacity)) }
        ensures disk { SameDiskBy D.Disk self.old.disk self.new.disk }
        ensures counts { SameCountsBy D.Disk self.old.disk self.new.disk }
    {
        self.store.prepare(rec)
    }

    /// Takes all memory for one commit of this record of a change, as `prepare` does. The names of its vnodes come with it, so
    /// that no directory is read.
    pub fn prepare_change(&mut self, rec: &StoreRecord, names: ReadyNames) -> Result<(), StoreFault>
        requires fits { FitsRecord rec.now }
        requires taken { IsSome (folded rec.now self.old.durable) }
        requires named { IsNamed rec.now.body names }
        ensures ok { OnOk result (self.new ≡ record self.old { prepared = Some rec.now; disk = self.new.disk }) }
        ensures err { OnErr result (SameBut self.old self.new) }
        ensures full { (used capacity : ℕ) → IsErrOf result (faults.Full used capacity) → (self.old.closed ≡ false) × IsFull self.old.durable rec.now used capacity }
        ensures room { self.old.closed ≡ false → has_room self.old.durable rec.now ≡ false → OnOk result ⊥ }
        ensures refusals { IfErr result (λ e. (e ≡ faults.OutOfMemory) ⊎ IsErrOf result (faults.Full self.old.durable.journal self.old.durable.capacity)) }
        ensures disk { SameDiskBy D.Disk self.old.disk self.new.disk }
        ensures counts { SameCountsBy D.Disk self.old.disk self.new.disk }
    {
        match prepared_change(self.alloc, rec, names) {
            Ok(ready) => self.store.prepare_ready(ready),
            Err(_) => Err(StoreFault::OutOfMemory),
        }
    }

    /// Takes all memory for one commit of this record of a restored volume, as `prepare` does. The volume that its dump makes comes
    /// with it, so that the dump isn't read again.
    pub fn prepare_restored(&mut self, rec: &StoreRecord, volume: Volume) -> Result<(), StoreFault>
        requires fits { FitsRecord rec.now }
        requires taken { IsSome (folded rec.now self.old.durable) }
        requires restored { IsRestored rec.now.body volume }
        requires made { IsRestoredThere rec.now.body volume self.old.durable }
        ensures ok { OnOk result (self.new ≡ record self.old { prepared = Some rec.now; disk = self.new.disk }) }
        ensures err { OnErr result (SameBut self.old self.new) }
        ensures full { (used capacity : ℕ) → IsErrOf result (faults.Full used capacity) → (self.old.closed ≡ false) × IsFull self.old.durable rec.now used capacity }
        ensures room { self.old.closed ≡ false → has_room self.old.durable rec.now ≡ false → OnOk result ⊥ }
        ensures refusals { IfErr result (λ e. (e ≡ faults.OutOfMemory) ⊎ IsErrOf result (faults.Full self.old.durable.journal self.old.durable.capacity)) }
        ensures disk { SameDiskBy D.Disk self.old.disk self.new.disk }
        ensures counts { SameCountsBy D.Disk self.old.disk self.new.disk }
    {
        match prepared_restored(self.alloc, rec, volume) {
            Ok(ready) => self.store.prepare_ready(ready),
            Err(_) => Err(StoreFault::OutOfMemory),
        }
    }

    /// What the prepared record tells, before it is done: as a restart tells it, which is word for word but for a change whose
    /// counts have no words.
    pub fn lines(&self) -> Mem<Lines>
        requires { IsSome self.now.prepared }
        ensures told { IfOk result (λ ls. (r : records.StoreRecord) → self.now.prepared ≡ Some r → ls ≡ map in_words (effect_of self.now.node r self.now.durable)) }
        ensures words { IfOk result (λ ls. (r : records.StoreRecord) → self.now.prepared ≡ Some r → IsNoChange r.body → ls ≡ effect_of self.now.node r self.now.durable) }
    {
        let Some(ready) = self.store.prepared() else {
            unreachable!()
        };
        let state = &self.store.state().state;
        state.lines(self.store.node(), &ready.head, &ready.redo)
    }

    /// Puts the prepared record on the disk, and does what it says. It takes no memory. At `Ok` every crash leaves the
    /// record; a crash at any moment of the call leaves what was kept before, or what is kept after it. After a `Failed`
    /// the store is closed: take the disk, and attach it again.
    pub fn commit(&mut self) -> Result<(), StoreFault>
        requires { IsSome self.old.prepared }
        ensures taken { OnOk result ((r : records.StoreRecord) → self.old.prepared ≡ Some r → folded r self.old.durable ≡ Some self.new.durable) }
        ensures done { OnOk result (self.new ≡ record self.old { durable = self.new.durable; disk = self.new.disk; prepared = None; count = self.old.count + 1 }) }
        ensures closed { IsErrOf result faults.Closed ↔ (self.old.closed ≡ true) }
        ensures closed_same { IsErrOf result faults.Closed → self.new ≡ self.old }
        ensures failed { IsErrOf result faults.Failed → self.new ≡ record self.old { disk = self.new.disk; prepared = None; closed = true } }
        ensures refusals { IfErr result (λ e. (e ≡ faults.Failed) ⊎ (e ≡ faults.Closed)) }
        ensures told { TellsOn D.Disk self.old.disk self.new.disk }

        // Where the disk tells: every crash leaves what is kept now.
        ensures kept { OnOk result (IsKept self.new.durable (D.seen self.new.disk) (D.may_leave self.new.disk)) }

        // The record stands behind the others.
        ensures added { OnOk result ((r : records.StoreRecord) → self.old.prepared ≡ Some r → (bytes : List ℕ) → D.seen self.old.disk ≡ Some bytes → IsJournal (whole_records bytes ++ record_bytes r ∷ []) (D.seen self.new.disk) (D.may_leave self.new.disk)) }

        // A crash at any moment leaves what was kept before, or what is kept with the record.
        ensures any_moment { self.old.closed ≡ false → (r : records.StoreRecord) → self.old.prepared ≡ Some r → (bytes : List ℕ) → D.seen self.old.disk ≡ Some bytes
            → LeavesOnlyBy D.Disk self.old.disk self.new.disk (LeftAround (whole_records bytes) r self.old.durable) }

        // Where the disk was set to stop or to fail at one of the calls, that one tells what a crash with each pick leaves.
        ensures reached { IsErrOf result faults.Failed → ReachesBy D.Disk self.old.disk self.new.disk }
        ensures left { IsErrOf result faults.Failed → (r : records.StoreRecord) → self.old.prepared ≡ Some r → (bytes : List ℕ) → D.seen self.old.disk ≡ Some bytes
            → LeavesByPickOf D.Disk (whole_records bytes) (record_bytes r) self.old.disk self.new.disk }

        ensures calls { OnOk result (D.calls self.new.disk ≡ D.calls self.old.disk + 4) }
        ensures most { CallsAtMost 4 D.Disk self.old.disk self.new.disk }
        ensures served { ServedBy D.Disk self.old.disk self.new.disk result }
        ensures setting { SetAs D.Disk self.old.disk self.new.disk }
    {
        self.store.commit()
    }

    /// The read-write volumes that a start deletes, as it tells them. That every crash leaves what the store keeps is a clause of
    /// its mark.
    fn vanished(&self) -> Mem<Lines>
        requires { self.now.closed ≡ false }
        ensures lines { IfOk result (λ ls. ls ≡ vanished_lines self.now.node self.now.durable.volumes) }
        ensures kept { IsKept self.now.durable (D.seen self.now.disk) (D.may_leave self.now.disk) }
    {
        let _ = self.store.mark();
        self.store.state().state.vanished(self.store.node())
    }

    /// The second half of a restart: one record that raises the boot number, and with which the volumes with the flag of
    /// delete on salvage go: the lines tell the read-write ones, by their numbers. `Full` also where the boot number is the last. Want of memory leaves the store as it was.
    pub fn boot(&mut self) -> Result<Lines, StoreFault>
        requires { self.old.closed ≡ false }
        ensures started { OnOk result (self.new ≡ record self.old { durable = started self.old.durable; disk = self.new.disk; prepared = None; count = self.old.count + 1 }) }
        ensures lines { IfOk result (λ ls. ls ≡ effect_of self.old.node (boot_record (self.old.durable.boot + 1)) self.old.durable) }
        ensures full { (used capacity : ℕ) → IsErrOf result (faults.Full used capacity) → (can_boot self.old.durable ≡ false) × (used ≡ self.old.durable.journal) × (capacity ≡ self.old.durable.capacity) }
        ensures room { can_boot self.old.durable ≡ false → IfErr result (λ e. (e ≡ faults.OutOfMemory) ⊎ IsErrOf result (faults.Full self.old.durable.journal self.old.durable.capacity)) × (IsOk result → ⊥) }
        ensures early { IsEarly result (SameBut self.old self.new) }
        ensures still { IsEarly result (SameDiskBy D.Disk self.old.disk self.new.disk × SameCountsBy D.Disk self.old.disk self.new.disk) }
        ensures failed { IsErrOf result faults.Failed → self.new ≡ record self.old { disk = self.new.disk; prepared = None; closed = true } }
        ensures told { TellsOn D.Disk self.old.disk self.new.disk }
        ensures never { (IsErrOf result faults.Closed → ⊥) × ((n : ℕ) → IsErrOf result (faults.BadRecord n) → ⊥) }
        ensures kept { OnOk result (IsKept self.new.durable (D.seen self.new.disk) (D.may_leave self.new.disk)) }
        ensures added { OnOk result ((bytes : List ℕ) → D.seen self.old.disk ≡ Some bytes → IsJournal (whole_records bytes ++ record_bytes (boot_record (self.old.durable.boot + 1)) ∷ []) (D.seen self.new.disk) (D.may_leave self.new.disk)) }
        ensures any_moment { (bytes : List ℕ) → D.seen self.old.disk ≡ Some bytes
            → LeavesOnlyBy D.Disk self.old.disk self.new.disk (LeftAround (whole_records bytes) (boot_record (self.old.durable.boot + 1)) self.old.durable) }
        ensures calls { OnOk result (D.calls self.new.disk ≡ D.calls self.old.disk + 4) }
        ensures most { CallsAtMost 4 D.Disk self.old.disk self.new.disk }
        ensures served { ServedBy D.Disk self.old.disk self.new.disk result }
        ensures setting { SetAs D.Disk self.old.disk self.new.disk }
    {
        starts_are_kept();
        let lines = match self.vanished() {
            Ok(lines) => lines,
            Err(_) => return Err(StoreFault::OutOfMemory),
        };
        self.store.boot()?;
        Ok(lines)
    }
}
