ghost use Rattle.std.specs.Prelude.{◌≡◌, ◌≤◌, ◌<◌, ◌+◌, ◌++◌, ◌∷◌, [], ◌↔◌, ◌*◌, ◌^◌, List, ℕ, Some, true, false, length, MatchResult, IfOk, IfErr, OnOk, IsOk, IsErrOf, IsTrue};
ghost use Rattle.afs_disk.specs.Words.{LeavesOnlyBy, TellsOn, CallsAtMost, SameFaults, PassesBy};
ghost use Rattle.afs_journal.specs.Records.{whole_records, IsBeforeOrAfter};
ghost use Rattle.afs_journal.specs.Log.{AlwaysStandsFor, Appended, HasRoom, IsJournal, KeepsRoom, LeavesUnchanged, Rests, StandsAsBefore, Unchanged};
ghost use Rattle.afs_journal.specs.Words.{ServedBy, SameCountsBy, TakenBy, LeavesByPickOf, IsCausedBy, ReachesBy};

use crate::found::Found;
use crate::mend::settle;
use crate::opening::open;
use crate::put::put;
use crate::spelling::{SPELLED, TAKEN, give_back, make_room, spell};
use afs_disk::Disk;
use afs_num::faults::JournalFault;
use afs_num::types::Mem;
use std::alloc::Global;
use std::marker::Model;

/// Records on a disk, in the order in which they were appended.
#[derive(Drop)]
pub struct Journal<D: Disk> {
    pub(crate) disk: D,
    found: Found,
    count: u64,
    gate: u64,
    closed: bool,
    place: Vec<u8>,
}

impl<D: Disk> Model for Journal<D> {
    ghost use Rattle.std.specs.Vec.{vec_capacity};
    ghost use Rattle.afs_journal.specs.Log.{Log, IsSoundLog};

    ghost Value = { Log D };

    ghost view = { λ j. record { disk = j.disk; found = j.found; count = j.count; gate = j.gate; closed = j.closed; spelled = vec_capacity j.place } };

    ghost invariant = { λ j. IsSoundLog D.seen D.size D.may_leave D.limit (record { disk = j.disk; found = j.found; count = j.count; gate = j.gate; closed = j.closed; spelled = vec_capacity j.place }) };
}

// Whether a record of so many bytes fits behind a journal of this length.
fn fits(used: u64, len: u64, capacity: u64) -> bool
    requires { capacity < 2 ^ 63 }
    ensures { IsTrue result ↔ (used + len + 9 ≤ capacity) }
{
    used.saturating_add(len).saturating_add(SPELLED) <= capacity
}

// Finds the whole records of a disk, and makes a journal at rest of it.
fn take_up<D: Disk>(alloc: Global, disk: &mut D) -> Result<(Found, u64), JournalFault>
    ensures size { IfOk result (λ r. D.size disk.new ≡ r.1 + 1) }
    ensures counts { IfOk result (λ r. (9 * length r.0 ≤ r.1) × (r.1 < 2 ^ 63)) }
    ensures few { IfOk result (λ r. length r.0 < 2 ^ 32) }
    ensures found { IfOk result (λ r. (bytes : List ℕ) → D.seen disk.old ≡ Some bytes → r.0 ≡ whole_records bytes) }
    ensures empty { IfOk result (λ r. D.size disk.old ≡ 0 → (r.0 ≡ []) × (r.1 ≡ 0)) }
    ensures told { TellsOn D.Disk disk.old disk.new }
    ensures done { OnOk result ((bytes : List ℕ) → D.seen disk.old ≡ Some bytes → IsJournal (whole_records bytes) (D.seen disk.new) (D.may_leave disk.new)) }
    ensures any_moment { (bytes : List ℕ) → D.seen disk.old ≡ Some bytes → LeavesOnlyBy D.Disk disk.old disk.new (StandsAsBefore (D.may_leave disk.old)) }
    ensures begins { D.calls disk.old + 2 ≤ D.calls disk.new → (bytes : List ℕ) → D.seen disk.old ≡ Some bytes → AlwaysStandsFor (whole_records bytes) (D.may_leave disk.new) }
    ensures reads { (bytes now : List ℕ) → D.seen disk.old ≡ Some bytes → D.seen disk.new ≡ Some now → whole_records now ≡ whole_records bytes }
    ensures rests { OnOk result ((bytes : List ℕ) → D.seen disk.old ≡ Some bytes → Rests bytes → D.calls disk.new ≡ D.calls disk.old + 2) }
    ensures calls { CallsAtMost 6 D.Disk disk.old disk.new }
    ensures setting { D.setting disk.new ≡ D.setting disk.old }
    ensures cause { ServedBy D.Disk disk.old disk.new result }
    ensures limit { D.limit disk.new ≡ D.limit disk.old }
{
    let bytes = open(alloc, disk)?;
    let (found, gate) = settle(alloc, disk, &bytes)?;
    Ok((Found::of(bytes, found), gate))
}

impl<D: Disk> Journal<D> {
    /// Finds the whole records of a disk that a crash may have left, and makes a journal at rest of it. Each refusal hands
    /// the disk back; a crash at any moment leaves records that one before the call might have left, so none is lost.
    ///
    /// At want of memory it may have made some of its device calls: memory for the records is asked for once they were
    /// read. The disk can be attached again.
    pub fn attach(alloc: Global, disk: D) -> Result<Journal<D>, (JournalFault, D)>
        requires { D.limit disk ≤ 268435456 }

        ensures found { IfOk result (λ j. (bytes : List ℕ) → D.seen disk ≡ Some bytes → j.found ≡ whole_records bytes) }

        // An empty disk has no records, whether it tells its bytes or not.
        ensures empty { IfOk result (λ j. D.size disk ≡ 0 → (j.found ≡ []) × (j.gate ≡ 0)) }

        ensures at_rest { IfOk result (λ j. (bytes : List ℕ) → D.seen disk ≡ Some bytes → IsJournal (whole_records bytes) (D.seen j.disk) (D.may_leave j.disk)) }
        ensures told { MatchResult result (λ j. TellsOn D.Disk disk j.disk) (λ e. TellsOn D.Disk disk e.1) }
        ensures counts { IfOk result (λ j. (j.count ≡ length j.found) × (D.size j.disk ≡ j.gate + 1) × (j.closed ≡ false)) }
        ensures any_moment { (bytes : List ℕ) → D.seen disk ≡ Some bytes → MatchResult result
            (λ j. LeavesOnlyBy D.Disk disk j.disk (StandsAsBefore (D.may_leave disk)))
            (λ e. LeavesOnlyBy D.Disk disk e.1 (StandsAsBefore (D.may_leave disk))) }
        ensures ok { IfOk result (λ j. TakenBy D.Disk disk j.disk × PassesBy D.Disk disk j.disk) }
        ensures quiet { IfOk result (λ j. SameFaults D.Disk disk j.disk) }
        ensures err { IfErr result (λ e. TakenBy D.Disk disk e.1 × IsCausedBy D.Disk disk e.1 e.0) }

        // It begins with a sync: once it made another call, every crash leaves the records that a read gave.
        ensures begins { IfErr result (λ e. D.calls disk + 2 ≤ D.calls e.1 → (bytes : List ℕ) → D.seen disk ≡ Some bytes → AlwaysStandsFor (whole_records bytes) (D.may_leave e.1)) }

        // What a read gives then stands for the records from before.
        ensures reads { IfErr result (λ e. (bytes now : List ℕ) → D.seen disk ≡ Some bytes → D.seen e.1 ≡ Some now → whole_records now ≡ whole_records bytes) }

        // A journal at rest is synced and read, and nothing more.
        ensures rests { IfOk result (λ j. (bytes : List ℕ) → D.seen disk ≡ Some bytes → Rests bytes → D.calls j.disk ≡ D.calls disk + 2) }

        ensures limit { MatchResult result (λ j. D.limit j.disk ≡ D.limit disk) (λ e. D.limit e.1 ≡ D.limit disk) }
    {
        let mut disk = disk;
        match take_up(alloc, &mut disk) {
            Ok((found, gate)) => Ok(Journal {
                disk,
                count: found.len() as u64,
                found,
                gate,
                closed: false,
                place: Vec::new(alloc),
            }),
            Err(fault) => Err((fault, disk)),
        }
    }

    /// The records that `attach` found, in order. It takes no memory.
    pub fn records(&self) -> &Found
        ensures { result.now ≡ self.now.found }
    {
        &self.found
    }

    /// Lets the records go that `attach` found: whoever has taken them has no need of them here. It takes no memory.
    pub fn forget(&mut self)
        ensures { self.new ≡ record self.old { found = [] } }
    {
        let alloc = *self.place.allocator();
        self.found = Found::new(alloc);
    }

    /// How many bytes the journal has, the closed gate at its end among them. It takes no memory.
    pub fn len(&self) -> u64
        ensures { result ≡ self.now.gate + 1 }
    {
        self.gate + 1
    }

    /// How many bytes its disk is for. It takes no memory.
    pub fn capacity(&self) -> u64
        ensures { result ≡ D.limit self.now.disk }
    {
        self.disk.capacity()
    }

    /// How many records it has: those that `attach` found, and those that were appended since. It takes no memory.
    pub fn count(&self) -> u64
        ensures value { result ≡ self.now.count }
        ensures few { self.now.count < 2 ^ 32 }
    {
        self.count
    }

    /// Whether a device call failed since the disk was attached. It takes no memory.
    pub fn is_closed(&self) -> bool
        ensures { result ≡ self.now.closed }
    {
        self.closed
    }

    /// Whether a record of so many bytes fits on the disk, behind those that are there. It takes no memory.
    pub fn fits(&self, len: u64) -> bool
        ensures { IsTrue result ↔ (self.now.gate + 1 + len + 9 ≤ D.limit self.now.disk) }
    {
        fits(self.gate + 1, len, self.disk.capacity())
    }

    /// Makes room, so that the next `append` of at most so many bytes wants no memory. It takes no room away that was
    /// there, and nothing else changes.
    pub fn reserve(&mut self, len: u64) -> Mem<()>
        ensures ok { OnOk result (HasRoom D.limit D.space len self.new) }
        ensures succeeds { HasRoom D.limit D.space len self.old → IsOk result }
        ensures keeps { KeepsRoom D.limit D.space self.old self.new }
        ensures same { Unchanged D.seen D.left_by D.size D.may_leave D.moment D.left_since self.old self.new }
        ensures disk { SameCountsBy D.Disk self.old.disk self.new.disk }
    {
        let most = len.min(self.disk.capacity().saturating_sub(self.gate + TAKEN));
        make_room(&mut self.disk, &mut self.place, self.gate, most)?;
        Ok(())
    }

    /// Appends a record, and answers its number: the first is 1. At `Ok` it is acknowledged, and every crash leaves it;
    /// a crash at any moment of the call leaves the records from before, with this one or without. After a `Failed` the
    /// journal is closed: take the disk, and attach it again.
    pub fn append(&mut self, rec: &[u8]) -> Result<u64, JournalFault>
        ensures closed { IsErrOf result JournalFault.Closed ↔ (self.old.closed ≡ true) }
        ensures full { (used capacity : ℕ) → IsErrOf result (JournalFault.Full used capacity) ↔ ((self.old.closed ≡ false) × (used ≡ self.old.gate + 1) × (capacity ≡ D.limit self.old.disk) × (capacity < used + length rec.now + 9)) }
        ensures full_same { (used capacity : ℕ) → IsErrOf result (JournalFault.Full used capacity) → self.new ≡ self.old }
        ensures closed_same { IsErrOf result JournalFault.Closed → self.new ≡ self.old }
        ensures failed { IsErrOf result JournalFault.Failed → self.new.closed ≡ true }
        ensures stays { IsErrOf result JournalFault.Failed → (self.new.count ≡ self.old.count) × (self.new.gate ≡ self.old.gate) }
        ensures memory { HasRoom D.limit D.space (length rec.now) self.old → IsErrOf result JournalFault.OutOfMemory → ⊥ }
        ensures number { IfOk result (λ n. (n ≡ self.old.count + 1) × (self.new.count ≡ n) × (self.new.gate ≡ self.old.gate + length rec.now + 9) × (self.new.closed ≡ false)) }

        ensures told { TellsOn D.Disk self.old.disk self.new.disk }

        // Where the disk tells: every crash leaves the new record too.
        ensures added { OnOk result ((bytes : List ℕ) → D.seen self.old.disk ≡ Some bytes → IsJournal (whole_records bytes ++ rec.now ∷ []) (D.seen self.new.disk) (D.may_leave self.new.disk)) }

        // A crash at any moment leaves the records from before the call, with the new one or without.
        ensures any_moment { self.old.closed ≡ false → (bytes : List ℕ) → D.seen self.old.disk ≡ Some bytes
            → LeavesOnlyBy D.Disk self.old.disk self.new.disk (IsBeforeOrAfter (whole_records bytes) rec.now) }

        // Where the disk was set to stop or to fail at one of the calls, that one tells what a crash with each pick leaves.
        ensures reached { IsErrOf result JournalFault.Failed → ReachesBy D.Disk self.old.disk self.new.disk }
        ensures left { IsErrOf result JournalFault.Failed → (bytes : List ℕ) → D.seen self.old.disk ≡ Some bytes
            → LeavesByPickOf D.Disk (whole_records bytes) rec.now self.old.disk self.new.disk }

        ensures unchanged { LeavesUnchanged result (Unchanged D.seen D.left_by D.size D.may_leave D.moment D.left_since self.old self.new) }
        ensures keeps { LeavesUnchanged result (KeepsRoom D.limit D.space self.old self.new) }
        ensures uncounted { LeavesUnchanged result (SameCountsBy D.Disk self.old.disk self.new.disk) }
        ensures calls { OnOk result (D.calls self.new.disk ≡ D.calls self.old.disk + 4) }
        ensures most { CallsAtMost 4 D.Disk self.old.disk self.new.disk }
        ensures cause { Appended (D.setting self.old.disk) (D.calls self.old.disk) (D.calls self.new.disk) (D.faults self.old.disk) (D.faults self.new.disk) (D.own_faults self.old.disk) (D.own_faults self.new.disk) result }
        ensures kept { (self.new.found ≡ self.old.found) × (D.limit self.new.disk ≡ D.limit self.old.disk) × (D.setting self.new.disk ≡ D.setting self.old.disk) }
    {
        if self.closed {
            return Err(JournalFault::Closed);
        }
        let used = self.gate + 1;
        let capacity = self.disk.capacity();
        let len = rec.len() as u64;
        if !fits(used, len, capacity) {
            return Err(JournalFault::Full(used, capacity));
        }
        make_room(&mut self.disk, &mut self.place, self.gate, len)?;
        spell(&mut self.place, self.count + 1, rec)?;
        match put(&mut self.disk, self.gate, &self.place) {
            Ok(()) => {
                give_back(&mut self.place);
                self.count += 1;
                self.gate += len + SPELLED;
                Ok(self.count)
            }
            Err(_) => {
                self.closed = true;
                Err(JournalFault::Failed)
            }
        }
    }

    /// The disk.
    pub fn into_disk(self) -> D
        ensures { result ≡ self.disk }
    {
        let Journal {
            disk,
            found: _,
            count: _,
            gate: _,
            closed: _,
            place: _,
        } = self;
        disk
    }
}
