//! The database is made of its disk at a restart, and begins its next boot.

ghost use Rattle.std.specs.Prelude.{◌≡◌, ◌≤◌, ◌+◌, ◌∷◌, ◌++◌, ◌⊎◌, ℕ, List, [], None, Some, false, true, map, IfErr, IfOk, IsErrOf, IsOk, MatchResult};
ghost use Rattle.afs_disk.specs.Words.{CallsAtMost, LeavesOnlyBy, SameFaults, SetAs, TellsOn};
ghost use Rattle.afs_store.specs.Words.{IsTakenUpBy, ServedBy};
ghost use Rattle.afs_num.specs.declared.faults.StoreFault.TheVariants as faults;
ghost use Rattle.afs_num.specs.declared.types.Node.TheVariants.{Loc};
ghost use Rattle.afs_journal.specs.Log.{IsJournal};
ghost use Rattle.afs_journal.specs.Records.{whole_records};
ghost use Rattle.spec_records.specs.LocDurable.{loc_boot_record, loc_can_boot};
ghost use Rattle.spec_records.specs.LocLaws.{loc_started};
ghost use Rattle.spec_records.specs.LocRecords.{loc_record_bytes};
ghost use Rattle.spec_rows.specs.LocRow.{loc_revived};
ghost use Rattle.afs_store.specs.Opening.{lines_begun};
ghost use Rattle.afs_store.specs.Rereading.{IsAttached, IsRefused};
ghost use Rattle.afs_store.specs.Stores.{IsEarly, IsKept, LeftAround, Stands};
ghost use Rattle.afs_locstore.specs.Kept.{AreOfNodes};
ghost use Rattle.afs_locstore.specs.LocFold.{loc_fold};
ghost use Rattle.afs_locdb.specs.Seen.{loc_seen, SameBut, Serves};
ghost use Rattle.afs_saving.specs.Kept.{seat_kept};

use crate::database::LocDb;
use afs_disk::Disk;
use afs_locrecord::types::LocRecord;
use afs_locstore::held::{Held, LocStore, Part};
use afs_locstore::kept::KeptReplies;
use afs_num::faults::StoreFault;
use afs_num::records::Mark;
use afs_num::types::{Mem, Node};
use afs_saving::restoring::keep_found;
use afs_server_parts::callers::Callers;
use afs_store::Store;
use spec_history::lines::Lines;
use std::alloc::Global;

/// Nodes have the numbers below this one.
const NODE_NUMBERS: u32 = 205;

/// The callers to whom replies are kept, each with that, in this boot.
fn callers_kept(alloc: Global, kept: &KeptReplies, boot: u32) -> Mem<Callers>
    ensures boot { IfOk result (λ c. c.boot ≡ boot) }
    ensures seats { IfOk result (λ c. c.seats ≡ map seat_kept kept.now.table) }
    ensures nodes { IfOk result (λ _. AreOfNodes kept.now.table) }
{
    kept.are_of_nodes();
    let mut callers = Callers::new(alloc, boot);
    for place in 0..NODE_NUMBERS {
        keep_found(alloc, &mut callers, kept.at(place))?;
    }
    Ok(callers)
}

impl<D: Disk> LocDb<D> {
    /// The database over this store, without callers.
    pub(crate) fn over(alloc: Global, store: LocStore<D>) -> LocDb<D>
        ensures { result ≡ record { store = store; boot = store.durable.boot; seats = [] } }
    {
        let callers = Callers::new(alloc, store.state().state.boot);
        LocDb {
            alloc,
            store,
            callers,
        }
    }

    /// The first half of a restart: takes the records of a disk one after the other. The lines are the effect lines of the
    /// last record where the disk's mark isn't the one that was told, else none. `BadRecord` with the number of the first
    /// record that can't be taken. Each refusal hands the disk back; a crash at any moment leaves records that one before
    /// the call might have left. It has no callers before its next boot, and is given no message
    /// before that.
    pub fn attach(alloc: Global, disk: D, told: Mark) -> Result<(LocDb<D>, Lines), (StoreFault, D)>
        requires { D.limit disk ≤ 268435456 }
        ensures disk { MatchResult result
            (λ r. IsTakenUpBy D.Disk disk r.0.store.disk)
            (λ e. IsTakenUpBy D.Disk disk e.1) }
        ensures attached { MatchResult result
            (λ r. IsAttached (Stands loc_fold) loc_fold.capacity D.seen D.may_leave D.calls D.setting D.limit Loc disk r.0.store)
            (IsRefused loc_fold.first_bad D.seen D.faults D.own_faults D.calls D.setting D.limit disk) }
        ensures lines { IfOk result (λ r. (bytes : List ℕ) → D.seen disk ≡ Some bytes → lines_begun loc_fold Loc told (D.limit disk) (whole_records bytes) ≡ Some r.1) }
        ensures callers { IfOk result (λ r. (r.0.boot ≡ r.0.store.durable.boot) × (r.0.seats ≡ [])) }
        ensures quiet { IfOk result (λ r. SameFaults D.Disk disk r.0.store.disk) }
        ensures reads { IfErr result (λ e. (bytes now : List ℕ) → D.seen disk ≡ Some bytes → D.seen e.1 ≡ Some now → whole_records now ≡ whole_records bytes) }
    {
        match Store::<D, LocRecord, Part, Held>::attach(alloc, disk, Node::Loc, told) {
            Ok((store, lines)) => Ok((LocDb::over(alloc, store), lines)),
            Err(refused) => Err(refused),
        }
    }

    /// The second half of a restart: one record that raises the boot number. `Full` also where the boot number is the last. The
    /// callers are those to whom replies are kept; a kept reply that is no message is never given. It tells no lines. Want of
    /// memory and `Full` leave the database as it was.
    pub fn boot(&mut self) -> Result<Lines, StoreFault>
        requires open { self.old.store.closed ≡ false }
        requires node { self.old.store.node ≡ Loc }
        ensures started { IfOk result (λ ls. (ls ≡ []) × (self.new.store ≡ record self.old.store { durable = loc_started self.old.store.durable; disk = self.new.store.disk; prepared = None; count = self.old.store.count + 1 })) }
        ensures revived { IsOk result → loc_seen self.new ≡ loc_revived (loc_seen self.old) }
        ensures serves { IsOk result → Serves self.new }
        ensures full { (used capacity : ℕ) → IsErrOf result (faults.Full used capacity) → (loc_can_boot self.old.store.durable ≡ false) × ((used ≡ self.old.store.durable.journal) × (capacity ≡ self.old.store.durable.capacity)) }
        ensures room { loc_can_boot self.old.store.durable ≡ false → IfErr result (λ e. (e ≡ faults.OutOfMemory) ⊎ IsErrOf result (faults.Full self.old.store.durable.journal self.old.store.durable.capacity)) × (IsOk result → ⊥) }
        ensures early { IsEarly result (SameBut self.old self.new) }
        ensures failed { IsErrOf result faults.Failed → self.new.store ≡ record self.old.store { disk = self.new.store.disk; prepared = None; closed = true } }
        ensures told { TellsOn D.Disk self.old.store.disk self.new.store.disk }
        ensures never { (IsErrOf result faults.Closed → ⊥) × ((n : ℕ) → IsErrOf result (faults.BadRecord n) → ⊥) }
        ensures kept { IsOk result → IsKept loc_fold self.new.store.durable (D.seen self.new.store.disk) (D.may_leave self.new.store.disk) }
        ensures added { IsOk result → (bytes : List ℕ) → D.seen self.old.store.disk ≡ Some bytes → IsJournal (whole_records bytes ++ loc_record_bytes (loc_boot_record (self.old.store.durable.boot + 1)) ∷ []) (D.seen self.new.store.disk) (D.may_leave self.new.store.disk) }
        ensures any_moment { (bytes : List ℕ) → D.seen self.old.store.disk ≡ Some bytes
            → LeavesOnlyBy D.Disk self.old.store.disk self.new.store.disk (LeftAround loc_fold (whole_records bytes) (loc_boot_record (self.old.store.durable.boot + 1)) self.old.store.durable) }
        ensures calls { IsOk result → D.calls self.new.store.disk ≡ D.calls self.old.store.disk + 4 }
        ensures most { CallsAtMost 4 D.Disk self.old.store.disk self.new.store.disk }
        ensures served { ServedBy D.Disk self.old.store.disk self.new.store.disk result }
        ensures setting { SetAs D.Disk self.old.store.disk self.new.store.disk }
    {
        let _kept = self.mark();
        let next = self.boot_number().saturating_add(1);
        let callers = match callers_kept(self.alloc, &self.held().kept, next) {
            Ok(callers) => callers,
            Err(_) => return Err(StoreFault::OutOfMemory),
        };
        self.store.boot()?;
        self.callers = callers;
        Ok(Lines::new(self.alloc))
    }
}
