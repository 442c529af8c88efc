//! A store is made of a journal that was begun, with its first record.

ghost use Rattle.std.specs.Prelude.{◌≡◌, ◌≤◌, ◌+◌, ◌∷◌, ◌⊎◌, [], None, Some, true, false, is_some, length, IfErr, IfOk, IsSome, MatchResult};
ghost use Rattle.afs_num.specs.declared.faults.StoreFault.TheVariants as faults;
ghost use Rattle.afs_disk.specs.Words.{LeavesOnlyBy, TellsOn, SameFaults, PassesBy};
ghost use Rattle.afs_journal.specs.Log.{IsJournal};
ghost use Rattle.afs_journal.specs.Records.{IsBeforeOrAfter};
ghost use Rattle.spec_records.specs.Changes.{boot_record, no_head};
ghost use Rattle.spec_fold.specs.Fold.{body_taken, first_folded, is_first};
ghost use Rattle.spec_records.specs.Durable.{nothing_on, Durable};
ghost use Rattle.spec_records.specs.Records.{head_form, record_bytes, FitsRecord};
ghost use Rattle.afs_volstore.specs.Stores.{IsKept};
ghost use Rattle.afs_store.specs.Words.{IsCausedBy, MovedBy};

use crate::held::{Held, Part};
use crate::store::VolStore;
use afs_disk::Disk;
use afs_journal::Journal;
use afs_num::faults::StoreFault;
use afs_num::records::{RecordBody, RecordHead, StoreRecord};
use afs_num::sequences::Octets;
use afs_num::types::Node;
use afs_seats::Seats;
pub use afs_store::beginning::begin;
use afs_store::beginning::filled as first_put;
use std::alloc::Global;

/// The head of a record that raises no stamp and keeps no reply.
#[tactic(auto, unfolding(spec_records::specs::Records::head_form))]
pub fn no_head(alloc: Global) -> RecordHead
    ensures value { result ≡ no_head }
    ensures fits { head_form.Fits result }
{
    RecordHead {
        family: 0,
        stamp: 0,
        caller: None,
        epoch: 0,
        number: 0,
        reply: Octets::new(alloc),
    }
}

/// The record of a start with this boot number.
pub(crate) fn start_record(alloc: Global, boot: u32) -> StoreRecord
    ensures record { result ≡ boot_record boot }
    ensures fits { FitsRecord result }
{
    StoreRecord {
        head: no_head(alloc),
        body: RecordBody::Boot { boot },
    }
}

/// Puts the first record on a disk with a journal that has none, and makes a store of it.
pub fn filled<D: Disk>(
    alloc: Global,
    journal: Journal<D>,
    node: Node,
    rec: &StoreRecord,
) -> Result<VolStore<D>, (StoreFault, D)>
    requires fits { FitsRecord rec.now }
    requires first { is_first rec.now.body ≡ true }
    requires taken { (d : Durable) → d.volumes ≡ [] → is_some (body_taken rec.now.body d) ≡ true }
    requires empty { (journal.gate ≡ 0) × ((journal.count ≡ 0) × (journal.closed ≡ false)) }
    requires begun { IsSome (D.seen journal.disk) → IsJournal [] (D.seen journal.disk) (D.may_leave journal.disk) }
    requires room { length (record_bytes rec.now) + 10 ≤ D.limit journal.disk }
    ensures made { IfOk result (λ s. first_folded rec.now (nothing_on (D.limit journal.disk)) ≡ Some s.durable) }
    ensures rest { IfOk result (λ s. s ≡ record { durable = s.durable; disk = s.disk; node = node; prepared = None; closed = false; count = 1; drawn = 0; holds = s.holds }) }
    ensures free { IfOk result (λ s. s.holds.table ≡ []) }
    ensures kept { IfOk result (λ s. IsKept s.durable (D.seen s.disk) (D.may_leave s.disk)) }
    ensures first { IfOk result (λ s. IsSome (D.seen journal.disk) → IsJournal (record_bytes rec.now ∷ []) (D.seen s.disk) (D.may_leave s.disk)) }
    ensures told { MatchResult result (λ s. TellsOn D.Disk journal.disk s.disk) (λ e. TellsOn D.Disk journal.disk e.1) }
    ensures refusals { IfErr result (λ e. (e.0 ≡ faults.Failed) ⊎ (e.0 ≡ faults.OutOfMemory)) }
    ensures any_moment { IsSome (D.seen journal.disk) → MatchResult result
        (λ s. LeavesOnlyBy D.Disk journal.disk s.disk (IsBeforeOrAfter [] (record_bytes rec.now)))
        (λ e. LeavesOnlyBy D.Disk journal.disk e.1 (IsBeforeOrAfter [] (record_bytes rec.now))) }
    ensures ok { IfOk result (λ s. MovedBy 4 D.Disk journal.disk s.disk × PassesBy D.Disk journal.disk s.disk) }
    ensures quiet { IfOk result (λ s. SameFaults D.Disk journal.disk s.disk) }
    ensures err { IfErr result (λ e. MovedBy 4 D.Disk journal.disk e.1 × IsCausedBy D.Disk journal.disk e.1 e.0) }
{
    match first_put::<D, StoreRecord, Part, Held>(alloc, journal, node, rec) {
        Ok(store) => Ok(VolStore {
            alloc,
            store,
            holds: Seats::new(alloc),
        }),
        Err(refused) => Err(refused),
    }
}
