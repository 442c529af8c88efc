//! What is looked up in the store for a call, and the verdict on it.

ghost use Rattle.std.specs.Prelude.{◌≡◌, Bool, ℕ, Some, length, slice_get, ◌≤◌, IfOk, IfSome, OnOk};
ghost use Rattle.std.specs.List.{AllByRecursion};
ghost use Rattle.afs_num.specs.declared.messages.Call.TheVariants as ask;
ghost use Rattle.afs_num.specs.declared.volume_calls.VolCall.TheVariants as calls;
ghost use Rattle.spec_shape.specs.Rows.{IsWithin};
ghost use Rattle.spec_shape.specs.Tables.{IsCount, IsListedVolume};
ghost use Rattle.spec_ideal.specs.Tables.{get};
ghost use Rattle.spec_model.specs.CellRows.{cell_calls, call_number};
ghost use Rattle.spec_fold.specs.Deeds.{has_volume_room};
ghost use Rattle.afs_shelves.specs.Shelving.{is_new_in, stored_as};
ghost use Rattle.spec_volrows.specs.VolRow as row;
ghost use Rattle.spec_volrows.specs.VolRow.{list_of};
ghost use Rattle.afs_voldecisions.specs.Verdicts.{named_in, verdict_of, CanTell, IsHeld, IsShelf};
ghost use Rattle.afs_volanswers.specs.Deciding.{IsMadeInVerdict};
ghost use Rattle.afs_volanswers.specs.Looking.{listed_of, listed_there, with_one};
ghost use Rattle.afs_volserv.specs.Seen.{durable_seen};

use afs_disk::Disk;
use afs_num::types::Mem;
use afs_num::volume_calls::{ListedVolume, ListedVolumes, VolCall};
use afs_voldecisions::transactions::Transactions;
use afs_voldecisions::verdicts::{Verdict, family_of, judged, named_in, number_in};
use afs_volstore::VolStore;
use afs_volume::Volume;
use std::alloc::Global;

/// A server has at most so many volumes.
const MOST_VOLUMES: u32 = 64;

/// The volume that a call names besides that of its transaction.
fn find_named<'a, D: Disk>(store: &'a VolStore<D>, call: &VolCall) -> Option<&'a Volume>
    ensures { (id : ℕ) → named_in call.now ≡ Some id → IsShelf id result (get id store.entry.now.durable.volumes) }
{
    store.volume(named_in(call)?)
}

/// The volume of the call's transaction.
fn find_held<'a, D: Disk>(
    store: &'a VolStore<D>,
    ts: &Transactions,
    call: &VolCall,
) -> Option<&'a Volume>
    ensures held { IsHeld store.entry.now.durable ts.now.table call.now result }
    ensures there { IfSome result (λ v. get v.now.head.id store.entry.now.durable.volumes ≡ Some (stored_as (is_new_in v.now.head.id store.entry.now.durable.volumes) v.now)) }
{
    let transaction = ts.found(family_of(call), number_in(call))?;
    store.volume(transaction.volume)
}

/// Whether the store has room for one more volume.
fn has_room<D: Disk>(store: &VolStore<D>) -> bool
    ensures { result ≡ has_volume_room store.now.durable }
{
    store.volume_at(MOST_VOLUMES - 1).is_none()
}

/// What a list tells of a volume, where it is of the family.
fn listed(volume: &Volume, family: u32) -> Option<ListedVolume>
    ensures value { (is_new : Bool) → result ≡ listed_of family is_new volume.now }
    ensures fits { IfSome result IsListedVolume }
{
    let head = volume.head();
    if head.family != family {
        return None;
    }
    Some(ListedVolume {
        volume: head.id,
        kind: head.kind,
        flags: head.flags,
        release: head.release,
    })
}

/// What a list tells of the volume at this place, where it is of the family.
fn listed_at<D: Disk>(store: &VolStore<D>, place: u32, family: u32) -> Option<ListedVolume>
    ensures few { length store.now.durable.volumes ≤ 64 }
    ensures value { result ≡ listed_there family (slice_get store.now.durable.volumes place) }
    ensures fits { IfSome result IsListedVolume }
{
    listed(store.volume_at(place)?, family)
}

/// One more volume is listed, if it is.
fn add(list: &mut ListedVolumes, one: Option<ListedVolume>) -> Mem<()>
    ensures { OnOk result (list.new ≡ with_one list.old one) }
{
    if let Some(one) = one {
        list.push(one)?;
    }
    Ok(())
}

/// What a list tells of the family's volumes.
fn list_of<D: Disk>(alloc: Global, store: &VolStore<D>, family: u32) -> Mem<ListedVolumes>
    ensures list { IfOk result (λ l. l ≡ list_of family store.now.durable) }
    ensures fits { IfOk result (λ l. IsCount 64 (length l) × AllByRecursion IsListedVolume l) }
{
    let mut list = ListedVolumes::new(alloc);
    for place in 0..MOST_VOLUMES {
        add(&mut list, listed_at(store, place, family))?;
    }
    Ok(list)
}

/// The volumes of the family, where the call asks for them.
fn list_for<D: Disk>(alloc: Global, store: &VolStore<D>, call: &VolCall) -> Mem<ListedVolumes>
    ensures list { IfOk result (λ l. (family : ℕ) → call.now ≡ calls.ListVols family → l ≡ list_of family store.now.durable) }
    ensures fits { IfOk result (λ l. IsCount 64 (length l) × AllByRecursion IsListedVolume l) }
{
    match call {
        VolCall::ListVols { family } => list_of(alloc, store, *family),
        _ => Ok(ListedVolumes::new(alloc)),
    }
}

/// The verdict on a call under this stamp, which isn't below the stored one, over these transactions.
pub fn judge<D: Disk>(
    alloc: Global,
    store: &VolStore<D>,
    ts: &Transactions,
    stamp: u32,
    call: &VolCall,
) -> Mem<Verdict>
    requires { IsWithin cell_calls (ask.Volume call.now) }
    ensures decides { IfOk result (λ x. verdict_of x ≡ row.verdict (durable_seen store.now) ts.now.table ts.now.last stamp call.now) }
    ensures told { IfOk result (CanTell (call_number (ask.Volume call.now))) }
    ensures made { IfOk result (IsMadeInVerdict store.now.durable) }
{
    let listed = list_for(alloc, store, call)?;
    let named = find_named(store, call);
    let held = find_held(store, ts, call);
    let has_room = has_room(store);
    let verdict = judged(alloc, ts, stamp, call, named, held, has_room, listed)?;
    Ok(verdict)
}
