//! The log of grants: what of it is held on a volume, and what ends.

ghost use Rattle.std.specs.Prelude.{◌≡◌, ◌+◌, ◌<◌, ◌≤◌, ◌++◌, [], ◌∷◌, ◌&&◌, ℕ, length, true, None, is_some, if◌then◌else◌};
ghost use Rattle.std.specs.List.{prefix_len};
ghost use Rattle.std.specs.List.Sorted.{IsPermutation};
ghost use Rattle.std.specs.Vec.{vec_capacity, vec_len};
ghost use Rattle.indexmap.specs.IndexMap.{get, spare};
ghost use Rattle.afs_promise.specs.declared.types.Holding.{Holding};
ghost use Rattle.spec_breaks.specs.Promises.{by_fid};
ghost use Rattle.afs_promise.specs.Granting.{holding_in, same_holding, is_held_on, is_due, ends, reach, goes_on, lasting_grants, promises_in, held_on, Rises};

use crate::latest::{is_held, remove};
use crate::types::{Grant, Holding};
use indexmap::IndexMap;

/// Whether the grant is held, and on this volume.
fn is_held_on(latest: &IndexMap<Holding, Grant>, volume: u32, grant: &Grant) -> bool
    ensures { result ≡ is_held_on (get same_holding latest.now) volume grant.now }
{
    grant.promise.fid.volume == volume && is_held(latest, grant)
}

/// Adds a grant, in the room that was made for it.
fn add(gone: &mut Vec<Grant>, grant: Grant)
    requires { vec_len gone.old < vec_capacity gone.old }
    ensures items { gone.new.items ≡ gone.old.items ++ grant ∷ [] }
    ensures capacity { vec_capacity gone.old ≤ vec_capacity gone.new }
{
    let _ = gone.push(grant);
}

/// Adds the grants that are held on the volume, in the room that was made for them.
pub fn gather(log: &[Grant], latest: &IndexMap<Holding, Grant>, volume: u32, gone: &mut Vec<Grant>)
    requires { vec_len gone.old + length (held_on (get same_holding latest.now) volume log.now) ≤ vec_capacity gone.old }
    ensures grants { gone.new.items ≡ gone.old.items ++ held_on (get same_holding latest.now) volume log.now }
    ensures capacity { vec_capacity gone.old ≤ vec_capacity gone.new }
{
    for grant in log {
        if is_held_on(latest, volume, grant) {
            add(gone, *grant);
        }
    }
}

/// Leaves out those whose expiry isn't above the clock.
pub fn keep_lasting(grants: &mut Vec<Grant>, now: u32)
    ensures { grants.new.items ≡ lasting_grants now grants.old.items }
{
    grants.retain(|g| g.promise.expiry > now);
}

/// Puts grants in the order of their fids, those on one fid in the order of granting.
pub fn sort_by_fid(gone: &mut Vec<Grant>)
    ensures moved { IsPermutation gone.old.items gone.new.items }
    ensures sorted { (high : ℕ) → Rises 0 high gone.old.items → promises_in gone.new.items ≡ by_fid (promises_in gone.old.items) }
    ensures capacity { vec_capacity gone.new ≡ vec_capacity gone.old }
{
    gone.sort_unstable_by_key(|g| (g.promise.fid, g.order));
}

/// How many grants at the front have an expiry that isn't above the clock.
fn due_in_front(log: &[Grant], now: u32) -> usize
    ensures value { result ≡ prefix_len (is_due now) log.now }
    ensures within { result ≤ length log.now }
{
    log.iter().take_while(|g| g.promise.expiry <= now).count()
}

/// The place to which those may stand whose expiry isn't above the clock.
pub fn reach(log: &[Grant], rising: bool, ended: usize, now: u32) -> usize
    requires { ended ≤ length log.now }
    ensures place { result ≡ reach now rising ended log.now }
    ensures within { result ≤ length log.now }
    ensures behind { ended ≤ result }
{
    if rising {
        ended + due_in_front(log.split_at(ended).1, now)
    } else {
        log.len()
    }
}

/// Ends a grant that is held, where its expiry isn't above the clock.
pub fn end_due(latest: &mut IndexMap<Holding, Grant>, count: &mut usize, grant: &Grant, now: u32)
    requires { is_some (get same_holding latest.old (holding_in grant.now)) ≡ true → 0 < count.old }
    ensures updates { (q : Holding) → get same_holding latest.new q ≡ (if ends (get same_holding latest.old) now grant.now && same_holding (holding_in grant.now) q then None else get same_holding latest.old q) }
    ensures count { count.new + (if ends (get same_holding latest.old) now grant.now then 1 else 0) ≡ count.old }
    ensures room { spare latest.old ≤ spare latest.new }
{
    if grant.promise.expiry <= now && is_held(latest, grant) {
        remove(latest, count, grant.promise.client, grant.promise.fid);
    }
}

/// Whether expiries don't fall, with this one behind the last.
pub fn goes_on(empty: bool, rising: bool, highest: u32, expiry: u32) -> bool
    ensures { result ≡ goes_on empty rising highest expiry }
{
    empty || (rising && highest <= expiry)
}
