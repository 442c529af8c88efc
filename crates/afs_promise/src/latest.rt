//! The latest grant of each client on each fid.

ghost use Rattle.std.specs.Prelude.{◌≡◌, ◌+◌, ◌<◌, ◌≤◌, ◌^◌, true, Some, None, is_some, if◌then◌else◌, IsOk};
ghost use Rattle.indexmap.specs.IndexMap.{get, spare};
ghost use Rattle.afs_promise.specs.declared.types.Holding.{Holding};
ghost use Rattle.afs_promise.specs.Granting.{holding, same_holding, is_held};

use crate::holding::holding;
use crate::types::{Grant, Holding};
use afs_num::types::{Fid, Mem, Node};
use indexmap::IndexMap;

/// Whether the grant is the latest of its client on its fid.
pub fn is_held(latest: &IndexMap<Holding, Grant>, grant: &Grant) -> bool
    ensures { result ≡ is_held (get same_holding latest.now) grant.now }
{
    match latest.get(&holding(grant.promise.client, grant.promise.fid)) {
        Some(last) => last.order == grant.order,
        None => false,
    }
}

/// Notes what the client holds on the fid now, in the room that was made for it, and counts it where it held nothing.
pub fn note(
    latest: &mut IndexMap<Holding, Grant>,
    count: &mut usize,
    client: Node,
    fid: Fid,
    grant: Grant,
) -> Mem<()>
    requires room { 0 < spare latest.old }
    requires few { count.old + 1 < 2 ^ 64 }
    ensures ok { IsOk result }
    ensures updates { (q : Holding) → get same_holding latest.new q ≡ (if same_holding (holding client fid) q then Some grant else get same_holding latest.old q) }
    ensures count { count.new + (if is_some (get same_holding latest.old (holding client fid)) then 1 else 0) ≡ count.old + 1 }
    ensures spare { spare latest.old ≤ spare latest.new + 1 }
{
    if latest.insert(holding(client, fid), grant)?.is_none() {
        *count += 1;
    }
    Ok(())
}

/// Removes what the client holds on the fid, if anything, and counts it off.
pub fn remove(latest: &mut IndexMap<Holding, Grant>, count: &mut usize, client: Node, fid: Fid)
    requires { is_some (get same_holding latest.old (holding client fid)) ≡ true → 0 < count.old }
    ensures updates { (q : Holding) → get same_holding latest.new q ≡ (if same_holding (holding client fid) q then None else get same_holding latest.old q) }
    ensures count { count.new + (if is_some (get same_holding latest.old (holding client fid)) then 1 else 0) ≡ count.old }
    ensures room { spare latest.old ≤ spare latest.new }
{
    if latest.swap_remove(&holding(client, fid)).is_some() {
        *count -= 1;
    }
}
