//! The promises on one fid, looked for by client.

ghost use Rattle.std.specs.Prelude.{◌≡◌, ◌++◌, ◌<◌, ℕ, List, [], ◌∷◌, None, Some, IfOk, OnOk, OnErr};
ghost use Rattle.std.specs.List.{AllByRecursion};
ghost use Rattle.std.specs.Option.{option_to_list};
ghost use Rattle.indexmap.specs.IndexMap.{get};
ghost use Rattle.spec_breaks.specs.Promises.{lasting};
ghost use Rattle.spec_breaks.specs.declared.types.Promise.{Promise};
ghost use Rattle.afs_promise.specs.Gathered.{first_from, found_by, IsInOrder};
ghost use Rattle.afs_promise.specs.Granting.{same_holding, hit_of, earlier, oldest, from_place};

use crate::holding::holding;
use crate::types::{Grant, Holding};
use afs_num::types::{Fid, Mem, Node};
use indexmap::IndexMap;
use spec_breaks::types::Promise;
use std::alloc::Global;

/// The grant, where it doesn't stand before this place in the order of granting.
fn from_place(from: u64, grant: Grant) -> Option<Grant>
    ensures { result ≡ from_place from (Some grant) }
{
    if from <= grant.order {
        Some(grant)
    } else {
        None
    }
}

/// What the client holds on the fid, unless it is `except`.
fn hit_of(latest: &IndexMap<Holding, Grant>, except: Node, fid: Fid, client: Node) -> Option<Grant>
    ensures { result ≡ hit_of (get same_holding latest.now) except fid client }
{
    if client.is(&except) {
        return None;
    }
    latest.get(&holding(client, fid)).copied()
}

/// That which was granted first.
fn earlier(one: Option<Grant>, other: Option<Grant>) -> Option<Grant>
    ensures { result ≡ earlier one other }
{
    match (one, other) {
        (None, _) => other,
        (_, None) => one,
        (Some(g), Some(h)) => { if h.order < g.order { other } else { one } }
    }
}

/// The promise on the fid that was granted first, of all clients but `except`.
pub fn oldest(
    latest: &IndexMap<Holding, Grant>,
    clients: &[Node],
    except: Node,
    fid: Fid,
) -> Option<Grant>
    ensures { result ≡ oldest (get same_holding latest.now) except fid None clients.now }
{
    let mut best = None;
    for client in clients {
        best = earlier(best, hit_of(latest, except, fid, *client));
    }
    best
}

/// Adds a grant, where there is one.
fn add_found(found: &mut Vec<Grant>, grant: Option<Grant>) -> Mem<()>
    ensures { OnOk result (found.new.items ≡ found.old.items ++ option_to_list grant) }
{
    if let Some(grant) = grant {
        found.push(grant)?;
    }
    Ok(())
}

/// What all clients but `except` hold on the fid. Each is looked up once.
#[tactic(auto, using(crate::proofs::Gathering::gathered_next))]
pub fn found_by(
    alloc: Global,
    latest: &IndexMap<Holding, Grant>,
    clients: &[Node],
    except: Node,
    fid: Fid,
) -> Mem<Vec<Grant>>
    ensures { IfOk result (λ found. found.items ≡ found_by (get same_holding latest.now) except fid clients.now) }
{
    let mut found = Vec::new(alloc);
    for client in clients {
        add_found(&mut found, hit_of(latest, except, fid, *client))?;
    }
    Ok(found)
}

/// That of these grants which was made first, at this place or behind it.
pub fn first_from(found: &[Grant], from: u64) -> Option<Grant>
    ensures { result ≡ first_from from None found.now }
{
    let mut best = None;
    for grant in found {
        best = earlier(best, from_place(from, *grant));
    }
    best
}

/// Adds the promise, where its expiry is above the clock.
pub fn add_lasting(out: &mut Vec<Promise>, promise: Promise, now: u32) -> Mem<()>
    ensures ok { OnOk result (out.new.items ≡ out.old.items ++ lasting now (promise ∷ [])) }
    ensures err { OnErr result (out.new.items ≡ out.old.items) }
{
    if now < promise.expiry {
        out.push(promise)?;
    }
    Ok(())
}

/// Adds the promises of these grants whose expiry is above the clock, in the order of granting. Each was granted before this
/// place.
pub fn add_in_order(found: &[Grant], next: u64, now: u32, out: &mut Vec<Promise>) -> Mem<()>
    requires { AllByRecursion (λ g. g.order < next) found.now }
    ensures ok { OnOk result ((told : ℕ → List Promise) → IsInOrder found.now told → out.new.items ≡ out.old.items ++ lasting now (told 0)) }
    ensures err { OnErr result ((some : List Promise) × (out.new.items ≡ out.old.items ++ some)) }
{
    let mut from = 0;
    while let Some(grant) = first_from(found, from) {
        add_lasting(out, grant.promise, now)?;
        from = grant.order + 1;
    }
    Ok(())
}
