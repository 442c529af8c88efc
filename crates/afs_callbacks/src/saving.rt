//! What a change comes to before the disk is touched: its record, and what it withdraws, grants and owes.

ghost use Rattle.spec_model.specs.Calls.{key_of};
ghost use Rattle.std.specs.Prelude.{◌≡◌, ◌≤◌, ◌<◌, ◌+◌, ◌^◌, ◌∷◌, ◌++◌, [], Some, false, true, length, IfOk, OnOk, OnErr};
ghost use Rattle.std.specs.List.{All, AllByRecursion};
ghost use Rattle.afs_num.specs.Nodes.{IsNode};
ghost use Rattle.afs_num.specs.declared.records.RecordBody.TheVariants as bodies;
ghost use Rattle.spec_ideal.specs.VnodeImage.{image_words, FitsImage};
ghost use Rattle.afs_xdr.specs.Words.{AreWords};
ghost use Rattle.spec_history.specs.declared.lines.Line.TheVariants as lines;
ghost use Rattle.spec_breaks.specs.Promises.{expired, lasting, lasting_breaks, owes_from, withdrawn, Lists, grants_all};
ghost use Rattle.spec_records.specs.Changes.{keeping};
ghost use Rattle.spec_records.specs.Records.{FitsRecord};
ghost use Rattle.afs_promise.specs.Found.{without_found};
ghost use Rattle.spec_rows.specs.Callbacks.{alls, break_numbers};
ghost use Rattle.spec_rows.specs.ServerRow.{is_client, versioned};
ghost use Rattle.afs_server_parts.specs.Turning.{backs_with, IsBreakToNode, IsFresh, IsReady, IsTurn, answer_turn};
ghost use Rattle.afs_callbacks.specs.Answering.{reply_told, IsAnswer, IsRepliedAfter, CanTell};
ghost use Rattle.afs_callbacks.specs.Saving.{CanBeWritten, HasKind, breaks_new, fids_changed, fids_granted, has_fid, hits_each, hits_fresh, hits_new, new_grants, saved_lines, IsPlanned};
ghost use Rattle.afs_callbacks.specs.States.{IsPromiseToNode, IsToNodes};

use crate::answering::{Replied, reply_told};
use crate::callbacks::Callbacks;
use afs_callees::replies::key;
use afs_callees::telling::{Grant, tell_grants, tell_owed};
use afs_message::spelled::SpelledMessage;
use afs_num::calls::{AfsFetchStatus, FsReply};
use afs_num::histories::{Version, Versions};
use afs_num::records::{RecordBody, RecordHead, StoreRecord};
use afs_num::sequences::{Octets, Sequence};
use afs_num::types::{Fid, Head, Key, Mem, Node};
use afs_num::vnodes::{Vnode, VnodeNumbers, Vnodes};
use afs_num::volumes::Change;
use afs_promise::Promises;
use afs_server_parts::ending::Ended;
use afs_server_parts::turns::{Stand, Turn};
use afs_server_parts::words::are_words;
use spec_breaks::types::{OwedBreak, Promise};
use spec_history::lines::{Line, Lines};
use std::alloc::Global;

/// A promise lasts so many ticks.
const PROMISE_TICKS: u32 = 7200;

/// What a change comes to before the disk is touched: what its step gives out and leaves in memory, the bytes of its reply, its
/// record, the fids that it changes, the promises that it withdraws, and the fids that it promises.
pub struct Planned {
    pub ended: Ended,
    pub kept: Octets,
    pub rec: StoreRecord,
    pub changed: Sequence<Fid>,
    pub withdrawn: Vec<Promise>,
    pub granted: Sequence<Fid>,
}

/// It ends by a drop of its own: a step that ends with it has one drop to prove, and not one for each part of each kind of record.
impl Drop for Planned {
    fn drop(self) {
        let Planned {
            ended: _,
            kept: _,
            rec,
            changed: _,
            withdrawn: _,
            granted: _,
        } = self;
        drop(rec);
    }
}

impl Planned {
    /// What is done once the record stands on the disk: what the step gives out and leaves in memory, the bytes of its reply, and
    /// the promises that it withdraws. It takes no memory.
    pub fn into_rest(self) -> (Ended, Octets, Vec<Promise>)
        ensures ended { result.0 ≡ self.ended }
        ensures kept { result.1 ≡ self.kept }
        ensures withdrawn { result.2.items ≡ self.withdrawn.items }
    {
        let Planned {
            ended,
            kept,
            rec,
            changed: _,
            withdrawn,
            granted: _,
        } = self;
        drop(rec);
        (ended, kept, withdrawn)
    }
}

/// What a change withdraws and grants: the fids that it changes; the promises that the reply to it grants, and their fids; the
/// promises that it withdraws, and the breaks that are then owed.
pub struct Found {
    pub changed: Sequence<Fid>,
    pub grants: Sequence<Grant>,
    pub granted: Sequence<Fid>,
    pub withdrawn: Vec<Promise>,
    pub breaks: Vec<OwedBreak>,
}

impl Drop for Found {
    fn drop(self) {
        let Found {
            changed: _,
            grants: _,
            granted: _,
            withdrawn: _,
            breaks: _,
        } = self;
    }
}

impl Found {
    /// The fids that are changed, the promises that are withdrawn, and the fids that are promised. It takes no memory.
    fn into_kept(self) -> (Sequence<Fid>, Vec<Promise>, Sequence<Fid>)
        ensures changed { result.0 ≡ self.changed }
        ensures withdrawn { result.1.items ≡ self.withdrawn.items }
        ensures granted { result.2 ≡ self.granted }
    {
        let Found {
            changed,
            grants: _,
            granted,
            withdrawn,
            breaks: _,
        } = self;
        (changed, withdrawn, granted)
    }
}

/// A promise on a new vnode.
fn grant(alloc: Global, fid: &Fid, status: &AfsFetchStatus) -> Mem<Sequence<Grant>>
    ensures { IfOk result (λ gs. gs ≡ record { fid = fid.now; index = status.now.sync_counter } ∷ []) }
{
    let mut grants = Sequence::new(alloc);
    grants.push(Grant {
        fid: *fid,
        index: status.sync_counter,
    })?;
    Ok(grants)
}

/// The promises that the reply to a change grants.
fn new_grants(alloc: Global, reply: &FsReply) -> Mem<Sequence<Grant>>
    ensures { IfOk result (λ gs. gs ≡ new_grants reply.now) }
{
    match reply {
        FsReply::CreateFile { fid, status, .. } => grant(alloc, fid, status),
        FsReply::MakeDir { fid, status, .. } => grant(alloc, fid, status),
        _ => Ok(Sequence::new(alloc)),
    }
}

/// The fids of promises.
pub(crate) fn fids_granted(alloc: Global, grants: &[Grant]) -> Mem<Sequence<Fid>>
    ensures { IfOk result (λ fs. fs ≡ fids_granted grants.now) }
{
    let mut fids = Sequence::new(alloc);
    for grant in grants {
        fids.push(grant.fid)?;
    }
    Ok(fids)
}

/// The fids that are changed.
fn fids_changed(alloc: Global, versions: &[Version]) -> Mem<Sequence<Fid>>
    ensures { IfOk result (λ fs. fs ≡ fids_changed versions.now) }
{
    let mut fids = Sequence::new(alloc);
    for version in versions {
        fids.push(version.fid)?;
    }
    Ok(fids)
}

// ---- breaks

/// Whether a fid stands among others.
fn has_fid(fids: &[Fid], fid: Fid) -> bool
    ensures { result ≡ has_fid fids.now fid }
{
    fids.iter().any(|other| *other == fid)
}

/// The promises on this fid that are withdrawn, unless it is one of those before, whose promises have been.
fn hits_of(
    promises: &Promises,
    before: &[Fid],
    fid: Fid,
    except: Node,
    now: u32,
    hits: &mut Vec<Promise>,
) -> Mem<()>
    ensures { OnOk result (hits.new.items ≡ hits.old.items ++ hits_new except before.now fid (lasting now promises.now.promises)) }
{
    if !has_fid(before, fid) {
        promises.hits(fid, except, now, hits)?;
    }
    Ok(())
}

/// The promises that a change of these fids by this node withdraws.
fn new_hits(
    alloc: Global,
    promises: &Promises,
    fids: &[Fid],
    except: Node,
    now: u32,
) -> Mem<Vec<Promise>>
    ensures { IfOk result (λ ps. ps.items ≡ hits_fresh except [] fids.now (lasting now promises.now.promises)) }
{
    let mut before = Vec::new(alloc);
    let mut hits = Vec::new(alloc);
    for fid in fids {
        hits_of(promises, &before, *fid, except, now, &mut hits)?;
        before.push(*fid)?;
    }
    Ok(hits)
}

/// Breaks become owed for these promises, numbered behind the last one.
fn owe_each(owed: &mut Vec<OwedBreak>, last: u32, withdrawn: &[Promise]) -> Mem<()>
    requires { last + length withdrawn.now < 4000000000 }
    ensures { OnOk result (owed.new.items ≡ owed.old.items ++ owes_from last withdrawn.now) }
{
    let mut number = last;
    for promise in withdrawn {
        number += 1;
        owed.push(OwedBreak {
            number,
            client: promise.client,
            what: Some(promise.fid),
            expiry: promise.expiry,
        })?;
    }
    Ok(())
}

/// The breaks that become owed for these promises.
pub(crate) fn new_breaks(
    alloc: Global,
    promises: &Promises,
    withdrawn: &[Promise],
) -> Mem<Vec<OwedBreak>>
    requires draws { promises.now.last_owed + length withdrawn.now < 4000000000 }
    requires promised { All IsPromiseToNode withdrawn.now }
    ensures breaks { IfOk result (λ os. os.items ≡ owes_from promises.now.last_owed withdrawn.now) }
    ensures nodes { IfOk result (λ os. All IsBreakToNode os.items) }
{
    let mut breaks = Vec::new(alloc);
    owe_each(&mut breaks, promises.owed().last(), withdrawn)?;
    Ok(breaks)
}

/// Adds the numbers of breaks.
fn add_numbers(waits: &mut Sequence<u32>, breaks: &[OwedBreak]) -> Mem<()>
    ensures { OnOk result (waits.new ≡ waits.old ++ break_numbers breaks.now) }
{
    for one in breaks {
        waits.push(one.number)?;
    }
    Ok(())
}

/// Adds the numbers of the breaks on all.
fn add_alls(waits: &mut Sequence<u32>, owed: &[OwedBreak]) -> Mem<()>
    ensures { OnOk result (waits.new ≡ waits.old ++ alls owed.now) }
{
    for one in owed {
        if one.what.is_none() {
            waits.push(one.number)?;
        }
    }
    Ok(())
}

/// What the reply to a change waits for: its own breaks, and those on all that are owed.
pub(crate) fn waits_for(
    alloc: Global,
    breaks: &[OwedBreak],
    owed: &[OwedBreak],
) -> Mem<Sequence<u32>>
    ensures { IfOk result (λ ws. ws ≡ break_numbers breaks.now ++ alls owed.now) }
{
    let mut waits = Sequence::new(alloc);
    add_numbers(&mut waits, breaks)?;
    add_alls(&mut waits, owed)?;
    Ok(waits)
}

/// The promises that were found for a change of these fids by this node are withdrawn, once the others have ended whose time has
/// come. It takes no memory.
fn withdraw_lasting(promises: &mut Promises, found: &[Promise], now: u32)
    requires held { length found.now + length (without_found found.now (lasting now promises.old.promises)) ≤ length (lasting now promises.old.promises) }
    requires number { promises.old.last_owed + length promises.old.promises ≤ 4000000000 }
    ensures { promises.new ≡ withdrawn (without_found found.now (lasting now promises.old.promises)) found.now (expired now promises.old) }
{
    promises.expire(now);
    match promises.withdraw_found(found) {
        Ok(()) => {}
        Err(_) => unreachable!(),
    }
}

// ---- lines

/// The lines of a change.
fn change_told(alloc: Global, server: Node, key: Key, versions: Versions) -> Mem<Lines>
    requires { length versions < 2 ^ 32 }
    ensures { IfOk result (λ ls. ls ≡ lines.Change server key (length versions) ∷ versioned versions []) }
{
    let mut told = Lines::new(alloc);
    told.push(Line::Change {
        server,
        key,
        count: versions.len() as u32,
    })?;
    for version in versions.into_vec() {
        told.push(Line::Version { version })?;
    }
    Ok(told)
}

/// The lines of the step of a change: the change, what it promises, and the breaks that are owed for it.
fn saved_lines(
    alloc: Global,
    server: Node,
    head: &Head,
    versions: Versions,
    grants: &[Grant],
    expiry: u32,
    breaks: &[OwedBreak],
) -> Mem<Lines>
    requires { length versions < 2 ^ 32 }
    ensures { IfOk result (λ ls. ls ≡ saved_lines server head.now expiry versions grants.now breaks.now) }
{
    let mut told = change_told(alloc, server, key(head), versions)?;
    tell_grants(&mut told, server, head.from, expiry, grants)?;
    tell_owed(&mut told, server, breaks)?;
    Ok(told)
}

// ---- the record

/// The words of an image are words.
fn is_of_words(vnode: &Vnode)
    ensures { AreWords (image_words vnode.now) }
{
    are_words(&[
        vnode.vnode,
        vnode.unique,
        vnode.kind,
        vnode.index,
        vnode.data_version,
        vnode.link_count,
        vnode.owner,
        vnode.group,
        vnode.mode,
        vnode.segment_size,
        vnode.client_time,
        vnode.server_time,
        vnode.parent_vnode,
        vnode.parent_unique,
        vnode.change_counter,
    ]);
}

fn are_of_words(vnodes: &[Vnode])
    ensures { AllByRecursion (λ v. AreWords (image_words v)) vnodes.now }
{
    for vnode in vnodes {
        is_of_words(vnode);
    }
}

/// The record of a change, which keeps this reply to the call of this header.
fn change_record(
    head: &Head,
    reply: Octets,
    id: u32,
    counter: u32,
    unique: u32,
    vnodes: Vnodes,
    removed: VnodeNumbers,
) -> StoreRecord
    requires node { IsNode head.now.from }
    requires client { is_client head.now.from ≡ true }
    requires short { length reply < 2 ^ 32 }
    requires few { (length vnodes < 2 ^ 32) × (length removed < 2 ^ 32) }
    requires images { AllByRecursion FitsImage vnodes }
    requires kinds { AllByRecursion HasKind vnodes }
    ensures record { result ≡ record { head = keeping (key_of head.now) reply; body = bodies.Change id counter unique vnodes removed } }
    ensures fits { FitsRecord result }
{
    are_words(&[head.epoch, head.number]);
    are_of_words(vnodes.as_slice());
    are_words(removed.as_slice());
    StoreRecord {
        head: RecordHead {
            family: 0,
            stamp: 0,
            caller: Some(head.from),
            epoch: head.epoch,
            number: head.number,
            reply,
        },
        body: RecordBody::Change {
            id,
            counter,
            unique,
            vnodes,
            removed,
        },
    }
}

// ---- the step

/// A reply waits for these breaks, which are then owed, and for those on all that are owed before.
fn hold(alloc: Global, turn: &mut Turn, reply: SpelledMessage, breaks: &[OwedBreak]) -> Mem<()>
    requires fresh { IsFresh turn.old }
    ensures turn { OnOk result ((l : Lists) → l.owed ≡ turn.old.owed.items ++ breaks.now → IsTurn (answer_turn reply (break_numbers breaks.now ++ alls turn.old.owed.items) false (backs_with l turn.old.held turn.old.calls)) turn.new) }
    ensures stand { turn.new.stand ≡ turn.old.stand }
    ensures ready { OnOk result (IsReady turn.old → All IsBreakToNode breaks.now → IsReady turn.new) }
{
    let waits = waits_for(alloc, breaks, &turn.owed)?;
    turn.owed.extend_from_slice(breaks)?;
    turn.answer(reply, waits, false)?;
    Ok(())
}

impl Callbacks {
    /// What comes of it that the reply to a change waits for these breaks, and for those on all.
    fn plan_held(
        &self,
        stand: Stand,
        reply: SpelledMessage,
        breaks: &[OwedBreak],
        now: u32,
    ) -> Mem<Ended>
        requires nodes { IsToNodes stand.node self.now }
        requires clients { All IsBreakToNode breaks.now }
        ensures { IfOk result (IsAnswer stand self.now reply (lasting_breaks now self.now.lists.owed ++ breaks.now) (break_numbers breaks.now ++ alls (lasting_breaks now self.now.lists.owed)) []) }
    {
        let mut turn = self.turn(stand, now)?;
        hold(self.alloc, &mut turn, reply, breaks)?;
        let ended = turn.end(self.alloc)?;
        Ok(ended)
    }

    /// What comes of it that the call of this header changed something and is told this, once these breaks have ended.
    fn plan_saved(
        &self,
        stand: Stand,
        head: &Head,
        told: FsReply,
        breaks: &[OwedBreak],
        now: u32,
    ) -> Mem<Replied>
        requires nodes { IsToNodes stand.node self.now }
        requires clients { All IsBreakToNode breaks.now }
        requires told { CanTell head.now told }
        requires now { now ≤ 1000000000 }
        ensures { IfOk result (λ r. IsRepliedAfter stand self.now now (reply_told stand.boot head.now (now + 7200) told) breaks.now [] r.ended r.kept) }
    {
        let reply = reply_told(self.alloc, stand.boot, head, told, now + PROMISE_TICKS)?;
        let kept = reply.bytes().copy(self.alloc)?;
        let ended = self.plan_held(stand, reply, breaks, now)?;
        Ok(Replied { ended, kept })
    }

    /// What a change by this node withdraws and grants.
    fn found(&self, from: Node, change: &Change, now: u32) -> Mem<Found>
        requires promised { All IsPromiseToNode self.now.lists.promises }
        requires draws { self.now.lists.last_owed + length self.now.lists.promises < 4000000000 }
        ensures changed { IfOk result (λ f. f.changed ≡ fids_changed change.now.versions) }
        ensures grants { IfOk result (λ f. f.grants ≡ new_grants change.now.reply) }
        ensures granted { IfOk result (λ f. f.granted ≡ fids_granted (new_grants change.now.reply)) }
        ensures withdrawn { IfOk result (λ f. f.withdrawn.items ≡ hits_each from f.changed (lasting now self.now.lists.promises)) }
        ensures breaks { IfOk result (λ f. f.breaks.items ≡ breaks_new from (fids_changed change.now.versions) now self.now.lists) }
        ensures nodes { IfOk result (λ f. All IsBreakToNode f.breaks.items) }
    {
        let changed = fids_changed(self.alloc, change.versions.as_slice())?;
        let grants = new_grants(self.alloc, &change.reply)?;
        let granted = fids_granted(self.alloc, grants.as_slice())?;
        let withdrawn = new_hits(self.alloc, &self.promises, changed.as_slice(), from, now)?;
        let breaks = new_breaks(self.alloc, &self.promises, &withdrawn)?;
        Ok(Found {
            changed,
            grants,
            granted,
            withdrawn,
            breaks,
        })
    }

    /// What comes of it that the call of this header made these versions, withdrew and granted this, and is told this.
    fn plan_told(
        &self,
        stand: Stand,
        head: &Head,
        versions: Versions,
        told: FsReply,
        found: &Found,
        now: u32,
    ) -> Mem<Replied>
        requires nodes { IsToNodes stand.node self.now }
        requires clients { All IsBreakToNode found.now.breaks.items }
        requires told { CanTell head.now told }
        requires few { length versions < 2 ^ 32 }
        requires now { now ≤ 1000000000 }
        ensures { IfOk result (λ r. IsRepliedAfter stand self.now now (reply_told stand.boot head.now (now + 7200) told) found.now.breaks.items (saved_lines stand.node head.now (now + 7200) versions found.now.grants found.now.breaks.items) r.ended r.kept) }
    {
        let expiry = now + PROMISE_TICKS;
        let grants = found.grants.as_slice();
        let lines = saved_lines(
            self.alloc,
            stand.node,
            head,
            versions,
            grants,
            expiry,
            &found.breaks,
        )?;
        let mut saved = self.plan_saved(stand, head, told, &found.breaks, now)?;
        saved.ended.outs.lines = lines;
        Ok(saved)
    }

    /// What a change of the volume of this number comes to.
    pub fn plan_change(
        &self,
        stand: Stand,
        head: &Head,
        id: u32,
        change: Change,
        now: u32,
    ) -> Mem<Planned>
        requires nodes { IsToNodes stand.node self.now }
        requires promised { All IsPromiseToNode self.now.lists.promises }
        requires draws { self.now.lists.last_owed + length self.now.lists.promises < 4000000000 }
        requires told { CanTell head.now change.reply }
        requires client { is_client head.now.from ≡ true }
        requires written { CanBeWritten change }
        requires now { now ≤ 1000000000 }
        ensures { IfOk result (IsPlanned stand now head.now id change self.now) }
    {
        let found = self.found(head.from, &change, now)?;
        let Change {
            versions,
            vnodes,
            removed,
            counter,
            unique,
            reply,
        } = change;
        let saved = self.plan_told(stand, head, versions, reply, &found, now)?;
        let Replied { ended, kept } = saved;
        let copy = kept.copy(self.alloc)?;
        let rec = change_record(head, copy, id, counter, unique, vnodes, removed);
        let (changed, withdrawn, granted) = found.into_kept();
        Ok(Planned {
            ended,
            kept,
            rec,
            changed,
            withdrawn,
            granted,
        })
    }

    /// A client is granted promises on these fids until this time.
    pub fn grant(&mut self, client: Node, fids: &[Fid], expiry: u32) -> Mem<()>
        ensures ok { OnOk result (self.new ≡ record self.old { lists = grants_all client expiry fids.now self.old.lists }) }
        ensures err { OnErr result (self.new ≡ self.old) }
    {
        self.promises.grant_all(client, fids, expiry)
    }

    /// The promises that were found for a change are withdrawn, once the others have ended whose time has come. It takes no memory.
    pub fn withdraw(&mut self, found: &[Promise], now: u32)
        requires held { length found.now + length (without_found found.now (lasting now self.old.lists.promises)) ≤ length (lasting now self.old.lists.promises) }
        requires number { self.old.lists.last_owed + length self.old.lists.promises ≤ 4000000000 }
        ensures { self.new ≡ record self.old { lists = withdrawn (without_found found.now (lasting now self.old.lists.promises)) found.now (expired now self.old.lists) } }
    {
        withdraw_lasting(&mut self.promises, found, now);
    }
}
