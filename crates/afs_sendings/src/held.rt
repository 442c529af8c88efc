//! Replies that wait for breaks, and go out without memory once these have ended.

ghost use Rattle.std.specs.Prelude.{◌≡◌, ◌≤◌, ◌<◌, ◌+◌, ◌++◌, ◌∷◌, [], filter, length, OnOk};
ghost use Rattle.std.specs.Vec.{vec_capacity};
ghost use Rattle.std.specs.List.{list_any};
ghost use Rattle.spec_model.specs.Messages.{messages_spelled, parcels_read};
ghost use Rattle.spec_rows.specs.Callbacks.{is_ready, replies_of, waits_none};
ghost use Rattle.spec_volrows.specs.VolSteps.{waits_for_breaks};

use afs_num::types::{Mem, Parcel, Parcels};
use afs_promise::OwedList;
use afs_server_parts::held::HeldReply;
use std::alloc::{AllocError, Global};
use std::marker::Model;
use std::mem::replace;

/// Replies that wait, and room in which they go out, or wait on.
#[derive(Drop)]
pub struct HeldReplies {
    replies: Vec<HeldReply>,
    // Both are empty, and have room for the replies that wait.
    out: Vec<Parcel>,
    on: Vec<HeldReply>,
}

impl Model for HeldReplies {
    ghost use Rattle.std.specs.Prelude.{◌≡◌, ◌-◌, [], length};
    ghost use Rattle.std.specs.Vec.{vec_capacity};
    ghost use Rattle.afs_sendings.specs.Held.{Waiting};

    ghost Value = { Waiting };

    ghost view = { λ h. record { held = h.replies.items; room = vec_capacity h.replies - length h.replies.items; out = vec_capacity h.out; on = vec_capacity h.on } };

    ghost invariant = { λ h. record { out_is : h.out.items ≡ []; on_is : h.on.items ≡ [] } };
}

/// No break of these numbers is owed.
fn waits_none(numbers: &[u32], owed: &OwedList) -> bool
    ensures { result ≡ waits_none numbers.now owed.now.breaks }
{
    for number in numbers {
        if owed.has(*number) {
            return false;
        }
    }
    true
}

/// Whether the reply waits no more.
fn is_ready(one: &HeldReply, owed: &OwedList) -> bool
    ensures { result ≡ is_ready owed.now.breaks one.now }
{
    waits_none(one.waits.as_slice(), owed)
}

/// Whether one of the replies waits no more.
fn any_ready(replies: &[HeldReply], owed: &OwedList) -> bool
    ensures { result ≡ list_any (is_ready owed.now.breaks) replies.now }
{
    replies.iter().any(|one| is_ready(one, owed))
}

/// A reply goes out. It takes no memory.
fn push_sent(out: &mut Vec<Parcel>, one: HeldReply)
    requires { length out.old.items < vec_capacity out.old }
    ensures sent { parcels_read out.new.items ≡ parcels_read out.old.items ++ messages_spelled (one.reply ∷ []) }
    ensures room { (length out.new.items ≤ length out.old.items + 1) × (vec_capacity out.old ≤ vec_capacity out.new) }
{
    let HeldReply { reply, .. } = one;
    match out.push(reply.into_parcel()) {
        Ok(()) => {}
        Err(_) => unreachable!(),
    }
}

/// A reply waits. It takes no memory.
fn push_held(on: &mut Vec<HeldReply>, one: HeldReply)
    requires { length on.old.items < vec_capacity on.old }
    ensures held { on.new.items ≡ on.old.items ++ one ∷ [] }
    ensures room { (length on.new.items ≤ length on.old.items + 1) × (vec_capacity on.old ≤ vec_capacity on.new) }
{
    match on.push(one) {
        Ok(()) => {}
        Err(_) => unreachable!(),
    }
}

/// A reply goes out, where it waits no more; else it waits on. It takes no memory.
fn send_or_hold(out: &mut Vec<Parcel>, on: &mut Vec<HeldReply>, one: HeldReply, owed: &OwedList)
    requires out { length out.old.items < vec_capacity out.old }
    requires on { length on.old.items < vec_capacity on.old }
    ensures sent { parcels_read out.new.items ≡ parcels_read out.old.items ++ messages_spelled (replies_of (filter (is_ready owed.now.breaks) (one ∷ []))) }
    ensures held { on.new.items ≡ on.old.items ++ filter (waits_for_breaks owed.now.breaks) (one ∷ []) }
    ensures out_room { (length out.new.items ≤ length out.old.items + 1) × (vec_capacity out.old ≤ vec_capacity out.new) }
    ensures on_room { (length on.new.items ≤ length on.old.items + 1) × (vec_capacity on.old ≤ vec_capacity on.new) }
{
    if is_ready(&one, owed) {
        push_sent(out, one);
    } else {
        push_held(on, one);
    }
}

/// The replies go out that wait no more; the others wait on. It takes no memory.
fn part_ready(
    out: &mut Vec<Parcel>,
    on: &mut Vec<HeldReply>,
    replies: Vec<HeldReply>,
    owed: &OwedList,
)
    requires out { length out.old.items + length replies.items ≤ vec_capacity out.old }
    requires on { length on.old.items + length replies.items ≤ vec_capacity on.old }
    ensures sent { parcels_read out.new.items ≡ parcels_read out.old.items ++ messages_spelled (replies_of (filter (is_ready owed.now.breaks) replies.items)) }
    ensures held { on.new.items ≡ on.old.items ++ filter (waits_for_breaks owed.now.breaks) replies.items }
{
    for one in replies {
        send_or_hold(out, on, one, owed);
    }
}

impl HeldReplies {
    /// No replies wait.
    pub fn new(alloc: Global) -> HeldReplies
        ensures { result.held ≡ [] }
    {
        HeldReplies {
            replies: Vec::new(alloc),
            out: Vec::new(alloc),
            on: Vec::new(alloc),
        }
    }

    /// The replies that wait.
    pub fn as_slice(&self) -> &[HeldReply]
        ensures { result.now ≡ self.now.held }
    {
        &self.replies
    }

    /// Makes room for so many more replies, and for all of them to go out or to wait on.
    pub fn reserve(&mut self, more: usize) -> Mem<()>
        ensures room { OnOk result (more ≤ self.new.room) }
        ensures out { OnOk result (length self.old.held + more ≤ self.new.out) }
        ensures on { OnOk result (length self.old.held + more ≤ self.new.on) }
        ensures held { self.new.held ≡ self.old.held }
    {
        let Some(all) = self.replies.len().checked_add(more) else {
            return Err(AllocError);
        };
        self.replies.reserve(more)?;
        self.out.reserve(all)?;
        self.on.reserve(all)?;
        Ok(())
    }

    /// One more reply waits. It takes no memory.
    pub fn hold(&mut self, one: HeldReply)
        requires { 0 < self.old.room }
        ensures held { self.new.held ≡ self.old.held ++ one ∷ [] }
        ensures out { self.new.out ≡ self.old.out }
        ensures on { self.new.on ≡ self.old.on }
    {
        push_held(&mut self.replies, one);
    }

    /// Replies go out whose breaks have ended. It takes no memory.
    pub fn release(&mut self, owed: &OwedList) -> Parcels
        requires out { length self.old.held ≤ self.old.out }
        requires on { length self.old.held ≤ self.old.on }
        ensures sent { parcels_read result ≡ messages_spelled (replies_of (filter (is_ready owed.now.breaks) self.old.held)) }
        ensures held { self.new.held ≡ filter (waits_for_breaks owed.now.breaks) self.old.held }
    {
        let alloc = *self.replies.allocator();
        if !any_ready(&self.replies, owed) {
            return Parcels::new(alloc);
        }
        let mut out = replace(&mut self.out, Vec::new(alloc));
        let mut on = replace(&mut self.on, Vec::new(alloc));
        let replies = replace(&mut self.replies, Vec::new(alloc));
        part_ready(&mut out, &mut on, replies, owed);
        self.replies = on;
        Parcels::from_vec(out)
    }
}
