//! What a step of a volume server does with the promises and the breaks of the file server beside it.

ghost use Rattle.std.specs.Prelude.{◌≡◌, ◌++◌, ◌<◌, ◌+◌, [], length, IfOk, OnOk};
ghost use Rattle.std.specs.List.{All};
ghost use Rattle.spec_breaks.specs.Promises.{expired, lasting, lasting_breaks, withdraws_volume, Lists};
ghost use Rattle.spec_rows.specs.Callbacks.{alls, break_numbers};
ghost use Rattle.spec_volrows.specs.VolSteps.{owes_of, withdraws_from};
ghost use Rattle.afs_server_parts.specs.Ending.{IsPlan};
ghost use Rattle.afs_server_parts.specs.Turning.{backs_with, sent_turns, IsBreakToNode, IsFresh, IsReady, IsTurn};
ghost use Rattle.afs_callbacks.specs.Answering.{with_lists};
ghost use Rattle.afs_callbacks.specs.Besides.{promises_on};
ghost use Rattle.afs_callbacks.specs.States.{backs_at, IsPromiseToNode, IsToNodes};

use crate::callbacks::{Callbacks, lasting_breaks};
use crate::saving::{new_breaks, waits_for};
use afs_message::spelled::Sent;
use afs_num::sequences::Sequence;
use afs_num::types::Mem;
use afs_promise::Promises;
use afs_server_parts::ending::Ended;
use afs_server_parts::turns::{Stand, Turn};
use spec_breaks::types::{OwedBreak, Promise};
use std::alloc::Global;

/// The promises that go where those on this volume are withdrawn, or those on none.
fn promises_on(
    alloc: Global,
    promises: &Promises,
    volume: Option<u32>,
    now: u32,
) -> Mem<Vec<Promise>>
    ensures { IfOk result (λ ps. ps.items ≡ promises_on volume (lasting now promises.now.promises)) }
{
    let mut found = Vec::new(alloc);
    if let Some(volume) = volume {
        promises.hits_on(volume, now, &mut found)?;
    }
    Ok(found)
}

/// The promises on the volume are withdrawn, once the others have ended whose time has come. It takes no memory.
fn withdraw_volume(promises: &mut Promises, volume: u32, now: u32)
    requires { promises.old.last_owed + length promises.old.promises < 4000000000 }
    ensures { promises.new ≡ withdraws_volume volume (expired now promises.old) }
{
    promises.expire(now);
    match promises.withdraw_volume(volume) {
        Ok(()) => {}
        Err(_) => unreachable!(),
    }
}

/// These messages go out, and these breaks are owed besides.
fn send_beside(turn: &mut Turn, sent: Sent, breaks: &[OwedBreak]) -> Mem<()>
    requires fresh { IsFresh turn.old }
    ensures turn { OnOk result ((l : Lists) → l.owed ≡ turn.old.owed.items ++ breaks.now → IsTurn (sent_turns sent (backs_with l turn.old.held turn.old.calls)) turn.new) }
    ensures stand { turn.new.stand ≡ turn.old.stand }
    ensures ready { OnOk result (IsReady turn.old → All IsBreakToNode breaks.now → IsReady turn.new) }
{
    turn.owed.extend_from_slice(breaks)?;
    turn.send_all(sent);
    Ok(())
}

impl Callbacks {
    /// What is promised, and the breaks that are owed. It takes no memory.
    pub fn promises(&self) -> &Promises
        ensures { result.now ≡ self.now.lists }
    {
        &self.promises
    }

    /// The breaks that are owed at this time.
    pub fn owed_at(&self, now: u32) -> Mem<Vec<OwedBreak>>
        ensures { IfOk result (λ os. os.items ≡ lasting_breaks now self.now.lists.owed) }
    {
        let owed = lasting_breaks(self.alloc, &self.promises, now)?;
        Ok(owed)
    }

    /// The breaks that become owed where the promises on this volume are withdrawn, or those on none.
    pub fn breaks_on(&self, volume: Option<u32>, now: u32) -> Mem<Vec<OwedBreak>>
        requires promised { All IsPromiseToNode self.now.lists.promises }
        requires draws { self.now.lists.last_owed + length self.now.lists.promises < 4000000000 }
        ensures breaks { IfOk result (λ os. os.items ≡ owes_of volume (expired now self.now.lists)) }
        ensures nodes { IfOk result (λ os. All IsBreakToNode os.items) }
    {
        let found = promises_on(self.alloc, &self.promises, volume, now)?;
        let breaks = new_breaks(self.alloc, &self.promises, &found)?;
        Ok(breaks)
    }

    /// What a reply waits for that owes these breaks: these, and those on all.
    pub fn waits_for(&self, breaks: &[OwedBreak], now: u32) -> Mem<Sequence<u32>>
        ensures { IfOk result (λ ws. ws ≡ break_numbers breaks.now ++ alls (lasting_breaks now self.now.lists.owed)) }
    {
        let owed = self.owed_at(now)?;
        let waits = waits_for(self.alloc, breaks, &owed)?;
        Ok(waits)
    }

    /// What comes of it that these messages go out, and these breaks are owed besides. The node's own calls are drawn up to the last number of
    /// who makes the step.
    pub fn plan_beside(
        &self,
        stand: Stand,
        sent: Sent,
        breaks: &[OwedBreak],
        now: u32,
    ) -> Mem<Ended>
        requires nodes { IsToNodes stand.node self.now }
        requires clients { All IsBreakToNode breaks.now }
        ensures { IfOk result (λ e. (l : Lists) → l.owed ≡ lasting_breaks now self.now.lists.owed ++ breaks.now → IsPlan stand (sent_turns sent (with_lists l (backs_at self.now stand.last))) [] e) }
    {
        let mut turn = self.turn(stand, now)?;
        send_beside(&mut turn, sent, breaks)?;
        let ended = turn.end(self.alloc)?;
        Ok(ended)
    }

    /// The promises on this volume are withdrawn, or those on none, once the others have ended whose time has come. It takes no memory.
    pub fn withdraw_on(&mut self, volume: Option<u32>, now: u32)
        requires { self.old.lists.last_owed + length self.old.lists.promises < 4000000000 }
        ensures { self.new ≡ record self.old { lists = withdraws_from volume (expired now self.old.lists) } }
    {
        match volume {
            Some(volume) => withdraw_volume(&mut self.promises, volume, now),
            None => self.promises.expire(now),
        }
    }
}
