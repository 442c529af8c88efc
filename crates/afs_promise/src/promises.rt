ghost use Rattle.std.specs.Prelude.{◌≡◌, ◌+◌, ◌<◌, ◌≤◌, ◌++◌, List, length, IfOk, IsOk, OnOk, OnErr};
ghost use Rattle.std.specs.Vec.{vec_capacity};
ghost use Rattle.spec_breaks.specs.declared.types.Promise.{Promise};
ghost use Rattle.afs_promise.specs.Granting.{promises_in};
ghost use Rattle.spec_breaks.specs.Promises.{no_lists, grants, grants_all, gives_up, with_promises, owes_all, owes_from, by_fid, hits, hits_on, left, lasting, withdraws, withdraws_volume, withdrawn, break_ended, expired};
ghost use Rattle.afs_promise.specs.Found.{without_found};

use crate::grants::Grants;
use crate::owed::OwedList;
use crate::types::Grant;
use afs_num::types::{Fid, Mem, Node};
use spec_breaks::types::Promise;
use std::alloc::{AllocError, Global};
use std::marker::Model;

/// What a file server has promised in this boot, and the breaks that it owes.
///
/// A promise has its room among the owed breaks from its grant on, so it becomes owed without memory. To grant, to
/// give up and to look for one promise takes constant time on average, and so does `expire` for each promise that
/// ends, where expiries never fall from one grant to the next. `withdraw` looks for a promise of each client, once
/// for each break and once more. `withdraw_volume` and `hits_on` go through all promises once. Of a break, `settled`
/// and `quit` take constant time, and to owe and to expire it takes time with the logarithm of the number of breaks.
#[derive(Drop)]
pub struct Promises {
    grants: Grants,
    owed: OwedList,
    // Empty, with room for each promise that is held: those of a volume, while they are put in order.
    gone: Vec<Grant>,
}

impl Model for Promises {
    ghost use Rattle.std.specs.Prelude.{◌≡◌, ◌≤◌, [], length};
    ghost use Rattle.std.specs.Vec.{vec_capacity};
    ghost use Rattle.spec_breaks.specs.Promises.{Lists};

    ghost Value = { Lists };

    ghost view = { λ p. record { promises = p.grants.promises; owed = p.owed.breaks; last_owed = p.owed.last } };

    ghost invariant = { λ p. (length p.grants.promises ≤ p.owed.room) × (length p.grants.promises ≤ vec_capacity p.gone) × (p.gone.items ≡ []) };
}

/// So many and so many more; a number without a word of its own is want of memory.
fn more_than(held: usize, additional: usize) -> Mem<usize>
    ensures { IfOk result (λ n. n ≡ held + additional) }
{
    held.checked_add(additional).ok_or(AllocError)
}

/// Makes room for so many more promises, and for each that is held then to become owed.
fn make_room(
    grants: &mut Grants,
    owed: &mut OwedList,
    gone: &mut Vec<Grant>,
    additional: usize,
) -> Mem<()>
    ensures spare { OnOk result (additional ≤ grants.new.room) }
    ensures owing { OnOk result (length grants.old.promises + additional ≤ owed.new.room) }
    ensures taking { OnOk result (length grants.old.promises + additional ≤ vec_capacity gone.new) }
    ensures promises { grants.new.promises ≡ grants.old.promises }
    ensures breaks { owed.new.breaks ≡ owed.old.breaks }
    ensures last { owed.new.last ≡ owed.old.last }
    ensures room { owed.old.room ≤ owed.new.room }
    ensures gone { gone.new.items ≡ gone.old.items }
    ensures capacity { vec_capacity gone.old ≤ vec_capacity gone.new }
{
    let held = more_than(grants.len(), additional)?;
    owed.reserve(held)?;
    gone.reserve(held)?;
    grants.reserve(additional)
}

/// Grants a promise on each of these fids, in the room that was made for them.
#[tactic(auto, using(crate::proofs::Lists::with_few))]
fn put_each(grants: &mut Grants, client: Node, fids: &[Fid], expiry: u32) -> Mem<()>
    requires { length fids.now ≤ grants.old.room }
    ensures ok { IsOk result }
    ensures promises { grants.new.promises ≡ with_promises client expiry fids.now grants.old.promises }
    ensures grows { length grants.new.promises ≤ length grants.old.promises + length fids.now }
{
    for fid in fids {
        grants.put(client, *fid, expiry)?;
    }
    Ok(())
}

/// Takes the promises on the fid but that of `except`, and owes their breaks, in the room that was made for them.
fn withdraw_each(grants: &mut Grants, owed: &mut OwedList, fid: Fid, except: Node) -> Mem<()>
    requires room { length grants.old.promises ≤ owed.old.room }
    requires number { owed.old.last + length grants.old.promises ≤ 4000000000 }
    ensures ok { IsOk result }
    ensures promises { grants.new.promises ≡ left except fid grants.old.promises }
    ensures breaks { owed.new.breaks ≡ owed.old.breaks ++ owes_from owed.old.last (hits except fid grants.old.promises) }
    ensures last { owed.new.last ≡ owed.old.last + length (hits except fid grants.old.promises) }
    ensures room { length grants.new.promises ≤ owed.new.room }
    ensures fewer { length grants.new.promises ≤ length grants.old.promises }
{
    while let Some(promise) = grants.take_hit(fid, except) {
        owed.owe(promise.client, Some(promise.fid), promise.expiry)?;
    }
    Ok(())
}

/// Owes the breaks of these promises, in the room that was made for them.
fn owe_each(owed: &mut OwedList, gone: &[Grant]) -> Mem<()>
    requires room { length gone.now ≤ owed.old.room }
    requires number { owed.old.last + length gone.now < 4000000000 }
    ensures ok { IsOk result }
    ensures breaks { owed.new.breaks ≡ owed.old.breaks ++ owes_from owed.old.last (promises_in gone.now) }
    ensures last { owed.new.last ≡ owed.old.last + length gone.now }
    ensures room { owed.new.room + length gone.now ≡ owed.old.room }
{
    for grant in gone {
        let promise = grant.promise;
        owed.owe(promise.client, Some(promise.fid), promise.expiry)?;
    }
    Ok(())
}

/// Takes these promises, and owes their breaks, in the room that was made for them.
fn take_found(grants: &mut Grants, owed: &mut OwedList, found: &[Promise]) -> Mem<()>
    requires room { length found.now ≤ owed.old.room }
    requires number { owed.old.last + length found.now ≤ 4000000000 }
    ensures ok { IsOk result }
    ensures promises { grants.new.promises ≡ without_found found.now grants.old.promises }
    ensures breaks { owed.new.breaks ≡ owed.old.breaks ++ owes_from owed.old.last found.now }
    ensures last { owed.new.last ≡ owed.old.last + length found.now }
    ensures room { owed.new.room + length found.now ≡ owed.old.room }
{
    for promise in found {
        grants.give_up(promise.client, promise.fid);
        owed.owe(promise.client, Some(promise.fid), promise.expiry)?;
    }
    Ok(())
}

/// Adds the promises of grants.
fn add_promises(out: &mut Vec<Promise>, grants: &[Grant]) -> Mem<()>
    ensures { OnOk result (out.new.items ≡ out.old.items ++ promises_in grants.now) }
{
    for grant in grants {
        out.push(grant.promise)?;
    }
    Ok(())
}

impl Promises {
    /// No promises, and nothing owed. It takes no memory.
    pub fn new(alloc: Global) -> Promises
        ensures { result ≡ no_lists }
    {
        Promises {
            grants: Grants::new(alloc),
            owed: OwedList::new(alloc),
            gone: Vec::new(alloc),
        }
    }

    /// From now on a break on all that it holds is owed to the client, until the clock reaches the expiry.
    pub fn owe_all(&mut self, client: Node, expiry: u32) -> Mem<()>
        requires { self.old.last_owed + length self.old.promises < 4000000000 }
        ensures ok { OnOk result (self.new ≡ owes_all client expiry self.old) }
        ensures err { OnErr result (self.new ≡ self.old) }
    {
        let held = more_than(self.grants.len(), 1)?;
        self.owed.reserve(held)?;
        self.owed.owe(client, None, expiry)
    }

    /// Grants a promise on the fid until the clock reaches the expiry.
    #[tactic(auto, using(crate::proofs::Lists::with_few))]
    pub fn grant(&mut self, client: Node, fid: Fid, expiry: u32) -> Mem<()>
        ensures ok { OnOk result (self.new ≡ grants client expiry fid self.old) }
        ensures err { OnErr result (self.new ≡ self.old) }
    {
        make_room(&mut self.grants, &mut self.owed, &mut self.gone, 1)?;
        self.grants.put(client, fid, expiry)
    }

    /// Grants a promise on each of these fids, in their order.
    pub fn grant_all(&mut self, client: Node, fids: &[Fid], expiry: u32) -> Mem<()>
        ensures ok { OnOk result (self.new ≡ grants_all client expiry fids.now self.old) }
        ensures err { OnErr result (self.new ≡ self.old) }
    {
        make_room(&mut self.grants, &mut self.owed, &mut self.gone, fids.len())?;
        put_each(&mut self.grants, client, fids, expiry)
    }

    /// Makes room for each promise that is held, and for one that is granted next, to become owed. A grant makes its
    /// own room, so nothing is left to do.
    pub fn reserve(&mut self) -> Mem<()>
        ensures ok { IsOk result }
        ensures same { self.new ≡ self.old }
    {
        Ok(())
    }

    /// How many promises are held. It takes no memory.
    pub fn held(&self) -> usize
        ensures { result ≡ length self.now.promises }
    {
        self.grants.len()
    }

    /// Adds the promises that a withdrawal on the fid takes where the clock is at `now`, in the order of granting: those
    /// of all clients but `except` whose expiry is above it. It looks for a promise of each client, once for each that it
    /// adds and once more.
    #[tactic(auto, using(crate::proofs::Since::lasting_hits))]
    pub fn hits(&self, fid: Fid, except: Node, now: u32, out: &mut Vec<Promise>) -> Mem<()>
        ensures ok { OnOk result (out.new.items ≡ out.old.items ++ hits except fid (lasting now self.now.promises)) }
        ensures err { OnErr result (out.new.items ≡ out.old.items) }
    {
        let before = out.len();
        match self.grants.hits(fid, except, now, out) {
            Ok(()) => Ok(()),
            Err(error) => {
                out.truncate(before);
                Err(error)
            }
        }
    }

    /// Adds the promises that a withdrawal on the volume takes where the clock is at `now`: by ascending vnode, of one vnode number the
    /// lower unique first, and of one fid in the order of granting.
    pub fn hits_on(&self, volume: u32, now: u32, out: &mut Vec<Promise>) -> Mem<()>
        ensures { OnOk result (out.new.items ≡ out.old.items ++ by_fid (hits_on volume (lasting now self.now.promises))) }
    {
        let found = self.grants.hits_on(volume, now)?;
        add_promises(out, &found)?;
        Ok(())
    }

    /// Withdraws the promises on the fid but that of `except`: their breaks become owed, in the order of granting. It
    /// takes no memory.
    pub fn withdraw(&mut self, fid: Fid, except: Node) -> Mem<()>
        requires { self.old.last_owed + length self.old.promises ≤ 4000000000 }
        ensures ok { IsOk result }
        ensures lists { self.new ≡ withdraws except fid self.old }
    {
        withdraw_each(&mut self.grants, &mut self.owed, fid, except)
    }

    /// Withdraws these promises, as `hits` gave them: their breaks become owed, one behind the other. It takes no memory, and
    /// looks for each of them once.
    pub fn withdraw_found(&mut self, found: &[Promise]) -> Mem<()>
        // As many promises go as these are: each is on what its client holds a promise on, and none stands there twice.
        requires held { length found.now + length (without_found found.now self.old.promises) ≤ length self.old.promises }
        requires number { self.old.last_owed + length self.old.promises ≤ 4000000000 }
        ensures ok { IsOk result }
        ensures lists { self.new ≡ withdrawn (without_found found.now self.old.promises) found.now self.old }
    {
        take_found(&mut self.grants, &mut self.owed, found)
    }

    /// Withdraws every promise on the volume: their breaks become owed, by ascending vnode, of one vnode number the
    /// lower unique first, and of one fid in the order of granting. It takes no memory.
    #[tactic(auto, using(crate::proofs::Lists::volume_long))]
    pub fn withdraw_volume(&mut self, volume: u32) -> Mem<()>
        requires { self.old.last_owed + length self.old.promises < 4000000000 }
        ensures ok { IsOk result }
        ensures lists { self.new ≡ withdraws_volume volume self.old }
    {
        self.grants.take_volume(volume, &mut self.gone);
        owe_each(&mut self.owed, &self.gone)?;
        self.gone.clear();
        Ok(())
    }

    /// The breaks that are owed. It takes no memory.
    pub fn owed(&self) -> &OwedList
        ensures breaks { result.now.breaks ≡ self.now.owed }
        ensures last { result.now.last ≡ self.now.last_owed }
    {
        &self.owed
    }

    /// Removes the client's promise on the fid, where it holds one. It takes no memory.
    #[tactic(auto, using(crate::proofs::Lists::filter_few))]
    pub fn give_up(&mut self, client: Node, fid: Fid)
        ensures { self.new ≡ gives_up client fid self.old }
    {
        self.grants.give_up(client, fid);
    }

    /// The client has handled this break. It takes no memory.
    pub fn settled(&mut self, number: u32)
        ensures { self.new ≡ break_ended number self.old }
    {
        self.owed.end(number);
    }

    /// The client doesn't answer, and this break is given up. It takes no memory.
    pub fn quit(&mut self, number: u32)
        ensures { self.new ≡ break_ended number self.old }
    {
        self.owed.end(number);
    }

    /// Ends each promise and each owed break whose expiry isn't above the clock. It takes no memory.
    #[tactic(auto, using(crate::proofs::Lists::filter_few))]
    pub fn expire(&mut self, now: u32)
        ensures { self.new ≡ expired now self.old }
    {
        self.grants.expire(now);
        self.owed.expire(now);
    }
}
