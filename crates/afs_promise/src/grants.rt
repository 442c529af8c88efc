//! The promises that are held, in the order of granting.

ghost use Rattle.std.specs.Prelude.{◌≡◌, ◌+◌, ◌<◌, ◌≤◌, ◌++◌, [], length, true, IfOk, IsOk, OnOk, OnErr, IfNone, List};
ghost use Rattle.std.specs.List.{list_any};
ghost use Rattle.std.specs.Option.{option_to_list};
ghost use Rattle.std.specs.Vec.{vec_capacity, vec_len};
ghost use Rattle.afs_num.specs.Nodes.{same_node};
ghost use Rattle.afs_num.specs.declared.types.Node.{Node};
ghost use Rattle.spec_breaks.specs.declared.types.Promise.{Promise};
ghost use Rattle.spec_breaks.specs.Promises.{with_promise, without_promise, hits, left, hits_on, left_off, by_fid, lasting};
ghost use Rattle.afs_promise.specs.Granting.{promises_in};

use crate::by_client::{add_in_order, found_by, oldest};
use crate::latest::{is_held, note, remove};
use crate::log::{end_due, gather, goes_on, keep_lasting, reach, sort_by_fid};
use crate::types::{Grant, Holding};
use afs_num::types::{Fid, Mem, Node};
use indexmap::IndexMap;
use spec_breaks::types::Promise;
use std::alloc::{AllocError, Global};
use std::marker::Model;

/// The promises that are held, as a log of grants: a promise is held while its grant is the latest of its client on
/// its fid. Grants that are held no more go once they are more than half of the log.
#[derive(Drop)]
pub struct Grants {
    log: Vec<Grant>,
    latest: IndexMap<Holding, Grant>,
    // All that were ever granted a promise: so many as a cell has clients.
    clients: Vec<Node>,
    // So many at the front of the log are held no more.
    ended: usize,
    // So many in the log are held.
    count: usize,
    next: u64,
    // Whether the expiries in the log don't fall, so that those which end stand at its front.
    rising: bool,
    // That of the last grant.
    highest: u32,
    // So many promises can be granted without memory.
    room: usize,
}

impl Model for Grants {
    ghost use Rattle.std.specs.Prelude.{◌≤◌, ◌+◌, ◌<◌, ◌^◌};
    ghost use Rattle.std.specs.Vec.{vec_capacity, vec_len};
    ghost use Rattle.indexmap.specs.IndexMap.{get, spare};
    ghost use Rattle.afs_promise.specs.Granting.{same_holding, held, IsLog, Granted};

    ghost Value = { Granted };

    ghost view = { λ g. record { promises = held (get same_holding g.latest) g.log.items; room = g.room } };

    ghost invariant = { λ g. IsLog (get same_holding g.latest) g.log.items g.clients.items g.ended g.count g.next g.rising g.highest × (vec_len g.log + g.room ≤ vec_capacity g.log) × (vec_len g.clients + g.room ≤ vec_capacity g.clients) × (g.room ≤ spare g.latest) × (g.next + g.room < 2 ^ 64) };
}

/// Notes a client, in the room that was made for it.
fn meet(clients: &mut Vec<Node>, client: Node) -> Mem<()>
    requires { vec_len clients.old < vec_capacity clients.old }
    ensures ok { IsOk result }
    ensures known { list_any (same_node client) clients.new.items ≡ true }
    ensures keeps { (c : Node) → list_any (same_node c) clients.old.items ≡ true → list_any (same_node c) clients.new.items ≡ true }
    ensures len { vec_len clients.new ≤ vec_len clients.old + 1 }
    ensures capacity { vec_capacity clients.old ≤ vec_capacity clients.new }
{
    if !clients.iter().any(|c| client.is(c)) {
        clients.push(client)?;
    }
    Ok(())
}

impl Grants {
    /// No promises. It takes no memory.
    pub fn new(alloc: Global) -> Grants
        ensures { result.promises ≡ [] }
    {
        Grants {
            log: Vec::new(alloc),
            latest: IndexMap::new(alloc),
            clients: Vec::new(alloc),
            ended: 0,
            count: 0,
            next: 0,
            rising: true,
            highest: 0,
            room: 0,
        }
    }

    /// How many promises are held.
    pub fn len(&self) -> usize
        ensures { result ≡ length self.now.promises }
    {
        self.count
    }

    /// Leaves out of the log what is held no more, once that is more than half of it.
    fn tidy(&mut self)
        ensures { self.new ≡ self.old }
    {
        if self.log.len() / 2 > self.count {
            let latest = &self.latest;
            self.log.retain(|g| is_held(latest, g));
            self.ended = 0;
        }
    }

    /// Makes room to grant so many promises without memory.
    pub fn reserve(&mut self, additional: usize) -> Mem<()>
        ensures ok { OnOk result (additional ≤ self.new.room) }
        ensures promises { self.new.promises ≡ self.old.promises }
    {
        if additional <= self.room {
            return Ok(());
        }
        self.tidy();
        // A server that grants a billion promises a second comes here after five hundred years.
        if u64::MAX - self.next <= additional as u64 {
            return Err(AllocError);
        }
        self.log.reserve(additional)?;
        self.latest.reserve(additional)?;
        self.clients.reserve(additional)?;
        self.room = additional;
        Ok(())
    }

    /// Grants a promise in the room that was made for it.
    pub fn put(&mut self, client: Node, fid: Fid, expiry: u32) -> Mem<()>
        requires { 0 < self.old.room }
        ensures ok { IsOk result }
        ensures promises { self.new.promises ≡ with_promise client expiry fid self.old.promises }
        ensures room { self.new.room + 1 ≡ self.old.room }
    {
        let grant = Grant {
            order: self.next,
            promise: Promise {
                client,
                fid,
                expiry,
            },
        };
        meet(&mut self.clients, client)?;
        note(&mut self.latest, &mut self.count, client, fid, grant)?;
        self.rising = goes_on(
            self.log.as_slice().is_empty(),
            self.rising,
            self.highest,
            expiry,
        );
        self.highest = expiry;
        self.log.push(grant)?;
        self.next += 1;
        self.room -= 1;
        Ok(())
    }

    /// Removes the client's promise on the fid, where it holds one.
    pub fn give_up(&mut self, client: Node, fid: Fid)
        ensures promises { self.new.promises ≡ without_promise client fid self.old.promises }
        ensures room { self.new.room ≡ self.old.room }
    {
        remove(&mut self.latest, &mut self.count, client, fid);
    }

    /// Removes and gives the promise on the fid that was granted first, of all clients but `except`.
    pub fn take_hit(&mut self, fid: Fid, except: Node) -> Option<Promise>
        ensures hits { hits except fid self.old.promises ≡ option_to_list result ++ hits except fid self.new.promises }
        ensures left { left except fid self.new.promises ≡ left except fid self.old.promises }
        ensures none { IfNone result (self.new.promises ≡ left except fid self.old.promises) }
        ensures last { IfNone result (hits except fid self.old.promises ≡ []) }
        ensures len { length self.new.promises + length (option_to_list result) ≡ length self.old.promises }
        ensures room { self.new.room ≡ self.old.room }
    {
        let grant = oldest(&self.latest, &self.clients, except, fid)?;
        self.give_up(grant.promise.client, grant.promise.fid);
        Some(grant.promise)
    }

    /// Adds the promises on the fid whose expiry is above the clock, of all clients but `except`, in the order of granting.
    pub fn hits(&self, fid: Fid, except: Node, now: u32, out: &mut Vec<Promise>) -> Mem<()>
        ensures ok { OnOk result (out.new.items ≡ out.old.items ++ lasting now (hits except fid self.now.promises)) }
        ensures err { OnErr result ((some : List Promise) × (out.new.items ≡ out.old.items ++ some)) }
    {
        let alloc = *out.allocator();
        let found = found_by(alloc, &self.latest, &self.clients, except, fid)?;
        let next = self.next;
        add_in_order(&found, next, now, out)?;
        Ok(())
    }

    /// The promises on the volume whose expiry is above the clock, by fid, those on one fid in the order of granting.
    pub fn hits_on(&self, volume: u32, now: u32) -> Mem<Vec<Grant>>
        ensures { IfOk result (λ gs. promises_in gs.items ≡ by_fid (hits_on volume (lasting now self.now.promises))) }
    {
        let alloc = *self.log.allocator();
        let mut found = Vec::with_capacity(alloc, self.count)?;
        gather(&self.log, &self.latest, volume, &mut found);
        keep_lasting(&mut found, now);
        sort_by_fid(&mut found);
        Ok(found)
    }

    /// Removes every promise on the volume, and gives them by fid, those on one fid in the order of granting.
    pub fn take_volume(&mut self, volume: u32, gone: &mut Vec<Grant>)
        requires empty { gone.old.items ≡ [] }
        requires room { length self.old.promises ≤ vec_capacity gone.old }
        ensures hits { promises_in gone.new.items ≡ by_fid (hits_on volume self.old.promises) }
        ensures left { self.new.promises ≡ left_off volume self.old.promises }
        ensures capacity { vec_capacity gone.old ≤ vec_capacity gone.new }
        ensures room_kept { self.new.room ≡ self.old.room }
    {
        gather(&self.log, &self.latest, volume, gone);
        sort_by_fid(gone);
        for grant in &*gone {
            self.give_up(grant.promise.client, grant.promise.fid);
        }
    }

    /// Ends each promise whose expiry isn't above the clock. Where expiries don't fall, no other is looked at.
    pub fn expire(&mut self, now: u32)
        ensures promises { self.new.promises ≡ lasting now self.old.promises }
        ensures room { self.new.room ≡ self.old.room }
    {
        let until = reach(&self.log, self.rising, self.ended, now);
        for place in self.ended..until {
            end_due(&mut self.latest, &mut self.count, &self.log[place], now);
        }
        if self.rising {
            self.ended = until;
        }
    }
}
