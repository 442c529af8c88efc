//! A cache manager, by its calls.

ghost use Rattle.std.specs.Prelude.{◌≡◌, ◌≤◌, ◌<◌, ◌+◌, None, length, IfOk, IsSome, OnOk};
ghost use Rattle.std.specs.List.{All};
ghost use Rattle.afs_num.specs.Nodes.{IsNode};
ghost use Rattle.spec_model.specs.CellRows.{client_calls};
ghost use Rattle.spec_model.specs.Heads.{user_limit};
ghost use Rattle.spec_model.specs.Messages.{received_by};
ghost use Rattle.spec_rows.specs.ClientRow.{act_of, new_client};
ghost use Rattle.afs_calling.specs.Stepping.{Answers, Takes};
ghost use Rattle.spec_copyrows.specs.CopyRow.{copy_begin_row, copy_row};
ghost use Rattle.spec_copyrows.specs.Sites.{new_copies};
ghost use Rattle.spec_rows.specs.Runs.{locations_in};
ghost use Rattle.afs_acts.specs.Acts.{HasServer, FitsCalls};
ghost use Rattle.afs_cache.specs.Managing.{copy_times_out, number_limit, waits};
ghost use Rattle.afs_cache.specs.Lasting.{lasting};

use afs_acts::{Location, locations};
use afs_asking::{Asked, Seeking};
use afs_call::{CallTable, Caller};
use afs_calling::boots::KnownBoot;
use afs_entries::Cache;
use afs_message::messages::read_message;
use afs_message::spelled::SpelledMessage;
use afs_num::sequences::Octets;
use afs_num::types::{Key, Mem, Node};
use afs_sites::{Releases, Round};
use spec_history::acts::Act;
use spec_history::lines::Outs;
use spec_history::scripts::VolumeLines;
use std::alloc::Global;
use std::marker::Model;

/// The opcodes of the calls that a client serves: CallBack, InitCallBackState and Probe.
pub(crate) const CLIENT_CALLS: [u32; 3] = [204, 205, 206];

/// A client: one act at a time, and a cache of what servers promise to tell changes of.
#[derive(Drop)]
pub struct CacheManager {
    pub(crate) alloc: Global,
    pub(crate) node: Node,
    pub(crate) user: Octets,
    /// Where volumes are, and the boot numbers of servers.
    pub(crate) table: Vec<Location>,
    pub(crate) boots: Vec<KnownBoot>,
    /// The servers that call, in its epoch.
    pub(crate) callers: CallTable<SpelledMessage>,
    pub(crate) cache: Cache,
    /// Its own calls, and whether a break spoils the reply to the last one.
    pub(crate) calls: Caller,
    pub(crate) spoiled: bool,
    /// The act that runs, with its call, or that waits for the location database, with its question; how often it was told to wait, and
    /// asked where a volume went.
    pub(crate) asked: Option<Asked>,
    pub(crate) seeking: Option<Seeking>,
    pub(crate) busy: u32,
    pub(crate) moved: u32,
    /// The releases of read-only volumes that it has seen, and the round of its act.
    pub(crate) seen: Releases,
    pub(crate) round: Option<Round>,
}

impl Model for CacheManager {
    ghost use Rattle.spec_model.specs.Steps.{NodeState};
    ghost use Rattle.spec_copyrows.specs.Sites.{CopyState};
    ghost use Rattle.afs_asking.specs.Asking.{FitsClient, gifts_of, running_of};

    ghost Value = { NodeState CopyState };

    ghost view = { λ c. record { node = c.node; state = record { client = record { epoch = c.callers.boot; last = c.calls.last; user = c.user; capacity = c.cache.capacity; table = c.table.items; boots = c.boots.items; seats = c.callers.seats; cache = c.cache.entries; running = running_of c.asked; busy = c.busy; callee = c.calls.callee; tries = c.calls.tries; spoiled = c.spoiled; gifts = gifts_of c.asked; seeking = c.seeking; moved = c.moved }; seen = c.seen; round = c.round } } };

    ghost invariant = { λ c. FitsClient c.node c.user c.calls.callee };
}

impl CacheManager {
    /// A client that has made no call in this epoch, and has cached nothing. It takes each server to be in its first
    /// boot. The capacity is the number of entries of its cache.
    pub fn new(
        alloc: Global,
        node: Node,
        epoch: u32,
        capacity: u16,
        volumes: &VolumeLines,
        user: &[u8],
    ) -> Mem<CacheManager>
        requires node { IsNode node }
        requires some { 0 < capacity }
        requires few { capacity ≤ 256 }
        requires user { length user.now ≤ user_limit }
        requires servers { All HasServer volumes.now }
        ensures node { IfOk result (λ c. c.node ≡ node) }
        ensures state { IfOk result (λ c. c.state ≡ new_copies (new_client epoch capacity user.now (locations_in volumes.now))) }
    {
        Ok(CacheManager {
            alloc,
            node,
            user: Octets::from_slice(alloc, user)?,
            table: locations(alloc, volumes)?,
            boots: Vec::new(alloc),
            callers: CallTable::new(alloc, epoch),
            cache: Cache::new(alloc, capacity)?,
            calls: Caller::new(Node::Server(1)),
            spoiled: false,
            asked: None,
            seeking: None,
            busy: 0,
            moved: 0,
            seen: Releases::new(alloc),
            round: None,
        })
    }

    /// Begins an act, at this time in ticks.
    pub fn act(&mut self, act: &Act, now: u32) -> Mem<Outs>
        requires idle { act_of self.old.state.client ≡ None }
        requires last { self.old.state.client.last < number_limit }
        requires short { FitsCalls act.now }
        ensures step { Answers (copy_begin_row self.old.node self.old.state now act.now) self.old self.new result }
        // It makes one call at most.
        ensures last { OnOk result (self.new.state.client.last ≤ self.old.state.client.last + 1) }
        ensures lasting { lasting self.new.state.client ≡ lasting self.old.state.client }
    {
        self.begin(act, now)
    }

    /// One message, at this time in ticks.
    pub fn receive(&mut self, bytes: &[u8], now: u32) -> Mem<Outs>
        requires last { self.old.state.client.last < number_limit }
        ensures step { Takes (λ place. copy_row self.old.node self.old.state now place (received_by client_calls bytes.now)) self.old self.new result }
        // The client makes one call at most.
        ensures last { OnOk result (self.new.state.client.last ≤ self.old.state.client.last + 1) }
        ensures lasting { lasting self.new.state.client ≡ lasting self.old.state.client }
    {
        let received = read_message(self.alloc, &CLIENT_CALLS, bytes)?;
        self.take_in(received, now)
    }

    /// The unanswered call has waited too long. What becomes of it doesn't depend on the time.
    pub fn timeout(&mut self, _now: u32) -> Mem<Outs>
        requires waits { IsSome (act_of self.old.state.client) }
        requires last { self.old.state.client.last < number_limit }
        ensures step { Answers (copy_times_out self.old.node self.old.state self.old.state.client.running) self.old self.new result }
        // It makes one call at most: of the next site of a read-only volume.
        ensures last { OnOk result (self.new.state.client.last ≤ self.old.state.client.last + 1) }
        ensures lasting { lasting self.new.state.client ≡ lasting self.old.state.client }
    {
        self.time_out()
    }

    /// Whom the unanswered call is for, and its key. It takes no memory.
    pub fn waits_on(&self) -> Option<(Node, Key)>
        ensures { result ≡ waits self.now }
    {
        if self.asked.is_none() && self.seeking.is_none() {
            return None;
        }
        Some((
            self.calls.callee,
            Key {
                node: self.node,
                epoch: self.callers.boot(),
                number: self.calls.last,
            },
        ))
    }
}
