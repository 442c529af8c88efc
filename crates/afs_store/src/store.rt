//! A store: a state with its disk.

ghost use Rattle.std.specs.Prelude.{◌≡◌, ◌<◌, ◌+◌, None, Some, false, IfNone, IfSome};
ghost use Rattle.afs_store.specs.Stores.{IsCounted, IsKept};

use crate::fold::Fold;
use afs_disk::Disk;
use afs_journal::Journal;
use afs_num::records::Mark;
use afs_num::types::Node;
use std::alloc::Global;
use std::marker::{Model, PhantomData};

/// A state with the records that made it, on a disk.
#[derive(Drop)]
pub struct Store<D: Disk, R: Drop, T: Drop, S: Fold<R, T>> {
    pub(crate) alloc: Global,
    pub(crate) journal: Journal<D>,
    pub(crate) node: Node,
    pub(crate) state: S,
    pub(crate) prepared: Option<S::Ready>,
    pub(crate) drawn: u32,
    pub(crate) records: PhantomData<R>,
    pub(crate) kept: PhantomData<T>,
}

impl<D: Disk, R: Drop, T: Drop, S: Fold<R, T>> Model for Store<D, R, T, S> {
    ghost use Rattle.std.specs.Prelude.{◌≡◌, ◌+◌, false};
    ghost use Rattle.std.specs.Option.{option_map};
    ghost use Rattle.afs_store.specs.Stores.{IsCounted, IsKept, StoreOf};
    ghost use Rattle.afs_store.specs.Waiting.{WaitsReady};

    ghost Value = { StoreOf D R T };

    ghost view = { λ s. record {
      durable = S.fold.placed (s.journal.gate + 1) (D.limit s.journal.disk) (S.fold.held s.state);
      disk = s.journal.disk;
      node = s.node;
      prepared = option_map S.fold.record_of s.prepared;
      closed = s.journal.closed;
      count = s.journal.count;
      drawn = s.drawn;
    } };

    ghost invariant = { λ s. record {
      ready : WaitsReady S.fold D.limit D.space s.journal s.state s.prepared;
      kept : s.journal.closed ≡ false → IsKept S.fold (S.fold.placed (s.journal.gate + 1) (D.limit s.journal.disk) (S.fold.held s.state)) (D.seen s.journal.disk) (D.may_leave s.journal.disk);
      counted : s.journal.closed ≡ false → IsCounted s.journal.count (D.seen s.journal.disk);
    } };
}

impl<D: Disk, R: Drop, T: Drop, S: Fold<R, T>> Store<D, R, T, S> {
    /// A store over a journal, with what its records make. These are let go. It takes no memory.
    pub(crate) fn of(alloc: Global, journal: Journal<D>, node: Node, state: S) -> Store<D, R, T, S>
        requires counted { IsCounted journal.count (D.seen journal.disk) }
        requires kept { IsKept S.fold (S.fold.placed (journal.gate + 1) (D.limit journal.disk) (S.fold.held state)) (D.seen journal.disk) (D.may_leave journal.disk) }
        ensures { result ≡ record { durable = S.fold.placed (journal.gate + 1) (D.limit journal.disk) (S.fold.held state); disk = journal.disk; node = node; prepared = None; closed = journal.closed; count = journal.count; drawn = 0 } }
    {
        let mut journal = journal;
        journal.forget();
        Store {
            alloc,
            journal,
            node,
            state,
            prepared: None,
            drawn: 0,
            records: PhantomData,
            kept: PhantomData,
        }
    }

    /// How many records stand on the disk. It takes no memory.
    pub fn mark(&self) -> Mark
        ensures value { result ≡ record { generation = 0; records = self.now.count } }
        ensures kept { self.now.closed ≡ false → IsKept S.fold self.now.durable (D.seen self.now.disk) (D.may_leave self.now.disk) }
        ensures counted { self.now.closed ≡ false → IsCounted self.now.count (D.seen self.now.disk) }
        ensures capacity { S.fold.capacity self.now.durable ≡ D.limit self.now.disk }
    {
        Mark {
            generation: 0,
            records: self.journal.count() as u32,
        }
    }

    /// What stands in memory. It takes no memory.
    pub fn state(&self) -> &S
        ensures { self.now.durable ≡ S.fold.placed (S.fold.journal self.now.durable) (D.limit self.now.disk) (S.fold.held result.now) }
    {
        &self.state
    }

    /// The record that was made ready for the next commit, if there is one. It takes no memory.
    pub fn prepared(&self) -> Option<&S::Ready>
        ensures some { IfSome result (λ p. self.now.prepared ≡ Some (S.fold.record_of p.now)) }
        ensures ready { IfSome result (λ p. S.fold.IsReady p.now × S.fold.Suits p.now self.now.durable) }
        ensures none { IfNone result (self.now.prepared ≡ None) }
    {
        match &self.prepared {
            Some(ready) => Some(ready),
            None => None,
        }
    }

    /// The node whose disk it is. It takes no memory.
    pub fn node(&self) -> Node
        ensures { result ≡ self.now.node }
    {
        self.node
    }

    /// Draws the next number of the node's own calls: 1, 2, 3, .. since the disk was attached. It takes no memory.
    pub fn next_number(&mut self) -> u32
        requires { self.old.drawn < 4294967295 }
        ensures number { result ≡ self.old.drawn + 1 }
        ensures drawn { self.new ≡ record self.old { drawn = result } }
    {
        self.drawn += 1;
        self.drawn
    }

    /// The number of the node's own calls that was drawn last, 0 before the first. It takes no memory.
    pub fn last_number(&self) -> u32
        ensures { result ≡ self.now.drawn }
    {
        self.drawn
    }

    /// The disk.
    pub fn into_disk(self) -> D
        ensures { result ≡ self.disk }
    {
        let Store {
            alloc: _,
            journal,
            node: _,
            state: _,
            prepared: _,
            drawn: _,
            records: _,
            kept: _,
        } = self;
        journal.into_disk()
    }
}
