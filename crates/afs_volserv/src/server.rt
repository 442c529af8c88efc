//! A volume server in memory.

use afs_num::types::Mem;
use afs_sendings::held::HeldReplies;
use afs_sendings::sendings::PieceCallee;
use afs_server_parts::callers::Callers;
use afs_voldecisions::transactions::Transactions;
use std::alloc::Global;
use std::marker::Model;

/// A volume server of the cell, without what its disk keeps: its callers with its replies to them; its transactions; the servers to
/// which dumps go; and replies that wait for breaks.
pub struct VolServer {
    pub(crate) alloc: Global,
    pub(crate) callers: Callers,
    pub(crate) transactions: Transactions,
    pub(crate) callees: Vec<PieceCallee>,
    pub(crate) held: HeldReplies,
}

/// It ends by a drop of its own: what holds a server has one drop to prove where it ends.
impl Drop for VolServer {
    fn drop(self) {
        let VolServer {
            alloc: _,
            callers: _,
            transactions: _,
            callees: _,
            held,
        } = self;
        drop(held);
    }
}

impl Model for VolServer {
    ghost use Rattle.std.specs.Prelude.{◌+◌, length, min};
    ghost use Rattle.afs_volserv.specs.Seen.{VolMemory};

    ghost Value = { VolMemory };

    ghost view = { λ s. record {
      boot = s.callers.boot;
      seats = s.callers.seats;
      transactions = s.transactions.table;
      last = s.transactions.last;
      callees = s.callees.items;
      held = s.held.held;
      room = min (length s.held.held + s.held.room) (min s.held.out s.held.on);
    } };
}
