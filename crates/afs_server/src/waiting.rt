//! A server's own calls wait too long, and time passes.
ghost use Rattle.spec_rows.specs.Callbacks.{no_turn, call_timed_out};
ghost use Rattle.afs_callees.specs.Called.{IsGoodCall};
ghost use Rattle.afs_server.specs.Handling.{backs_then, Turns, ServesOver};

use crate::server::FileServer;
use afs_disk::Disk;
use afs_num::types::{Mem, Node};
use afs_server_parts::calling::BreakCall;
use afs_sharing::drawing::stand;
use afs_volstore::VolStore;
use spec_history::lines::Outs;

impl FileServer {
    /// Nothing happens but that time has passed.
    pub(crate) fn pass<D: Disk>(&mut self, store: &mut VolStore<D>, now: u32) -> Mem<Outs>
        requires serves { ServesOver self.old store.old }
        ensures { Turns (no_turn (backs_then self.old store.old now)) self.old self.new store.old store.new result }
    {
        let ended = self.callbacks().plan_wake(stand(store), now)?;
        let outs = self.keep_at(store, ended, now);
        Ok(outs)
    }

    /// This call has waited too long.
    pub(crate) fn time_out<D: Disk>(
        &mut self,
        store: &mut VolStore<D>,
        callee: Node,
        call: &BreakCall,
        now: u32,
    ) -> Mem<Outs>
        requires serves { ServesOver self.old store.old }
        requires good { IsGoodCall callee call.now }
        ensures { Turns (call_timed_out store.old.node store.old.durable.boot callee call.now (backs_then self.old store.old now)) self.old self.new store.old store.new result }
    {
        let ended = self
            .callbacks()
            .plan_timeout(stand(store), callee, call, now)?;
        self.callbacks.time_out(call, now);
        let outs = self.keep(store, ended);
        Ok(outs)
    }
}
