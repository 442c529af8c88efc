//! What a server does with replies and notices to its own calls.
ghost use Rattle.spec_rows.specs.Callbacks.{renews, settles};
ghost use Rattle.afs_callees.specs.Called.{IsGoodCall, IsGoodOrNone};
ghost use Rattle.afs_server.specs.Handling.{backs_then, Turns, ServesOver};
ghost use Rattle.afs_server.specs.Hearing.{answered_turn, noticed_turn, renewed_turn, settled_turn};

use crate::server::FileServer;
use afs_disk::Disk;
use afs_num::types::{Head, Mem, Node};
use afs_server_parts::calling::BreakCall;
use afs_sharing::drawing::stand;
use afs_volstore::VolStore;
use spec_history::lines::Outs;

impl FileServer {
    /// A node has answered this call: its breaks end.
    fn settle<D: Disk>(
        &mut self,
        store: &mut VolStore<D>,
        node: Node,
        call: &BreakCall,
        now: u32,
    ) -> Mem<Outs>
        requires serves { ServesOver self.old store.old }
        ensures { Turns (settles store.old.node node call.now (backs_then self.old store.old now)) self.old self.new store.old store.new result }
    {
        let ended = self
            .callbacks()
            .plan_settled(stand(store), node, call, now)?;
        self.callbacks.settle(call.content.as_slice(), now);
        let outs = self.keep(store, ended);
        Ok(outs)
    }

    /// A node has told its boot number: this call goes out again.
    fn renew<D: Disk>(
        &mut self,
        store: &mut VolStore<D>,
        node: Node,
        known: u32,
        call: &BreakCall,
        now: u32,
    ) -> Mem<Outs>
        requires serves { ServesOver self.old store.old }
        requires good { IsGoodCall node call.now }
        ensures { Turns (renews store.old.node store.old.durable.boot node known call.now (backs_then self.old store.old now)) self.old self.new store.old store.new result }
    {
        let ended = self
            .callbacks()
            .plan_renewed(stand(store), node, known, call, now)?;
        let outs = self.keep_at(store, ended, now);
        Ok(outs)
    }

    /// A node has answered the call that its message is to, if there is one.
    fn settle_found<D: Disk>(
        &mut self,
        store: &mut VolStore<D>,
        head: &Head,
        call: Option<BreakCall>,
        now: u32,
    ) -> Mem<Outs>
        requires serves { ServesOver self.old store.old }
        ensures { Turns (settled_turn store.old.node head.now (backs_then self.old store.old now) call) self.old self.new store.old store.new result }
    {
        match call {
            Some(call) => {
                let outs = self.settle(store, head.from, &call, now)?;
                Ok(outs)
            }
            None => {
                let outs = self.pass(store, now)?;
                Ok(outs)
            }
        }
    }

    /// A node has told its boot number: the call that its notice is to goes out again, if there is one.
    fn renew_found<D: Disk>(
        &mut self,
        store: &mut VolStore<D>,
        head: &Head,
        call: Option<BreakCall>,
        now: u32,
    ) -> Mem<Outs>
        requires serves { ServesOver self.old store.old }
        requires good { IsGoodOrNone head.now.from call }
        ensures { Turns (renewed_turn store.old.node store.old.durable.boot head.now (backs_then self.old store.old now) call) self.old self.new store.old store.new result }
    {
        match call {
            Some(call) => {
                let outs = self.renew(store, head.from, head.boot, &call, now)?;
                Ok(outs)
            }
            None => {
                let outs = self.pass(store, now)?;
                Ok(outs)
            }
        }
    }

    /// A reply or a refusal has come, with this header: if it is to a call of this server, the call's breaks end.
    pub(crate) fn hear_answer<D: Disk>(
        &mut self,
        store: &mut VolStore<D>,
        head: &Head,
        now: u32,
    ) -> Mem<Outs>
        requires serves { ServesOver self.old store.old }
        ensures { Turns (answered_turn store.old.node store.old.durable.boot head.now (backs_then self.old store.old now)) self.old self.new store.old store.new result }
    {
        let call = self
            .callbacks()
            .heard(store.node(), store.boot_number(), head)?;
        let outs = self.settle_found(store, head, call, now)?;
        Ok(outs)
    }

    /// A notice has come, with this header: if it is to a call of this server, the call goes out again.
    pub(crate) fn hear_notice<D: Disk>(
        &mut self,
        store: &mut VolStore<D>,
        head: &Head,
        now: u32,
    ) -> Mem<Outs>
        requires serves { ServesOver self.old store.old }
        ensures { Turns (noticed_turn store.old.node store.old.durable.boot head.now (backs_then self.old store.old now)) self.old self.new store.old store.new result }
    {
        let call = self
            .callbacks()
            .heard(store.node(), store.boot_number(), head)?;
        let outs = self.renew_found(store, head, call, now)?;
        Ok(outs)
    }
}
