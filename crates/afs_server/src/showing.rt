//! What a server tells of its volumes, and what it promises with that.

ghost use Rattle.std.specs.Prelude.{◌≡◌, ◌≤◌, ◌+◌, [], map, OnErr, OnOk};
ghost use Rattle.spec_breaks.specs.Promises.{expired, grants_all};
ghost use Rattle.spec_rows.specs.Callbacks.{gives_up_all, grants_found};
ghost use Rattle.spec_rows.specs.ServerRow as row;
ghost use Rattle.spec_rows.specs.ServerRow.{granted, read_reply_to, replied};
ghost use Rattle.afs_message.specs.Spelled.{IsSpelling};
ghost use Rattle.afs_callees.specs.declared.telling.Grant as told;
ghost use Rattle.afs_server.specs.Answering.{KeepsReply};
ghost use Rattle.afs_decisions.specs.Deciding.{IsReading};
ghost use Rattle.afs_server.specs.Handling.{AnswersNow, ServesOver};
ghost use Rattle.afs_callbacks.specs.Answering.{CanTell};
ghost use Rattle.afs_sharing.specs.Callers.{IsToRun};

use crate::answering::keep_reply;
use crate::server::FileServer;
use afs_callbacks::Callbacks;
use afs_callbacks::answering::Replied;
use afs_callees::telling::Grant;
use afs_disk::Disk;
use afs_num::calls::FsReply;
use afs_num::sequences::Octets;
use afs_num::types::{Head, Mem};
use afs_server_parts::callers::Callers;
use afs_sharing::drawing::stand;
use afs_volstore::VolStore;
use spec_history::lines::Outs;

/// A promise lasts so many ticks.
const PROMISE_TICKS: u32 = 7200;

/// The reply to the call of this header, which ran, is kept, and its caller is granted these promises.
fn keep_granted(
    callers: &mut Callers,
    callbacks: &mut Callbacks,
    head: &Head,
    reply: Octets,
    grants: &[Grant],
    expiry: u32,
) -> Mem<()>
    requires runs { IsToRun head.now callers.old.seats }
    requires spelling { IsSpelling reply }
    ensures boot { callers.new.boot ≡ callers.old.boot }
    ensures seats { OnOk result (KeepsReply head.now reply callers.old.seats callers.new.seats) }
    ensures granted { OnOk result (callbacks.new ≡ record callbacks.old { lists = grants_all head.now.from expiry (map (λ (g : told.Grant). g.fid) grants.now) callbacks.old.lists }) }
    ensures err { OnErr result (callers.new.seats ≡ callers.old.seats) }
    ensures as_was { OnErr result (callbacks.new ≡ callbacks.old) }
{
    callers.reserve(1)?;
    callbacks.grant_told(head.from, grants, expiry)?;
    keep_reply(callers, head, reply);
    Ok(())
}

impl FileServer {
    /// A call that reads is told this, and granted these promises.
    pub(crate) fn show<D: Disk>(
        &mut self,
        store: &mut VolStore<D>,
        head: &Head,
        told: FsReply,
        grants: &[Grant],
        now: u32,
    ) -> Mem<Outs>
        requires serves { ServesOver self.old store.old }
        requires told { CanTell head.now told }
        requires runs { IsToRun head.now self.old.seats }
        requires now { now ≤ 1000000000 }
        ensures { (r : row.Reading) → IsReading told grants.now r →
            AnswersNow head.now (read_reply_to store.old.durable.boot head.now (now + 7200) r) (granted store.old.node head.now.from (now + 7200) r.granted []) (grants_found head.now.from (now + 7200) r.granted (gives_up_all head.now.from r.given_up (expired now self.old.lists))) self.old self.new store.old store.new result }
    {
        let expiry = now + PROMISE_TICKS;
        let replied = self
            .callbacks()
            .plan_shown(stand(store), head, told, grants, expiry, now)?;
        let Replied { ended, kept } = replied;
        keep_granted(
            &mut self.callers,
            &mut self.callbacks,
            head,
            kept,
            grants,
            expiry,
        )?;
        let outs = self.keep_at(store, ended, now);
        Ok(outs)
    }
}
