//! What comes of it that a reading call is told what it asked, and what is promised with that.

ghost use Rattle.std.specs.Prelude.{◌≡◌, map, IfOk, OnErr, OnOk};
ghost use Rattle.spec_breaks.specs.Promises.{grants_all};
ghost use Rattle.spec_rows.specs.ServerRow.{granted, replied};
ghost use Rattle.afs_callees.specs.Telling.{grant_line};
ghost use Rattle.afs_callees.specs.declared.telling.Grant as told;
ghost use Rattle.afs_callbacks.specs.Answering.{reply_told, IsRepliedNow, CanTell};
ghost use Rattle.afs_callbacks.specs.States.{IsToNodes};

use crate::answering::{Replied, reply_told};
use crate::callbacks::Callbacks;
use crate::saving::fids_granted;
use afs_callees::telling::{Grant, tell_grants};
use afs_num::calls::FsReply;
use afs_num::types::{Head, Mem, Node};
use afs_promise::Promises;
use afs_server_parts::turns::Stand;
use spec_history::lines::Lines;
use std::alloc::Global;
use std::slice::from_ref;

/// The lines of promises to a client.
fn granted_lines(
    alloc: Global,
    server: Node,
    client: Node,
    expiry: u32,
    grants: &[Grant],
) -> Mem<Lines>
    ensures { IfOk result (λ ls. ls ≡ map (grant_line server client expiry) grants.now) }
{
    let mut lines = Lines::new(alloc);
    tell_grants(&mut lines, server, client, expiry, grants)?;
    Ok(lines)
}

/// A client is granted these promises until this time.
fn grant_told(
    alloc: Global,
    promises: &mut Promises,
    client: Node,
    grants: &[Grant],
    expiry: u32,
) -> Mem<()>
    ensures granted { OnOk result (promises.new ≡ grants_all client expiry (map (λ (g : told.Grant). g.fid) grants.now) promises.old) }
    ensures err { OnErr result (promises.new ≡ promises.old) }
{
    match grants {
        [grant] => promises.grant_all(client, from_ref(&grant.fid), expiry),
        _ => {
            let fids = fids_granted(alloc, grants)?;
            promises.grant_all(client, fids.as_slice(), expiry)
        }
    }
}

impl Callbacks {
    /// What comes of it that a call that reads is told this, and granted these promises.
    pub fn plan_shown(
        &self,
        stand: Stand,
        head: &Head,
        told: FsReply,
        grants: &[Grant],
        expiry: u32,
        now: u32,
    ) -> Mem<Replied>
        requires nodes { IsToNodes stand.node self.now }
        requires told { CanTell head.now told }
        ensures { IfOk result (λ r. IsRepliedNow stand self.now now (reply_told stand.boot head.now expiry told) (map (grant_line stand.node head.now.from expiry) grants.now) r.ended r.kept) }
    {
        let reply = reply_told(self.alloc, stand.boot, head, told, expiry)?;
        let lines = granted_lines(self.alloc, stand.node, head.from, expiry, grants)?;
        let mut replied = self.plan_spelled(stand, reply, now)?;
        replied.ended.outs.lines = lines;
        Ok(replied)
    }

    /// A client is granted these promises until this time.
    pub fn grant_told(&mut self, client: Node, grants: &[Grant], expiry: u32) -> Mem<()>
        ensures ok { OnOk result (self.new ≡ record self.old { lists = grants_all client expiry (map (λ (g : told.Grant). g.fid) grants.now) self.old.lists }) }
        ensures err { OnErr result (self.new ≡ self.old) }
    {
        grant_told(self.alloc, &mut self.promises, client, grants, expiry)
    }
}
