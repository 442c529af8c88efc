//! What answers to changing calls do to the cache.

ghost use Rattle.std.specs.Prelude.{◌≡◌, ◌&&◌, filter, not, IfOk};
ghost use Rattle.spec_rows.specs.ClientRow.{dropped, ends_step, find_cached, stands_below, status_told, takes_bytes, takes_plain, takes_set, takes_status, takes_stored};
ghost use Rattle.afs_entries.specs.Cached.{drops_of, left, made_of};
ghost use Rattle.afs_cache.specs.Managing.{by_call, Goes, Takes, telling};
ghost use Rattle.afs_cache.specs.Wanted.{bytes_stored, call_asked, fields_stored, takes_fields, wanted_of};
ghost use Rattle.std.specs.Option.{option_map};

use crate::acting::Dropping;
use crate::node::CacheManager;
use afs_asking::{bytes_stored, fields_stored, is_below, scope_of, status_told};
use afs_entries::Drops;
use afs_num::calls::AfsFetchStatus;
use afs_num::sequences::Octets;
use afs_num::types::{Code, Fid, Mem};
use spec_history::lines::{Lines, Outs};

/// Bytes that were stored, and of what.
#[derive(Drop)]
struct Stored {
    fid: Fid,
    contents: Octets,
}

impl CacheManager {
    /// Behind these lines entries are given up, and the act is answered.
    pub(crate) fn end_dropping(&mut self, drops: &Drops, lines: Lines, code: Code) -> Mem<Outs>
        ensures { Goes (λ front. ends_step self.old.node self.old.state.client (left drops.now self.old.state.client.cache) (λ ls. front (dropped self.old.node (filter (drops_of drops.now) self.old.state.client.cache) ls)) code) lines self.old self.new result }
    {
        let Dropping { fids, lines } = self.dropping(drops, lines)?;
        let plan = self.plan_ending(code, lines)?;
        self.cache.drop_all(&fids);
        Ok(self.follow(plan))
    }

    /// Behind these lines the entries of what the call may have changed are given up.
    pub(crate) fn take_plain_behind(&mut self, lines: Lines) -> Mem<Outs>
        ensures { Takes (λ place. telling lines (by_call self.old.state.client place (λ act. takes_plain self.old.node self.old.state.client place) self.old.state.client.running)) self.old self.new result }
    {
        let Some(asked) = self.running() else {
            return self.ignore_behind(lines);
        };
        let drops = scope_of(asked.file_call());
        self.end_dropping(&drops, lines, Code(0))
    }

    /// The entries of what the call may have changed are given up.
    pub(crate) fn take_plain(&mut self) -> Mem<Outs>
        ensures { Takes (λ place. by_call self.old.state.client place (λ act. takes_plain self.old.node self.old.state.client place) self.old.state.client.running) self.old self.new result }
    {
        let lines = self.no_lines();
        self.take_plain_behind(lines)
    }

    /// A trusted entry is as the store left it.
    fn take_stored(
        &mut self,
        fid: Fid,
        status: &AfsFetchStatus,
        contents: Option<Octets>,
        now: u32,
    ) -> Mem<Outs>
        ensures { Takes (λ place. takes_stored self.old.node self.old.state.client now place fid status.now.sync_counter (status_told status.now) (made_of contents)) self.old self.new result }
    {
        let lines = self.no_lines();
        let plan = self.plan_ending(Code(0), lines)?;
        self.cache.refresh(
            now,
            &fid,
            status.sync_counter,
            status_told(status),
            contents,
        );
        Ok(self.follow(plan))
    }

    /// Whether the body that is cached of this fid is the one that stands under this index now.
    fn keeps_body(&self, fid: &Fid, index: u32, now: u32) -> bool
        ensures { result ≡ (not self.now.state.client.spoiled && stands_below now index (find_cached fid.now self.now.state.client.cache)) }
    {
        !self.spoiled && is_below(now, index, self.cache.find(fid))
    }

    /// The body under a status or rights that were stored is that of the version before: a trusted entry of another is given
    /// up.
    fn take_status(&mut self, fid: Fid, status: &AfsFetchStatus, now: u32) -> Mem<Outs>
        ensures { Takes (λ place. by_call self.old.state.client place (λ act. takes_status self.old.node self.old.state.client now place fid status.now) self.old.state.client.running) self.old self.new result }
    {
        let Some(_asked) = self.running() else {
            return self.ignore();
        };
        let keeps = self.keeps_body(&fid, status.sync_counter, now);
        if keeps {
            self.take_stored(fid, status, None, now)
        } else {
            self.take_plain()
        }
    }

    /// Whether a break overtook the reply.
    fn is_spoiled(&self) -> bool
        ensures { result ≡ self.now.state.client.spoiled }
    {
        self.spoiled
    }

    /// The body that was stored is cached; of a reply that a break overtook nothing is.
    fn take_bytes(
        &mut self,
        fid: Fid,
        status: &AfsFetchStatus,
        contents: Octets,
        now: u32,
    ) -> Mem<Outs>
        ensures { Takes (λ place. by_call self.old.state.client place (λ act. takes_bytes self.old.node self.old.state.client now place fid status.now contents) self.old.state.client.running) self.old self.new result }
    {
        let Some(_asked) = self.running() else {
            return self.ignore();
        };
        let spoiled = self.is_spoiled();
        if spoiled {
            self.take_plain()
        } else {
            self.take_stored(fid, status, Some(contents), now)
        }
    }

    /// The bytes that the unanswered call stores, and of what.
    fn bytes_stored(&self) -> Mem<Option<Stored>>
        ensures { IfOk result (λ b. option_map (λ x. (x.fid, x.contents)) b ≡ wanted_of bytes_stored (call_asked self.now.state.client self.now.state.client.running)) }
    {
        let alloc = self.alloc;
        let Some(call) = self.call_asked() else {
            return Ok(None);
        };
        let Some((fid, contents)) = bytes_stored(call) else {
            return Ok(None);
        };
        let contents = contents.copy(alloc)?;
        Ok(Some(Stored { fid, contents }))
    }

    /// The fid whose status or rights it stores.
    fn fields_stored(&self) -> Option<Fid>
        ensures { result ≡ wanted_of fields_stored (call_asked self.now.state.client self.now.state.client.running) }
    {
        match self.call_asked() {
            Some(call) => fields_stored(call),
            None => None,
        }
    }

    /// A status or rights were stored, or nothing that the cache shows.
    fn take_fields(&mut self, status: &AfsFetchStatus, now: u32) -> Mem<Outs>
        ensures { Takes (λ place. by_call self.old.state.client place (λ act. takes_fields self.old.node self.old.state.client now place status.now) self.old.state.client.running) self.old self.new result }
    {
        match self.fields_stored() {
            Some(fid) => self.take_status(fid, status, now),
            None => self.take_plain(),
        }
    }

    /// What was stored is cached.
    pub(crate) fn take_set(&mut self, status: &AfsFetchStatus, now: u32) -> Mem<Outs>
        ensures { Takes (λ place. by_call self.old.state.client place (λ act. takes_set self.old.node self.old.state.client now place status.now) self.old.state.client.running) self.old self.new result }
    {
        let stored = self.bytes_stored()?;
        match stored {
            Some(stored) => self.take_bytes(stored.fid, status, stored.contents, now),
            None => self.take_fields(status, now),
        }
    }
}
