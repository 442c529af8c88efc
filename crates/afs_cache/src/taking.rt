//! What answers the unanswered call.

ghost use Rattle.std.specs.Prelude.{◌≡◌, ◌+◌, ◌<◌, ℕ, [], ◌++◌, ◌∷◌, ◌&&◌, filter, map, nat_eq, nat_lt, not, Some, None, IsSome, IsTrue, IfOk, OnErr, OnOk};
ghost use Rattle.std.specs.List.{All, list_any};
ghost use Rattle.spec_ideal.specs.Operations.{volume_changed};
ghost use Rattle.afs_num.specs.Nodes.{same_node};
ghost use Rattle.afs_num.specs.declared.histories.ReadSource.TheVariants.{Fetched as WasFetched};
ghost use Rattle.spec_history.specs.declared.lines.Line.TheVariants as told;
ghost use Rattle.spec_model.specs.FsRows.{call_number};
ghost use Rattle.spec_model.specs.Messages.{messages_spelled, parcels_read};
ghost use Rattle.spec_rows.specs.Going.{next, with_read};
ghost use Rattle.spec_rows.specs.ClientRow.{answers_step, awaits, behind_batch, body_told, knows_boot, call_by, calls_again, counts, dropped, entries_told, cache_entry_told, with_given, gives_by, goes_on, ignores, is_busy_code, is_trusted, looked, most_busy, refuses, resends_step, not_walked, status_look, takes, takes_bulk, takes_data, takes_entry, takes_given, takes_list, takes_shown, with_statuses};
ghost use Rattle.afs_acts.specs.Acts.{FitsCalls};
ghost use Rattle.afs_entries.specs.Cached.{drops_of, entry_of, HasBody, left};
ghost use Rattle.afs_cache.specs.Acting.{sent_to};
ghost use Rattle.afs_cache.specs.Wanted.{awaited_by, body_wanted, call_asked, counts_reply, holds_of, is_gift, rights_wanted, shows_rights, shows_status, shows_statuses, status_wanted, statuses_wanted, wanted_of};
ghost use Rattle.std.specs.Option.{option_copied, option_map};
ghost use Rattle.spec_copyrows.specs.CopyRow.{offer_in};
ghost use Rattle.spec_copyrows.specs.Sites.{with_client};
ghost use Rattle.afs_cache.specs.Managing.{AnswersStill, by_act, by_call, Goes, hears_refusal, hears_reply, number_limit, rests, spent_by, Takes, TakesStill, telling};

use crate::acting::Dropping;
use crate::node::CacheManager;
use afs_acts::{Going, copy_body, copy_read, volume_changed};
use afs_asking::{
    Asked, body_told, body_wanted, entries_told, entry_told, is_any_spent, is_busy, is_gift,
    rights_wanted, status_told, status_wanted, statuses_wanted,
};
use afs_calling::boots::note_boot;
use afs_calling::messages::quiet;
use afs_calling::opcodes::file_opcode;
use afs_entries::{Drops, Fresh};
use afs_num::calls::{
    AfsCallBack, AfsFetchStatus, AfsVolSync, CallBacks, FsCall, FsReply, Statuses,
};
use afs_num::histories::{Body, ReadBody, ReadSource};
use afs_num::messages::{Carried, Reply};
use afs_num::sequences::{Octets, Sequence};
use afs_num::types::{Code, Fid, Head, Mem};
use spec_history::lines::{Line, Lines, Outs};

/// So often an act asks again that was told to wait.
const MOST_BUSY: u32 = 8;

/// What an act has read then, and the lines of that.
#[derive(Drop)]
struct Seen {
    going: Going,
    lines: Lines,
}

/// A promise that is told stands still.
fn is_usable(callback: &AfsCallBack, now: u32) -> bool
    ensures { result ≡ nat_lt now callback.now.expiration_time }
{
    now < callback.expiration_time
}

impl CacheManager {
    /// The unanswered call.
    pub(crate) fn call_asked(&self) -> Option<&FsCall>
        ensures { option_copied result ≡ call_asked self.now.state.client self.now.state.client.running }
    {
        match &self.asked {
            Some(asked) => Some(asked.file_call()),
            None => None,
        }
    }

    /// The fid whose body it asks for.
    fn body_wanted(&self) -> Option<Fid>
        ensures { result ≡ wanted_of body_wanted (call_asked self.now.state.client self.now.state.client.running) }
    {
        match self.call_asked() {
            Some(call) => body_wanted(call),
            None => None,
        }
    }

    /// The fid whose status it asks for.
    fn status_wanted(&self) -> Option<Fid>
        ensures { result ≡ wanted_of status_wanted (call_asked self.now.state.client self.now.state.client.running) }
    {
        match self.call_asked() {
            Some(call) => status_wanted(call),
            None => None,
        }
    }

    /// The fids whose statuses it asks for.
    fn statuses_wanted(&self) -> Option<&[Fid]>
        ensures { option_map (λ fs. fs.now) result ≡ wanted_of statuses_wanted (call_asked self.now.state.client self.now.state.client.running) }
    {
        match self.call_asked() {
            Some(call) => statuses_wanted(call),
            None => None,
        }
    }

    /// The fid whose rights it asks for.
    fn rights_wanted(&self) -> Option<Fid>
        ensures { result ≡ wanted_of rights_wanted (call_asked self.now.state.client self.now.state.client.running) }
    {
        match self.call_asked() {
            Some(call) => rights_wanted(call),
            None => None,
        }
    }

    /// Whether it gives promises back.
    fn has_given(&self) -> bool
        ensures { result ≡ holds_of is_gift (call_asked self.now.state.client self.now.state.client.running) }
    {
        match self.call_asked() {
            Some(call) => is_gift(call),
            None => false,
        }
    }

    /// Nothing happens.
    fn rest(&self) -> Mem<Outs>
        ensures still { TakesStill (λ place. ignores self.now.state.client place) self.now self.now result }
        ensures answers { AnswersStill (rests self.now.state.client) self.now self.now result }
    {
        Ok(quiet(self.alloc, Sequence::new(self.alloc)))
    }

    /// Nothing but that the message was given.
    pub(crate) fn ignore(&self) -> Mem<Outs>
        ensures takes { Takes (λ place. ignores self.now.state.client place) self.now self.now result }
        ensures still { TakesStill (λ place. ignores self.now.state.client place) self.now self.now result }
        ensures answers { AnswersStill (rests self.now.state.client) self.now self.now result }
    {
        self.rest()
    }

    /// The same behind these lines.
    pub(crate) fn ignore_behind(&self, lines: Lines) -> Mem<Outs>
        ensures { TakesStill (λ place. telling lines (ignores self.now.state.client place)) self.now self.now result }
    {
        Ok(quiet(self.alloc, lines))
    }

    /// Behind these lines the call is made again under the next number.
    fn call_again_behind(&mut self, lines: Lines) -> Mem<Outs>
        requires last { self.old.state.client.last < number_limit }
        ensures { Takes (λ place. telling lines (by_act self.old.state.client place (calls_again self.old.node self.old.state.client place) self.old.state.client.running)) self.old self.new result }
    {
        let Some(asked) = self.running() else {
            return self.ignore_behind(lines);
        };
        let plan = self.plan_again(asked, lines)?;
        Ok(self.follow(plan))
    }

    /// The call is made again under the next number.
    fn call_again(&mut self) -> Mem<Outs>
        requires last { self.old.state.client.last < number_limit }
        ensures { Takes (λ place. by_act self.old.state.client place (calls_again self.old.node self.old.state.client place) self.old.state.client.running) self.old self.new result }
    {
        let lines = self.no_lines();
        self.call_again_behind(lines)
    }

    pub(crate) fn answer(&mut self, code: Code) -> Mem<Outs>
        ensures { Takes (λ place. answers_step self.old.node self.old.state.client place code) self.old self.new result }
    {
        let lines = self.no_lines();
        let plan = self.plan_ending(code, lines)?;
        Ok(self.follow(plan))
    }

    fn tell_read(&self, fid: Fid, index: u32, body: ReadBody, lines: &mut Lines) -> Mem<()>
        ensures { OnOk result (lines.new ≡ lines.old ++ told.Read self.now.node fid index WasFetched body ∷ []) }
    {
        lines.push(Line::Read {
            client: self.node,
            fid,
            index,
            source: ReadSource::Fetched,
            body,
        })
    }

    /// What an act has read behind this.
    fn read_on(&self, asked: &Asked, fid: Fid, body: ReadBody) -> Mem<Going>
        ensures value { IfOk result (λ g. g ≡ with_read fid body asked.now.going) }
        ensures short { IfOk result (λ g. FitsCalls g.act) }
    {
        let mut going = asked.copy_going(self.alloc)?;
        going.add(fid, body)?;
        Ok(going)
    }

    /// A read that a reply shows, behind these lines: what the act has read then, and the line.
    fn with_read(
        &self,
        asked: &Asked,
        fid: Fid,
        index: u32,
        body: ReadBody,
        lines: Lines,
    ) -> Mem<Seen>
        ensures going { IfOk result (λ s. s.going ≡ with_read fid body asked.now.going) }
        ensures lines { IfOk result (λ s. s.lines ≡ lines ++ told.Read self.now.node fid index WasFetched body ∷ []) }
        ensures short { IfOk result (λ s. FitsCalls s.going.act) }
    {
        let mut lines = lines;
        let shown = copy_read(self.alloc, &body)?;
        self.tell_read(fid, index, body, &mut lines)?;
        let going = self.read_on(asked, fid, shown)?;
        Ok(Seen { going, lines })
    }

    /// The entry that a reply brings.
    fn fresh(
        &self,
        fid: Fid,
        status: &AfsFetchStatus,
        callback: &AfsCallBack,
        sync: &AfsVolSync,
        body: Option<Body>,
    ) -> Fresh
        ensures value { entry_of result ≡ cache_entry_told self.now.state.client.callee fid status.now callback.now sync.now body }
        ensures body { IsSome body → HasBody (Some result) }
    {
        Fresh {
            fid,
            entry: entry_told(self.calls.callee, status, callback, sync, body),
        }
    }

    /// The body of this fid comes. One whose promise has ended by now can't be used.
    fn take_body(
        &mut self,
        fid: Fid,
        contents: Octets,
        status: &AfsFetchStatus,
        callback: &AfsCallBack,
        sync: &AfsVolSync,
        lines: Lines,
        now: u32,
    ) -> Mem<Outs>
        requires last { self.old.state.client.last < number_limit }
        ensures { Takes (λ place. telling lines (by_act self.old.state.client place (λ act. takes_entry self.old.node self.old.state.client now place act (cache_entry_told self.old.state.client.callee fid status.now callback.now sync.now (Some (body_told status.now.file_type contents))) (ReadBody.Contents (body_told status.now.file_type contents))) self.old.state.client.running)) self.old self.new result }
    {
        let alloc = self.alloc;
        let Some(asked) = self.running() else {
            return self.ignore_behind(lines);
        };
        let usable = is_usable(callback, now);
        if !usable {
            return self.call_again_behind(lines);
        }
        let body = body_told(alloc, status.file_type, contents)?;
        let kept = copy_body(alloc, &body)?;
        let Seen { going, lines } = self.with_read(
            asked,
            fid,
            status.sync_counter,
            ReadBody::Contents(body),
            lines,
        )?;
        let fresh = self.fresh(fid, status, callback, sync, Some(kept));
        self.walk_with(fresh, going, lines, now)
    }

    /// A body comes.
    fn take_data(
        &mut self,
        contents: Octets,
        status: &AfsFetchStatus,
        callback: &AfsCallBack,
        sync: &AfsVolSync,
        lines: Lines,
        now: u32,
    ) -> Mem<Outs>
        requires last { self.old.state.client.last < number_limit }
        ensures { Takes (λ place. telling lines (by_call self.old.state.client place (λ act. takes_data self.old.node self.old.state.client now place act contents status.now callback.now sync.now) self.old.state.client.running)) self.old self.new result }
    {
        match self.body_wanted() {
            Some(fid) => self.take_body(fid, contents, status, callback, sync, lines, now),
            None => self.take_plain_behind(lines),
        }
    }

    /// One entry.
    fn alone(&self, fresh: Fresh) -> Mem<Vec<Fresh>>
        ensures { IfOk result (λ all. map entry_of all.items ≡ entry_of fresh ∷ []) }
    {
        let mut all = Vec::new(self.alloc);
        all.push(fresh)?;
        Ok(all)
    }

    /// The status of this fid comes.
    fn take_seen(
        &mut self,
        fid: Fid,
        status: &AfsFetchStatus,
        callback: &AfsCallBack,
        sync: &AfsVolSync,
        lines: Lines,
        now: u32,
    ) -> Mem<Outs>
        requires last { self.old.state.client.last < number_limit }
        ensures { Takes (λ place. telling lines (by_act self.old.state.client place (λ act. shows_status self.old.node self.old.state.client now place act (cache_entry_told self.old.state.client.callee fid status.now callback.now sync.now None)) self.old.state.client.running)) self.old self.new result }
    {
        let Some(asked) = self.running() else {
            return self.ignore_behind(lines);
        };
        let usable = is_usable(callback, now);
        if !usable {
            return self.call_again_behind(lines);
        }
        let body = ReadBody::Status(status_told(status));
        let Seen { going, lines } = self.with_read(asked, fid, status.sync_counter, body, lines)?;
        let fresh = self.fresh(fid, status, callback, sync, None);
        let all = self.alone(fresh)?;
        self.go_with(all, going, lines)
    }

    /// A status comes.
    fn take_shown(
        &mut self,
        status: &AfsFetchStatus,
        callback: &AfsCallBack,
        sync: &AfsVolSync,
        lines: Lines,
        now: u32,
    ) -> Mem<Outs>
        requires last { self.old.state.client.last < number_limit }
        ensures { Takes (λ place. telling lines (by_call self.old.state.client place (λ act. takes_shown self.old.node self.old.state.client now place act status.now callback.now sync.now) self.old.state.client.running)) self.old self.new result }
    {
        match self.status_wanted() {
            Some(fid) => self.take_seen(fid, status, callback, sync, lines, now),
            None => self.take_plain_behind(lines),
        }
    }

    /// The statuses of these are read in their order.
    fn read_all(&self, all: &[Fresh], going: &mut Going, lines: &mut Lines) -> Mem<()>
        ensures going { OnOk result (going.new ≡ with_statuses (map entry_of all.now) going.old) }
        ensures lines { OnOk result (lines.new ≡ lines.old ++ looked self.now.node (map status_look (map entry_of all.now)) []) }
    {
        for fresh in all {
            going.add(fresh.fid, ReadBody::Status(fresh.entry.status))?;
            self.tell_read(
                fresh.fid,
                fresh.entry.index,
                ReadBody::Status(fresh.entry.status),
                lines,
            )?;
        }
        Ok(())
    }

    /// What an act has read behind these statuses, and the lines of that, behind these.
    fn with_all(&self, asked: &Asked, all: &[Fresh], lines: Lines) -> Mem<Seen>
        ensures going { IfOk result (λ s. s.going ≡ with_statuses (map entry_of all.now) asked.now.going) }
        ensures lines { IfOk result (λ s. s.lines ≡ lines ++ looked self.now.node (map status_look (map entry_of all.now)) []) }
        ensures short { IfOk result (λ s. FitsCalls s.going.act) }
    {
        let mut going = asked.copy_going(self.alloc)?;
        let mut lines = lines;
        self.read_all(all, &mut going, &mut lines)?;
        Ok(Seen { going, lines })
    }

    /// These entries come. Their statuses are read in their order, once all of them stand in the cache.
    fn take_all(&mut self, all: Vec<Fresh>, lines: Lines, now: u32) -> Mem<Outs>
        requires last { self.old.state.client.last < number_limit }
        ensures { Takes (λ place. telling lines (by_act self.old.state.client place (λ act. shows_statuses self.old.node self.old.state.client now place act (map entry_of all.items)) self.old.state.client.running)) self.old self.new result }
    {
        let Some(asked) = self.running() else {
            return self.ignore_behind(lines);
        };
        let spent = is_any_spent(&all, now);
        if spent {
            return self.call_again_behind(lines);
        }
        let Seen { going, lines } = self.with_all(asked, &all, lines)?;
        self.go_with(all, going, lines)
    }

    /// The entries of these fids that a reply brings.
    fn all_fresh(
        &self,
        fids: &[Fid],
        statuses: &Statuses,
        callbacks: &CallBacks,
        sync: &AfsVolSync,
    ) -> Mem<Vec<Fresh>>
        ensures { IfOk result (λ all. map entry_of all.items ≡ entries_told self.now.state.client.callee sync.now fids.now statuses.now callbacks.now) }
    {
        let statuses = statuses.as_slice();
        let callbacks = callbacks.as_slice();
        entries_told(
            self.alloc,
            self.calls.callee,
            sync,
            fids,
            statuses,
            callbacks,
        )
    }

    /// Statuses come.
    fn take_bulk(
        &mut self,
        statuses: &Statuses,
        callbacks: &CallBacks,
        sync: &AfsVolSync,
        lines: Lines,
        now: u32,
    ) -> Mem<Outs>
        requires last { self.old.state.client.last < number_limit }
        ensures { Takes (λ place. telling lines (by_call self.old.state.client place (λ act. takes_bulk self.old.node self.old.state.client now place act statuses.now callbacks.now sync.now) self.old.state.client.running)) self.old self.new result }
    {
        match self.statuses_wanted() {
            Some(fids) => {
                let all = self.all_fresh(fids, statuses, callbacks, sync)?;
                self.take_all(all, lines, now)
            }
            None => self.take_plain_behind(lines),
        }
    }

    /// Behind a read entries go, and the act goes on.
    fn go_dropping(&mut self, drops: &Drops, seen: Seen) -> Mem<Outs>
        requires short { FitsCalls seen.going.act }
        requires last { self.old.state.client.last < number_limit }
        ensures { Goes (λ front. goes_on self.old.node self.old.state.client (λ ls. front (dropped self.old.node (filter (drops_of drops.now) self.old.state.client.cache) ls)) (not_walked seen.going (left drops.now self.old.state.client.cache))) seen.lines self.old self.new result }
    {
        let Seen { going, lines } = seen;
        let Dropping { fids, lines } = self.dropping(drops, lines)?;
        let plan = self.plan(going, lines)?;
        self.cache.drop_all(&fids);
        Ok(self.follow(plan))
    }

    /// The rights on this fid come, without a promise: an entry of an older index or release goes behind the read.
    fn take_list(
        &mut self,
        fid: Fid,
        text: Octets,
        index: u32,
        release: u32,
        lines: Lines,
    ) -> Mem<Outs>
        requires last { self.old.state.client.last < number_limit }
        ensures { Takes (λ place. telling lines (by_act self.old.state.client place (λ act. shows_rights self.old.node self.old.state.client place act fid index release text) self.old.state.client.running)) self.old self.new result }
    {
        let Some(asked) = self.running() else {
            return self.ignore_behind(lines);
        };
        let seen = self.with_read(asked, fid, index, ReadBody::AccessList(text), lines)?;
        self.go_dropping(
            &Drops::Older {
                fid,
                index,
                release,
            },
            seen,
        )
    }

    /// Rights come.
    fn take_rights(
        &mut self,
        text: Octets,
        status: &AfsFetchStatus,
        sync: &AfsVolSync,
        lines: Lines,
    ) -> Mem<Outs>
        requires last { self.old.state.client.last < number_limit }
        ensures { (clock : ℕ) → Takes (λ place. telling lines (by_call self.old.state.client place (λ act. takes_list self.old.node self.old.state.client clock place act text status.now sync.now) self.old.state.client.running)) self.old self.new result }
    {
        match self.rights_wanted() {
            Some(fid) => self.take_list(fid, text, status.sync_counter, sync.release, lines),
            None => self.take_plain_behind(lines),
        }
    }

    /// What is given back behind the batch that was goes next.
    fn give_on(&mut self) -> Mem<Outs>
        requires last { self.old.state.client.last < number_limit }
        ensures { Takes (λ place. by_act self.old.state.client place (λ act. gives_by self.old.node self.old.state.client (with_given place) act (behind_batch self.old.state.client.gifts)) self.old.state.client.running) self.old self.new result }
    {
        let alloc = self.alloc;
        let Some(asked) = self.running() else {
            return self.ignore();
        };
        let going = asked.copy_going(alloc)?;
        let rest = asked.behind_batch(alloc)?;
        let lines = self.no_lines();
        let plan = self.plan_giving(going, rest, lines)?;
        Ok(self.follow(plan))
    }

    /// So many promises were given back.
    fn take_given(&mut self) -> Mem<Outs>
        requires last { self.old.state.client.last < number_limit }
        ensures { Takes (λ place. by_call self.old.state.client place (λ act. takes_given self.old.node self.old.state.client place act) self.old.state.client.running) self.old self.new result }
    {
        let given = self.has_given();
        if given {
            self.give_on()
        } else {
            self.take_plain()
        }
    }

    /// A reply that is used.
    fn take(&mut self, reply: FsReply, now: u32) -> Mem<Outs>
        requires last { self.old.state.client.last < number_limit }
        ensures { Takes (λ place. by_call self.old.state.client place (λ act call. takes self.old.node self.old.state.client now place act call reply) self.old.state.client.running) self.old self.new result }
    {
        let lines = self.no_lines();
        match reply {
            FsReply::FetchData {
                contents,
                status,
                callback,
                sync,
            } => self.take_data(contents, &status, &callback, &sync, lines, now),
            FsReply::FetchAcl { acl, status, sync } => self.take_rights(acl, &status, &sync, lines),
            FsReply::FetchStatus {
                status,
                callback,
                sync,
            } => self.take_shown(&status, &callback, &sync, lines, now),
            FsReply::BulkStatus {
                statuses,
                callbacks,
                sync,
            } => self.take_bulk(&statuses, &callbacks, &sync, lines, now),
            FsReply::StoreData { status, .. } => self.take_set(&status, now),
            FsReply::StoreAcl { status, .. } => self.take_set(&status, now),
            FsReply::StoreStatus { status, .. } => self.take_set(&status, now),
            FsReply::GiveUpCallBacks => self.take_given(),
            _ => self.take_plain(),
        }
    }

    /// A reply to a reading call that is used, behind these lines.
    pub(crate) fn take_reading(&mut self, reply: FsReply, lines: Lines, now: u32) -> Mem<Outs>
        requires reads { IsSome (offer_in reply) }
        requires last { self.old.state.client.last < number_limit }
        ensures { Takes (λ place. telling lines (by_call self.old.state.client place (λ act call. takes self.old.node self.old.state.client now place act call reply) self.old.state.client.running)) self.old self.new result }
    {
        match reply {
            FsReply::FetchData {
                contents,
                status,
                callback,
                sync,
            } => self.take_data(contents, &status, &callback, &sync, lines, now),
            FsReply::FetchAcl { acl, status, sync } => {
                self.take_rights(acl, &status, &sync, lines)
            }
            FsReply::FetchStatus {
                status,
                callback,
                sync,
            } => self.take_shown(&status, &callback, &sync, lines, now),
            FsReply::BulkStatus {
                statuses,
                callbacks,
                sync,
            } => self.take_bulk(&statuses, &callbacks, &sync, lines, now),
            _ => self.ignore(),
        }
    }

    /// Whether an act is told to wait by this code, and asks again.
    fn asks_again(&self, code: Code) -> bool
        ensures value { result ≡ (is_busy_code code && nat_lt self.now.state.client.busy most_busy) }
        ensures few { IsTrue result → self.now.state.client.busy < 8 }
    {
        is_busy(code) && self.busy < MOST_BUSY
    }

    /// The act was told to wait once more.
    fn wait_more(&mut self)
        requires { self.old.state.client.busy < 8 }
        ensures { self.new ≡ record self.old { state = with_client self.old.state (record self.old.state.client { busy = self.old.state.client.busy + 1 }) } }
    {
        self.busy += 1;
    }

    /// An act that was told to wait asks again.
    fn call_later(&mut self) -> Mem<Outs>
        requires few { self.old.state.client.busy < 8 }
        requires last { self.old.state.client.last < number_limit }
        ensures { Takes (λ place. by_act self.old.state.client place (calls_again self.old.node (record self.old.state.client { busy = self.old.state.client.busy + 1 }) place) self.old.state.client.running) self.old self.new result }
    {
        let Some(asked) = self.running() else {
            return self.ignore();
        };
        let lines = self.no_lines();
        let plan = self.plan_again(asked, lines)?;
        self.wait_more();
        Ok(self.follow(plan))
    }

    /// A refusal: an act that is told to wait asks again, so often.
    fn refuse(&mut self, code: Code) -> Mem<Outs>
        requires last { self.old.state.client.last < number_limit }
        ensures { Takes (λ place. by_act self.old.state.client place (λ act. refuses self.old.node self.old.state.client place act code) self.old.state.client.running) self.old self.new result }
    {
        let again = self.asks_again(code);
        if again {
            self.call_later()
        } else {
            self.refuse_for_good(code)
        }
    }

    /// A reply to a reading call that a break overtook isn't used.
    pub(crate) fn is_spent(&self) -> bool
        ensures { result ≡ spent_by self.now.state.client self.now.state.client.running }
    {
        match &self.asked {
            Some(asked) => self.spoiled && volume_changed(asked.file_call()).is_none(),
            None => false,
        }
    }

    /// What is given out where the call is sent again with this boot number.
    fn resent(&self, asked: &Asked, boot: u32) -> Mem<Outs>
        ensures lines { IfOk result (λ o. o.lines ≡ []) }
        ensures sent { IfOk result (λ o. parcels_read o.parcels ≡ messages_spelled (sent_to self.now.node self.now.state.client self.now.state.client.last self.now.state.client.callee boot (call_by asked.now.gifts (next asked.now.going)) ∷ [])) }
    {
        self.outs(
            self.calls.last,
            self.calls.callee,
            boot,
            asked,
            Sequence::new(self.alloc),
        )
    }

    /// A boot number is noted for the callee.
    fn note(&mut self, boot: u32) -> Mem<()>
        ensures ok { OnOk result (self.new ≡ record self.old { state = with_client self.old.state (knows_boot self.old.state.client boot) }) }
        ensures err { OnErr result (self.new ≡ self.old) }
    {
        note_boot(&mut self.boots, self.calls.callee, boot)
    }

    /// The call is sent again with the boot number that its callee told.
    fn resend(&mut self, boot: u32) -> Mem<Outs>
        ensures { TakesStill (λ place. by_act self.old.state.client place (λ act. resends_step self.old.node self.old.state.client place act boot) self.old.state.client.running) self.old self.new result }
    {
        let Some(asked) = self.running() else {
            return self.ignore();
        };
        let outs = self.resent(asked, boot)?;
        self.note(boot)?;
        Ok(outs)
    }

    /// Whether a message with this header answers the call that waits: it comes from its callee, and has its key and its
    /// opcode.
    pub(crate) fn is_awaited(&self, head: &Head) -> bool
        ensures { result ≡ awaited_by self.now.state.client head.now self.now.state.client.running }
    {
        match &self.asked {
            Some(asked) => {
                head.from.is(&self.calls.callee)
                    && head.epoch == self.callers.boot()
                    && head.number == self.calls.last
                    && head.opcode == file_opcode(asked.file_call())
            }
            None => false,
        }
    }

    fn hear_refusal(&mut self, code: Code) -> Mem<Outs>
        requires last { self.old.state.client.last < number_limit }
        ensures { Takes (λ place. by_act self.old.state.client place (λ act. hears_refusal self.old.node self.old.state.client place act code) self.old.state.client.running) self.old self.new result }
    {
        let spent = self.is_spent();
        if spent {
            return self.call_again();
        }
        self.refuse(code)
    }

    fn hear_reply(&mut self, reply: FsReply, now: u32) -> Mem<Outs>
        requires last { self.old.state.client.last < number_limit }
        ensures { Takes (λ place. by_act self.old.state.client place (λ act. hears_reply self.old.node self.old.state.client now place act reply) self.old.state.client.running) self.old self.new result }
    {
        let spent = self.is_spent();
        if spent {
            return self.call_again();
        }
        self.take(reply, now)
    }

    /// A reply to the call that waits.
    fn count_reply(&mut self, reply: Reply, now: u32) -> Mem<Outs>
        requires last { self.old.state.client.last < number_limit }
        ensures { Takes (λ place. by_act self.old.state.client place (λ act. counts_reply self.old.node self.old.state.client now place act reply) self.old.state.client.running) self.old self.new result }
    {
        match reply.into_file() {
            Some(reply) => self.hear_reply(reply, now),
            None => self.ignore(),
        }
    }

    /// What answers the call that waits.
    fn count(&mut self, head: &Head, carried: Carried, now: u32) -> Mem<Outs>
        requires last { self.old.state.client.last < number_limit }
        ensures { Takes (λ place. by_act self.old.state.client place (λ act. counts self.old.node self.old.state.client now place act head.now carried) self.old.state.client.running) self.old self.new result }
    {
        match carried {
            Carried::Refusal { code } => self.hear_refusal(code),
            Carried::Reply { reply } => self.count_reply(reply, now),
            Carried::Notice => self.resend(head.boot),
            Carried::Call { .. } => self.ignore(),
        }
    }

    /// A reply or a notice: what isn't awaited does nothing.
    pub(crate) fn hear(&mut self, head: &Head, carried: Carried, now: u32) -> Mem<Outs>
        requires last { self.old.state.client.last < number_limit }
        ensures { Takes (λ place. awaits self.old.node self.old.state.client now place head.now carried self.old.state.client.running) self.old self.new result }
    {
        let awaited = self.is_awaited(head);
        if awaited {
            self.count(head, carried, now)
        } else {
            self.ignore()
        }
    }
}
