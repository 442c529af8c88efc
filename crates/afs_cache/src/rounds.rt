//! What the first site of a round answers.

ghost use Rattle.std.specs.Prelude.{◌≡◌, ◌<◌, ◌||◌, ◌&&◌, [], ◌∷◌, false, nat_lt, is_some, IfOk, IsSome, None, Some};
ghost use Rattle.spec_history.specs.declared.lines.Line.TheVariants.{Given};
ghost use Rattle.spec_model.specs.Messages.{HasSpelling};
ghost use Rattle.afs_num.specs.declared.messages.Carried.TheVariants as told;
ghost use Rattle.afs_num.specs.declared.messages.Reply.TheVariants as answered;
ghost use Rattle.afs_entries.specs.Cached.{left};
ghost use Rattle.afs_num.specs.Messages.{file_reply};
ghost use Rattle.afs_num.specs.Nodes.{same_node};
ghost use Rattle.spec_rows.specs.ClientRow.{is_busy_code, takes};
ghost use Rattle.spec_copyrows.specs.CopyRow.{answers_at, answers_in, answers_to, by_release, offer_in, offers, refuses_at, uses_newer};
ghost use Rattle.spec_copyrows.specs.Sites.{calls_round, leaves_site, round_of, seen_of};
ghost use Rattle.spec_ideal.specs.Tables.{set};
ghost use Rattle.afs_cache.specs.Wanted.{awaited_by};
ghost use Rattle.afs_cache.specs.Managing.{by_call, number_limit, spent_by, TakesCopy, telling};
ghost use Rattle.afs_cache.specs.Rounds.{IsHeard, KeepsThen, keeping, OfAct, round_running};
ghost use Rattle.afs_sites.specs.Offers.{offered_at};
ghost use Rattle.std.specs.Option.{option_map};

use crate::acting::Dropping;
use crate::node::CacheManager;
use afs_asking::is_busy;
use afs_entries::{Cache, Drops};
use afs_num::calls::FsReply;
use afs_num::messages::{Carried, Reply};
use afs_num::types::{Code, Head, Mem};
use afs_sites::{Offered, Releases, Round, offer_in};
use spec_history::lines::{Lines, Outs};
use std::mem::replace;

/// What a client keeps of read-only volumes once it uses a reply of a newer release: the entries that stay, and what it has seen.
#[derive(Drop)]
pub struct Newer {
    pub cache: Cache,
    pub seen: Releases,
}

/// Whether it is a reply of a file server.
fn is_file(reply: &Reply) -> bool
    ensures { result ≡ is_some (file_reply reply.now) }
{
    matches!(reply, Reply::File(_))
}

impl CacheManager {
    /// The round in whose volume the act that runs calls.
    pub(crate) fn round_asked(&self) -> Mem<Option<Round>>
        ensures { IfOk result (λ o. o ≡ round_running self.now.state self.now.state.client.running) }
    {
        match &self.asked {
            Some(asked) => self.round_for(asked),
            None => Ok(None),
        }
    }

    /// The act that runs makes its call in this round.
    fn call_round(&mut self, round: Round) -> Mem<Outs>
        requires last { self.old.state.client.last < number_limit }
        ensures { OfAct (λ place act. calls_round self.old.node self.old.state act round (Given place ∷ [])) self.old self.new result }
    {
        let Some(asked) = self.running() else {
            return self.ignore();
        };
        let asked = self.asked_again(asked)?;
        let lines = self.no_lines();
        let plan = self.plan_round(asked, round, lines)?;
        Ok(self.follow(plan))
    }

    /// It leaves the site that it called last.
    fn leave_site(&mut self, round: Round) -> Mem<Outs>
        requires last { self.old.state.client.last < number_limit }
        ensures { OfAct (λ place act. leaves_site self.old.node self.old.state act round (Given place ∷ [])) self.old self.new result }
    {
        let mut round = round;
        round.leave();
        self.call_round(round)
    }

    /// A refusal of a site that is as one of any server: 106 and 110, or that of a reading call which a break overtook.
    fn is_refusal_used(&self, code: Code) -> bool
        ensures { result ≡ (is_busy_code code || spent_by self.now.state.client self.now.state.client.running) }
    {
        is_busy(code) || self.is_spent()
    }

    /// A refusal of a site: any but 106 and 110 leads to the next one. Where a break overtook the reply to a reading call the same
    /// site is called again.
    fn refuse_at(&mut self, round: Round, head: &Head, code: Code, now: u32) -> Mem<Outs>
        requires sound { HasSpelling (record { head = head.now; carried = told.Refusal code }) }
        requires last { self.old.state.client.last < number_limit }
        ensures { OfAct (λ place act. refuses_at self.old.node self.old.state now place (record { head = head.now; carried = told.Refusal code }) act round code) self.old self.new result }
    {
        let used = self.is_refusal_used(code);
        if used {
            return self.take_guest(head, Carried::Refusal { code }, now);
        }
        let mut round = round;
        round.note_refusal(code);
        self.leave_site(round)
    }

    /// The entries of lower releases of a volume go, and this one is seen.
    fn newer(&self, drops: &Drops, volume: u32, release: u32) -> Mem<Newer>
        ensures cache { IfOk result (λ n. n.cache ≡ record { entries = left drops.now self.now.state.client.cache; capacity = self.now.state.client.capacity }) }
        ensures seen { IfOk result (λ n. n.seen ≡ set volume release self.now.state.seen) }
    {
        Ok(Newer {
            cache: self.cache.without(self.alloc, drops)?,
            seen: self.seen.with(self.alloc, volume, release)?,
        })
    }

    /// The client keeps this, and gives what it kept.
    fn swap_newer(&mut self, newer: Newer) -> Newer
        requires { newer.cache.capacity ≡ self.old.state.client.capacity }
        ensures new { self.new ≡ record self.old { state = keeping self.old.state newer.cache.entries newer.seen } }
        ensures cache { result.cache ≡ record { entries = self.old.state.client.cache; capacity = self.old.state.client.capacity } }
        ensures seen { result.seen ≡ self.old.state.seen }
    {
        let Newer { cache, seen } = newer;
        Newer {
            cache: replace(&mut self.cache, cache),
            seen: replace(&mut self.seen, seen),
        }
    }

    /// A reply is used once the client keeps this; where memory is wanting it keeps what it kept.
    fn take_keeping(&mut self, newer: Newer, reply: FsReply, lines: Lines, now: u32) -> Mem<Outs>
        requires reads { IsSome (offer_in reply) }
        requires capacity { newer.cache.capacity ≡ self.old.state.client.capacity }
        requires last { self.old.state.client.last < number_limit }
        ensures { KeepsThen newer.cache.entries newer.seen (λ c place. telling lines (by_call c place (λ act call. takes self.old.node c now place act call reply) c.running)) self.old self.new result }
    {
        let known = self.swap_newer(newer);
        match self.take_reading(reply, lines, now) {
            Ok(outs) => Ok(outs),
            Err(fault) => {
                let _newer = self.swap_newer(known);
                Err(fault)
            }
        }
    }

    /// A reply of a release that is higher than any seen of the volume: its entries of lower ones go first.
    fn use_newer(
        &mut self,
        volume: u32,
        release: u32,
        head: &Head,
        reply: FsReply,
        now: u32,
    ) -> Mem<Outs>
        requires heard { IsHeard self.old head.now }
        requires used { spent_by self.old.state.client self.old.state.client.running ≡ false }
        requires reads { IsSome (offer_in reply) }
        requires last { self.old.state.client.last < number_limit }
        ensures { OfAct (λ place act. uses_newer self.old.node self.old.state now place (record { head = head.now; carried = told.Reply (answered.File reply) }) volume release) self.old self.new result }
    {
        let _head = head;
        let drops = Drops::Below { volume, release };
        let lines = self.no_lines();
        let Dropping { fids: _, lines } = self.dropping(&drops, lines)?;
        let newer = self.newer(&drops, volume, release)?;
        self.take_keeping(newer, reply, lines, now)
    }

    /// A release is below the highest seen of the volume.
    fn is_older(&self, volume: u32, release: u32) -> bool
        ensures { result ≡ nat_lt release (seen_of self.now.state volume) }
    {
        release < self.seen.get(volume)
    }

    /// A release is above it.
    fn is_newer(&self, volume: u32, release: u32) -> bool
        ensures { result ≡ nat_lt (seen_of self.now.state volume) release }
    {
        self.seen.get(volume) < release
    }

    /// A release below the highest seen isn't used, and the site is left.
    fn take_release(
        &mut self,
        round: Round,
        release: u32,
        head: &Head,
        reply: FsReply,
        now: u32,
    ) -> Mem<Outs>
        requires sound { HasSpelling (record { head = head.now; carried = told.Reply (answered.File reply) }) }
        requires heard { IsHeard self.old head.now }
        requires used { spent_by self.old.state.client self.old.state.client.running ≡ false }
        requires reads { IsSome (offer_in reply) }
        requires last { self.old.state.client.last < number_limit }
        ensures { OfAct (λ place act. by_release self.old.node self.old.state now place (record { head = head.now; carried = told.Reply (answered.File reply) }) act round release) self.old self.new result }
    {
        let volume = round.volume();
        let older = self.is_older(volume, release);
        if older {
            let mut round = round;
            round.note_offer(release);
            return self.leave_site(round);
        }
        let newer = self.is_newer(volume, release);
        if newer {
            return self.use_newer(volume, release, head, reply, now);
        }
        let carried = Carried::Reply {
            reply: Reply::File(reply),
        };
        self.take_guest(head, carried, now)
    }

    /// A reply to a reading call that can't be used: a break overtook it, or its promise has ended.
    fn is_passed(&self, offer: Offered) -> bool
        ensures { result ≡ (spent_by self.now.state.client self.now.state.client.running || offer.is_over) }
    {
        self.is_spent() || offer.is_over
    }

    /// A reply to a reading call: what a break overtook, or whose promise has ended, is asked for again at the same site.
    fn take_offer(
        &mut self,
        round: Round,
        offer: Offered,
        head: &Head,
        reply: FsReply,
        now: u32,
    ) -> Mem<Outs>
        requires sound { HasSpelling (record { head = head.now; carried = told.Reply (answered.File reply) }) }
        requires heard { IsHeard self.old head.now }
        requires offer { Some offer ≡ option_map (offered_at now) (offer_in reply) }
        requires last { self.old.state.client.last < number_limit }
        ensures { OfAct (λ place act. offers self.old.node self.old.state now place (record { head = head.now; carried = told.Reply (answered.File reply) }) act round (offer_in reply)) self.old self.new result }
    {
        let passed = self.is_passed(offer);
        if passed {
            return self.call_round(round);
        }
        self.take_release(round, offer.release, head, reply, now)
    }

    /// A reply of a file server.
    fn offer_at(&mut self, round: Round, head: &Head, reply: FsReply, now: u32) -> Mem<Outs>
        requires sound { HasSpelling (record { head = head.now; carried = told.Reply (answered.File reply) }) }
        requires heard { IsHeard self.old head.now }
        requires last { self.old.state.client.last < number_limit }
        ensures { OfAct (λ place act. offers self.old.node self.old.state now place (record { head = head.now; carried = told.Reply (answered.File reply) }) act round (offer_in reply)) self.old self.new result }
    {
        match offer_in(&reply, now) {
            Some(offer) => self.take_offer(round, offer, head, reply, now),
            None => {
                let carried = Carried::Reply {
                    reply: Reply::File(reply),
                };
                self.take_guest(head, carried, now)
            }
        }
    }

    /// A reply.
    fn reply_at(&mut self, round: Round, head: &Head, reply: Reply, now: u32) -> Mem<Outs>
        requires sound { HasSpelling (record { head = head.now; carried = told.Reply reply }) }
        requires heard { IsHeard self.old head.now }
        requires last { self.old.state.client.last < number_limit }
        ensures { OfAct (λ place act. answers_at self.old.node self.old.state now place (record { head = head.now; carried = told.Reply reply }) act round (told.Reply reply)) self.old self.new result }
    {
        let file = is_file(&reply);
        if !file {
            return self.take_guest(head, Carried::Reply { reply }, now);
        }
        match reply.into_file() {
            Some(reply) => self.offer_at(round, head, reply, now),
            None => self.ignore(),
        }
    }

    /// What answers the call in this round.
    fn answer_at(&mut self, round: Round, head: &Head, carried: Carried, now: u32) -> Mem<Outs>
        requires sound { HasSpelling (record { head = head.now; carried = carried }) }
        requires heard { IsHeard self.old head.now }
        requires last { self.old.state.client.last < number_limit }
        ensures { OfAct (λ place act. answers_at self.old.node self.old.state now place (record { head = head.now; carried = carried }) act round carried) self.old self.new result }
    {
        match carried {
            Carried::Refusal { code } => self.refuse_at(round, head, code, now),
            Carried::Reply { reply } => self.reply_at(round, head, reply, now),
            carried => self.take_guest(head, carried, now),
        }
    }

    /// What answers the call of the act that runs.
    fn take_answer(&mut self, head: &Head, carried: Carried, now: u32) -> Mem<Outs>
        requires sound { HasSpelling (record { head = head.now; carried = carried }) }
        requires heard { IsHeard self.old head.now }
        requires last { self.old.state.client.last < number_limit }
        ensures { OfAct (λ place act. answers_in self.old.node self.old.state now place (record { head = head.now; carried = carried }) act (round_of self.old.state act)) self.old self.new result }
    {
        match self.round_asked()? {
            Some(round) => self.answer_at(round, head, carried, now),
            None => self.take_guest(head, carried, now),
        }
    }

    /// Whether a message with this header answers the call of the act that runs.
    fn is_heard(&self, head: &Head) -> bool
        ensures { result ≡ (same_node head.now.to self.now.node && awaited_by self.now.state.client head.now self.now.state.client.running) }
    {
        head.to.is(&self.node) && self.is_awaited(head)
    }

    /// A message, while no act waits for the location database.
    pub(crate) fn take_running(&mut self, head: &Head, carried: Carried, now: u32) -> Mem<Outs>
        requires sound { HasSpelling (record { head = head.now; carried = carried }) }
        requires idle { self.old.state.client.seeking ≡ None }
        requires last { self.old.state.client.last < number_limit }
        ensures { TakesCopy (λ place. answers_to self.old.node self.old.state now place (record { head = head.now; carried = carried }) self.old.state.client.running) self.old self.new result }
    {
        let heard = self.is_heard(head);
        if heard {
            self.take_answer(head, carried, now)
        } else {
            self.take_guest(head, carried, now)
        }
    }
}
