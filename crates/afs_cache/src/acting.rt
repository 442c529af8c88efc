//! How an act begins, goes on and is answered.
//!
//! What a step does is planned first, while the client is as it was; what changes then takes no memory.

ghost use Rattle.std.specs.Prelude.{◌≡◌, ◌+◌, ◌<◌, ◌^◌, [], ◌++◌, ◌∷◌, map, slice_get, None, Some, IfOk, OnErr, OnOk};
ghost use Rattle.std.specs.List.{All};
ghost use Rattle.std.specs.Option.{option_copied};
ghost use Rattle.afs_num.specs.Nodes.{IsNode};
ghost use Rattle.afs_num.specs.declared.types.Node.TheVariants.{Server};
ghost use Rattle.spec_copyrows.specs.CopyRow.{copy_begin_row};
ghost use Rattle.spec_copyrows.specs.Sites.{round_or, with_client};
ghost use Rattle.spec_model.specs.Messages.{messages_spelled, parcels_read};
ghost use Rattle.spec_rows.specs.Going.{began, next};
ghost use Rattle.spec_rows.specs.ClientRow.{begin_row, begins_by, boot_of, call_by, calls_step, drop_line, ends_step, gift_of, gives_all, gives_by, goes_on, in_order, put_entries, put_entry, not_walked, trusted_in, walks_on};
ghost use Rattle.spec_history.specs.declared.lines.Line.TheVariants as told;
ghost use Rattle.afs_acts.specs.Acts.{FitsCalls};
ghost use Rattle.afs_acts.specs.Walks.{need_of};
ghost use Rattle.afs_entries.specs.Cached.{entry_of, HasBody, touched_all};
ghost use Rattle.afs_asking.specs.Asking.{asking_of, code_of, IsGift, is_giving};
ghost use Rattle.afs_cache.specs.Acting.{called_by, CanFollow, followed, head_of, IsAsking, IsDropping, IsWay, outs_of, PlansFor, PlansRound, round_at, seen_with, sent_to, whole_walk};
ghost use Rattle.afs_cache.specs.Managing.{Answers, AnswersCopy, Goes, number_limit};

use crate::node::CacheManager;
use afs_acts::{Going, Need, copy_act, next};
use afs_asking::{Asked, Seeking, Walked, code_in, into_operand, is_giving, walk};
use afs_calling::boots::boot_of;
use afs_calling::messages::{outs_calling, quiet};
use afs_calling::opcodes::file_opcode;
use afs_entries::{Drops, Fresh, Gift, Sight, first_server_of, in_order};
use afs_num::sequences::Sequence;
use afs_num::types::{Code, Fid, Half, Head, Mem, Node};
use afs_sites::Round;
use spec_history::acts::{Act, SharedAct};
use spec_history::lines::{Line, Lines, Outs};
use std::alloc::Global;
use std::mem::replace;

/// What an act asks: this node, with these messages. A call of a read-only volume is in its round.
#[derive(Drop)]
pub struct Asks {
    pub asked: Asked,
    pub callee: Node,
    pub round: Option<Round>,
    pub outs: Outs,
}

/// What an act asks of the location database.
#[derive(Drop)]
pub struct Seeks {
    pub seeking: Seeking,
    pub outs: Outs,
}

/// What an act does next: it is answered, or asks, or asks where a volume is.
#[derive(Drop)]
pub enum Plan {
    Ends(Outs),
    Asks(Asks),
    Seeks(Seeks),
}

/// What an act does as far as the cache shows what it needs: these entries are used, and then it goes on.
#[derive(Drop)]
pub struct Way {
    pub used: Vec<Fid>,
    pub plan: Plan,
}

/// Entries that go: their fids, and the lines up to those that tell of them.
#[derive(Drop)]
pub struct Dropping {
    pub fids: Vec<Fid>,
    pub lines: Lines,
}

/// These lines, with room for so many more, for the one that ends a step, and for the one that comes before all of them where the step
/// is told.
fn with_room(lines: Lines, count: usize) -> Mem<Lines>
    requires { count < 2 ^ 63 }
    ensures { IfOk result (λ ls. ls ≡ lines) }
{
    let mut items = lines.into_vec();
    items.reserve(count + 2)?;
    Ok(Sequence::from_vec(items))
}

impl CacheManager {
    /// No lines yet.
    pub(crate) fn no_lines(&self) -> Lines
        ensures { result ≡ [] }
    {
        Sequence::new(self.alloc)
    }

    /// The act that runs, with its call.
    pub(crate) fn running(&self) -> Option<&Asked>
        ensures { option_copied result ≡ asking_of self.now.state.client.running self.now.state.client.gifts }
    {
        match &self.asked {
            Some(asked) => Some(asked),
            None => None,
        }
    }

    /// The header of a call under this number.
    fn head(&self, number: u32, callee: Node, boot: u32, asked: &Asked) -> Head
        ensures { result ≡ head_of self.now.node self.now.state.client.epoch number callee boot (call_by asked.now.gifts (next asked.now.going)) }
    {
        Head {
            half: Half::Call,
            from: self.node,
            to: callee,
            epoch: self.callers.boot(),
            number,
            boot,
            stamp: 0,
            opcode: file_opcode(asked.file_call()),
        }
    }

    /// What is given out with the call of an act.
    pub(crate) fn outs(
        &self,
        number: u32,
        callee: Node,
        boot: u32,
        asked: &Asked,
        lines: Lines,
    ) -> Mem<Outs>
        requires { IsNode callee }
        ensures lines { IfOk result (λ o. o.lines ≡ lines) }
        ensures sent { IfOk result (λ o. parcels_read o.parcels ≡ messages_spelled (sent_to self.now.node self.now.state.client number callee boot (call_by asked.now.gifts (next asked.now.going)) ∷ [])) }
    {
        let head = self.head(number, callee, boot, asked);
        outs_calling(self.alloc, lines, &head, self.user.as_slice(), asked.call())
    }

    /// Whom an act asks by the table.
    pub(crate) fn callee(&self, asked: &Asked) -> Node
        ensures value { result ≡ called_by (is_giving (next asked.now.going)) self.now.state.client.table asked.now.going asked.now.gifts (call_by asked.now.gifts (next asked.now.going)) }
        ensures node { IsNode result }
    {
        if asked.gives_back() {
            first_server_of(asked.gifts())
        } else {
            Node::Server(asked.server(&self.table))
        }
    }

    /// What is given out behind these lines with the first call of what was asked.
    fn first_outs(&self, callee: Node, asked: &Asked, lines: Lines) -> Mem<Outs>
        requires node { IsNode callee }
        requires last { self.now.state.client.last < number_limit }
        ensures lines { IfOk result (λ o. o.lines ≡ lines) }
        ensures sent { IfOk result (λ o. parcels_read o.parcels ≡ messages_spelled (sent_to self.now.node self.now.state.client (self.now.state.client.last + 1) callee (boot_of callee self.now.state.client.boots) (call_by asked.now.gifts (next asked.now.going)) ∷ [])) }
    {
        let boot = boot_of(&callee, &self.boots);
        self.outs(self.calls.last + 1, callee, boot, asked, lines)
    }

    /// Behind these lines an act makes its call where the table names.
    fn asks(&self, asked: Asked, lines: Lines) -> Mem<Asks>
        requires { self.now.state.client.last < number_limit }
        ensures { IfOk result (λ a. IsAsking self.now.node self.now.state.client asked.going asked.gifts lines a) }
    {
        let callee = self.callee(&asked);
        let outs = self.first_outs(callee, &asked, lines)?;
        Ok(Asks {
            asked,
            callee,
            round: None,
            outs,
        })
    }

    /// The round in whose volume an act calls.
    pub(crate) fn round_for(&self, asked: &Asked) -> Mem<Option<Round>>
        ensures { IfOk result (λ o. o ≡ round_at self.now.state asked.now) }
    {
        asked.round(self.alloc, self.round.as_ref(), &self.table)
    }

    /// Behind these lines an act makes its call at this site of its round.
    fn asks_site(&self, asked: Asked, round: Round, site: u8, lines: Lines) -> Mem<Plan>
        requires node { IsNode (Server site) }
        requires site { Some site ≡ slice_get round.sites 0 }
        requires last { self.now.state.client.last < number_limit }
        ensures plan { IfOk result (PlansRound asked round lines self.now) }
        ensures follows { IfOk result (CanFollow self.now.state.client.last) }
    {
        let callee = Node::Server(site);
        let outs = self.first_outs(callee, &asked, lines)?;
        Ok(Plan::Asks(Asks {
            asked,
            callee,
            round: Some(round),
            outs,
        }))
    }

    /// Behind these lines an act is answered that has left all sites of its round.
    fn leaves_all(&self, asked: &Asked, round: &Round, lines: Lines) -> Mem<Plan>
        requires { None ≡ slice_get round.now.sites 0 }
        ensures plan { IfOk result (PlansRound asked.now round.now lines self.now) }
        ensures follows { IfOk result (CanFollow self.now.state.client.last) }
    {
        let _asked = asked;
        let seen = self.seen.get(round.volume());
        let mut lines = lines;
        lines.push(round.left_line(self.node, seen))?;
        Ok(Plan::Ends(quiet(self.alloc, lines)))
    }

    /// Behind these lines an act makes its call in this round: at the first site that it hasn't left.
    pub(crate) fn plan_round(&self, asked: Asked, round: Round, lines: Lines) -> Mem<Plan>
        requires { self.now.state.client.last < number_limit }
        ensures plan { IfOk result (PlansRound asked round lines self.now) }
        ensures follows { IfOk result (CanFollow self.now.state.client.last) }
    {
        match round.first() {
            Some(site) => self.asks_site(asked, round, site, lines),
            None => self.leaves_all(&asked, &round, lines),
        }
    }

    /// Behind these lines an act makes its call.
    pub(crate) fn plan_asked(&self, asked: Asked, lines: Lines) -> Mem<Plan>
        requires { self.now.state.client.last < number_limit }
        ensures plan { IfOk result (λ p. PlansFor (λ d front. calls_step self.now.node (record d { gifts = asked.gifts }) asked.going front) lines self.now p) }
        ensures follows { IfOk result (CanFollow self.now.state.client.last) }
    {
        match self.round_for(&asked)? {
            Some(round) => self.plan_round(asked, round, lines),
            None => {
                let asks = self.asks(asked, lines)?;
                Ok(Plan::Asks(asks))
            }
        }
    }

    /// Behind these lines an act asks for this need.
    fn plan_call(&self, going: Going, need: Need, gifts: Vec<Gift>, lines: Lines) -> Mem<Plan>
        requires short { FitsCalls going.act }
        requires need { need_of need ≡ next going }
        requires nodes { All IsGift gifts.items }
        requires last { self.now.state.client.last < number_limit }
        ensures plan { IfOk result (λ p. PlansFor (λ d front. calls_step self.now.node (record d { gifts = gifts.items }) going front) lines self.now p) }
        ensures follows { IfOk result (CanFollow self.now.state.client.last) }
    {
        let asked = Asked::new(self.alloc, going, need, gifts)?;
        self.plan_asked(asked, lines)
    }

    /// The same, where it hasn't been found yet what the act needs.
    fn plan_asking(&self, going: Going, gifts: Vec<Gift>, lines: Lines) -> Mem<Plan>
        requires short { FitsCalls going.act }
        requires nodes { All IsGift gifts.items }
        requires last { self.now.state.client.last < number_limit }
        ensures plan { IfOk result (λ p. PlansFor (λ d front. calls_step self.now.node (record d { gifts = gifts.items }) going front) lines self.now p) }
        ensures follows { IfOk result (CanFollow self.now.state.client.last) }
    {
        let need = next(self.alloc, &going)?;
        self.plan_call(going, need, gifts, lines)
    }

    /// Behind these lines an act is answered.
    pub(crate) fn plan_ending(&self, code: Code, lines: Lines) -> Mem<Plan>
        ensures plan { IfOk result (λ p. PlansFor (λ d front. ends_step self.now.node d d.cache front code) lines self.now p) }
        ensures follows { IfOk result (CanFollow self.now.state.client.last) }
    {
        let mut lines = lines;
        lines.push(Line::Answer {
            node: self.node,
            code,
        })?;
        Ok(Plan::Ends(quiet(self.alloc, lines)))
    }

    /// What the act that runs gives back still.
    pub(crate) fn copy_gifts(&self) -> Mem<Vec<Gift>>
        ensures value { IfOk result (λ gs. gs.items ≡ self.now.state.client.gifts) }
        ensures nodes { IfOk result (λ gs. All IsGift gs.items) }
    {
        match &self.asked {
            Some(asked) => asked.copy_gifts(self.alloc),
            None => Ok(Vec::new(self.alloc)),
        }
    }

    /// Behind these lines an act asks, and what it gives back still stays.
    fn plan_next(&self, going: Going, need: Need, lines: Lines) -> Mem<Plan>
        requires short { FitsCalls going.act }
        requires need { need_of need ≡ next going }
        requires last { self.now.state.client.last < number_limit }
        ensures plan { IfOk result (λ p. PlansFor (λ d front. calls_step self.now.node (record d { gifts = self.now.state.client.gifts }) going front) lines self.now p) }
        ensures follows { IfOk result (CanFollow self.now.state.client.last) }
    {
        let gifts = self.copy_gifts()?;
        self.plan_call(going, need, gifts, lines)
    }

    /// Behind these lines an act asks, or asks where a volume is.
    fn plan_on(&self, going: Going, need: Need, lines: Lines) -> Mem<Plan>
        requires short { FitsCalls going.act }
        requires need { need_of need ≡ next going }
        requires none { code_of (need_of need) ≡ None }
        requires last { self.now.state.client.last < number_limit }
        ensures plan { IfOk result (λ p. PlansFor (λ d front. goes_on self.now.node d front (not_walked going d.cache)) lines self.now p) }
        ensures follows { IfOk result (CanFollow self.now.state.client.last) }
    {
        match into_operand(need) {
            Ok(operand) => self.plan_seeking(going, operand, None, lines),
            Err(need) => self.plan_next(going, need, lines),
        }
    }

    /// Behind these lines an act has come so far: it is answered, or asks, or asks where a volume is.
    fn plan_by(&self, going: Going, need: Need, lines: Lines) -> Mem<Plan>
        requires short { FitsCalls going.act }
        requires need { need_of need ≡ next going }
        requires last { self.now.state.client.last < number_limit }
        ensures plan { IfOk result (λ p. PlansFor (λ d front. goes_on self.now.node d front (not_walked going d.cache)) lines self.now p) }
        ensures follows { IfOk result (CanFollow self.now.state.client.last) }
    {
        match code_in(&need) {
            Some(code) => self.plan_ending(code, lines),
            None => self.plan_on(going, need, lines),
        }
    }

    /// The same, where it hasn't been found yet what the act needs.
    pub(crate) fn plan(&self, going: Going, lines: Lines) -> Mem<Plan>
        requires short { FitsCalls going.act }
        requires last { self.now.state.client.last < number_limit }
        ensures plan { IfOk result (λ p. PlansFor (λ d front. goes_on self.now.node d front (not_walked going d.cache)) lines self.now p) }
        ensures follows { IfOk result (CanFollow self.now.state.client.last) }
    {
        let need = next(self.alloc, &going)?;
        self.plan_by(going, need, lines)
    }

    /// The act with its call, anew.
    pub(crate) fn asked_again(&self, asked: &Asked) -> Mem<Asked>
        ensures { IfOk result (λ a. a ≡ asked.now) }
    {
        let gifts = asked.copy_gifts(self.alloc)?;
        let going = asked.copy_going(self.alloc)?;
        let need = next(self.alloc, &going)?;
        Asked::new(self.alloc, going, need, gifts)
    }

    /// Behind these lines the call is made again under the next number.
    pub(crate) fn plan_again(&self, asked: &Asked, lines: Lines) -> Mem<Plan>
        requires last { self.now.state.client.last < number_limit }
        ensures plan { IfOk result (λ p. PlansFor (λ d front. calls_step self.now.node (record d { gifts = asked.now.gifts }) asked.now.going front) lines self.now p) }
        ensures follows { IfOk result (CanFollow self.now.state.client.last) }
    {
        let asked = self.asked_again(asked)?;
        self.plan_asked(asked, lines)
    }

    /// Behind these lines these promises are given back, or all of them were.
    pub(crate) fn plan_giving(&self, going: Going, gifts: Vec<Gift>, lines: Lines) -> Mem<Plan>
        requires short { FitsCalls going.act }
        requires nodes { All IsGift gifts.items }
        requires last { self.now.state.client.last < number_limit }
        ensures plan { IfOk result (λ p. PlansFor (λ d front. gives_by self.now.node d front going gifts.items) lines self.now p) }
        ensures follows { IfOk result (CanFollow self.now.state.client.last) }
    {
        if gifts.is_empty() {
            self.plan_ending(Code(0), lines)
        } else {
            self.plan_asking(going, gifts, lines)
        }
    }

    /// The act is in this round, if in one.
    fn keep_round(&mut self, round: Option<Round>)
        ensures { self.new ≡ record self.old { state = record self.old.state { round = round_or round self.old.state.round } } }
    {
        if let Some(round) = round {
            self.round = Some(round);
        }
    }

    /// The act waits for what it asked.
    fn wait(&mut self, asks: Asks) -> Outs
        requires node { IsNode asks.callee }
        requires last { self.old.state.client.last < number_limit }
        ensures outs { result ≡ asks.outs }
        ensures node { self.new.node ≡ self.old.node }
        ensures state { self.new.state ≡ followed self.old.state (Plan.Asks asks) }
    {
        let Asks {
            asked,
            callee,
            round,
            outs,
        } = asks;
        self.keep_round(round);
        self.calls.start(callee);
        self.spoiled = false;
        self.asked = Some(asked);
        self.seeking = None;
        outs
    }

    /// The act waits for the location database.
    fn wait_seeking(&mut self, seeks: Seeks) -> Outs
        requires { self.old.state.client.last < number_limit }
        ensures outs { result ≡ seeks.outs }
        ensures node { self.new.node ≡ self.old.node }
        ensures state { self.new.state ≡ followed self.old.state (Plan.Seeks seeks) }
    {
        let Seeks { seeking, outs } = seeks;
        self.calls.start(Node::Loc);
        self.spoiled = false;
        self.asked = None;
        self.seeking = Some(seeking);
        outs
    }

    /// What was planned is done. It takes no memory.
    pub(crate) fn follow(&mut self, plan: Plan) -> Outs
        requires { CanFollow self.old.state.client.last plan }
        ensures outs { result ≡ outs_of plan }
        ensures node { self.new.node ≡ self.old.node }
        ensures state { self.new.state ≡ followed self.old.state plan }
    {
        match plan {
            Plan::Ends(outs) => {
                self.asked = None;
                self.seeking = None;
                outs
            }
            Plan::Asks(asks) => self.wait(asks),
            Plan::Seeks(seeks) => self.wait_seeking(seeks),
        }
    }

    /// An act goes on as far as the cache shows what it needs, behind these lines. The cache may be seen as it will be
    /// with an entry that comes.
    fn way(
        &self,
        fresh: Option<&Fresh>,
        going: Going,
        need: Need,
        lines: Lines,
        now: u32,
    ) -> Mem<Way>
        requires body { HasBody (option_copied fresh) }
        requires short { FitsCalls going.act }
        requires need { need_of need ≡ next going }
        requires last { self.now.state.client.last < number_limit }
        ensures { IfOk result (λ w. IsWay self.now (whole_walk now going (seen_with self.now.state.client (option_copied fresh.entry))) (seen_with self.now.state.client (option_copied fresh.entry)) lines w) }
    {
        let mut lines = lines;
        let sight = Sight {
            cache: &self.cache,
            fresh,
        };
        let Walked { going, need, used } = walk(
            self.alloc, self.node, sight, now, going, need, &mut lines,
        )?;
        let plan = self.plan_by(going, need, lines)?;
        Ok(Way { used, plan })
    }

    /// An act begins to walk, behind these lines.
    fn begin_walking(&mut self, going: Going, need: Need, lines: Lines, now: u32) -> Mem<Outs>
        requires short { FitsCalls going.act }
        requires need { need_of need ≡ next going }
        requires last { self.old.state.client.last < number_limit }
        ensures { Goes (λ front. walks_on self.old.node (record self.old.state.client { busy = 0; moved = 0 }) now front going self.old.state.client.cache) lines self.old self.new result }
    {
        let Way { used, plan } = self.way(None, going, need, lines, now)?;
        self.cache.touch_all(&used);
        self.busy = 0;
        self.moved = 0;
        Ok(self.follow(plan))
    }

    /// An act walks on, behind these lines.
    pub(crate) fn walk_on(&mut self, going: Going, need: Need, lines: Lines, now: u32) -> Mem<Outs>
        requires short { FitsCalls going.act }
        requires need { need_of need ≡ next going }
        requires last { self.old.state.client.last < number_limit }
        ensures { Goes (λ front. walks_on self.old.node self.old.state.client now front going self.old.state.client.cache) lines self.old self.new result }
    {
        let Way { used, plan } = self.way(None, going, need, lines, now)?;
        self.cache.touch_all(&used);
        Ok(self.follow(plan))
    }

    /// One entry comes into the cache.
    fn put_alone(&mut self, fresh: Fresh) -> Mem<()>
        ensures ok { OnOk result (self.new ≡ record self.old { state = with_client self.old.state (record self.old.state.client { cache = put_entry self.old.state.client.capacity (entry_of fresh) self.old.state.client.cache }) }) }
        ensures err { OnErr result (self.new ≡ self.old) }
    {
        self.cache.put(fresh)
    }

    /// One entry comes into the cache, and then some are used.
    fn put_used(&mut self, fresh: Fresh, used: &[Fid]) -> Mem<()>
        ensures ok { OnOk result (self.new ≡ record self.old { state = with_client self.old.state (record self.old.state.client { cache = touched_all used.now (put_entry self.old.state.client.capacity (entry_of fresh) self.old.state.client.cache) }) }) }
        ensures err { OnErr result (self.new ≡ self.old) }
    {
        self.put_alone(fresh)?;
        self.cache.touch_all(used);
        Ok(())
    }

    /// A reply brought an entry that has a body: behind these lines the act goes on as far as the cache shows what it
    /// needs.
    pub(crate) fn walk_with(
        &mut self,
        fresh: Fresh,
        going: Going,
        lines: Lines,
        now: u32,
    ) -> Mem<Outs>
        requires body { HasBody (Some fresh) }
        requires short { FitsCalls going.act }
        requires last { self.old.state.client.last < number_limit }
        ensures { Goes (λ front. walks_on self.old.node self.old.state.client now front going (put_entry self.old.state.client.capacity (entry_of fresh) self.old.state.client.cache)) lines self.old self.new result }
    {
        let need = next(self.alloc, &going)?;
        let Way { used, plan } = self.way(Some(&fresh), going, need, lines, now)?;
        self.put_used(fresh, &used)?;
        Ok(self.follow(plan))
    }

    /// The same, where a reply brought entries that show statuses: the act needs nothing more from the cache.
    pub(crate) fn go_with(&mut self, fresh: Vec<Fresh>, going: Going, lines: Lines) -> Mem<Outs>
        requires short { FitsCalls going.act }
        requires last { self.old.state.client.last < number_limit }
        ensures { Goes (λ front. goes_on self.old.node self.old.state.client front (not_walked going (put_entries self.old.state.client.capacity (map entry_of fresh.items) self.old.state.client.cache))) lines self.old self.new result }
    {
        let plan = self.plan(going, lines)?;
        self.cache.put_all(fresh)?;
        Ok(self.follow(plan))
    }

    /// Tells of entries that are given up.
    pub(crate) fn tell_dropped(&self, fids: &[Fid], lines: &mut Lines) -> Mem<()>
        ensures { OnOk result (lines.new ≡ lines.old ++ map (drop_line self.now.node) fids.now) }
    {
        for fid in fids {
            lines.push(Line::Drop {
                client: self.node,
                fid: *fid,
            })?;
        }
        Ok(())
    }

    /// Behind these lines it is told that entries go.
    pub(crate) fn dropping(&self, drops: &Drops, lines: Lines) -> Mem<Dropping>
        ensures { IfOk result (IsDropping self.now.node self.now.state.client.cache drops.now lines) }
    {
        let fids = self.cache.listed(self.alloc, drops)?;
        let mut lines = with_room(lines, fids.len())?;
        self.tell_dropped(&fids, &mut lines)?;
        Ok(Dropping { fids, lines })
    }

    /// The promises that can be given back now, in the order of their servers.
    fn promised(&self, now: u32) -> Mem<Vec<Gift>>
        ensures value { IfOk result (λ gs. gs.items ≡ in_order (map gift_of (trusted_in now self.now.state.client.cache))) }
        ensures nodes { IfOk result (λ gs. All IsGift gs.items) }
    {
        let promised = self.cache.promised(self.alloc, now)?;
        in_order(self.alloc, &promised)
    }

    /// All entries that are trusted go, and then their servers are told.
    fn begin_giving(&mut self, going: Going, lines: Lines, now: u32) -> Mem<Outs>
        requires short { FitsCalls going.act }
        requires last { self.old.state.client.last < number_limit }
        ensures { Goes (λ front. gives_all self.old.node (record self.old.state.client { busy = 0; moved = 0 }) now going front) lines self.old self.new result }
    {
        let gifts = self.promised(now)?;
        let Dropping { fids, lines } = self.dropping(&Drops::Trusted(now), lines)?;
        let plan = self.plan_giving(going, gifts, lines)?;
        self.cache.drop_all(&fids);
        self.busy = 0;
        self.moved = 0;
        Ok(self.follow(plan))
    }

    /// The line of an act that begins.
    fn begin_lines(&self, act: &SharedAct) -> Mem<Lines>
        ensures { IfOk result (λ ls. ls ≡ told.Begin self.now.node act.now ∷ []) }
    {
        let mut lines = Sequence::new(self.alloc);
        lines.push(Line::Begin {
            node: self.node,
            act: act.copy()?,
        })?;
        Ok(lines)
    }

    /// An act that has read nothing yet.
    fn began(&self, act: &SharedAct) -> Mem<Going>
        requires { FitsCalls act.now }
        ensures value { IfOk result (λ g. g ≡ began self.now.state.client.table act.now) }
        ensures short { IfOk result (λ g. FitsCalls g.act) }
    {
        Going::began(self.alloc, &self.table, act)
    }

    /// What an act does first, behind the line of its begin.
    fn begin_going(&mut self, going: Going, lines: Lines, now: u32) -> Mem<Outs>
        requires short { FitsCalls going.act }
        requires last { self.old.state.client.last < number_limit }
        ensures { Goes (λ front. begins_by self.old.node (record self.old.state.client { busy = 0; moved = 0 }) now front going (next going)) lines self.old self.new result }
    {
        let need = next(self.alloc, &going)?;
        let gives = is_giving(&need);
        if gives {
            self.begin_giving(going, lines, now)
        } else {
            self.begin_walking(going, need, lines, now)
        }
    }

    /// An act begins at a client that is in no round.
    fn begin_act(&mut self, act: &Act, now: u32) -> Mem<Outs>
        requires short { FitsCalls act.now }
        requires last { self.old.state.client.last < number_limit }
        ensures { Answers (begin_row self.old.node self.old.state.client now act.now) self.old self.new result }
    {
        let act = SharedAct::new(self.alloc, copy_act(self.alloc, act)?)?;
        let lines = self.begin_lines(&act)?;
        let going = self.began(&act)?;
        self.begin_going(going, lines, now)
    }

    /// The client is in this round, or in none, and gives the one that it was in.
    fn swap_round(&mut self, round: Option<Round>) -> Option<Round>
        ensures new { self.new ≡ record self.old { state = record self.old.state { round = round } } }
        ensures old { result ≡ self.old.state.round }
    {
        replace(&mut self.round, round)
    }

    /// An act begins, in no round; where memory is wanting the client is in the one that it was in.
    pub(crate) fn begin(&mut self, act: &Act, now: u32) -> Mem<Outs>
        requires short { FitsCalls act.now }
        requires last { self.old.state.client.last < number_limit }
        ensures { AnswersCopy (copy_begin_row self.old.node self.old.state now act.now) self.old self.new result }
    {
        let known = self.swap_round(None);
        match self.begin_act(act, now) {
            Ok(outs) => Ok(outs),
            Err(fault) => {
                let _round = self.swap_round(known);
                Err(fault)
            }
        }
    }
}
