//! Dumps go to other servers: a Forward begins, and its pieces are answered, or wait too long.

ghost use Rattle.std.specs.Prelude.{◌≡◌, ◌≤◌, ◌+◌, ◌∷◌, [], Some, false, true, IfOk, OnErr, OnOk};
ghost use Rattle.afs_num.specs.declared.types.Node.TheVariants as nodes;
ghost use Rattle.spec_breaks.specs.Promises.{expired};
ghost use Rattle.spec_model.specs.Calls.{call_seat, finished, is_sent_again, paired, runs, started, key_of};
ghost use Rattle.spec_model.specs.Heads.{IsSoundHead};
ghost use Rattle.spec_rows.specs.Callbacks.{timeout_line};
ghost use Rattle.spec_shape.specs.Tables.{IsServer};
ghost use Rattle.afs_callees.specs.Called.{call_to};
ghost use Rattle.afs_sendings.specs.Pieces.{adds, call_seen, ends, ends_with, renews, retries, starts, way_of, AreTo, IsServerNode};
ghost use Rattle.afs_sendings.specs.Sendings.{first_of, rest_of};
ghost use Rattle.afs_voldecisions.specs.Verdicts.{dispatch_of};
ghost use Rattle.spec_volrows.specs.VolSteps.{dispatches, forward_reply, given_up, is_awaited, piece_gone, sending_of, sent_whole};
ghost use Rattle.afs_volserv.specs.Handling.{vol_answered_then, vol_noticed_then, vol_timed_then, vol_turn_then, StepsVolumes};
ghost use Rattle.afs_volserv.specs.Seen.{ServesVolumes, StandsBeside};
ghost use Rattle.afs_volserv.specs.Sending.{answered_then, ended_then, heard_by, is_heard, renewed_then, way_before, went_then, IsSent};
ghost use Rattle.afs_sharing.specs.Callers.{IsToRun};

use crate::ending::{keep_at, plan_sent};
use crate::server::VolServer;
use afs_call::{LAST_TIMEOUT, Timeout, timed_out};
use afs_callbacks::Callbacks;
use afs_callees::callees::find_call;
use afs_callees::replies::key;
use afs_callees::telling::tell_timeout;
use afs_disk::Disk;
use afs_message::spelled::SpelledMessage;
use afs_num::types::{Head, Key, Mem, Node};
use afs_sendings::pieces::Pieces;
use afs_sendings::sendings::{PieceCall, PieceCallee, RESTORE, Sending};
use afs_server_parts::ending::Ended;
use afs_sharing::drawing::stand;
use afs_voldecisions::replies::{answered, forwarded};
use afs_voldecisions::verdicts::Dispatch;
use afs_volstore::VolStore;
use spec_history::lines::{Lines, Outs};
use std::alloc::Global;

/// A call was given up.
const GIVEN_UP: i32 = -1;

/// The servers to which dumps go after a step, and what comes of the messages that it sends.
#[derive(Drop)]
struct Moves {
    callees: Vec<PieceCallee>,
    ended: Ended,
}

/// Whether a reply or a notice of this header is for this server, and to this call.
fn is_heard(server: Node, boot: u32, head: &Head, call: &PieceCall) -> bool
    ensures { result ≡ is_heard server boot head.now call.now }
{
    head.to.is(&server)
        && (head.epoch == boot && (head.number == call.number && head.opcode == RESTORE))
}

/// Whether a dump has ended of which the next piece was answered with this code.
fn has_ended(first: &Sending, code: i32) -> bool
    ensures { result ≡ ends_with code first.now }
{
    code != 0 || first.is_last()
}

/// The server of this number.
fn server_node(server: u32) -> Node
    requires { IsServer server }
    ensures value { result ≡ nodes.Server server }
    ensures node { IsServerNode result }
{
    Node::Server(server as u8)
}

/// What comes of the messages of these pieces.
fn plan_pieces<D: Disk>(
    store: &VolStore<D>,
    callbacks: &Callbacks,
    pieces: Pieces,
    now: u32,
) -> Mem<Moves>
    requires { StandsBeside callbacks.now store.now }
    ensures callees { IfOk result (λ m. m.callees.items ≡ pieces.callees.items) }
    ensures sent { IfOk result (λ m. IsSent now pieces.last pieces.sent callbacks.now store.now m.ended) }
{
    let Pieces {
        last,
        callees,
        sent,
    } = pieces;
    let ended = plan_sent(store, callbacks, last, sent, now)?;
    Ok(Moves { callees, ended })
}

/// The line of a timeout of this call of the node.
fn timeout_told<D: Disk>(
    alloc: Global,
    store: &VolStore<D>,
    callee: Node,
    number: u32,
    count: u32,
) -> Mem<Lines>
    ensures { IfOk result (λ ls. ls ≡ timeout_line store.now.node store.now.durable.boot callee number count ∷ []) }
{
    let mut lines = Lines::new(alloc);
    tell_timeout(
        &mut lines,
        store.node(),
        store.boot_number(),
        callee,
        number,
        count,
    )?;
    Ok(lines)
}

impl VolServer {
    /// Nothing was done so far with the node's own calls.
    fn pieces<D: Disk>(&self, store: &VolStore<D>) -> Mem<Pieces>
        ensures way { IfOk result (λ p. way_of p ≡ way_before self.now store.now) }
        ensures to { IfOk result (λ p. AreTo (call_to self.now.callees) → AreTo (call_to p.callees.items)) }
    {
        let pieces = Pieces::new(self.alloc, store.last_number(), &self.callees)?;
        Ok(pieces)
    }

    /// What was planned is done, with these lines. It takes no memory.
    fn take_moves<D: Disk>(
        &mut self,
        store: &mut VolStore<D>,
        callbacks: &mut Callbacks,
        moves: Moves,
        lines: Lines,
        now: u32,
    ) -> Outs
        requires { store.old.drawn ≤ moves.ended.last }
        ensures server { self.new ≡ record self.old { callees = moves.callees.items } }
        ensures callbacks { callbacks.new ≡ record { lists = expired now callbacks.old.lists; callees = moves.ended.callees.items; held = moves.ended.held } }
        ensures store { store.new ≡ record store.old { drawn = moves.ended.last } }
        ensures outs { result ≡ record moves.ended.outs { lines = lines } }
    {
        let Moves { callees, ended } = moves;
        self.callees = callees;
        let Outs { parcels, lines: _ } = keep_at(store, callbacks, ended, now);
        Outs { parcels, lines }
    }

    /// The call of this key, which is to run, is in progress from now on.
    fn start_call(&mut self, key: Key) -> Mem<()>
        requires { paired key.epoch key.number (call_seat key.node self.old.seats) ≡ runs }
        ensures ok { OnOk result (self.new ≡ record self.old { seats = started key self.old.seats }) }
        ensures err { OnErr result (self.new ≡ self.old) }
    {
        self.callers.reserve(1)?;
        self.callers.start(key);
        Ok(())
    }

    /// The call of this key has ended with this reply, which is kept where it is its caller's last one. It takes no memory.
    fn finish_call(&mut self, key: Key, reply: SpelledMessage)
        ensures { self.new ≡ record self.old { seats = finished key reply self.old.seats } }
    {
        self.callers.finish(key, reply);
    }

    /// One more dump goes to another server.
    fn added<D: Disk>(&self, store: &VolStore<D>, head: &Head, dispatch: Dispatch) -> Mem<Pieces>
        requires serves { ServesVolumes self.now store.now }
        requires server { IsServer dispatch.server }
        ensures way { IfOk result (λ p. way_of p ≡ adds store.now.node store.now.durable.boot (nodes.Server dispatch.server) (sending_of head.now (dispatch_of dispatch)) (way_before self.now store.now)) }
        ensures to { IfOk result (λ p. AreTo (call_to p.callees.items)) }
    {
        let Dispatch {
            server,
            family,
            target,
            bytes,
        } = dispatch;
        let node = server_node(server);
        let sending = Sending::of(head, family, target, bytes);
        let mut pieces = self.pieces(store)?;
        pieces.add(self.alloc, stand(store), node, sending)?;
        Ok(pieces)
    }

    /// A Forward begins: its call is in progress until its dump went.
    pub(crate) fn dispatch<D: Disk>(
        &mut self,
        store: &mut VolStore<D>,
        callbacks: &mut Callbacks,
        head: &Head,
        dispatch: Dispatch,
        now: u32,
    ) -> Mem<Outs>
        requires serves { ServesVolumes self.old store.old }
        requires beside { StandsBeside callbacks.old store.old }
        requires head { IsSoundHead head.now }
        requires runs { IsToRun head.now self.old.seats }
        requires opcode { head.now.opcode ≡ 103 }
        requires server { IsServer dispatch.server }
        ensures { StepsVolumes (vol_turn_then self.old callbacks.old store.old now (dispatches head.now (dispatch_of dispatch))) self.old self.new callbacks.old callbacks.new store.old store.new result }
    {
        let pieces = self.added(store, head, dispatch)?;
        let moves = plan_pieces(store, callbacks, pieces, now)?;
        self.start_call(key(head))?;
        let lines = Lines::new(self.alloc);
        let outs = self.take_moves(store, callbacks, moves, lines, now);
        Ok(outs)
    }

    /// The unanswered call to which a reply or a notice of this header is.
    fn heard<D: Disk>(&self, store: &VolStore<D>, head: &Head) -> Mem<Option<PieceCall>>
        ensures { IfOk result (λ c. c ≡ heard_by store.now.node store.now.durable.boot head.now (call_to self.now.callees head.now.from)) }
    {
        match find_call(&self.callees, head.from) {
            Some(call) => {
                if is_heard(store.node(), store.boot_number(), head, call) {
                    Ok(Some(call.copy(self.alloc)?))
                } else {
                    Ok(None)
                }
            }
            None => Ok(None),
        }
    }

    /// The reply to a Forward whose dump has ended with this code.
    fn forward_reply<D: Disk>(
        &self,
        store: &VolStore<D>,
        first: &Sending,
        code: i32,
    ) -> Mem<SpelledMessage>
        requires head { IsSoundHead first.now.head }
        requires forward { first.now.head.opcode ≡ 103 }
        ensures { IfOk result (λ m. m ≡ forward_reply store.now.durable.boot first.now.head code) }
    {
        let answer = forwarded(code);
        let reply = answered(self.alloc, store.boot_number(), first.head(), answer)?;
        Ok(reply)
    }

    /// The first of the dumps to this node has ended, and this is the reply to its Forward.
    fn ended<D: Disk>(
        &self,
        store: &VolStore<D>,
        node: Node,
        call: &PieceCall,
        reply: &SpelledMessage,
    ) -> Mem<Pieces>
        requires serves { ServesVolumes self.now store.now }
        requires callee { IsServerNode node }
        ensures way { IfOk result (λ p. way_of p ≡ ends store.now.node store.now.durable.boot node (rest_of call.now.content) reply.now (way_before self.now store.now)) }
        ensures to { IfOk result (λ p. AreTo (call_to p.callees.items)) }
    {
        let rest = call.content.rest(self.alloc)?;
        let copy = reply.copy(self.alloc)?;
        let mut pieces = self.pieces(store)?;
        pieces.end(self.alloc, stand(store), node, rest, copy)?;
        Ok(pieces)
    }

    /// The first of the server's dumps has ended with this code, which these lines tell: its Forward is answered, and then the next dump
    /// goes.
    fn end_first<D: Disk>(
        &mut self,
        store: &mut VolStore<D>,
        callbacks: &mut Callbacks,
        node: Node,
        call: &PieceCall,
        first: &Sending,
        code: i32,
        lines: Lines,
        now: u32,
    ) -> Mem<Outs>
        requires serves { ServesVolumes self.old store.old }
        requires beside { StandsBeside callbacks.old store.old }
        requires call { call_to self.old.callees node ≡ Some call.now }
        requires first { first_of call.now.content ≡ Some first.now }
        ensures { StepsVolumes (ended_then self.old callbacks.old store.old now lines node (rest_of call.now.content) first.now code) self.old self.new callbacks.old callbacks.new store.old store.new result }
    {
        let reply = self.forward_reply(store, first, code)?;
        let pieces = self.ended(store, node, call, &reply)?;
        let moves = plan_pieces(store, callbacks, pieces, now)?;
        self.finish_call(key(first.head()), reply);
        let outs = self.take_moves(store, callbacks, moves, lines, now);
        Ok(outs)
    }

    /// A piece of the first of the dumps to this node went, and the next one follows.
    fn moved<D: Disk>(
        &self,
        store: &VolStore<D>,
        node: Node,
        call: &PieceCall,
        first: &Sending,
    ) -> Mem<Pieces>
        requires serves { ServesVolumes self.now store.now }
        requires callee { IsServerNode node }
        requires first { first_of call.now.content ≡ Some first.now }
        requires whole { sent_whole first.now ≡ false }
        ensures way { IfOk result (λ p. way_of p ≡ starts store.now.node store.now.durable.boot node (piece_gone first.now ∷ rest_of call.now.content) (way_before self.now store.now)) }
        ensures to { IfOk result (λ p. AreTo (call_to p.callees.items)) }
    {
        let mut pieces = self.pieces(store)?;
        pieces.go_on(self.alloc, stand(store), node, call, first)?;
        Ok(pieces)
    }

    /// A piece of the first of the dumps to this node went, and the next one follows.
    fn go_on<D: Disk>(
        &mut self,
        store: &mut VolStore<D>,
        callbacks: &mut Callbacks,
        node: Node,
        call: &PieceCall,
        first: &Sending,
        now: u32,
    ) -> Mem<Outs>
        requires serves { ServesVolumes self.old store.old }
        requires beside { StandsBeside callbacks.old store.old }
        requires call { call_to self.old.callees node ≡ Some call.now }
        requires first { first_of call.now.content ≡ Some first.now }
        requires whole { sent_whole first.now ≡ false }
        ensures { StepsVolumes (went_then self.old callbacks.old store.old now node (rest_of call.now.content) first.now) self.old self.new callbacks.old callbacks.new store.old store.new result }
    {
        let pieces = self.moved(store, node, call, first)?;
        let moves = plan_pieces(store, callbacks, pieces, now)?;
        let lines = Lines::new(self.alloc);
        let outs = self.take_moves(store, callbacks, moves, lines, now);
        Ok(outs)
    }

    /// A piece to this node was answered with this code.
    fn take_answer<D: Disk>(
        &mut self,
        store: &mut VolStore<D>,
        callbacks: &mut Callbacks,
        node: Node,
        call: &PieceCall,
        code: i32,
        now: u32,
    ) -> Mem<Outs>
        requires serves { ServesVolumes self.old store.old }
        requires beside { StandsBeside callbacks.old store.old }
        requires call { call_to self.old.callees node ≡ Some call.now }
        ensures { StepsVolumes (answered_then self.old callbacks.old store.old now node call.now.content code) self.old self.new callbacks.old callbacks.new store.old store.new result }
    {
        let Some(first) = call.content.first() else {
            return self.pass(store, callbacks, now);
        };
        if has_ended(first, code) {
            let lines = Lines::new(self.alloc);
            self.end_first(store, callbacks, node, call, first, code, lines, now)
        } else {
            self.go_on(store, callbacks, node, call, first, now)
        }
    }

    /// A refusal with this code has come, or a reply, which has the code 0.
    pub(crate) fn hear_answer<D: Disk>(
        &mut self,
        store: &mut VolStore<D>,
        callbacks: &mut Callbacks,
        head: &Head,
        code: i32,
        now: u32,
    ) -> Mem<Outs>
        requires serves { ServesVolumes self.old store.old }
        requires beside { StandsBeside callbacks.old store.old }
        ensures { StepsVolumes (vol_answered_then self.old callbacks.old store.old now head.now code) self.old self.new callbacks.old callbacks.new store.old store.new result }
    {
        match self.heard(store, head)? {
            Some(call) => self.take_answer(store, callbacks, head.from, &call, code, now),
            None => self.pass(store, callbacks, now),
        }
    }

    /// The call to this node is sent again, as it told this boot number.
    fn renewed<D: Disk>(
        &self,
        store: &VolStore<D>,
        node: Node,
        known: u32,
        call: &PieceCall,
        first: &Sending,
    ) -> Mem<Pieces>
        requires serves { ServesVolumes self.now store.now }
        requires callee { IsServerNode node }
        ensures way { IfOk result (λ p. way_of p ≡ renews store.now.node store.now.durable.boot node known call.now first.now (way_before self.now store.now)) }
        ensures to { IfOk result (λ p. AreTo (call_to p.callees.items)) }
    {
        let mut pieces = self.pieces(store)?;
        pieces.renew(self.alloc, stand(store), node, known, call, first)?;
        Ok(pieces)
    }

    /// The call to this node goes out again, as it told this boot number.
    fn renew<D: Disk>(
        &mut self,
        store: &mut VolStore<D>,
        callbacks: &mut Callbacks,
        node: Node,
        known: u32,
        call: &PieceCall,
        now: u32,
    ) -> Mem<Outs>
        requires serves { ServesVolumes self.old store.old }
        requires beside { StandsBeside callbacks.old store.old }
        requires call { call_to self.old.callees node ≡ Some call.now }
        ensures { StepsVolumes (renewed_then self.old callbacks.old store.old now node known call.now) self.old self.new callbacks.old callbacks.new store.old store.new result }
    {
        let Some(first) = call.content.first() else {
            return self.pass(store, callbacks, now);
        };
        let pieces = self.renewed(store, node, known, call, first)?;
        let moves = plan_pieces(store, callbacks, pieces, now)?;
        let lines = Lines::new(self.alloc);
        let outs = self.take_moves(store, callbacks, moves, lines, now);
        Ok(outs)
    }

    /// A notice has come: where it is to an unanswered call of this server, the call goes out again.
    pub(crate) fn hear_notice<D: Disk>(
        &mut self,
        store: &mut VolStore<D>,
        callbacks: &mut Callbacks,
        head: &Head,
        now: u32,
    ) -> Mem<Outs>
        requires serves { ServesVolumes self.old store.old }
        requires beside { StandsBeside callbacks.old store.old }
        ensures { StepsVolumes (vol_noticed_then self.old callbacks.old store.old now head.now) self.old self.new callbacks.old callbacks.new store.old store.new result }
    {
        match self.heard(store, head)? {
            Some(call) => self.renew(store, callbacks, head.from, head.boot, &call, now),
            None => self.pass(store, callbacks, now),
        }
    }

    /// The call to this node is sent again, and has had so many timeouts by now.
    fn retried<D: Disk>(
        &self,
        store: &VolStore<D>,
        node: Node,
        call: &PieceCall,
        first: &Sending,
        tries: u32,
    ) -> Mem<Pieces>
        requires serves { ServesVolumes self.now store.now }
        requires callee { IsServerNode node }
        requires tries { tries ≡ call.now.tries + 1 }
        ensures way { IfOk result (λ p. way_of p ≡ retries store.now.node store.now.durable.boot node call.now first.now (way_before self.now store.now)) }
        ensures to { IfOk result (λ p. AreTo (call_to p.callees.items)) }
    {
        let mut pieces = self.pieces(store)?;
        pieces.retry(self.alloc, stand(store), node, call, tries, first)?;
        Ok(pieces)
    }

    /// The call to this node, which has waited too long, is sent again, and has had so many timeouts by now.
    fn retry<D: Disk>(
        &mut self,
        store: &mut VolStore<D>,
        callbacks: &mut Callbacks,
        node: Node,
        call: &PieceCall,
        first: &Sending,
        tries: u32,
        now: u32,
    ) -> Mem<Outs>
        requires serves { ServesVolumes self.old store.old }
        requires beside { StandsBeside callbacks.old store.old }
        requires call { call_to self.old.callees node ≡ Some call.now }
        requires first { first_of call.now.content ≡ Some first.now }
        requires tries { tries ≡ call.now.tries + 1 }
        requires again { is_sent_again call.now.tries ≡ true }
        ensures { StepsVolumes (vol_timed_then self.old callbacks.old store.old now node (call_seen call.now) call.now.content) self.old self.new callbacks.old callbacks.new store.old store.new result }
    {
        let lines = timeout_told(self.alloc, store, node, call.number, tries)?;
        let pieces = self.retried(store, node, call, first, tries)?;
        let moves = plan_pieces(store, callbacks, pieces, now)?;
        let outs = self.take_moves(store, callbacks, moves, lines, now);
        Ok(outs)
    }

    /// The call to this node has waited too long for the last time: the dump is given up.
    fn give_up<D: Disk>(
        &mut self,
        store: &mut VolStore<D>,
        callbacks: &mut Callbacks,
        node: Node,
        call: &PieceCall,
        first: &Sending,
        now: u32,
    ) -> Mem<Outs>
        requires serves { ServesVolumes self.old store.old }
        requires beside { StandsBeside callbacks.old store.old }
        requires call { call_to self.old.callees node ≡ Some call.now }
        requires first { first_of call.now.content ≡ Some first.now }
        requires last { is_sent_again call.now.tries ≡ false }
        ensures { StepsVolumes (vol_timed_then self.old callbacks.old store.old now node (call_seen call.now) call.now.content) self.old self.new callbacks.old callbacks.new store.old store.new result }
    {
        let lines = timeout_told(self.alloc, store, node, call.number, LAST_TIMEOUT)?;
        let outs = self.end_first(store, callbacks, node, call, first, GIVEN_UP, lines, now)?;
        Ok(outs)
    }

    /// Its unanswered call to this server has waited too long: it is sent again, or with the last time the dump is given up.
    pub(crate) fn time_out<D: Disk>(
        &mut self,
        store: &mut VolStore<D>,
        callbacks: &mut Callbacks,
        callee: Node,
        call: &PieceCall,
        now: u32,
    ) -> Mem<Outs>
        requires serves { ServesVolumes self.old store.old }
        requires beside { StandsBeside callbacks.old store.old }
        requires call { call_to self.old.callees callee ≡ Some call.now }
        ensures { StepsVolumes (vol_timed_then self.old callbacks.old store.old now callee (call_seen call.now) call.now.content) self.old self.new callbacks.old callbacks.new store.old store.new result }
    {
        let Some(first) = call.content.first() else {
            return self.pass(store, callbacks, now);
        };
        match timed_out(call.tries) {
            Timeout::Again(tries) => self.retry(store, callbacks, callee, call, first, tries, now),
            Timeout::Dead => self.give_up(store, callbacks, callee, call, first, now),
        }
    }
}
