//! The volume server's own calls to other servers, which carry pieces of dumps: what a step plans with them.

ghost use Rattle.std.specs.Prelude.{◌≡◌, ◌≤◌, ◌+◌, ◌++◌, ◌∷◌, [], Some, None, false, IfOk, OnOk};
ghost use Rattle.std.specs.Option.{option_map};
ghost use Rattle.afs_num.specs.Nodes.{IsNode};
ghost use Rattle.afs_callees.specs.Called.{call_to, known_to};
ghost use Rattle.spec_volrows.specs.VolSteps.{piece_gone, sent_whole};
ghost use Rattle.afs_sendings.specs.Pieces.{adds, ends, renews, retries, sends, starts, way_of, AreTo, IsServerNode, Piece};
ghost use Rattle.afs_sendings.specs.Sendings.{first_of, rest_of};

use crate::sendings::{PieceCall, PieceCallee, Queue, Sending};
use afs_callees::callees::{
    BackCall, copy_callees, end_call, find_call, known, set_call, set_known,
};
use afs_message::spelled::{Sent, SpelledMessage};
use afs_num::types::{Mem, Node};
use afs_server_parts::pumping::next_number;
use afs_server_parts::turns::Stand;
use std::alloc::Global;

/// The number of the node's last call, the servers to which dumps go, and the messages that a step sends. A plan for which memory ran
/// out is to be thrown away.
#[derive(Drop)]
pub struct Pieces {
    pub last: u32,
    pub callees: Vec<PieceCallee>,
    pub sent: Sent,
}

impl Pieces {
    /// Nothing happens.
    pub fn new(alloc: Global, last: u32, callees: &[PieceCallee]) -> Mem<Pieces>
        ensures { IfOk result (λ p. way_of p ≡ record { last = last; calls = call_to callees.now; known = known_to callees.now; sent = [] }) }
    {
        Ok(Pieces {
            last,
            callees: copy_callees(alloc, callees)?,
            sent: Sent::new(alloc),
        })
    }

    /// A message goes out.
    fn send(&mut self, message: SpelledMessage) -> Mem<()>
        ensures way { OnOk result (way_of self.new ≡ sends message (way_of self.old)) }
        ensures callees { self.new.callees ≡ self.old.callees }
        ensures last { self.new.last ≡ self.old.last }
    {
        self.sent.push(message)?;
        Ok(())
    }

    /// The next piece of the first of these dumps goes to the server, under a number of its own.
    fn start_first(
        &mut self,
        alloc: Global,
        stand: Stand,
        node: Node,
        first: &Sending,
        queue: Queue,
    ) -> Mem<()>
        requires stands { IsNode stand.node }
        requires callee { IsServerNode node }
        requires first { first_of queue ≡ Some first.now }
        ensures way { OnOk result (way_of self.new ≡ starts stand.node stand.boot node queue (way_of self.old)) }
        ensures to { OnOk result (AreTo (call_to self.old.callees.items) → AreTo (call_to self.new.callees.items)) }
        ensures drawn { OnOk result (self.old.last ≤ self.new.last) }
    {
        let number = next_number(self.last)?;
        let known = known(&self.callees, node);
        let message = first.spell(alloc, stand, node, known, number)?;
        self.sent.push(message)?;
        self.last = number;
        let call = BackCall {
            number,
            tries: 0,
            content: queue,
        };
        set_call(&mut self.callees, node, Some(call))?;
        Ok(())
    }

    /// These dumps go to the server, or there is nothing to send.
    fn start(&mut self, alloc: Global, stand: Stand, node: Node, queue: Queue) -> Mem<()>
        requires stands { IsNode stand.node }
        requires callee { IsServerNode node }
        ensures way { OnOk result (way_of self.new ≡ starts stand.node stand.boot node queue (way_of self.old)) }
        ensures to { OnOk result (AreTo (call_to self.old.callees.items) → AreTo (call_to self.new.callees.items)) }
        ensures drawn { OnOk result (self.old.last ≤ self.new.last) }
    {
        match queue.copied_first(alloc)? {
            Some(first) => self.start_first(alloc, stand, node, &first, queue)?,
            None => end_call(&mut self.callees, node)?,
        }
        Ok(())
    }

    /// One more dump goes to the server.
    pub fn add(&mut self, alloc: Global, stand: Stand, node: Node, sending: Sending) -> Mem<()>
        requires stands { IsNode stand.node }
        requires callee { IsServerNode node }
        ensures way { OnOk result (way_of self.new ≡ adds stand.node stand.boot node sending (way_of self.old)) }
        ensures to { OnOk result (AreTo (call_to self.old.callees.items) → AreTo (call_to self.new.callees.items)) }
        ensures drawn { OnOk result (self.old.last ≤ self.new.last) }
    {
        match self.queued(alloc, node, &sending)? {
            Some(call) => set_call(&mut self.callees, node, Some(call))?,
            None => {
                let queue = Queue::one(alloc, sending)?;
                self.start(alloc, stand, node, queue)?;
            }
        }
        Ok(())
    }

    /// The unanswered call to the server, with one dump more behind the others.
    fn queued(&self, alloc: Global, node: Node, sending: &Sending) -> Mem<Option<PieceCall>>
        ensures { IfOk result (λ c. c ≡ option_map (λ (k : Piece). record k { content = k.content ++ sending.now ∷ [] }) (call_to self.now.callees.items node)) }
    {
        match find_call(&self.callees, node) {
            Some(call) => {
                let content = call.content.with(alloc, sending)?;
                Ok(Some(BackCall {
                    number: call.number,
                    tries: call.tries,
                    content,
                }))
            }
            None => Ok(None),
        }
    }

    /// The first of the server's dumps has ended: its reply goes out, and then the next dump.
    pub fn end(
        &mut self,
        alloc: Global,
        stand: Stand,
        node: Node,
        rest: Queue,
        reply: SpelledMessage,
    ) -> Mem<()>
        requires stands { IsNode stand.node }
        requires callee { IsServerNode node }
        ensures way { OnOk result (way_of self.new ≡ ends stand.node stand.boot node rest reply (way_of self.old)) }
        ensures to { OnOk result (AreTo (call_to self.old.callees.items) → AreTo (call_to self.new.callees.items)) }
        ensures drawn { OnOk result (self.old.last ≤ self.new.last) }
    {
        self.send(reply)?;
        self.start(alloc, stand, node, rest)?;
        Ok(())
    }

    /// A piece of the first of the server's dumps went, and the next one follows.
    pub fn go_on(
        &mut self,
        alloc: Global,
        stand: Stand,
        node: Node,
        call: &PieceCall,
        first: &Sending,
    ) -> Mem<()>
        requires stands { IsNode stand.node }
        requires callee { IsServerNode node }
        requires whole { sent_whole first.now ≡ false }
        requires first { first_of call.now.content ≡ Some first.now }
        ensures way { OnOk result (way_of self.new ≡ starts stand.node stand.boot node (piece_gone first.now ∷ rest_of call.now.content) (way_of self.old)) }
        ensures to { OnOk result (AreTo (call_to self.old.callees.items) → AreTo (call_to self.new.callees.items)) }
        ensures drawn { OnOk result (self.old.last ≤ self.new.last) }
    {
        let queue = call.content.moved_on(alloc, first)?;
        self.start(alloc, stand, node, queue)?;
        Ok(())
    }

    /// The server told its boot number: its call is sent again.
    pub fn renew(
        &mut self,
        alloc: Global,
        stand: Stand,
        node: Node,
        known: u32,
        call: &PieceCall,
        first: &Sending,
    ) -> Mem<()>
        requires stands { IsNode stand.node }
        requires callee { IsServerNode node }
        ensures way { OnOk result (way_of self.new ≡ renews stand.node stand.boot node known call.now first.now (way_of self.old)) }
        ensures to { OnOk result (AreTo (call_to self.old.callees.items) → AreTo (call_to self.new.callees.items)) }
        ensures drawn { OnOk result (self.old.last ≤ self.new.last) }
    {
        set_known(alloc, &mut self.callees, node, known)?;
        let message = first.spell(alloc, stand, node, known, call.number)?;
        self.sent.push(message)?;
        Ok(())
    }

    /// The call has waited too long: it is sent again, and has had so many timeouts by now.
    pub fn retry(
        &mut self,
        alloc: Global,
        stand: Stand,
        node: Node,
        call: &PieceCall,
        tries: u32,
        first: &Sending,
    ) -> Mem<()>
        requires stands { IsNode stand.node }
        requires callee { IsServerNode node }
        requires tries { tries ≡ call.now.tries + 1 }
        ensures way { OnOk result (way_of self.new ≡ retries stand.node stand.boot node call.now first.now (way_of self.old)) }
        ensures to { OnOk result (AreTo (call_to self.old.callees.items) → AreTo (call_to self.new.callees.items)) }
        ensures drawn { OnOk result (self.old.last ≤ self.new.last) }
    {
        let known = known(&self.callees, node);
        let message = first.spell(alloc, stand, node, known, call.number)?;
        self.sent.push(message)?;
        let waited = call.waited(alloc, tries)?;
        set_call(&mut self.callees, node, Some(waited))?;
        Ok(())
    }
}
