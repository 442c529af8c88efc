//! The nodes that a node calls, with the calls that they haven't answered.

ghost use Rattle.std.specs.Prelude.{◌≡◌, ◌<◌, ◌+◌, ◌-◌, is_some, length, None, IfOk, OnErr, OnOk};
ghost use Rattle.std.specs.Option.{option_copied};
ghost use Rattle.std.specs.Vec.{vec_capacity};
ghost use Rattle.afs_num.specs.Keyed.{other_keyed, put_last, HasRoom};
ghost use Rattle.afs_num.specs.Nodes.{same_node};
ghost use Rattle.afs_num.specs.declared.types.Node.{Node};
ghost use Rattle.spec_rows.specs.Callbacks.{put_at};
ghost use Rattle.afs_callees.specs.Called.{call_to, callee_at, known_to, node_called};

use afs_num::keyed::{Keyed, find_keyed, put_last};
use afs_num::types::{Mem, Node};
use std::alloc::Global;
use std::marker::Model;

/// What can be copied with its value.
pub trait Copies: Drop {
    /// The same value.
    fn copy(&self, alloc: Global) -> Mem<Self>
    where
        Self: Sized,
        ensures { IfOk result (λ c. c ≡ self.now) };
}

/// A call that its callee hasn't answered: its number, how often it waited too long, and what it carries.
#[derive(Drop)]
pub struct BackCall<C: Copies> {
    pub number: u32,
    pub tries: u32,
    pub content: C,
}

impl<C: Copies> Model for BackCall<C> {
    ghost use Rattle.spec_rows.specs.States.{Unanswered};

    ghost Value = { Unanswered C };

    ghost view = { λ c. record { number = c.number; tries = c.tries; content = c.content } };
}

/// A node that was called: its boot number as it is known, and the unanswered call.
#[derive(Drop)]
pub struct Callee<C: Copies> {
    pub node: Node,
    pub known: u32,
    pub call: Option<BackCall<C>>,
}

impl<C: Copies> Model for Callee<C> {
    ghost use Rattle.afs_callees.specs.Called as seen;

    ghost Value = { seen.Callee C };

    ghost view = { λ c. record { node = c.node; known = c.known; call = c.call } };
}

impl<C: Copies> Keyed for Callee<C> {
    type Key = Node;

    ghost key = { λ c. c.node };

    ghost same = { same_node };

    fn key(&self) -> Node {
        self.node
    }

    fn is_under(&self, other: &Node) -> bool {
        self.node.is(other)
    }
}

impl<C: Copies> BackCall<C> {
    /// The same call.
    pub fn copy(&self, alloc: Global) -> Mem<BackCall<C>>
        ensures { IfOk result (λ c. c ≡ self.now) }
    {
        Ok(BackCall {
            number: self.number,
            tries: self.tries,
            content: self.content.copy(alloc)?,
        })
    }

    /// The same call, which has had so many timeouts by now.
    pub fn waited(&self, alloc: Global, tries: u32) -> Mem<BackCall<C>>
        ensures { IfOk result (λ c. c ≡ record self.now { tries = tries }) }
    {
        Ok(BackCall {
            number: self.number,
            tries,
            content: self.content.copy(alloc)?,
        })
    }
}

fn copy_call<C: Copies>(alloc: Global, call: &Option<BackCall<C>>) -> Mem<Option<BackCall<C>>>
    ensures { IfOk result (λ c. c ≡ call.now) }
{
    match call {
        None => Ok(None),
        Some(call) => Ok(Some(call.copy(alloc)?)),
    }
}

impl<C: Copies> Callee<C> {
    fn copy(&self, alloc: Global) -> Mem<Callee<C>>
        ensures { IfOk result (λ c. c ≡ self.now) }
    {
        Ok(Callee {
            node: self.node,
            known: self.known,
            call: copy_call(alloc, &self.call)?,
        })
    }
}

/// Copies of all callees.
pub fn copy_callees<C: Copies>(alloc: Global, callees: &[Callee<C>]) -> Mem<Vec<Callee<C>>>
    ensures { IfOk result (λ cs. cs.items ≡ callees.now) }
{
    let mut copies = Vec::with_capacity(alloc, callees.len())?;
    for one in callees {
        copies.push(one.copy(alloc)?)?;
    }
    Ok(copies)
}

/// The unanswered call to this node.
pub fn find_call<C: Copies>(callees: &[Callee<C>], node: Node) -> Option<&BackCall<C>>
    ensures { option_copied result ≡ call_to callees.now node }
{
    find_keyed(callees, &node)?.call.as_ref()
}

/// The boot number of this node, as it is known.
pub fn known<C: Copies>(callees: &[Callee<C>], node: Node) -> u32
    ensures { result ≡ known_to callees.now node }
{
    match find_keyed(callees, &node) {
        Some(callee) => callee.known,
        None => 1,
    }
}

/// Whether this node has not answered a call.
pub fn is_waiting<C: Copies>(callees: &[Callee<C>], node: Node) -> bool
    ensures { result ≡ is_some (call_to callees.now node) }
{
    find_call(callees, node).is_some()
}

/// Puts an unanswered call in the place of this node's, or takes that away, with what is known of the node. It takes no
/// memory; a node's first call needs room for one callee.
fn put_callee<C: Copies>(callees: &mut Vec<Callee<C>>, callee: Callee<C>)
    requires { HasRoom (callee_at callee.node callees.old.items) (vec_capacity callees.old - length callees.old.items) }
    ensures items { callees.new.items ≡ put_last node_called same_node callee callees.old.items }
    ensures calls { call_to callees.new.items ≡ put_at callee.node callee.call (call_to callees.old.items) }
    ensures known { known_to callees.new.items ≡ put_at callee.node callee.known (known_to callees.old.items) }
{
    put_last(callees, callee);
}

/// Makes room for this node's call, where it is the first.
fn make_room<C: Copies>(callees: &mut Vec<Callee<C>>, node: Node) -> Mem<()>
    ensures room { OnOk result (HasRoom (callee_at node callees.new.items) (vec_capacity callees.new - length callees.new.items)) }
    ensures same { callees.new.items ≡ callees.old.items }
{
    if find_keyed(callees, &node).is_none() {
        callees.reserve(1)?;
    }
    Ok(())
}

/// Puts an unanswered call in the place of this node's, or takes that away.
pub fn set_call<C: Copies>(
    callees: &mut Vec<Callee<C>>,
    node: Node,
    call: Option<BackCall<C>>,
) -> Mem<()>
    ensures items { OnOk result (callees.new.items ≡ put_last node_called same_node (record { node = node; known = known_to callees.old.items node; call = call }) callees.old.items) }
    ensures err { OnErr result (callees.new.items ≡ callees.old.items) }
    ensures calls { OnOk result (call_to callees.new.items ≡ put_at node call (call_to callees.old.items)) }
    ensures known { OnOk result (known_to callees.new.items ≡ known_to callees.old.items) }
{
    let known = known(callees, node);
    make_room(callees, node)?;
    put_callee(callees, Callee { node, known, call });
    Ok(())
}

/// Forgets this node, of which no other boot number is known than the one that is taken for it anyhow.
fn forget<C: Copies>(callees: &mut Vec<Callee<C>>, node: Node)
    requires { known_to callees.old.items node ≡ 1 }
    ensures items { callees.new.items ≡ other_keyed node_called same_node node callees.old.items }
    ensures calls { call_to callees.new.items ≡ put_at node None (call_to callees.old.items) }
    ensures known { known_to callees.new.items ≡ known_to callees.old.items }
{
    callees.retain(|callee| !callee.node.is(&node));
}

/// This node has no unanswered call any more. Each step copies the callees, so one that has told no boot number isn't kept for
/// its own sake.
pub fn end_call<C: Copies>(callees: &mut Vec<Callee<C>>, node: Node) -> Mem<()>
    ensures err { OnErr result (callees.new.items ≡ callees.old.items) }
    ensures calls { OnOk result (call_to callees.new.items ≡ put_at node None (call_to callees.old.items)) }
    ensures known { OnOk result (known_to callees.new.items ≡ known_to callees.old.items) }
{
    if known(callees, node) == 1 {
        forget(callees, node);
    } else {
        set_call(callees, node, None)?;
    }
    Ok(())
}

/// A copy of the unanswered call to this node.
pub fn copy_call_to<C: Copies>(
    alloc: Global,
    callees: &[Callee<C>],
    node: Node,
) -> Mem<Option<BackCall<C>>>
    ensures { IfOk result (λ c. c ≡ call_to callees.now node) }
{
    match find_call(callees, node) {
        None => Ok(None),
        Some(call) => Ok(Some(call.copy(alloc)?)),
    }
}

/// The node's boot number is this one, as the node told.
pub fn set_known<C: Copies>(
    alloc: Global,
    callees: &mut Vec<Callee<C>>,
    node: Node,
    known: u32,
) -> Mem<()>
    ensures items { OnOk result (callees.new.items ≡ put_last node_called same_node (record { node = node; known = known; call = call_to callees.old.items node }) callees.old.items) }
    ensures err { OnErr result (callees.new.items ≡ callees.old.items) }
    ensures calls { OnOk result (call_to callees.new.items ≡ call_to callees.old.items) }
    ensures known { OnOk result (known_to callees.new.items ≡ put_at node known (known_to callees.old.items)) }
{
    let call = copy_call_to(alloc, callees, node)?;
    make_room(callees, node)?;
    put_callee(callees, Callee { node, known, call });
    Ok(())
}
