//! An administrator, by its calls.

ghost use Rattle.std.specs.Prelude.{◌≡◌, ◌≤◌, ◌<◌, ◌+◌, [], ◌∷◌, None, IfOk, IsSome, OnOk};
ghost use Rattle.afs_num.specs.Nodes.{IsNode};
ghost use Rattle.spec_model.specs.Messages.{received_by};
ghost use Rattle.spec_history.specs.declared.lines.Line.TheVariants as told;
ghost use Rattle.afs_adminparts.specs.Fitting.{FitsTurn, IsShortAdminAct};
ghost use Rattle.spec_adminrows.specs.Acts.{begins_with};
ghost use Rattle.spec_adminrows.specs.AdminRow.{admin_begin_row, admin_reborn, admin_row, dump_held, label_in, new_admin};
ghost use Rattle.afs_calling.specs.Calls.{number_limit};
ghost use Rattle.afs_calling.specs.Stepping.{Answers, Takes};
ghost use Rattle.afs_mover.specs.Steps.{Behind, lasting, times_out, waits};

use crate::asking::Asking;
use crate::dumps::Dumps;
use afs_adminacts::acts::begun;
use afs_call::CallTable;
use afs_calling::boots::KnownBoot;
use afs_message::messages::read_message;
use afs_message::spelled::SpelledMessage;
use afs_num::types::{Key, Mem, Node};
use spec_adminrows::turns::Turn;
use spec_history::lines::{Line, Lines, Outs};
use spec_history::orders::SharedAdminAct;
use spec_history::scripts::AdminAct;
use std::alloc::Global;
use std::marker::Model;

/// An administrator of the cell: it creates, moves, releases, dumps, removes and recovers volumes as the commands of `vos` do (AFS Administration
/// Reference, `vos`), one act at a time. An act is a chain of calls to volume servers and the location database, and its next call is asked
/// once the one before it is answered.
#[derive(Drop)]
pub struct Mover {
    pub(crate) alloc: Global,
    pub(crate) node: Node,
    /// How many servers the cell has.
    pub(crate) servers: u8,
    /// The number of its last call in its epoch, and how often that was timed out.
    pub(crate) last: u32,
    pub(crate) tries: u32,
    /// The boot numbers of nodes as they told them.
    pub(crate) boots: Vec<KnownBoot>,
    /// Those that call it, in its epoch.
    pub(crate) callers: CallTable<SpelledMessage>,
    /// The dumps that it took and holds.
    pub(crate) dumps: Dumps,
    /// The act that runs, with its unanswered call.
    pub(crate) running: Option<Asking>,
}

impl Model for Mover {
    ghost use Rattle.spec_model.specs.Steps.{NodeState};
    ghost use Rattle.spec_adminrows.specs.AdminRow.{AdminState};
    ghost use Rattle.afs_mover.specs.Asked.{FitsMover};

    ghost Value = { NodeState AdminState };

    ghost view = { λ m. record { node = m.node; state = record { servers = m.servers; epoch = m.callers.boot; last = m.last; boots = m.boots.items; seats = m.callers.seats; dumps = m.dumps; running = m.running; tries = m.tries } } };

    ghost invariant = { λ m. FitsMover m.node m.servers m.tries };
}

/// The label of the dump that an act begins with; no bytes where it needs none.
fn label_in(act: &AdminAct) -> &[u8]
    ensures { result.now ≡ label_in act.now }
{
    match act {
        AdminAct::Restore { label, .. } => label.as_slice(),
        _ => &[],
    }
}

impl Mover {
    /// An administrator that has made no call in this epoch, and holds no dump. It takes each node to be in its first boot. The cell has so
    /// many servers, at most 8. It takes no memory.
    pub fn new(alloc: Global, node: Node, epoch: u32, servers: u8) -> Mover
        requires node { IsNode node }
        requires servers { servers ≤ 8 }
        ensures node { result.node ≡ node }
        ensures state { result.state ≡ new_admin servers epoch }
    {
        Mover {
            alloc,
            node,
            servers,
            last: 0,
            tries: 0,
            boots: Vec::new(alloc),
            callers: CallTable::new(alloc, epoch),
            dumps: Dumps::new(alloc),
            running: None,
        }
    }

    /// It goes down, and begins again with the next epoch. Nothing of it is kept: its act, its dumps and what it knew of other nodes are gone,
    /// and what the act left is for a recovery. It takes no memory.
    pub fn restart(self) -> Mover
        requires epoch { self.state.epoch < 4294967295 }
        ensures node { result.node ≡ self.node }
        ensures state { result.state ≡ admin_reborn self.state }
    {
        Mover::new(self.alloc, self.node, self.callers.boot() + 1, self.servers)
    }

    /// How an act begins: the dump that it needs is that under its label.
    fn first_turn(&self, act: &AdminAct) -> Mem<Turn>
        requires short { IsShortAdminAct act.now }
        ensures value { IfOk result (λ t. t ≡ begins_with act.now (dump_held (label_in act.now) self.now.state.dumps)) }
        ensures fits { IfOk result (λ t. FitsTurn act.now t) }
    {
        let held = self.dumps.held(self.alloc, label_in(act))?;
        Ok(begun(act, held))
    }

    /// Begins an act, while none runs. The administrator keeps a copy until the act ends. It answers 2 at once where it holds no dump under
    /// the label of a restore. `AllocError` where memory is wanting: then the act hasn't begun, and all is as before.
    pub fn act(&mut self, act: &SharedAdminAct) -> Mem<Outs>
        requires idle { self.old.state.running ≡ None }
        requires last { self.old.state.last < number_limit }
        requires short { IsShortAdminAct act.now }
        ensures step { Answers (admin_begin_row self.old.node self.old.state act.now) self.old self.new result }
        // It makes one call at most.
        ensures last { OnOk result (self.new.state.last ≤ self.old.state.last + 1) }
        ensures lasting { lasting self.new.state ≡ lasting self.old.state }
    {
        self.begin(act)
    }

    /// What is told as it begins.
    fn tell_begun(&self, act: &SharedAdminAct) -> Mem<Lines>
        ensures { IfOk result (λ ls. ls ≡ told.BeginAdmin self.now.node act.now ∷ []) }
    {
        let mut lines = Lines::new(self.alloc);
        lines.push(Line::BeginAdmin {
            node: self.node,
            act: act.copy()?,
        })?;
        Ok(lines)
    }

    fn begin(&mut self, act: &SharedAdminAct) -> Mem<Outs>
        requires last { self.old.state.last < number_limit }
        requires short { IsShortAdminAct act.now }
        ensures { Answers (admin_begin_row self.old.node self.old.state act.now) self.old self.new result }
    {
        let lines = self.tell_begun(act)?;
        let turn = self.first_turn(act.get())?;
        self.turn(act, lines, turn)
    }

    /// One message, as the bytes that came. It serves no call: one that is new to it is refused with -455. A reply that isn't for its unanswered
    /// call does nothing. `AllocError` where memory is wanting: then all is as before, and the message may be given again.
    pub fn receive(&mut self, bytes: &[u8]) -> Mem<Outs>
        requires last { self.old.state.last < number_limit }
        ensures step { Takes (λ place. admin_row self.old.node self.old.state place (received_by [] bytes.now)) self.old self.new result }
        // It makes one call at most.
        ensures last { OnOk result (self.new.state.last ≤ self.old.state.last + 1) }
        ensures lasting { lasting self.new.state ≡ lasting self.old.state }
    {
        let received = read_message(self.alloc, &[], bytes)?;
        self.take_in(&received)
    }

    /// The unanswered call has waited too long: it is sent again twice, and at its third timeout given up, as if it had been refused
    /// with -1. `AllocError` where memory is wanting: then all is as before.
    pub fn timeout(&mut self) -> Mem<Outs>
        requires waits { IsSome self.old.state.running }
        requires last { self.old.state.last < number_limit }
        ensures step { Answers (times_out self.old.node self.old.state self.old.state.running) self.old self.new result }
        // It makes one call at most.
        ensures last { OnOk result (self.new.state.last ≤ self.old.state.last + 1) }
        ensures lasting { lasting self.new.state ≡ lasting self.old.state }
    {
        self.time_out()
    }

    /// Whom the unanswered call is for, and its key; none while no act runs. It takes no memory.
    pub fn waits_on(&self) -> Option<(Node, Key)>
        ensures { result ≡ waits self.now }
    {
        let asking = self.running()?;
        Some((
            asking.ask().callee,
            Key {
                node: self.node,
                epoch: self.callers.boot(),
                number: self.last,
            },
        ))
    }
}
