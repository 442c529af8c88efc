//! What a turn of an act does. The call of the next place is spelled first, and only then the act stands there: so where memory is wanting,
//! nothing has changed.

ghost use Rattle.std.specs.Prelude.{◌≡◌, ◌<◌, ◌+◌, ◌++◌, ◌∷◌, [], None, length, IfOk, OnErr, OnOk};
ghost use Rattle.spec_model.specs.Messages.{messages_spelled, parcels_read};
ghost use Rattle.spec_rows.specs.ClientRow.{boot_of};
ghost use Rattle.afs_adminparts.specs.Fitting.{FitsDump, FitsPlace, FitsTurn, IsShortAdminAct, IsSpelledAsk};
ghost use Rattle.spec_adminrows.specs.AdminRow.{ask_message, ask_of, asking, asks_step, ends_step, running_at, turned, with_dump};
ghost use Rattle.afs_calling.specs.Calls.{number_limit};
ghost use Rattle.spec_history.specs.declared.lines.Line.TheVariants as told;
ghost use Rattle.afs_mover.specs.Steps.{Behind, head_under, sent_under};

use crate::asking::Asking;
use crate::node::Mover;
use afs_calling::boots::boot_of;
use afs_calling::messages::{outs_calling, quiet};
use afs_calling::opcodes::opcode;
use afs_num::sequences::Octets;
use afs_num::types::{Half, Head, Mem, Node};
use spec_adminrows::places::Place;
use spec_adminrows::turns::{Ask, Turn};
use spec_history::lines::{Line, Lines, Outs};
use spec_history::orders::SharedAdminAct;

impl Mover {
    /// The header of what is asked under this number, in this boot of its callee.
    fn head(&self, ask: &Ask, number: u32, boot: u32) -> Head
        ensures { result ≡ head_under self.now.node self.now.state number boot ask.now }
    {
        Head {
            half: Half::Call,
            from: self.node,
            to: ask.callee,
            epoch: self.callers.boot(),
            number,
            boot,
            stamp: ask.stamp,
            opcode: opcode(&ask.call),
        }
    }

    /// What is given out with what is asked under this number, in this boot of its callee.
    pub(crate) fn outs(&self, ask: &Ask, number: u32, boot: u32, lines: Lines) -> Mem<Outs>
        requires { IsSpelledAsk ask.now }
        ensures lines { IfOk result (λ o. o.lines ≡ lines) }
        ensures sent { IfOk result (λ o. parcels_read o.parcels ≡ messages_spelled (sent_under self.now.node self.now.state number boot ask.now ∷ [])) }
    {
        let head = self.head(ask, number, boot);
        outs_calling(self.alloc, lines, &head, &[], &ask.call)
    }

    /// The number of the last call.
    pub(crate) fn number(&self) -> u32
        ensures { result ≡ self.now.state.last }
    {
        self.last
    }

    /// The boot number of a node, as it is known.
    fn known_boot(&self, node: &Node) -> u32
        ensures { result ≡ boot_of node.now self.now.state.boots }
    {
        boot_of(node, &self.boots)
    }

    /// What is given out with the act's call under this number.
    pub(crate) fn send(&self, asking: &Asking, number: u32, lines: Lines) -> Mem<Outs>
        ensures lines { IfOk result (λ o. o.lines ≡ lines) }
        ensures sent { IfOk result (λ o. parcels_read o.parcels ≡ messages_spelled (ask_message self.now.node (record self.now.state { last = number }) (ask_of self.now.state asking.now) ∷ [])) }
    {
        let ask = asking.ask();
        let boot = self.known_boot(&ask.callee);
        let outs = self.outs(ask, number, boot, lines)?;
        Ok(outs)
    }

    /// The act as it stands at this place.
    fn asking(&self, act: &SharedAdminAct, place: Place) -> Mem<Asking>
        requires short { IsShortAdminAct act.now }
        requires fits { FitsPlace act.now place }
        ensures { IfOk result (λ a. a ≡ running_at act.now place) }
    {
        Asking::new(self.alloc, act.copy()?, place)
    }

    /// The act waits at its place, under the next number. It takes no memory.
    fn wait(&mut self, at: Asking)
        requires last { self.old.state.last < number_limit }
        ensures { self.new ≡ record self.old { state = asking self.old.state at } }
    {
        self.last += 1;
        self.tries = 0;
        self.running = Some(at);
    }

    /// No act runs any more. It takes no memory.
    fn rest(&mut self)
        ensures { self.new ≡ record self.old { state = record self.old.state { running = None } } }
    {
        self.running = None;
    }

    /// A dump is held.
    fn hold(&mut self, label: Octets, bytes: Octets) -> Mem<()>
        requires fits { FitsDump bytes }
        ensures ok { OnOk result (self.new ≡ record self.old { state = with_dump label bytes self.old.state }) }
        ensures err { OnErr result (self.new ≡ self.old) }
    {
        self.dumps.put(label, bytes)
    }

    /// What is told of a dump that is held, behind these lines.
    fn tell_dumped(&self, label: &Octets, bytes: &Octets, lines: &mut Lines) -> Mem<()>
        requires fits { FitsDump bytes.now }
        ensures { OnOk result (lines.new ≡ lines.old ++ told.Dumped self.now.node label.now (length bytes.now) ∷ []) }
    {
        lines.push(Line::Dumped {
            node: self.node,
            label: label.copy(self.alloc)?,
            length: bytes.len() as u32,
        })?;
        Ok(())
    }

    /// The act asks at this place.
    fn go(&mut self, act: &SharedAdminAct, place: Place, lines: Lines) -> Mem<Outs>
        requires short { IsShortAdminAct act.now }
        requires fits { FitsPlace act.now place }
        requires last { self.old.state.last < number_limit }
        ensures { Behind (asks_step self.old.node self.old.state (running_at act.now place)) lines self.old self.new result }
    {
        let asking = self.asking(act, place)?;
        let number = self.number() + 1;
        let outs = self.send(&asking, number, lines)?;
        self.wait(asking);
        Ok(outs)
    }

    /// A dump is whole and is held, and the act asks at this place.
    fn keep(
        &mut self,
        act: &SharedAdminAct,
        label: Octets,
        bytes: Octets,
        place: Place,
        mut lines: Lines,
    ) -> Mem<Outs>
        requires short { IsShortAdminAct act.now }
        requires fits { FitsTurn act.now (Turn.Keeps label bytes place) }
        requires last { self.old.state.last < number_limit }
        ensures { Behind (λ ls. turned self.old.node self.old.state act.now ls (Turn.Keeps label bytes place)) lines self.old self.new result }
    {
        self.tell_dumped(&label, &bytes, &mut lines)?;
        let asking = self.asking(act, place)?;
        let number = self.number() + 1;
        let outs = self.send(&asking, number, lines)?;
        self.hold(label, bytes)?;
        self.wait(asking);
        Ok(outs)
    }

    /// The act ends with this line.
    fn end(&mut self, mut lines: Lines, line: Line) -> Mem<Outs>
        ensures { Behind (λ ls. ends_step self.old.state (ls ++ line ∷ [])) lines self.old self.new result }
    {
        lines.push(line)?;
        self.rest();
        Ok(quiet(self.alloc, lines))
    }

    /// What a turn of this act does, behind these lines.
    pub(crate) fn turn(&mut self, act: &SharedAdminAct, lines: Lines, turn: Turn) -> Mem<Outs>
        requires short { IsShortAdminAct act.now }
        requires fits { FitsTurn act.now turn }
        requires last { self.old.state.last < number_limit }
        ensures { Behind (λ ls. turned self.old.node self.old.state act.now ls turn) lines self.old self.new result }
    {
        match turn {
            Turn::Goes { place } => self.go(act, place, lines),
            Turn::Keeps {
                label,
                bytes,
                place,
            } => self.keep(act, label, bytes, place, lines),
            Turn::Ends { code } => {
                let node = self.node;
                self.end(lines, Line::Answer { node, code })
            }
            Turn::Sticks { code } => {
                let node = self.node;
                self.end(lines, Line::Stuck { node, code })
            }
            Turn::Passes => Ok(quiet(self.alloc, lines)),
        }
    }
}
