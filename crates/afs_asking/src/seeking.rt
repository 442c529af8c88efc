//! An act that waits for the location database, with its unanswered question.

ghost use Rattle.std.specs.Prelude.{◌≡◌, IfOk};
ghost use Rattle.std.specs.Option.{option_copied};
ghost use Rattle.spec_model.specs.CellRows.{call_number, cell_calls};
ghost use Rattle.afs_num.specs.declared.messages.Call.TheVariants as ask;
ghost use Rattle.spec_rows.specs.ClientRow.{question};
ghost use Rattle.spec_rows.specs.Going.{filled};
ghost use Rattle.spec_copyrows.specs.CopyRow.{forgotten};
ghost use Rattle.spec_shape.specs.Rows.{IsWithin};
ghost use Rattle.afs_acts.specs.Acts.{FitsCalls, IsShortOperand};

use afs_acts::{Going, Location, copy_operand, question};
use afs_num::messages::Call;
use afs_num::types::{Code, Mem, Node};
use afs_sites::forgotten;
use spec_history::acts::Operand;
use std::alloc::Global;
use std::marker::Model;

/// A server that told that it has no such volume, or not any more, and its code.
#[derive(Drop)]
pub struct Left {
    server: Node,
    code: Code,
}

impl Model for Left {
    ghost use Rattle.spec_rows.specs.Going.{Left};

    ghost Value = { Left };

    ghost view = { λ l. record { server = l.server; code = l.code } };
}

impl Left {
    pub fn new(server: Node, code: Code) -> Left
        ensures { result ≡ record { server = server; code = code } }
    {
        Left { server, code }
    }

    pub fn server(&self) -> Node
        ensures { result ≡ self.now.server }
    {
        self.server
    }

    pub fn code(&self) -> Code
        ensures { result ≡ self.now.code }
    {
        self.code
    }
}

/// What is kept of an act that waits for the location database: it, the operand whose volume it asks for, the server that it left for
/// that, if it left one, and its unanswered question.
#[derive(Drop)]
struct Held {
    going: Going,
    operand: Operand,
    left: Option<Left>,
    call: Call,
}

/// An act that waits for the location database, with its unanswered question. It is moved from hand to hand, and what is kept of it stays
/// where it is.
#[derive(Drop)]
pub struct Seeking {
    held: Box<Held>,
}

impl Model for Seeking {
    ghost use Rattle.spec_rows.specs.Going.{Seek};
    ghost use Rattle.afs_asking.specs.Asking.{IsSeeking};

    ghost Value = { Seek };

    ghost view = { λ s. record { act = s.held.value.going; operand = s.held.value.operand; left = s.held.value.left } };

    ghost invariant = { λ s. IsSeeking s.held.value.going s.held.value.operand s.held.value.call };
}

impl Seeking {
    /// An act that asks where this operand's volume is.
    pub fn new(alloc: Global, going: Going, operand: Operand, left: Option<Left>) -> Mem<Seeking>
        requires short { FitsCalls going.act }
        requires operand { IsShortOperand operand }
        ensures { IfOk result (λ s. s ≡ record { act = going; operand = operand; left = left }) }
    {
        let call = Call::Location(question(alloc, &operand)?);
        let held = Held {
            going,
            operand,
            left,
            call,
        };
        Ok(Seeking {
            held: Box::new(alloc, held)?,
        })
    }

    /// A copy of the act, and of what it has read.
    pub fn copy_going(&self, alloc: Global) -> Mem<Going>
        ensures value { IfOk result (λ g. g ≡ self.now.act) }
        ensures short { FitsCalls self.now.act.act }
    {
        self.held.going.copy(alloc)
    }

    /// The act as it goes on where the table is this one: the volume of its second operand is looked up anew, unless it walks there.
    fn renewed_going(&self, alloc: Global, table: &[Location]) -> Mem<Going>
        ensures value { IfOk result (λ g. g ≡ filled table.now (forgotten self.now.act)) }
        ensures short { IfOk result (λ g. FitsCalls g.act) }
    {
        let mut going = forgotten(alloc, &self.held.going)?;
        going.fill(table);
        Ok(going)
    }

    /// A copy of the server that it left.
    fn left_copied(&self) -> Option<Left>
        ensures { result ≡ self.now.left }
    {
        match self.left() {
            Some(left) => Some(Left::new(left.server(), left.code())),
            None => None,
        }
    }

    /// It waits as the act goes on where the table is this one.
    pub fn renewed(&self, alloc: Global, table: &[Location]) -> Mem<Seeking>
        ensures { IfOk result (λ s. s ≡ record self.now { act = filled table.now (forgotten self.now.act) }) }
    {
        let going = self.renewed_going(alloc, table)?;
        let operand = copy_operand(alloc, self.operand())?;
        Seeking::new(alloc, going, operand, self.left_copied())
    }

    pub fn operand(&self) -> &Operand
        ensures value { result.now ≡ self.now.operand }
        ensures short { IsShortOperand self.now.operand }
    {
        &self.held.operand
    }

    pub fn left(&self) -> Option<&Left>
        ensures { option_copied result ≡ self.now.left }
    {
        self.held.left.as_ref()
    }

    /// Its question.
    pub fn call(&self) -> &Call
        ensures value { result.now ≡ ask.Location (question self.now.operand) }
        ensures within { IsWithin cell_calls (ask.Location (question self.now.operand)) }
    {
        &self.held.call
    }

    /// The opcode of its question: GetEntryByName for a path, GetEntryByID for a fid.
    pub fn opcode(&self) -> u32
        ensures { result ≡ call_number (ask.Location (question self.now.operand)) }
    {
        match &self.held.operand {
            Operand::Path(_) => 504,
            Operand::Fid(_) => 503,
        }
    }
}
