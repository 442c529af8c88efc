//! The script that the source holds.

ghost use Rattle.std.specs.Prelude.{◌≡◌, ◌<◌, ◌+◌, length, IfErr, IfOk, Ok};
ghost use Rattle.afs_grammar.specs.Lines.{script_of};
ghost use Rattle.afs_outside.specs.Outside.{TakesAtMost};
ghost use Rattle.afs_command.specs.Spans.{span};
ghost use Rattle.afs_command.specs.Reading.{refusal_status, IsLongRefusal, RefusedBy, GivesNone, GivesScript, level};

use crate::statuses::Status;
use afs_grammar::forms::Form;
use afs_grammar::{ScriptFault, read_script};
use afs_ground::SetUpGround;
use afs_num::scripts::Reason;
use afs_outside::outside::{ReadError, Source, read_all};
use spec_history::scripts::Script;
use std::alloc::Global;

/// The most bytes of a script.
const MOST_BYTES: u32 = 16_777_216;

/// How far the grammar is built.
const FORM: Form = Form { level: 9 };

/// Why an input can't be played: it is no script, by its first bad line, or memory ran out.
#[derive(Drop)]
pub enum Refusal {
    Script(u32, Reason),
    OutOfMemory,
}

impl Refusal {
    /// The status of a call that it ends.
    fn status(self) -> Status
        ensures { result ≡ refusal_status self }
    {
        match self {
            Refusal::Script(line, reason) => Status::Script(line, reason),
            Refusal::OutOfMemory => Status::OutOfMemory,
        }
    }
}

/// The script of the input.
fn script(alloc: Global, input: &[u8]) -> Result<Script, Refusal>
    ensures script { IfOk result (λ s. script_of level input.now ≡ Ok s) }
    ensures bad { RefusedBy input.now result }
{
    let mut ground = SetUpGround::new(alloc);
    match read_script(alloc, FORM, &mut ground, input) {
        Ok(script) => Ok(script),
        Err(ScriptFault::Line(line, reason)) => Err(Refusal::Script(line, reason)),
        Err(ScriptFault::OutOfMemory) => Err(Refusal::OutOfMemory),
    }
}

/// Why an input that is longer than a script may be is none.
fn refusal_of_long(alloc: Global, input: &[u8]) -> Refusal
    requires { 16777216 < length input.now }
    ensures { IsLongRefusal input.now result }
{
    match script(alloc, input) {
        Ok(_) => unreachable!(),
        Err(refusal) => refusal,
    }
}

/// The script that the source holds, or the status of a call that ends here: the input is no script, the source failed, or
/// memory ran out.
pub fn script_in<S: Source>(alloc: Global, source: &mut S) -> Result<Script, Status>
    ensures script { IfOk result (GivesScript (span (S.left source.old) (S.left source.new)) (span (S.faults source.old) (S.faults source.new))) }
    ensures none { IfErr result (GivesNone (span (S.left source.old) (S.left source.new)) (span (S.faults source.old) (S.faults source.new))) }
    ensures stops { TakesAtMost (16777216 + 1) (S.left source.old) (S.left source.new) }
{
    let input = match read_all(alloc, source, MOST_BYTES) {
        Ok(input) => input,
        Err(ReadError::Failed) => return Err(Status::ReadFault),
        Err(ReadError::TooLong(front)) => {
            return Err(refusal_of_long(alloc, front.as_slice()).status());
        }
        Err(ReadError::OutOfMemory) => return Err(Status::OutOfMemory),
    };
    match script(alloc, input.as_slice()) {
        Ok(script) => Ok(script),
        Err(refusal) => Err(refusal.status()),
    }
}
