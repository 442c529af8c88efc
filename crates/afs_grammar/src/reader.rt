//! The reader of scripts.

ghost use Rattle.std.specs.Prelude.{◌≡◌, ◌<◌, ◌≤◌, [], length, IfOk, OnOk};
ghost use Rattle.spec_model.specs.Script.{at_line};
ghost use Rattle.afs_grammar.specs.Lines.{line_at, lines_read_from, nothing_read, script_of};
ghost use Rattle.afs_words.specs.Reads.{GivesAtLine, IsAtLine};
ghost use Rattle.afs_grammar.specs.Heard.{HearsAtLine};

use crate::forms::Form;
use crate::ground::Ground;
use crate::lines::LinesRead;
use afs_num::scripts::Reason;
use afs_words::faults::{LineFault, ScriptFault};
use afs_words::parts::Parts;
use spec_history::scripts::Script;
use std::alloc::Global;

/// The most bytes of a script.
const BYTES: usize = 16_777_216;

/// The outcome for the line with this number.
fn at_line<T>(number: u32, outcome: Result<T, LineFault>) -> Result<T, ScriptFault>
    ensures { IsAtLine number outcome result }
{
    match outcome {
        Ok(value) => Ok(value),
        Err(LineFault::Bad(reason)) => Err(ScriptFault::Line(number, reason)),
        Err(LineFault::OutOfMemory) => Err(ScriptFault::OutOfMemory),
    }
}

/// One more line is read.
fn read_line<G: Ground>(
    reading: &mut LinesRead,
    alloc: Global,
    form: Form,
    ground: &mut G,
    number: u32,
    room: usize,
    line: &[u8],
) -> Result<(), ScriptFault>
    requires laid { G.lays ground.old reading.old.volumes }
    requires few { length reading.old.volumes < number }
    ensures value { HearsAtLine (at_line number (line_at form.level reading.old number room line.now)) reading.new result }
    ensures laid { OnOk result (G.lays ground.new reading.new.volumes) }
    ensures grows { OnOk result (length reading.new.volumes ≤ number) }
    ensures within { OnOk result (length line.now < room) }
    ensures few { OnOk result (number ≤ 200000) }
{
    at_line(
        number,
        reading.line(alloc, form, ground, number, room, line),
    )
}

fn read_lines<G: Ground>(
    alloc: Global,
    form: Form,
    ground: &mut G,
    mut lines: Parts<'_>,
) -> Result<Script, ScriptFault>
    requires { G.lays ground.old [] }
    ensures script { GivesAtLine (lines_read_from form.level nothing_read 0 16777216 lines.entry) result }
    ensures laid { IfOk result (λ s. G.lays ground.new s.volumes) }
{
    let mut reading = LinesRead::new(alloc);
    let mut number = 0u32;
    let mut room = BYTES;
    while let Some(line) = lines.closed_part() {
        number += 1;
        read_line(&mut reading, alloc, form, ground, number, room, line)?;
        room -= line.len() + 1;
    }
    let Some(last) = lines.part() else {
        return Err(ScriptFault::Line(number + 1, Reason::Missing));
    };
    match reading.last(number + 1, room, last) {
        Ok(script) => Ok(script),
        Err(reason) => Err(ScriptFault::Line(number + 1, reason)),
    }
}

/// The script of these bytes, or the first bad line and its reason. Its volumes are laid on the ground, where nothing stood.
#[tactic(auto, unfolding(crate::specs::Lines::script_of))]
pub fn read_script<G: Ground>(
    alloc: Global,
    form: Form,
    ground: &mut G,
    bytes: &[u8],
) -> Result<Script, ScriptFault>
    requires { G.lays ground.old [] }
    ensures script { GivesAtLine (script_of form.level bytes.now) result }
    ensures laid { IfOk result (λ s. G.lays ground.new s.volumes) }
{
    read_lines(alloc, form, ground, Parts::new(bytes, b'\n'))
}
