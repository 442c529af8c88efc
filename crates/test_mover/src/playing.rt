//! An administrator that begins an act and is given messages.

ghost use Rattle.std.specs.Prelude.{◌≡◌, ◌≤◌, ◌<◌, ◌+◌, None, length, IfOk, IfSome};
ghost use Rattle.afs_adminparts.specs.Fitting.{IsShortAdminAct};

use crate::words::{bytes_of, put_hex};
use afs_mover::Mover;
use afs_num::sequences::Octets;
use afs_num::types::{Mem, Node};
use spec_history::lines::{Line, Outs};
use spec_history::orders::SharedAdminAct;
use spec_history::scripts::AdminAct;
use std::alloc::Global;
use std::fmt::Write;

/// So many rows are played at most.
const MOST_STEPS: u32 = 1000;

/// A volume's name of 32 bytes at most.
fn name_of(alloc: Global, text: &str) -> Option<Octets>
    ensures { IfSome result (λ name. length name ≤ 32) }
{
    let name = Octets::from_slice(alloc, text.as_bytes()).ok()?;
    if name.len() > 32 {
        drop(name);
        return None;
    }
    Some(name)
}

/// The label of a dump.
fn label(alloc: Global) -> Option<Octets> {
    Octets::from_slice(alloc, "d1".as_bytes()).ok()
}

/// A new volume at server 1, with a quota of 10.
fn creation(alloc: Global) -> Option<AdminAct>
    ensures { IfSome result (λ act. IsShortAdminAct act) }
{
    Some(AdminAct::Create {
        name: name_of(alloc, "more")?,
        server: 1,
        quota: 10,
    })
}

/// A whole dump.
fn dump(alloc: Global) -> Option<AdminAct>
    ensures { IfSome result (λ act. IsShortAdminAct act) }
{
    Some(AdminAct::Dump {
        name: name_of(alloc, "proj")?,
        label: label(alloc)?,
        from: 0,
    })
}

/// A new volume at server 1 from that dump.
fn restoration(alloc: Global) -> Option<AdminAct>
    ensures { IfSome result (λ act. IsShortAdminAct act) }
{
    Some(AdminAct::Restore {
        name: name_of(alloc, "copy")?,
        server: 1,
        label: label(alloc)?,
    })
}

/// The act that a row names.
fn act_of(alloc: Global, row: &str) -> Option<AdminAct>
    ensures { IfSome result (λ act. IsShortAdminAct act) }
{
    if row == "create" {
        return creation(alloc);
    }
    if row == "dump" {
        return dump(alloc);
    }
    if row == "restore" {
        return restoration(alloc);
    }
    None
}

/// What it does at the begin of an act, if none runs, after so many steps.
fn begins(mover: &mut Mover, act: &SharedAdminAct, steps: u32) -> Option<Outs>
    requires on { mover.old.state.last ≤ steps }
    requires few { steps < 1000 }
    requires short { IsShortAdminAct act.now }
    ensures { IfSome result (λ _. mover.new.state.last ≤ steps + 1) }
{
    match mover.waits_on() {
        Some(_) => None,
        None => mover.act(act).ok(),
    }
}

/// The same of an act that isn't shared.
fn takes_up(alloc: Global, mover: &mut Mover, act: AdminAct, steps: u32) -> Option<Outs>
    requires on { mover.old.state.last ≤ steps }
    requires few { steps < 1000 }
    requires short { IsShortAdminAct act }
    ensures { IfSome result (λ _. mover.new.state.last ≤ steps + 1) }
{
    let act = SharedAdminAct::new(alloc, act).ok()?;
    let outs = begins(mover, &act, steps);
    drop(act);
    outs
}

/// What it does with a message, after so many steps.
fn hears(mover: &mut Mover, bytes: &[u8], steps: u32) -> Mem<Outs>
    requires on { mover.old.state.last ≤ steps }
    requires few { steps < 1000 }
    ensures { IfOk result (λ _. mover.new.state.last ≤ steps + 1) }
{
    mover.receive(bytes)
}

/// Its unanswered call is timed out, after so many steps.
fn late(mover: &mut Mover, steps: u32) -> Option<Outs>
    requires on { mover.old.state.last ≤ steps }
    requires few { steps < 1000 }
    ensures { IfSome result (λ _. mover.new.state.last ≤ steps + 1) }
{
    mover.waits_on()?;
    mover.timeout().ok()
}

/// What comes of a row: an act, the bytes of a message, or that the call is timed out.
fn takes(alloc: Global, mover: &mut Mover, row: &str, steps: u32) -> Option<Outs>
    requires on { mover.old.state.last ≤ steps }
    requires few { steps < 1000 }
    ensures { IfSome result (λ _. mover.new.state.last ≤ steps + 1) }
{
    if row == "late" {
        return late(mover, steps);
    }
    match act_of(alloc, row) {
        Some(act) => takes_up(alloc, mover, act, steps),
        None => {
            let bytes = bytes_of(alloc, row).ok()?;
            hears(mover, bytes.as_slice(), steps).ok()
        }
    }
}

fn put_line(out: &mut String, line: &Line) -> Mem<()> {
    match line {
        Line::BeginAdmin { .. } => out.push_str("begin "),
        Line::Answer { code, .. } => write!(out, "answer {} ", code.0),
        Line::Timeout { number, count, .. } => write!(out, "timeout {number} {count} "),
        Line::Dumped { length, .. } => write!(out, "dumped {length} "),
        _ => out.push_str("another "),
    }
}

/// The lines and the messages of a step.
fn put_outs(out: &mut String, outs: &Outs) -> Mem<()> {
    for line in outs.lines.as_slice() {
        put_line(out, line)?;
    }
    for parcel in outs.parcels.as_slice() {
        put_hex(out, parcel.bytes.as_slice())?;
    }
    out.push('\n')
}

/// What the administrator does by these rows, one after the other.
fn give_all(alloc: Global, out: &mut String, mover: &mut Mover, rows: &str) -> Option<()>
    requires { mover.old.state.last ≤ 0 }
{
    let mut steps: u32 = 0;
    for row in rows.lines() {
        if steps >= MOST_STEPS {
            return None;
        }
        let outs = takes(alloc, mover, row, steps)?;
        put_outs(out, &outs).ok()?;
        steps = steps + 1;
    }
    Some(())
}

fn put_played(alloc: Global, out: &mut String, rows: &str) -> Option<()> {
    let mut mover = Mover::new(alloc, Node::Admin(1), 1, 1);
    let told = give_all(alloc, out, &mut mover, rows);
    drop(mover);
    told
}

/// What a new administrator tells and sends by these rows.
pub(crate) fn told(alloc: Global, rows: &str) -> String {
    let mut out = String::new(alloc);
    if put_played(alloc, &mut out, rows).is_none() {
        let _ = out.push_str("failed\n");
    }
    out
}
