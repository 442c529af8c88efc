//! What a server that is played tells and sends, as text.

ghost use Rattle.std.specs.Prelude.{IfSome};
ghost use Rattle.test_node.specs.Playing.{GoesOn};

use crate::disks::laid_out;
use crate::playing::{Running, begun, give};
use crate::vectors::{Message, first_record};
use crate::words::put_hex;
use afs_num::records::Mark;
use afs_num::types::Mem;
use spec_history::lines::{Line, Lines};
use std::alloc::Global;
use std::fmt::Write;

fn put_line(out: &mut String, line: &Line) -> Mem<()> {
    match line {
        Line::Grant { .. } => out.push_str("grant "),
        Line::Change { .. } => out.push_str("change "),
        Line::Owe { .. } => out.push_str("owe "),
        Line::Settle { .. } => out.push_str("settle "),
        _ => out.push_str("another "),
    }
}

fn put_lines(out: &mut String, lines: &Lines) -> Mem<()> {
    for line in lines.as_slice() {
        put_line(out, line)?;
    }
    Ok(())
}

/// Bytes in hexadecimal digits, on a line of their own.
fn put_bytes(out: &mut String, bytes: &[u8]) -> Mem<()> {
    put_hex(out, bytes)?;
    out.push('\n')
}

/// The lines and messages of the last step, and how many records stand on the disk by then.
fn put_step(out: &mut String, running: &Running) -> Mem<()> {
    put_lines(out, &running.outs.lines)?;
    writeln!(out, "records {}", running.store.mark().records)?;
    for parcel in running.outs.parcels.as_slice() {
        put_bytes(out, parcel.bytes.as_slice())?;
    }
    Ok(())
}

/// A server begins over the disk at set-up.
fn started(alloc: Global) -> Option<Running>
    ensures { IfSome result (λ r. GoesOn r.server r.store r.steps) }
{
    let disk = laid_out(alloc, first_record())?;
    let told = Mark {
        generation: 0,
        records: 1,
    };
    begun(alloc, disk, told)
}

/// The server is given this message, and what it does is told.
fn put_given(alloc: Global, out: &mut String, running: &mut Running, message: Message) -> Option<()>
    requires { GoesOn running.old.server running.old.store running.old.steps }
    ensures { IfSome result (λ _. GoesOn running.new.server running.new.store running.new.steps) }
{
    give(alloc, running, message)?;
    put_step(out, running).ok()
}

/// Both clients answer that all promises are broken; then the server is given this message, and client 1's good call.
fn put_calls(alloc: Global, out: &mut String, running: &mut Running, message: Message) -> Option<()>
    requires { GoesOn running.old.server running.old.store running.old.steps }
{
    give(alloc, running, Message::SettledByOne)?;
    give(alloc, running, Message::SettledByTwo)?;
    put_given(alloc, out, running, message)?;
    put_given(alloc, out, running, Message::Fetch)
}

fn put_told(alloc: Global, out: &mut String, message: Message) -> Option<()> {
    let mut running = started(alloc)?;
    let told = put_calls(alloc, out, &mut running, message);
    drop(running);
    told
}

/// What a server does with this message, and with client 1's good call behind it.
pub(crate) fn told_behind(alloc: Global, message: Message) -> String {
    let mut out = String::new(alloc);
    if put_told(alloc, &mut out, message).is_none() {
        let _ = out.push_str("failed\n");
    }
    out
}
