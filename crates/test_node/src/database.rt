//! A location database that is played over a disk in memory.

ghost use Rattle.std.specs.Prelude.{◌≡◌, false, IfOk, IfSome};
ghost use Rattle.afs_num.specs.declared.types.Node.TheVariants.{Loc};
ghost use Rattle.test_node.specs.Hearing.{Hears, IsSound};

use crate::disks::laid_out;
use crate::words::put_hex;
use afs_disk::{Disk, MemDisk};
use afs_locdb::LocDb;
use afs_num::records::Mark;
use afs_num::types::Mem;
use afs_server_parts::faults::NodeFault;
use spec_history::lines::{Line, Outs};
use std::alloc::Global;
use std::fmt::Write;

/// The record of set-up, behind its length and its number: the volume proj on server 1, and docs on server 3.
fn first_record() -> &'static str {
    "\
    88 1 1 0 0 0 0 0 0 2 4 70726f6a 20000000 0 0 1000 1 1 4 0 0 0 4 646f6373 20000001 0 0 1000 1 3 4 0 0 0 20000002 1"
}

/// A database in one boot. It is up until a step fails.
pub(crate) struct Life {
    pub(crate) base: LocDb<MemDisk>,
    pub(crate) is_up: bool,
}

/// It ends by a drop of its own: what holds it has one drop to prove where it ends.
impl Drop for Life {
    fn drop(self) {
        let Life { base, is_up: _ } = self;
        drop(base);
    }
}

/// The next boot of a database that was just attached.
fn risen(base: LocDb<MemDisk>) -> Option<Life>
    requires up { base.store.closed ≡ false }
    requires node { base.store.node ≡ Loc }
    ensures { IfSome result (λ l. IsSound l.base l.is_up) }
{
    let mut base = base;
    match base.boot() {
        Ok(lines) => {
            drop(lines);
            Some(Life { base, is_up: true })
        }
        Err(_) => {
            drop(base);
            None
        }
    }
}

/// A database begins over a disk, of which this mark was told.
fn begun(alloc: Global, disk: MemDisk, told: Mark) -> Option<Life>
    ensures { IfSome result (λ l. IsSound l.base l.is_up) }
{
    if disk.capacity() > 268_435_456 {
        drop(disk);
        return None;
    }
    match LocDb::attach(alloc, disk, told) {
        Ok((base, lines)) => {
            drop(lines);
            risen(base)
        }
        Err((_, disk)) => {
            drop(disk);
            None
        }
    }
}

/// A database begins over the disk at set-up.
pub(crate) fn first_life(alloc: Global) -> Option<Life>
    ensures { IfSome result (λ l. IsSound l.base l.is_up) }
{
    let disk = laid_out(alloc, first_record())?;
    let told = Mark {
        generation: 0,
        records: 1,
    };
    begun(alloc, disk, told)
}

/// What the database does with a message.
fn hears(base: &mut LocDb<MemDisk>, bytes: &[u8]) -> Result<Outs, NodeFault>
    requires { Hears base.old }
    ensures { IfOk result (λ _. Hears base.new) }
{
    base.handle(bytes)
}

/// The database is given this message. `None` where it is down, or goes down.
fn give(life: &mut Life, bytes: &[u8]) -> Option<Outs>
    requires { IsSound life.old.base life.old.is_up }
    ensures { IsSound life.new.base life.new.is_up }
{
    if !life.is_up {
        return None;
    }
    match hears(&mut life.base, bytes) {
        Ok(outs) => Some(outs),
        Err(_) => {
            life.is_up = false;
            None
        }
    }
}

fn put_line(out: &mut String, line: &Line) -> Mem<()> {
    match line {
        Line::Locked {
            volume,
            stamp,
            operation,
        } => write!(out, "locked {volume} {stamp} {operation} "),
        Line::Unlocked { volume } => write!(out, "unlocked {volume} "),
        Line::Located { volume, server } => {
            write!(out, "located {volume} s{} ", server.number())
        }
        _ => out.push_str("another "),
    }
}

/// The lines and messages of a step, each message without its header; or that the database is down.
fn put_outs(out: &mut String, outs: Option<&Outs>) -> Mem<()> {
    let Some(outs) = outs else {
        return out.push_str("down ");
    };
    for line in outs.lines.as_slice() {
        put_line(out, line)?;
    }
    for parcel in outs.parcels.as_slice() {
        out.push_str("sent ")?;
        put_hex(out, parcel.bytes.as_slice().get(32..).unwrap_or(&[]))?;
        out.push(' ')?;
    }
    Ok(())
}

/// What it tells and sends for a message.
pub(crate) fn put_given(out: &mut String, life: &mut Life, bytes: &[u8]) -> Option<()>
    requires { IsSound life.old.base life.old.is_up }
    ensures { IsSound life.new.base life.new.is_up }
{
    let outs = give(life, bytes);
    put_outs(out, outs.as_ref()).ok()
}
