//! What a record does to what stands in memory, what must be there first, and what it tells.

ghost use Rattle.std.specs.Prelude.{◌≡◌, ◌<◌, ◌++◌, [], Some, true, is_some, IfOk, IfSome, OnOk};
ghost use Rattle.std.specs.Option.{option_copied};
ghost use Rattle.spec_records.specs.LocDurable.{loc_body_taken, loc_with_reply};
ghost use Rattle.spec_records.specs.LocEffects.{located_lines, lock_before, deed_told, lock_told, loc_effect_by, locked_new, set_told, site_before, unlocked_of};
ghost use Rattle.spec_records.specs.LocRecords.{deed_form, listed_form, row};
ghost use Rattle.afs_locrecord.specs.Bodies as records;
ghost use Rattle.spec_records.specs.Entries.{is_read_write, site_of};
ghost use Rattle.afs_locstore.specs.Kept.{IsCaller};
ghost use Rattle.afs_locstore.specs.declared.ready.Redo as redos;
ghost use Rattle.afs_locstore.specs.States.{body_of, loc_done, parts_of, record_of, CanPut, HasRoomFor};

use crate::entries::Entries;
use crate::kept::KeptReplies;
use crate::memory::State;
use crate::ready::Redo;
use afs_locrecord::types::{Body, Deed, Doing, Listed, Lock};
use afs_num::location_calls::{LocEntry, LocSite};
use afs_num::records::RecordHead;
use afs_num::types::{Mem, Node};
use spec_history::lines::{Line, Lines};
use std::alloc::Global;

/// The boot number of a database whose first record is just being taken.
const FIRST_BOOT: u32 = 1;

/// Volumes are numbered from here on.
const FIRST_ID: u32 = 536_870_912;

/// And stamps from here.
const FIRST_STAMP: u32 = 1;

/// The flag of the site of a read-write volume.
const READ_WRITE: u32 = 4;

/// Tells a lock that is under another stamp than before, or is the first.
fn tell_locked(lines: &mut Lines, volume: u32, before: Option<&Lock>, lock: &Lock) -> Mem<()>
    ensures { OnOk result (lines.new ≡ lines.old ++ locked_new volume (option_copied before.entry) lock.now) }
{
    match before {
        Some(old) if old.stamp == lock.stamp => Ok(()),
        _ => lines.push(Line::Locked {
            volume,
            stamp: lock.stamp,
            operation: lock.operation,
        }),
    }
}

/// Tells that a lock goes; with one that was taken by force, that the recovery is done.
fn tell_unlocked(lines: &mut Lines, volume: u32, before: &Lock) -> Mem<()>
    ensures { OnOk result (lines.new ≡ lines.old ++ unlocked_of volume before.now) }
{
    if before.forced {
        lines.push(Line::Recovered { volume })?;
    }
    lines.push(Line::Unlocked { volume })
}

/// Tells what becomes of an entry's lock.
fn tell_lock(lines: &mut Lines, volume: u32, before: Option<&Lock>, after: Option<&Lock>) -> Mem<()>
    ensures { OnOk result (lines.new ≡ lines.old ++ lock_told volume (option_copied before.entry) (option_copied after.entry)) }
{
    match after {
        Some(lock) => tell_locked(lines, volume, before, lock),
        None => match before {
            Some(old) => tell_unlocked(lines, volume, old),
            None => Ok(()),
        },
    }
}

/// Whether it is the site of a read-write volume.
fn is_read_write(site: &LocSite) -> bool
    ensures { result ≡ is_read_write site.now }
{
    site.flags & READ_WRITE != 0
}

/// The server of the read-write volume.
fn site_of(entry: &LocEntry) -> Option<u32>
    ensures { result ≡ site_of entry.now }
{
    match entry
        .sites
        .as_slice()
        .iter()
        .find(|site| is_read_write(site))
    {
        Some(site) => Some(site.server),
        None => None,
    }
}

/// Tells the server of a read-write volume where that is another than before.
fn tell_located(lines: &mut Lines, volume: u32, before: Option<u32>, after: Option<u32>) -> Mem<()>
    requires { IfSome after (λ server. server < 256) }
    ensures { OnOk result (lines.new ≡ lines.old ++ located_lines volume before after) }
{
    match after {
        Some(server) if before != Some(server) => lines.push(Line::Located {
            volume,
            server: Node::Server(server as u8),
        }),
        _ => Ok(()),
    }
}

/// The lock that an entry had, if there was one.
fn lock_before(before: Option<&Listed>) -> Option<&Lock>
    ensures { option_copied result ≡ lock_before (option_copied before.entry) }
{
    match before {
        Some(listed) => listed.lock.as_ref(),
        None => None,
    }
}

/// The site that an entry had, if there was one.
fn site_before(before: Option<&Listed>) -> Option<u32>
    ensures { result ≡ site_before (option_copied before.entry) }
{
    match before {
        Some(listed) => site_of(&listed.entry),
        None => None,
    }
}

/// Tells what becomes of an entry: first its lock, then its site.
fn tell_set(lines: &mut Lines, listed: &Listed, before: Option<&Listed>) -> Mem<()>
    requires { listed_form.Fits listed.now }
    ensures { OnOk result (lines.new ≡ lines.old ++ set_told listed.now (option_copied before.entry)) }
{
    let volume = listed.entry.read_write;
    tell_lock(lines, volume, lock_before(before), listed.lock.as_ref())?;
    tell_located(lines, volume, site_before(before), site_of(&listed.entry))
}

impl State {
    /// What stands on a disk without records. It takes no memory.
    pub fn new(alloc: Global) -> State
        ensures boot { result.boot ≡ 1 }
        ensures entries { result.entries.table ≡ [] }
        ensures next_id { result.next_id ≡ 536870912 }
        ensures next_stamp { result.next_stamp ≡ 1 }
        ensures kept { result.kept.table ≡ [] }
    {
        State {
            boot: FIRST_BOOT,
            entries: Entries::new(alloc),
            next_id: FIRST_ID,
            next_stamp: FIRST_STAMP,
            kept: KeptReplies::new(alloc),
        }
    }

    /// Whether a record can be taken: only an entry that is there can go.
    pub fn can_take(&self, redo: &Redo) -> bool
        ensures { result ≡ is_some (loc_body_taken (body_of redo.now) (parts_of self.now)) }
    {
        match redo {
            Redo::Removes { entry, .. } => self.entries.get(entry.read_write).is_some(),
            _ => true,
        }
    }

    /// What a deed tells, before it is done.
    pub fn lines(&self, alloc: Global, deed: &Deed) -> Mem<Lines>
        requires { deed_form.Fits deed.now }
        ensures { IfOk result (λ ls. ls ≡ deed_told deed.now self.now.entries.table) }
    {
        let mut lines = Lines::new(alloc);
        match &deed.doing {
            Doing::Sets(listed) => {
                let before = self.entries.get(listed.entry.read_write);
                tell_set(&mut lines, listed, before)?;
            }
            Doing::Removes(entry) => lines.push(Line::Unlocked {
                volume: entry.read_write,
            })?,
            Doing::Leaves => {}
        }
        Ok(lines)
    }

    /// What a record's body tells, before it is taken.
    pub fn told(&self, alloc: Global, body: &Body) -> Mem<Lines>
        requires { (row (records.body_of body.now)).Fits }
        ensures { IfOk result (λ ls. ls ≡ loc_effect_by (records.body_of body.now) (parts_of self.now)) }
    {
        match body {
            Body::Database { deed, .. } => self.lines(alloc, deed),
            _ => Ok(Lines::new(alloc)),
        }
    }

    /// Makes room for what a record does, and for its reply. It takes no room away that was there.
    pub fn reserve(&mut self, redo: &Redo) -> Mem<()>
        ensures room { OnOk result (HasRoomFor redo.now self.new) }
        ensures parts { parts_of self.new ≡ parts_of self.old }
        ensures keeps { (other : redos.Redo) → HasRoomFor other self.old → HasRoomFor other self.new }
    {
        let added = match redo {
            Redo::First { placed, .. } => placed.len(),
            Redo::Sets { .. } => 1,
            _ => 0,
        };
        self.entries.reserve(added)?;
        self.kept.reserve()
    }

    /// The counters are these.
    fn count(&mut self, next_id: u32, next_stamp: u32)
        ensures { self.new ≡ record self.old { next_id = next_id; next_stamp = next_stamp } }
    {
        self.next_id = next_id;
        self.next_stamp = next_stamp;
    }

    /// Does what a record's body says. It takes no memory.
    fn take_body(&mut self, redo: Redo)
        requires can { CanPut redo }
        requires room { HasRoomFor redo self.old }
        requires taken { is_some (loc_body_taken (body_of redo) (parts_of self.old)) ≡ true }
        ensures parts { loc_body_taken (body_of redo) (parts_of self.old) ≡ Some (parts_of self.new) }
        ensures kept { self.new.kept ≡ self.old.kept }
    {
        match redo {
            Redo::First {
                placed,
                next_id,
                next_stamp,
            } => {
                self.entries.put_all(placed);
                self.count(next_id, next_stamp);
            }
            Redo::Boot { boot } => self.boot = boot,
            Redo::Sets {
                placed,
                next_id,
                next_stamp,
            } => {
                self.entries.put(placed);
                self.count(next_id, next_stamp);
            }
            Redo::Removes {
                entry,
                next_id,
                next_stamp,
            } => {
                self.entries.remove(entry.read_write);
                self.count(next_id, next_stamp);
            }
            Redo::Leaves {
                next_id,
                next_stamp,
            } => self.count(next_id, next_stamp),
        }
    }

    /// Keeps the reply of a record's head, where it has a caller. It takes no memory.
    fn note(&mut self, head: RecordHead)
        requires caller { IsCaller head.caller }
        requires room { 0 < self.old.kept.room }
        ensures { parts_of self.new ≡ loc_with_reply head.caller head (parts_of self.old) }
    {
        let RecordHead {
            family: _,
            stamp: _,
            caller,
            epoch,
            number,
            reply,
        } = head;
        let Some(caller) = caller else {
            return;
        };
        self.kept.keep(caller, epoch, number, reply);
    }

    /// Does what a record says. It takes no memory.
    pub fn redo(&mut self, head: RecordHead, redo: Redo)
        requires caller { IsCaller head.caller }
        requires can { CanPut redo }
        requires room { HasRoomFor redo self.old }
        requires taken { is_some (loc_body_taken (body_of redo) (parts_of self.old)) ≡ true }
        ensures { loc_done (record_of head redo) (parts_of self.old) ≡ Some (parts_of self.new) }
    {
        self.take_body(redo);
        self.note(head);
    }
}
