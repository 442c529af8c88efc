//! What the records of a volume server tell.

ghost use Rattle.std.specs.Prelude.{◌≡◌, ◌++◌, ◌+◌, [], drop, IfOk, OnOk, if◌then◌else◌};
ghost use Rattle.afs_num.specs.declared.records.RecordHead.{RecordHead};
ghost use Rattle.spec_ideal.specs.SetUp.{first_versions};
ghost use Rattle.spec_ideal.specs.Tables.{get};
ghost use Rattle.spec_ideal.specs.Volumes.{version_at};
ghost use Rattle.spec_records.specs.Durable.{Durable, is_flagged};
ghost use Rattle.spec_fold.specs.Effects.{create_lines, effect_by, flag_lines, lines_told_of, made_lines, released_lines, turn_lines, vanish_lines, vanished_lines, version_lines, whole_lines};
ghost use Rattle.afs_seats.specs.Seated.{seen_as};
ghost use Rattle.afs_shelves.specs.Deeds.{deed_body, IsMadeIn};
ghost use Rattle.afs_shelves.specs.Shelving.{kept_on, shelved, with_shelves};
ghost use Rattle.afs_shelves.specs.Words.{version_within, AreInWords};
ghost use Rattle.afs_volume.specs.Seen.{all_seen, seen};

use crate::deed::Deed;
use crate::shelf::Shelf;
use crate::shelves::Shelves;
use afs_num::histories::Version;
use afs_num::types::{Fid, Mem, Node};
use afs_num::vnodes::Vnode;
use afs_volume::Volume;
use spec_history::lines::{Line, Lines};

/// The flag of a volume that goes at the next start.
const DELETE_ON_SALVAGE: u32 = 1;

/// The kinds of volumes that can be changed, and of those that are only read.
const READ_WRITE: u32 = 0;

const READ_ONLY: u32 = 1;

/// The version of a vnode with this number and image.
#[tactic(auto, unfolding(afs_volume::specs::Seen::seen))]
pub fn version(volume: &Volume, number: u32, image: &Vnode) -> Mem<Version>
    ensures value { IfOk result (λ v. v ≡ version_at volume.now.head.id number (seen image.now)) }
    ensures within { IfOk result (λ v. version_within v ≡ v) }
{
    let version = volume.version_of(image)?;
    Ok(Version {
        fid: Fid {
            volume: volume.head().id,
            vnode: number,
            unique: image.unique,
        },
        index: image.index,
        data_version: image.data_version,
        body: version.body,
    })
}

/// Tells the vnode in a place of a volume, if there is one.
fn tell_place(volume: &Volume, place: u32, lines: &mut Lines) -> Mem<()>
    ensures told { OnOk result (lines.new ++ version_lines (first_versions volume.now.head.id (all_seen (drop (place + 1) volume.now.vnodes.table))) ≡ lines.old ++ version_lines (first_versions volume.now.head.id (all_seen (drop place volume.now.vnodes.table)))) }
    ensures words { OnOk result (AreInWords lines.old → AreInWords lines.new) }
{
    match volume.vnodes().at(place) {
        Some(image) => {
            let version = version(volume, image.vnode, image)?;
            lines.push(Line::Version { version })
        }
        None => Ok(()),
    }
}

/// Tells a volume whole.
fn tell_whole(server: Node, shelf: &Shelf, lines: &mut Lines) -> Mem<()>
    ensures told { OnOk result (lines.new ≡ lines.old ++ whole_lines server shelf.now.volume.head.id (shelved shelf.now)) }
    ensures words { OnOk result (AreInWords lines.old → AreInWords lines.new) }
{
    let volume = &shelf.volume;
    let count = volume.vnodes().len() as u32;
    lines.push(Line::Made {
        server,
        volume: volume.head().id,
        count,
    })?;
    for place in 0..count {
        tell_place(volume, place, lines)?;
    }
    Ok(())
}

/// Tells that a volume goes, where it is a read-write one.
fn tell_gone(server: Node, shelf: &Shelf, lines: &mut Lines) -> Mem<()>
    ensures told { OnOk result (lines.new ≡ lines.old ++ vanish_lines server shelf.now.volume.head.id (shelved shelf.now)) }
    ensures words { OnOk result (AreInWords lines.old → AreInWords lines.new) }
{
    let head = shelf.volume.head();
    if head.kind != READ_WRITE {
        return Ok(());
    }
    lines.push(Line::Vanish {
        volume: head.id,
        server,
    })
}

/// Tells a volume that was made, where it accepts stores at once.
fn tell_created(server: Node, shelf: &Shelf, lines: &mut Lines) -> Mem<()>
    ensures told { OnOk result (lines.new ≡ lines.old ++ create_lines server shelf.now.volume.head.id (shelved shelf.now)) }
    ensures words { OnOk result (AreInWords lines.old → AreInWords lines.new) }
{
    let head = shelf.volume.head();
    if head.kind != READ_WRITE || head.flags != 0 {
        return Ok(());
    }
    tell_whole(server, shelf, lines)?;
    lines.push(Line::Enable {
        volume: head.id,
        server,
    })
}

/// Tells a new volume whole, where its flags become 0 for the first time.
fn tell_made(server: Node, shelf: &Shelf, flags: u32, lines: &mut Lines) -> Mem<()>
    ensures told { OnOk result (lines.new ≡ lines.old ++ made_lines server shelf.now.volume.head.id flags (shelved shelf.now)) }
    ensures words { OnOk result (AreInWords lines.old → AreInWords lines.new) }
{
    if flags == 0 && shelf.is_new {
        tell_whole(server, shelf, lines)
    } else {
        Ok(())
    }
}

/// Tells that a read-write volume accepts stores from now on, or doesn't any more.
fn tell_turn(server: Node, id: u32, was: bool, is: bool, lines: &mut Lines) -> Mem<()>
    ensures told { OnOk result (lines.new ≡ lines.old ++ turn_lines server id was is) }
    ensures words { OnOk result (AreInWords lines.old → AreInWords lines.new) }
{
    match (was, is) {
        (true, false) => lines.push(Line::Fence { volume: id, server }),
        (false, true) => lines.push(Line::Enable { volume: id, server }),
        _ => Ok(()),
    }
}

/// Tells a volume whose flags are set to 0, where it is a read-only one.
fn tell_released(server: Node, shelf: &Shelf, lines: &mut Lines) -> Mem<()>
    ensures told { OnOk result (lines.new ≡ lines.old ++ released_lines server shelf.now.volume.head.id (shelved shelf.now)) }
    ensures words { OnOk result (AreInWords lines.old → AreInWords lines.new) }
{
    let head = shelf.volume.head();
    if head.kind != READ_ONLY {
        return Ok(());
    }
    lines.push(Line::Released {
        family: head.family,
        volume: head.id,
        release: head.release,
        server,
    })
}

/// Tells that a volume gets these flags.
fn tell_flagged(server: Node, shelf: &Shelf, flags: u32, lines: &mut Lines) -> Mem<()>
    ensures told { OnOk result (lines.new ≡ lines.old ++ flag_lines server shelf.now.volume.head.id flags (shelved shelf.now)) }
    ensures words { OnOk result (AreInWords lines.old → AreInWords lines.new) }
{
    let head = shelf.volume.head();
    if head.kind == READ_WRITE {
        tell_made(server, shelf, flags, lines)?;
        tell_turn(server, head.id, head.flags == 0, flags == 0, lines)
    } else if flags == 0 {
        tell_released(server, shelf, lines)
    } else {
        Ok(())
    }
}

/// Whether a volume goes at the next start.
pub(crate) fn is_flagged(shelf: &Shelf) -> bool
    ensures { result ≡ is_flagged (shelved shelf.now) }
{
    shelf.volume.head().flags & DELETE_ON_SALVAGE != 0
}

/// Tells that a volume goes, where it goes at the next start.
fn tell_at_start(server: Node, shelf: &Shelf, lines: &mut Lines) -> Mem<()>
    ensures told { OnOk result (lines.new ≡ lines.old ++ (if is_flagged (shelved shelf.now) then vanish_lines server shelf.now.volume.head.id (shelved shelf.now) else [])) }
    ensures words { OnOk result (AreInWords lines.old → AreInWords lines.new) }
{
    if is_flagged(shelf) {
        tell_gone(server, shelf, lines)
    } else {
        Ok(())
    }
}

impl Shelves {
    /// Tells that the volume in a place goes, if there is one that goes at the next start.
    fn tell_vanished(&self, server: Node, place: usize, lines: &mut Lines) -> Mem<()>
        ensures told { OnOk result (lines.new ++ vanished_lines server (seen_as shelved (drop (place + 1) self.now.volumes.table)) ≡ lines.old ++ vanished_lines server (seen_as shelved (drop place self.now.volumes.table))) }
        ensures words { OnOk result (AreInWords lines.old → AreInWords lines.new) }
    {
        match self.volumes.at(place) {
            Some(item) => tell_at_start(server, &item.1, lines),
            None => Ok(()),
        }
    }

    /// What a start tells: the read-write volumes that it deletes.
    pub fn vanished(&self, server: Node) -> Mem<Lines>
        ensures value { IfOk result (λ ls. ls ≡ vanished_lines server (kept_on self.now).volumes) }
        ensures words { IfOk result (λ ls. AreInWords ls) }
    {
        let mut lines = Lines::new(self.alloc);
        for place in 0..self.volumes.len() {
            self.tell_vanished(server, place, &mut lines)?;
        }
        Ok(lines)
    }

    /// Tells that the volume of this number goes, if it is there.
    fn tell_deleted(&self, server: Node, id: u32, lines: &mut Lines) -> Mem<()>
        ensures told { OnOk result (lines.new ≡ lines.old ++ lines_told_of (vanish_lines server id) (get id (kept_on self.now).volumes)) }
        ensures words { OnOk result (AreInWords lines.old → AreInWords lines.new) }
    {
        match self.shelf(id) {
            Some(shelf) => tell_gone(server, shelf, lines),
            None => Ok(()),
        }
    }

    /// Tells that the volume of this number gets these flags, if it is there.
    fn tell_set(&self, server: Node, id: u32, flags: u32, lines: &mut Lines) -> Mem<()>
        ensures told { OnOk result (lines.new ≡ lines.old ++ lines_told_of (flag_lines server id flags) (get id (kept_on self.now).volumes)) }
        ensures words { OnOk result (AreInWords lines.old → AreInWords lines.new) }
    {
        match self.shelf(id) {
            Some(shelf) => tell_flagged(server, shelf, flags, lines),
            None => Ok(()),
        }
    }

    /// What a deed tells, before it is done.
    pub fn lines(&self, server: Node, deed: &Deed) -> Mem<Lines>
        requires { IsMadeIn (kept_on self.now) deed.now }
        ensures value { IfOk result (λ ls. (h : RecordHead) (d : Durable) → ls ≡ effect_by server h (deed_body deed.now) (with_shelves d self.now)) }
        ensures words { IfOk result (λ ls. AreInWords ls) }
    {
        let mut lines = Lines::new(self.alloc);
        match deed {
            Deed::Create(shelf) => tell_created(server, shelf, &mut lines)?,
            Deed::Delete(id) => self.tell_deleted(server, *id, &mut lines)?,
            Deed::Flags(id, flags) => self.tell_set(server, *id, *flags, &mut lines)?,
            _ => {}
        }
        Ok(lines)
    }
}
