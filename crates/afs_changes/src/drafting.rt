//! The draft of a change, edit by edit.

ghost use Rattle.std.specs.Prelude.{◌≡◌, ◌∷◌, [], true, map, Some, IfOk, OnOk};
ghost use Rattle.std.specs.List.{AllByRecursion};
ghost use Rattle.spec_ideal.specs.Operations.{free_fits};
ghost use Rattle.spec_ideal.specs.Volumes.{amends, frees, gone_at, makes, version_at};
ghost use Rattle.afs_changes.specs.Drafts.{Draws};
ghost use Rattle.afs_changes.specs.Drawing.{all_freed, all_left, all_told, freed_by, left_by, numbered, shown_by, told_by, CanBeDrawn, IsLeft};
ghost use Rattle.afs_changes.specs.Planning.{amend_seen, edit_seen, edits_seen};
ghost use Rattle.afs_volume.specs.Giving.{volume_of};
ghost use Rattle.afs_volume.specs.Listed.{listed_as};
ghost use Rattle.afs_volume.specs.Seen.{seen};

use crate::drawing::{amended, made};
use crate::edits::{Amend, Edit, New};
use afs_dir::Listing;
use afs_num::histories::{Body, Version, Versions};
use afs_num::types::Mem;
use afs_num::vnodes::{Vnode, VnodeNumbers, Vnodes};
use afs_volume::directories::listed_as;
use afs_volume::{ReadyNames, Volume};
use std::alloc::Global;

/// The time of a change, the versions that it tells, the vnodes that it leaves with their names, and the numbers of those that go.
#[derive(Drop)]
pub struct Draft {
    pub time: u32,
    pub versions: Versions,
    pub vnodes: Vnodes,
    pub names: ReadyNames,
    pub removed: VnodeNumbers,
}

impl Draft {
    fn new(alloc: Global, time: u32) -> Draft
        ensures time { result.time ≡ time }
        ensures versions { result.versions ≡ [] }
        ensures vnodes { result.vnodes ≡ [] }
        ensures names { result.names ≡ [] }
        ensures removed { result.removed ≡ [] }
    {
        Draft {
            time,
            versions: Versions::new(alloc),
            vnodes: Vnodes::new(alloc),
            names: ReadyNames::new(alloc),
            removed: VnodeNumbers::new(alloc),
        }
    }

    /// A vnode is left, with its version and its names.
    fn push_left(&mut self, version: Version, x: Vnode, names: Option<Listing>) -> Mem<()>
        requires left { IsLeft self.old.time x }
        requires named { names ≡ listed_as x }
        ensures { OnOk result (Draws (version ∷ []) (numbered x ∷ []) [] self.old self.new) }
    {
        self.versions.push(version)?;
        self.vnodes.push(x)?;
        self.names.push(names)?;
        Ok(())
    }

    /// A vnode is gone, with its last version.
    fn push_gone(&mut self, version: Version, number: u32) -> Mem<()>
        ensures { OnOk result (Draws (version ∷ []) [] (number ∷ []) self.old self.new) }
    {
        self.versions.push(version)?;
        self.removed.push(number)?;
        Ok(())
    }
}

/// A vnode is left. Its names are read once, for its version and for the volume.
fn draw_left(volume: &Volume, draft: &mut Draft, x: Vnode) -> Mem<()>
    requires { IsLeft draft.old.time x }
    ensures { OnOk result (Draws (version_at volume.now.head.id x.vnode (seen x) ∷ []) (numbered x ∷ []) [] draft.old draft.new) }
{
    let names = listed_as(volume.alloc, &x)?;
    let version = volume.version_named(&x, &names)?;
    draft.push_left(version, x, names)
}

/// The last version of a vnode that goes.
#[tactic(auto, unfolding(afs_volume::specs::Seen::seen))]
fn gone(volume: &Volume, x: &Vnode) -> Version
    requires { free_fits (Some (seen x.now)) ≡ true }
    ensures { result ≡ gone_at volume.now.head.id x.now.vnode (seen x.now) }
{
    Version {
        fid: volume.fid_of(x),
        index: x.index + 1,
        data_version: x.data_version + 1,
        body: Body::Gone,
    }
}

/// A vnode is amended.
fn draw_amended(volume: &Volume, draft: &mut Draft, number: u32, amend: &Amend) -> Mem<()>
    requires { CanBeDrawn (volume_of volume.now) (amends number (amend_seen amend.now)) }
    ensures { OnOk result (let v = volume_of volume.now in let e = amends number (amend_seen amend.now) in Draws (told_by volume.now.head.id v e) (left_by v e) (freed_by v e) draft.old draft.new) }
{
    let Some(x) = volume.get(number) else {
        return Ok(());
    };
    let after = amended(volume.alloc, x, amend, volume.head.counter + 1, draft.time)?;
    draw_left(volume, draft, after)
}

/// A vnode is made.
fn draw_made(volume: &Volume, draft: &mut Draft, number: u32, new: &New) -> Mem<()>
    requires { CanBeDrawn (volume_of volume.now) (makes number (seen new.now.vnode)) }
    ensures { OnOk result (let v = volume_of volume.now in let e = makes number (seen new.now.vnode) in Draws (told_by volume.now.head.id v e) (left_by v e) (freed_by v e) draft.old draft.new) }
{
    let after = made(
        volume.alloc,
        &new.vnode,
        number,
        volume.head.unique,
        volume.head.counter + 1,
        draft.time,
    )?;
    draw_left(volume, draft, after)
}

/// A vnode is freed.
fn draw_freed(volume: &Volume, draft: &mut Draft, number: u32) -> Mem<()>
    requires { CanBeDrawn (volume_of volume.now) (frees number) }
    ensures { OnOk result (let v = volume_of volume.now in let e = frees number in Draws (told_by volume.now.head.id v e) (left_by v e) (freed_by v e) draft.old draft.new) }
{
    match volume.get(number) {
        Some(x) => draft.push_gone(gone(volume, x), number),
        None => Ok(()),
    }
}

/// One edit more.
fn draw(volume: &Volume, draft: &mut Draft, edit: &Edit) -> Mem<()>
    requires { CanBeDrawn (volume_of volume.now) (edit_seen edit.now) }
    ensures { OnOk result (let v = volume_of volume.now in let e = edit_seen edit.now in Draws (told_by volume.now.head.id v e) (left_by v e) (freed_by v e) draft.old draft.new) }
{
    match edit {
        Edit::Amends(number, amend) => draw_amended(volume, draft, *number, amend),
        Edit::Makes(number, new) => draw_made(volume, draft, *number, new),
        Edit::Frees(number) => draw_freed(volume, draft, *number),
    }
}

/// What the edits tell and leave, at this time.
pub fn draft_of(volume: &Volume, edits: &[Edit], time: u32) -> Mem<Draft>
    requires { AllByRecursion (CanBeDrawn (volume_of volume.now)) (edits_seen edits.now) }
    ensures time { IfOk result (λ d. d.time ≡ time) }
    ensures versions { IfOk result (λ d. d.versions ≡ all_told volume.now.head.id (volume_of volume.now) (edits_seen edits.now)) }
    ensures vnodes { IfOk result (λ d. shown_by d.vnodes ≡ all_left (volume_of volume.now) (edits_seen edits.now)) }
    ensures removed { IfOk result (λ d. d.removed ≡ all_freed (volume_of volume.now) (edits_seen edits.now)) }
    ensures images { IfOk result (λ d. AllByRecursion (IsLeft time) d.vnodes) }
    ensures names { IfOk result (λ d. d.names ≡ map listed_as d.vnodes) }
{
    let mut draft = Draft::new(volume.alloc, time);
    for edit in edits {
        draw(volume, &mut draft, edit)?;
    }
    Ok(draft)
}
