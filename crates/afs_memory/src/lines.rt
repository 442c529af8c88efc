//! The lines of a change, as a restart tells them.

ghost use Rattle.std.specs.Prelude.{◌≡◌, ◌++◌, ◌∷◌, ◌+◌, List, [], Some, None, drop, length, map, min, slice_get, IfOk, OnOk};
ghost use Rattle.std.specs.Option.{option_copied};
ghost use Rattle.std.specs.List.{AllByRecursion};
ghost use Rattle.afs_num.specs.declared.vnodes.Vnode as image;
ghost use Rattle.spec_ideal.specs.Operations.{last_count};
ghost use Rattle.spec_ideal.specs.Tables.{get};
ghost use Rattle.spec_ideal.specs.Volumes.{gone_at};
ghost use Rattle.spec_records.specs.Durable.{key_in, outcome_versions, versions_told, with_outcomes, with_removed};
ghost use Rattle.spec_fold.specs.Effects.{effect_by, vanished_lines};
ghost use Rattle.afs_volume.specs.Seen.{seen, volume_seen, IsReadable};
ghost use Rattle.afs_volume.specs.Taking.{stored_of};
ghost use Rattle.afs_memory.specs.Redos.{body_of, IsNoChange, IsReady, Suits};
ghost use Rattle.afs_memory.specs.States.{parts_of};
ghost use Rattle.afs_shelves.specs.Words.{AreInWords};
ghost use Rattle.afs_memory.specs.Telling.{in_words, outcome_at, outcomes_seen, told_at, version_within};

use crate::memory::State;
use crate::redo::Redo;
use afs_num::histories::{Body, Version, Versions};
use afs_num::records::RecordHead;
use afs_num::types::{Fid, Key, Mem, Node};
use afs_num::vnodes::Vnode;
use afs_num::volumes::Change;
use afs_seats::Seats;
use afs_shelves::telling::version;
use afs_volume::Volume;
use spec_history::lines::{Line, Lines};
use std::alloc::Global;

/// The image in a place.
fn image_at(images: &[Vnode], place: usize) -> Option<&Vnode>
    ensures { option_copied result ≡ slice_get images.now place }
{
    images.get(place)
}

/// Notes the place of an image, if there is one.
fn place_one(images: &[Vnode], place: usize, places: &mut Seats<Option<usize>>) -> Mem<()>
    ensures { OnOk result (with_outcomes (drop (place + 1) images.now) (outcomes_seen images.now places.new.table) ≡ with_outcomes (drop place images.now) (outcomes_seen images.now places.old.table)) }
{
    match image_at(images, place) {
        Some(image) => places.put(image.vnode, Some(place)),
        None => Ok(()),
    }
}

/// The place of the last image of each vnode.
fn places(alloc: Global, images: &[Vnode]) -> Mem<Seats<Option<usize>>>
    ensures { IfOk result (λ s. outcomes_seen images.now s.table ≡ with_outcomes images.now []) }
{
    let mut places = Seats::new(alloc);
    for place in 0..images.len() {
        place_one(images, place, &mut places)?;
    }
    Ok(places)
}

/// The number in a place.
fn number_at(numbers: &[u32], place: usize) -> Option<u32>
    ensures { result ≡ slice_get numbers.now place }
{
    match numbers.get(place) {
        Some(number) => Some(*number),
        None => None,
    }
}

/// Notes that a vnode goes, if there is a number in this place.
fn take_away(removed: &[u32], place: usize, outcomes: &mut Seats<Option<usize>>) -> Mem<()>
    ensures { OnOk result ((images : List image.Vnode) → with_removed (drop (place + 1) removed.now) (outcomes_seen images outcomes.new.table) ≡ with_removed (drop place removed.now) (outcomes_seen images outcomes.old.table)) }
{
    match number_at(removed, place) {
        Some(number) => outcomes.put(number, None),
        None => Ok(()),
    }
}

/// What becomes of each vnode that a change leaves or takes away: the place of its image, or none where it is gone.
fn outcomes(alloc: Global, images: &[Vnode], removed: &[u32]) -> Mem<Seats<Option<usize>>>
    ensures { IfOk result (λ s. outcomes_seen images.now s.table ≡ with_removed removed.now (with_outcomes images.now [])) }
{
    let mut outcomes = places(alloc, images)?;
    for place in 0..removed.len() {
        take_away(removed, place, &mut outcomes)?;
    }
    Ok(outcomes)
}

/// The last version of a vnode that goes.
#[tactic(auto, unfolding(afs_volume::specs::Seen::seen))]
fn gone(id: u32, number: u32, x: &Vnode) -> Version
    ensures { result ≡ version_within (gone_at id number (seen x.now)) }
{
    Version {
        fid: Fid {
            volume: id,
            vnode: number,
            unique: x.unique,
        },
        index: x.index.saturating_add(1),
        data_version: x.data_version.saturating_add(1),
        body: Body::Gone,
    }
}

/// Tells that a vnode of a volume is gone, if it is there.
fn tell_gone(volume: &Volume, number: u32, versions: &mut Versions) -> Mem<()>
    ensures { OnOk result (versions.new ≡ versions.old ++ map version_within (told_at volume.now.head.id (volume_seen volume.now.head volume.now.vnodes.table) number None)) }
{
    match volume.vnodes().get(number) {
        Some(x) => versions.push(gone(volume.head().id, number, x)),
        None => Ok(()),
    }
}

/// Tells what becomes of a vnode of a volume.
fn tell_one(
    volume: &Volume,
    images: &[Vnode],
    number: u32,
    outcome: Option<usize>,
    versions: &mut Versions,
) -> Mem<()>
    requires { AllByRecursion IsReadable images.now }
    ensures { OnOk result (versions.new ≡ versions.old ++ map version_within (told_at volume.now.head.id (volume_seen volume.now.head volume.now.vnodes.table) number (outcome_at images.now outcome))) }
{
    match outcome {
        Some(place) => match image_at(images, place) {
            Some(image) => versions.push(version(volume, number, image)?),
            None => tell_gone(volume, number, versions),
        },
        None => tell_gone(volume, number, versions),
    }
}

/// Tells what becomes of the vnode in a place, if there is one.
fn tell_at(
    volume: &Volume,
    images: &[Vnode],
    outcomes: &Seats<Option<usize>>,
    place: usize,
    versions: &mut Versions,
) -> Mem<()>
    requires { AllByRecursion IsReadable images.now }
    ensures { OnOk result (versions.new ++ map version_within (outcome_versions volume.now.head.id (volume_seen volume.now.head volume.now.vnodes.table) (outcomes_seen images.now (drop (place + 1) outcomes.now.table))) ≡ versions.old ++ map version_within (outcome_versions volume.now.head.id (volume_seen volume.now.head volume.now.vnodes.table) (outcomes_seen images.now (drop place outcomes.now.table)))) }
{
    match outcomes.at(place) {
        Some(item) => tell_one(volume, images, item.0, item.1, versions),
        None => Ok(()),
    }
}

/// What becomes of the vnodes of a volume, in ascending order.
fn all_told(
    alloc: Global,
    volume: &Volume,
    images: &[Vnode],
    outcomes: &Seats<Option<usize>>,
) -> Mem<Versions>
    requires { AllByRecursion IsReadable images.now }
    ensures { IfOk result (λ vs. vs ≡ map version_within (outcome_versions volume.now.head.id (volume_seen volume.now.head volume.now.vnodes.table) (outcomes_seen images.now outcomes.now.table))) }
{
    let mut versions = Versions::new(alloc);
    for place in 0..outcomes.len() {
        tell_at(volume, images, outcomes, place, &mut versions)?;
    }
    Ok(versions)
}

/// What becomes of the vnodes of a volume by these images and numbers.
fn versions_of(alloc: Global, volume: &Volume, images: &[Vnode], removed: &[u32]) -> Mem<Versions>
    requires { AllByRecursion IsReadable images.now }
    ensures { IfOk result (λ vs. vs ≡ map version_within (versions_told volume.now.head.id images.now removed.now (Some (stored_of volume.now)))) }
{
    let outcomes = outcomes(alloc, images, removed)?;
    let versions = all_told(alloc, volume, images, &outcomes)?;
    Ok(versions)
}

/// The lines of a change.
fn change_lines(alloc: Global, server: Node, key: Key, versions: Versions) -> Mem<Lines>
    ensures { IfOk result (λ ls. ls ≡ Line.Change server key (min (length versions) last_count) ∷ map Line.Version versions) }
{
    let mut lines = Lines::new(alloc);
    lines.push(Line::Change {
        server,
        key,
        count: versions.len().min(u32::MAX as usize) as u32,
    })?;
    for version in versions.into_vec() {
        lines.push(Line::Version { version })?;
    }
    Ok(lines)
}

/// The key of the call that made a record.
fn key_in(head: &RecordHead) -> Key
    ensures { result ≡ key_in head.now }
{
    Key {
        node: head.caller.unwrap_or(Node::Loc),
        epoch: head.epoch,
        number: head.number,
    }
}

impl State {
    /// The versions of a change in the volume of this number.
    fn versions(&self, id: u32, change: &Change) -> Mem<Versions>
        requires { AllByRecursion IsReadable change.now.vnodes }
        ensures { IfOk result (λ vs. vs ≡ map version_within (versions_told id change.now.vnodes change.now.removed (get id (parts_of self.now).volumes))) }
    {
        match self.volume(id) {
            Some(volume) => versions_of(
                self.alloc,
                volume,
                change.vnodes.as_slice(),
                change.removed.as_slice(),
            ),
            None => Ok(Versions::new(self.alloc)),
        }
    }

    /// What a start tells: the read-write volumes that it deletes.
    pub fn vanished(&self, server: Node) -> Mem<Lines>
        ensures value { IfOk result (λ ls. ls ≡ vanished_lines server (parts_of self.now).volumes) }
        ensures words { IfOk result (λ ls. AreInWords ls) }
    {
        self.shelves.vanished(server)
    }

    /// What a record tells, before it is done. What a volume server's record tells, and that of a start, is in words as it is.
    pub fn lines(&self, server: Node, head: &RecordHead, redo: &Redo) -> Mem<Lines>
        requires ready { IsReady redo.now }
        requires suits { Suits redo.now (parts_of self.now) }
        ensures value { IfOk result (λ ls. ls ≡ map in_words (effect_by server head.now (body_of redo.now) (parts_of self.now))) }
        ensures words { IfOk result (λ ls. IsNoChange redo.now → ls ≡ effect_by server head.now (body_of redo.now) (parts_of self.now)) }
    {
        match redo {
            Redo::Volumes(_) => Ok(Lines::new(self.alloc)),
            Redo::Change(id, change) => {
                let versions = self.versions(*id, change.change())?;
                change_lines(self.alloc, server, key_in(head), versions)
            }
            Redo::Start(_) => {
                let lines = self.vanished(server)?;
                Ok(lines)
            }
            Redo::Deed(deed) => {
                let lines = self.shelves.lines(server, deed)?;
                Ok(lines)
            }
        }
    }
}
