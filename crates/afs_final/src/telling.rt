//! What the disks keep is told. All that takes memory comes before the first byte is written.

ghost use Rattle.std.specs.Prelude.{◌≡◌, ◌≤◌, ◌++◌, length, map, slice_get, IfOk, OnOk};
ghost use Rattle.std.specs.List.{flat_map};
ghost use Rattle.afs_outside.specs.Outside.{Puts};
ghost use Rattle.afs_text.specs.FinalText.{final_text, vnode_text, volume_text};
ghost use Rattle.afs_volume.specs.Assembling.{IsReadablePlace};
ghost use Rattle.afs_volume.specs.Seen.{all_seen};
ghost use Rattle.afs_volume.specs.Taking.{stored_of};
ghost use Rattle.afs_final.specs.Reading.{part};
ghost use Rattle.afs_final.specs.Telling.{final_of, kept_text, shown_text, text_at};

use crate::reading::Left;
use afs_disk::Disk;
use afs_num::histories::Version;
use afs_num::types::{Mem, Node};
use afs_outside::outside::{Failed, Sink};
use afs_text::pieces::{Each, Print};
use afs_text::volumes::{VnodeLine, VolumeLine};
use afs_volstore::VolStore;
use afs_volume::Volume;
use std::alloc::{AllocError, Global};
use std::marker::Model;

/// A vnode as it is told: its kind, and its last version.
#[derive(Drop)]
struct Shown {
    kind: u32,
    version: Version,
}

impl Model for Shown {
    ghost use Rattle.afs_final.specs.Telling.{ShownVnode};

    ghost Value = { ShownVnode };

    ghost view = { λ s. record { kind = s.kind; version = s.version } };
}

/// A volume with its vnodes, as it is told.
#[derive(Drop)]
pub struct Kept<'a> {
    server: Node,
    volume: &'a Volume,
    vnodes: Vec<Shown>,
}

impl<'a> Model for Kept<'a> {
    ghost use Rattle.afs_final.specs.Telling.{ShownVolume};

    ghost Value = { ShownVolume };

    ghost view = { λ k. record { server = k.server; head = k.volume.now.head; vnodes = k.vnodes.items } };
}

impl Print for Shown {
    ghost use Rattle.afs_final.specs.Telling.{shown_text};

    ghost text = { shown_text };

    fn print<K: Sink>(&self, sink: &mut K) -> Result<(), Failed> {
        VnodeLine {
            kind: self.kind,
            version: &self.version,
        }
        .print(sink)
    }
}

impl<'a> Print for Kept<'a> {
    ghost use Rattle.afs_final.specs.Telling.{kept_text};

    ghost text = { kept_text };

    fn print<K: Sink>(&self, sink: &mut K) -> Result<(), Failed> {
        let line = VolumeLine {
            server: self.server,
            head: self.volume.head(),
        };
        (line, Each(self.vnodes.as_slice())).print(sink)
    }
}

/// The vnode in this place, behind those before it.
fn push_vnode(all: &mut Vec<Shown>, volume: &Volume, place: u32) -> Mem<()>
    requires { IsReadablePlace (slice_get volume.now.vnodes.table place) }
    ensures { OnOk result (flat_map shown_text all.new.items ≡ flat_map shown_text all.old.items ++ text_at (vnode_text volume.now.head.id) (slice_get (all_seen volume.now.vnodes.table) place)) }
{
    match volume.vnodes().at(place) {
        Some(vnode) => {
            let version = volume.version_of(vnode)?;
            all.push(Shown {
                kind: vnode.kind,
                version,
            })?;
            Ok(())
        }
        None => Ok(()),
    }
}

/// The vnodes of a volume, in order of number.
fn vnodes_of(alloc: Global, volume: &Volume) -> Mem<Vec<Shown>>
    ensures { IfOk result (λ v. flat_map shown_text v.items ≡ flat_map (vnode_text volume.now.head.id) (all_seen volume.now.vnodes.table)) }
{
    let mut all = Vec::new(alloc);
    for place in 0..volume.vnodes().len() as u32 {
        push_vnode(&mut all, volume, place)?;
    }
    Ok(all)
}

/// A volume of a server, behind those before it.
fn push_volume<'a>(
    alloc: Global,
    all: &mut Vec<Kept<'a>>,
    server: Node,
    volume: &'a Volume,
) -> Mem<()>
    ensures { OnOk result (flat_map kept_text all.new.items ≡ flat_map kept_text all.old.items ++ volume_text server (volume.now.head.id, stored_of volume.now)) }
{
    let vnodes = vnodes_of(alloc, volume)?;
    all.push(Kept {
        server,
        volume,
        vnodes,
    })?;
    Ok(())
}

/// The volumes of one server, in order of number, behind those of others.
fn push_volumes<'a, D: Disk>(
    alloc: Global,
    all: &mut Vec<Kept<'a>>,
    server: Node,
    store: &'a VolStore<D>,
) -> Mem<()>
    ensures { OnOk result (flat_map kept_text all.new.items ≡ flat_map kept_text all.old.items ++ flat_map (volume_text server) store.now.durable.volumes) }
{
    for place in 0..u32::MAX {
        match store.volume_at(place) {
            Some(volume) => push_volume(alloc, all, server, volume)?,
            None => return Ok(()),
        }
    }
    // No memory holds so many volumes.
    Err(AllocError)
}

/// The volumes on one server's disk: none, where what it keeps can't be told.
fn push_found<'a, D: Disk>(
    alloc: Global,
    all: &mut Vec<Kept<'a>>,
    server: Node,
    found: &'a Left<VolStore<D>, D>,
) -> Mem<()>
    ensures { OnOk result (flat_map kept_text all.new.items ≡ flat_map kept_text all.old.items ++ flat_map (volume_text server) (part found.now).volumes) }
{
    match found {
        Left::Kept(store) => push_volumes(alloc, all, server, store),
        Left::Bad(_) | Left::Failed(_) | Left::Unread(_) => Ok(()),
    }
}

/// The volumes that the disks keep, as they are told: made before anything is written, so that writing takes no memory.
pub fn told_of<'a, D: Disk>(alloc: Global, left: &'a [Left<VolStore<D>, D>]) -> Mem<Vec<Kept<'a>>>
    requires { length left.now ≤ 8 }
    ensures { IfOk result (λ ks. final_of ks.items ≡ final_text (map part left.now)) }
{
    let mut all = Vec::new(alloc);
    for (i, found) in left.iter().enumerate() {
        push_found(alloc, &mut all, Node::Server(i as u8 + 1), found)?;
    }
    Ok(all)
}

/// Writes the final part.
pub fn put_final<K: Sink>(sink: &mut K, all: &[Kept<'_>]) -> Result<(), Failed>
    ensures { Puts (final_of all.now) (K.held sink.old) (K.held sink.new) (K.faults sink.old) (K.faults sink.new) result }
{
    ("final\n", (Each(all), "end\n")).print(sink)
}
