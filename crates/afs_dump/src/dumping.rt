//! Volumes are dumped.

ghost use Rattle.std.specs.Prelude.{◌≡◌, ◌≤◌, ◌++◌, length, slice_get, IfOk, OnOk};
ghost use Rattle.std.specs.List.{flat_map};
ghost use Rattle.afs_xdr.specs.Words.{word};
ghost use Rattle.spec_ideal.specs.VnodeImage.{image, FitsImage};
ghost use Rattle.spec_dumps.specs.Dumps.{dump_of};
ghost use Rattle.spec_dumps.specs.Streams.{dump_bytes, dump_header_field, is_last_at, piece_at, vnode_tag, volume_header_field};
ghost use Rattle.afs_volume.specs.Seen.{FitsHead};
ghost use Rattle.afs_volume.specs.Taking.{stored_of};
ghost use Rattle.afs_dump.specs.Telling as telling;

use afs_num::sequences::Octets;
use afs_num::types::Mem;
use afs_num::vnodes::Vnode;
use afs_num::volumes::VolumeHead;
use afs_vnode::images::write_image;
use afs_vnode::store::VnodeStore;
use afs_volume::Volume;
use afs_xdr::writing::Writer;
use std::alloc::Global;

/// The words with which the parts of a dump begin.
const DUMP_HEADER_TAG: u32 = 1;

const VOLUME_HEADER_TAG: u32 = 2;

const VNODE_TAG: u32 = 3;

const END_TAG: u32 = 4;

/// The word by which a dump is known, the version of its form, and its last word.
const BEGIN_MAGIC: u32 = 0xB3A1_1322;

const DUMP_VERSION: u32 = 1;

const END_MAGIC: u32 = 0x3A21_4B6E;

/// The bytes of a dump from an offset on, and whether they end it.
#[derive(Drop)]
pub struct Piece {
    pub bytes: Octets,
    pub last: bool,
}

/// How many bytes the headers, the end, and the pair and the words of a vnode take, or more.
const USUAL_ROOM: usize = 160;

/// How many bytes the image of the vnode in a place takes, or more.
fn image_room(vnodes: &VnodeStore, from: u32, place: u32) -> usize {
    match vnodes.at(place) {
        Some(x) if from < x.change_counter => {
            x.acl
                .len()
                .saturating_add(x.contents.len())
                .saturating_add(USUAL_ROOM)
        }
        _ => USUAL_ROOM,
    }
}

/// How many bytes a dump takes, or more. It is asked for room before they are written.
fn room_for(vnodes: &VnodeStore, from: u32) -> usize {
    let mut room = USUAL_ROOM;
    for place in 0..vnodes.len() as u32 {
        room = room.saturating_add(image_room(vnodes, from, place));
    }
    room
}

/// Appends the dump header.
#[tactic(auto, unfolding(spec_dumps::specs::Streams::dump_header_field))]
fn write_dump_header(head: &VolumeHead, from: u32, w: &mut Writer) -> Mem<()>
    requires { FitsHead head.now }
    ensures { OnOk result (w.new ≡ w.old ++ dump_header_field.spelled (telling.dump_header_told from head.now)) }
{
    w.words(&[DUMP_HEADER_TAG, BEGIN_MAGIC, DUMP_VERSION, head.id])?;
    w.opaque(head.name.as_slice())?;
    w.word(from)
}

/// Appends the volume header.
#[tactic(auto, unfolding(spec_dumps::specs::Streams::volume_header_field))]
fn write_volume_header(head: &VolumeHead, w: &mut Writer) -> Mem<()>
    ensures { OnOk result (w.new ≡ w.old ++ volume_header_field.spelled (telling.volume_header_told head.now)) }
{
    w.words(&[
        VOLUME_HEADER_TAG,
        head.id,
        head.family,
        head.kind,
        head.quota,
        head.unique,
        head.counter,
        head.release,
    ])
}

/// Appends the number and the unique number of the vnode in a place.
fn write_pair_at(vnodes: &VnodeStore, place: u32, w: &mut Writer) -> Mem<()>
    ensures { OnOk result (w.new ≡ w.old ++ telling.told_at telling.pair_told (slice_get vnodes.now.table place)) }
{
    match vnodes.at(place) {
        Some(x) => {
            w.word(x.vnode)?;
            w.word(x.unique)
        }
        None => Ok(()),
    }
}

/// Appends the numbers and the unique numbers of all vnodes.
fn write_pairs(vnodes: &VnodeStore, w: &mut Writer) -> Mem<()>
    ensures { OnOk result (w.new ≡ w.old ++ flat_map telling.pair_told vnodes.now.table) }
{
    for place in 0..vnodes.len() as u32 {
        write_pair_at(vnodes, place, w)?;
    }
    Ok(())
}

/// Appends the image of a vnode after its tag.
fn write_tagged(x: &Vnode, w: &mut Writer) -> Mem<()>
    requires { FitsImage x.now }
    ensures { OnOk result (w.new ≡ w.old ++ (word vnode_tag ++ image x.now)) }
{
    w.word(VNODE_TAG)?;
    write_image(x, w)
}

/// Appends the image of the vnode in a place, where it was changed since the counter stood so.
fn write_image_at(vnodes: &VnodeStore, from: u32, place: u32, w: &mut Writer) -> Mem<()>
    ensures { OnOk result (w.new ≡ w.old ++ telling.told_at (telling.image_told from) (slice_get vnodes.now.table place)) }
{
    match vnodes.at(place) {
        Some(x) if from < x.change_counter => write_tagged(x, w),
        _ => Ok(()),
    }
}

/// Appends the images of the vnodes that were changed since the counter stood so.
fn write_images(vnodes: &VnodeStore, from: u32, w: &mut Writer) -> Mem<()>
    ensures { OnOk result (w.new ≡ w.old ++ flat_map (telling.image_told from) vnodes.now.table) }
{
    for place in 0..vnodes.len() as u32 {
        write_image_at(vnodes, from, place, w)?;
    }
    Ok(())
}

/// Appends all of a dump but its end.
#[tactic(auto, unfolding(crate::specs::Telling::parts_told))]
fn write_parts(v: &Volume, from: u32, w: &mut Writer) -> Mem<()>
    ensures { OnOk result (w.new ≡ w.old ++ telling.parts_told from v.now.head v.now.vnodes.table) }
{
    let vnodes = v.vnodes();
    write_dump_header(v.head(), from, w)?;
    write_volume_header(v.head(), w)?;
    w.word(vnodes.len() as u32)?;
    write_pairs(vnodes, w)?;
    write_images(vnodes, from, w)
}

/// What was changed in a volume since its change counter stood at `from`, with the list of its vnodes; since 0 all of it.
pub fn dump(alloc: Global, v: &Volume, from: u32) -> Mem<Octets>
    ensures { IfOk result (λ bytes. bytes ≡ dump_bytes (dump_of v.now.head.id from (stored_of v.now))) }
{
    let mut w = Writer::with_capacity(alloc, room_for(v.vnodes(), from))?;
    write_parts(v, from, &mut w)?;
    w.words(&[END_TAG, END_MAGIC])?;
    let bytes = Octets::from_vec(w.into_vec()?)?;
    Ok(bytes)
}

/// At most `max` bytes of that dump, from `offset` on. The whole dump is made for each piece.
pub fn dump_piece(alloc: Global, v: &Volume, from: u32, offset: u32, max: u32) -> Mem<Piece>
    requires { offset ≤ length (dump_bytes (dump_of v.now.head.id from (stored_of v.now))) }
    ensures bytes { IfOk result (λ p. p.bytes ≡ piece_at max offset (dump_bytes (dump_of v.now.head.id from (stored_of v.now)))) }
    ensures last { IfOk result (λ p. p.last ≡ is_last_at max offset (dump_bytes (dump_of v.now.head.id from (stored_of v.now)))) }
{
    let whole = dump(alloc, v, from)?;
    let (_, rest) = whole.as_slice().split_at(offset as usize);
    let (front, _) = rest.split_at(rest.len().min(max as usize));
    let bytes = Octets::from_slice(alloc, front)?;
    Ok(Piece {
        bytes,
        last: whole.len() <= offset as usize + max as usize,
    })
}
