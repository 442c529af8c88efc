//! The image of a vnode: its words, its access list, its contents.

ghost use Rattle.std.specs.Prelude.{◌≡◌, ◌≤◌, ◌<◌, ◌++◌, length, take, OnOk, OnErr, IfOk};
ghost use Rattle.afs_xdr.specs.Reading.{KeepsEnd};
ghost use Rattle.afs_xdr.specs.Words.{words, AreWords};
ghost use Rattle.spec_ideal.specs.VnodeImage.{kind_fits, word_field, kind_field, opaque_field, image_at, image, image_words, FitsImage};
ghost use Rattle.afs_vnode.specs.Reading.{three_fields, ReadsImage};

use crate::faults::ImageFault;
use afs_num::sequences::Octets;
use afs_num::types::Mem;
use afs_num::vnodes::Vnode;
use afs_xdr::faults::XdrFault;
use afs_xdr::reading::Reader;
use afs_xdr::writing::Writer;
use std::alloc::Global;

/// The most bytes of an access list in an image.
const MOST_ACL: u32 = 1_024;

/// The most bytes of contents in an image.
const MOST_CONTENTS: u32 = 2_097_152;

/// Whether the kind is one, and fits the number: directories have odd numbers, files and links even ones.
#[tactic(auto, unfolding(spec_ideal::specs::VnodeImage::kind_fits))]
fn kind_fits(vnode: u32, kind: u32) -> bool
    ensures { result ≡ kind_fits vnode kind }
{
    if vnode % 2 == 1 {
        kind == 2
    } else {
        kind == 1 || kind == 3
    }
}

/// The word that is the field of this place.
#[tactic(auto, unfolding(spec_ideal::specs::VnodeImage::word_field))]
fn word(r: &mut Reader, place: u32) -> Result<u32, ImageFault>
    ensures value { ReadsImage (word_field place) (λ n. n) r.old r.new result }
    ensures end { KeepsEnd r.old r.new }
{
    match r.word() {
        Ok(n) => Ok(n),
        Err(fault) => Err(ImageFault::Field(place, fault)),
    }
}

/// The kind, which is the field of this place.
#[tactic(auto, unfolding(spec_ideal::specs::VnodeImage::kind_field))]
fn kind(r: &mut Reader, place: u32, vnode: u32) -> Result<u32, ImageFault>
    ensures value { ReadsImage (kind_field place vnode) (λ n. n) r.old r.new result }
    ensures end { KeepsEnd r.old r.new }
{
    let kind = word(r, place)?;
    if kind_fits(vnode, kind) {
        Ok(kind)
    } else {
        Err(ImageFault::Field(place, XdrFault::BadType))
    }
}

/// The opaque that is the field of this place, of at most so many bytes.
#[tactic(auto, unfolding(spec_ideal::specs::VnodeImage::opaque_field))]
fn opaque(alloc: Global, r: &mut Reader, place: u32, most: u32) -> Result<Octets, ImageFault>
    ensures value { ReadsImage (opaque_field place most) (λ b. b) r.old r.new result }
    ensures limit { IfOk result (λ b. length b ≤ most) }
    ensures end { KeepsEnd r.old r.new }
{
    match r.opaque(most) {
        Ok(bytes) => Ok(Octets::from_slice(alloc, bytes)?),
        Err(fault) => Err(ImageFault::Field(place, fault)),
    }
}

/// Three words, the first of which is the field of this place.
fn three(r: &mut Reader, place: u32) -> Result<(u32, u32, u32), ImageFault>
    requires { place < 16 }
    ensures value { ReadsImage (three_fields place) (λ t. t) r.old r.new result }
    ensures end { KeepsEnd r.old r.new }
{
    let first = word(r, place)?;
    let second = word(r, place + 1)?;
    let third = word(r, place + 2)?;
    Ok((first, second, third))
}

/// The fields one after the other.
#[tactic(auto, unfolding(spec_ideal::specs::VnodeImage::image_at))]
fn fields(alloc: Global, r: &mut Reader) -> Result<Vnode, ImageFault>
    ensures value { ReadsImage image_at (λ v. v) r.old r.new result }
    ensures fits { IfOk result (λ v. FitsImage v) }
    ensures end { KeepsEnd r.old r.new }
{
    let vnode = word(r, 1)?;
    let unique = word(r, 2)?;
    let kind = kind(r, 3, vnode)?;
    let (index, data_version, link_count) = three(r, 4)?;
    let (owner, group, mode) = three(r, 7)?;
    let (segment_size, client_time, server_time) = three(r, 10)?;
    let (parent_vnode, parent_unique, change_counter) = three(r, 13)?;
    let acl = opaque(alloc, r, 16, MOST_ACL)?;
    let contents = opaque(alloc, r, 17, MOST_CONTENTS)?;
    Ok(Vnode {
        vnode,
        unique,
        kind,
        index,
        data_version,
        link_count,
        owner,
        group,
        mode,
        segment_size,
        client_time,
        server_time,
        parent_vnode,
        parent_unique,
        change_counter,
        acl,
        contents,
    })
}

/// Reads the image of a vnode. The fields are those of the vnode, in order; a kind that is none, or doesn't fit the
/// vnode's number, is `BadType` in its place, 3. A refusal leaves the reader as it was.
pub fn read_image(alloc: Global, r: &mut Reader) -> Result<Vnode, ImageFault>
    ensures value { ReadsImage image_at (λ v. v) r.old r.new result }
    ensures fits { IfOk result (λ v. FitsImage v) }
    ensures end { KeepsEnd r.old r.new }
    ensures err { OnErr result (r.new ≡ r.old) }
{
    let mut ahead = r.fork();
    let vnode = fields(alloc, &mut ahead)?;
    *r = ahead;
    Ok(vnode)
}

/// The words of the image.
fn put_words(v: &Vnode, w: &mut Writer) -> Mem<()>
    ensures ok { OnOk result (w.new ≡ w.old ++ words (image_words v.now)) }
    ensures fits { AreWords (image_words v.now) }
    ensures err { OnErr result (w.new ≡ w.old) }
{
    w.words(&[
        v.vnode,
        v.unique,
        v.kind,
        v.index,
        v.data_version,
        v.link_count,
        v.owner,
        v.group,
        v.mode,
        v.segment_size,
        v.client_time,
        v.server_time,
        v.parent_vnode,
        v.parent_unique,
        v.change_counter,
    ])
}

/// Appends the fields one after the other. After want of memory some of them may stand behind the bytes from before.
#[tactic(auto, unfolding(spec_ideal::specs::VnodeImage::image))]
fn put_fields(v: &Vnode, w: &mut Writer) -> Mem<()>
    requires { FitsImage v.now }
    ensures ok { OnOk result (w.new ≡ w.old ++ image v.now) }
    ensures err { OnErr result (take (length w.old) w.new ≡ w.old) }
{
    put_words(v, w)?;
    w.opaque(v.acl.as_slice())?;
    w.opaque(v.contents.as_slice())?;
    Ok(())
}

/// Appends the image of a vnode. Want of memory leaves the writer as it was.
pub fn write_image(v: &Vnode, w: &mut Writer) -> Mem<()>
    requires { FitsImage v.now }
    ensures ok { OnOk result (w.new ≡ w.old ++ image v.now) }
    ensures err { OnErr result (w.new ≡ w.old) }
{
    let before = w.len();
    match put_fields(v, w) {
        Ok(()) => Ok(()),
        Err(fault) => {
            w.truncate(before);
            Err(fault)
        }
    }
}
