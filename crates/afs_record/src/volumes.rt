//! A whole volume in a record: its name and flags, then its other words, its vnodes' numbers and their images.

ghost use Rattle.std.specs.Prelude.{◌≡◌, ◌++◌, map, OnOk};
ghost use Rattle.std.specs.List.{flat_map, AllByRecursion, list_all};
ghost use Rattle.spec_records.specs.Forms.{word_form, ◌before◌, many_at};
ghost use Rattle.spec_records.specs.Records.{are_listed, are_whole, ascend_from, listed_vnode, listed_form, mark_form, marked_form, vnodes_form, volume_form, was_changed};
ghost use Rattle.afs_record.specs.Reading.{ReadsForm};

use crate::faults::RecordFault;
use crate::forms::{Form, Image, read_text, read_volume_kind};
use crate::lists::{ListOf, read_many, write_many};
use afs_num::records::StoredVolume;
use afs_num::types::Mem;
use afs_num::vnodes::{Vnode, Vnodes};
use afs_num::volumes::VolumeHead;
use afs_xdr::reading::Reader;
use afs_xdr::writing::Writer;
use std::alloc::Global;

/// What stands before the words of a volume, in a dump as in a record.
const VOLUME_MARK: u32 = 2;

/// What stands before each image.
const VNODE_MARK: u32 = 3;

/// The most vnodes of a volume.
const MOST_VNODES: usize = 4_096;

/// The most bytes of a volume's name.
pub(crate) const MOST_NAME: u32 = 32;

/// Reads two words.
fn read_two(r: &mut Reader) -> Result<(u32, u32), RecordFault>
    ensures { ReadsForm (word_form before word_form).at (λ p. p) r.old r.new result }
{
    let first = r.word()?;
    let second = r.word()?;
    Ok((first, second))
}

/// The number and the unique of a vnode.
struct Listed;

impl Form for Listed {
    type Value = (u32, u32);

    ghost form = { listed_form };

    fn read(_alloc: Global, r: &mut Reader) -> Result<(u32, u32), RecordFault> {
        read_two(r)
    }

    fn write(value: &(u32, u32), w: &mut Writer) -> Mem<()> {
        w.word(value.0)?;
        w.word(value.1)
    }
}

/// A vnode's image behind its mark.
struct Marked;

impl Form for Marked {
    type Value = Vnode;

    ghost form = { marked_form };

    fn read(alloc: Global, r: &mut Reader) -> Result<Vnode, RecordFault> {
        read_mark(r, VNODE_MARK)?;
        Image::read(alloc, r)
    }

    fn write(value: &Vnode, w: &mut Writer) -> Mem<()> {
        w.word(VNODE_MARK)?;
        Image::write(value, w)
    }
}

/// Reads this word.
fn read_mark(r: &mut Reader, mark: u32) -> Result<(), RecordFault>
    ensures { ReadsForm (mark_form mark).at (λ u. u) r.old r.new result }
{
    if r.word()? == mark {
        Ok(())
    } else {
        Err(RecordFault::NoForm)
    }
}

/// Whether the vnodes are those that were listed.
fn are_listed(pairs: &[(u32, u32)], vnodes: &[Vnode]) -> bool
    ensures { result ≡ are_listed pairs.now vnodes.now }
{
    let mut rest = vnodes;
    for pair in pairs {
        match rest.split_first() {
            Some((vnode, more)) => {
                if pair.0 != vnode.vnode || pair.1 != vnode.unique {
                    return false;
                }
                rest = more;
            }
            None => return false,
        }
    }
    rest.is_empty()
}

/// Whether the numbers ascend.
fn ascend(vnodes: &[Vnode]) -> bool
    ensures { result ≡ ascend_from 0 vnodes.now }
{
    let mut least = 0;
    for vnode in vnodes {
        let number = vnode.vnode as u64;
        if number < least {
            return false;
        }
        least = number + 1;
    }
    true
}

/// Whether each was changed since there were none.
fn were_changed(vnodes: &[Vnode]) -> bool
    ensures { result ≡ list_all was_changed vnodes.now }
{
    vnodes.iter().all(|vnode| 0 < vnode.change_counter)
}

/// Whether these are all the vnodes of a full dump.
fn are_whole(pairs: &[(u32, u32)], vnodes: &[Vnode]) -> bool
    ensures { result ≡ are_whole pairs.now vnodes.now }
{
    pairs.len() <= MOST_VNODES
        && are_listed(pairs, vnodes)
        && ascend(vnodes)
        && were_changed(vnodes)
}

/// Reads the vnodes: all numbers, then all images.
fn read_vnodes(alloc: Global, r: &mut Reader) -> Result<Vnodes, RecordFault>
    ensures { ReadsForm vnodes_form.at (λ vs. vs) r.old r.new result }
{
    let pairs = ListOf::<Listed>::read(alloc, r)?;
    let vnodes = read_many::<Marked>(alloc, r, pairs.len())?;
    if are_whole(pairs.as_slice(), vnodes.as_slice()) {
        Ok(vnodes)
    } else {
        Err(RecordFault::NoForm)
    }
}

/// Appends the numbers and uniques of vnodes.
fn write_pairs(vnodes: &[Vnode], w: &mut Writer) -> Mem<()>
    ensures { OnOk result (w.new ≡ w.old ++ flat_map listed_form.spelled (map listed_vnode vnodes.now)) }
{
    for vnode in vnodes {
        w.word(vnode.vnode)?;
        w.word(vnode.unique)?;
    }
    Ok(())
}

/// Appends the vnodes.
fn write_vnodes(vnodes: &Vnodes, w: &mut Writer) -> Mem<()>
    requires { vnodes_form.Fits vnodes.now }
    ensures { OnOk result (w.new ≡ w.old ++ vnodes_form.spelled vnodes.now) }
{
    w.word(vnodes.len() as u32)?;
    write_pairs(vnodes.as_slice(), w)?;
    write_many::<Marked>(vnodes.as_slice(), w)
}

/// A whole volume.
pub(crate) struct Volume;

impl Form for Volume {
    type Value = StoredVolume;

    ghost form = { volume_form };

    #[tactic(auto, unfolding(spec_records::specs::Records::volume_form))]
    fn read(alloc: Global, r: &mut Reader) -> Result<StoredVolume, RecordFault> {
        let name = read_text(alloc, r, MOST_NAME)?;
        let flags = r.word()?;
        read_mark(r, VOLUME_MARK)?;
        let (id, family) = read_two(r)?;
        let kind = read_volume_kind(r)?;
        let (quota, unique) = read_two(r)?;
        let (counter, release) = read_two(r)?;
        let vnodes = read_vnodes(alloc, r)?;
        Ok(StoredVolume {
            head: VolumeHead {
                id,
                family,
                name,
                kind,
                flags,
                quota,
                unique,
                counter,
                release,
            },
            vnodes,
        })
    }

    #[tactic(auto, unfolding(spec_records::specs::Records::volume_form))]
    fn write(value: &StoredVolume, w: &mut Writer) -> Mem<()> {
        let head = &value.head;
        w.opaque(head.name.as_slice())?;
        w.words(&[
            head.flags,
            VOLUME_MARK,
            head.id,
            head.family,
            head.kind,
            head.quota,
            head.unique,
            head.counter,
            head.release,
        ])?;
        write_vnodes(&value.vnodes, w)
    }
}
