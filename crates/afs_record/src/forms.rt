//! Forms: how a value is written, and how it is read.

ghost use Rattle.std.specs.Prelude.{◌≡◌, ◌++◌, OnOk};
ghost use Rattle.spec_records.specs.Forms as forms;
ghost use Rattle.spec_records.specs.Records.{between, kind_form, server_form, flag_form, flag_number};
ghost use Rattle.afs_record.specs.Reading.{ReadsForm};

use crate::faults::RecordFault;
use afs_num::sequences::Octets;
use afs_num::types::Mem;
use afs_num::vnodes::Vnode;
use afs_vnode::faults::ImageFault;
use afs_vnode::images::{read_image, write_image};
use afs_xdr::reading::Reader;
use afs_xdr::writing::Writer;
use std::alloc::Global;

/// How values are spelled in a record. Of what a form reads nothing is limited but by the bytes that are there.
pub trait Form {
    ghost use Rattle.spec_records.specs.Forms as forms;

    type Value: Drop;

    ghost form: { forms.Form Self.Value };

    /// Reads one value from the front.
    fn read(alloc: Global, r: &mut Reader) -> Result<Self::Value, RecordFault>
        ensures { ReadsForm form.at (λ x. x) r.old r.new result };

    /// Appends a value. After want of memory bytes of it may stand behind those from before.
    fn write(value: &Self::Value, w: &mut Writer) -> Mem<()>
        requires { form.Fits value.now }
        ensures { OnOk result (w.new ≡ w.old ++ form.spelled value.now) };
}

/// Reads a word from `low` to `high`.
fn read_ranged(r: &mut Reader, low: u32, high: u32) -> Result<u32, RecordFault>
    ensures { ReadsForm (between low high).at (λ n. n) r.old r.new result }
{
    let n = r.word()?;
    if n < low || high < n {
        return Err(RecordFault::NoForm);
    }
    Ok(n)
}

/// A word.
pub(crate) struct Word;

impl Form for Word {
    type Value = u32;

    ghost form = { forms.word_form };

    fn read(_alloc: Global, r: &mut Reader) -> Result<u32, RecordFault> {
        Ok(r.word()?)
    }

    fn write(value: &u32, w: &mut Writer) -> Mem<()> {
        w.word(*value)
    }
}

/// The image of a vnode.
pub(crate) struct Image;

impl Form for Image {
    type Value = Vnode;

    ghost form = { forms.image_form };

    fn read(alloc: Global, r: &mut Reader) -> Result<Vnode, RecordFault> {
        match read_image(alloc, r) {
            Ok(vnode) => Ok(vnode),
            Err(ImageFault::Field(_, _)) => Err(RecordFault::NoForm),
            Err(ImageFault::OutOfMemory) => Err(RecordFault::OutOfMemory),
        }
    }

    fn write(value: &Vnode, w: &mut Writer) -> Mem<()> {
        write_image(value, w)
    }
}

/// Reads the kind of a volume.
pub(crate) fn read_volume_kind(r: &mut Reader) -> Result<u32, RecordFault>
    ensures { ReadsForm kind_form.at (λ n. n) r.old r.new result }
{
    read_ranged(r, 0, 2)
}

/// Reads the number of a server.
pub fn read_server(r: &mut Reader) -> Result<u32, RecordFault>
    ensures { ReadsForm server_form.at (λ n. n) r.old r.new result }
{
    read_ranged(r, 1, 8)
}

/// A flag is 0 or 1.
pub fn flag_number(flag: bool) -> u32
    ensures { result ≡ flag_number flag }
{
    if flag { 1 } else { 0 }
}

/// Reads a flag.
pub fn read_flag(r: &mut Reader) -> Result<bool, RecordFault>
    ensures { ReadsForm flag_form.at (λ b. b) r.old r.new result }
{
    match r.word()? {
        0 => Ok(false),
        1 => Ok(true),
        _ => Err(RecordFault::NoForm),
    }
}

/// Reads a text of at most so many bytes.
pub fn read_text(alloc: Global, r: &mut Reader, most: u32) -> Result<Octets, RecordFault>
    ensures { ReadsForm (forms.text_form most).at (λ b. b) r.old r.new result }
{
    let bytes = r.opaque(most)?;
    Ok(Octets::from_slice(alloc, bytes)?)
}
