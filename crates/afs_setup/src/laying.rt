//! The first record of a disk: the volumes that set-up lays.

ghost use Rattle.std.specs.Prelude.{◌≡◌, ◌≤◌, ◌<◌, ◌^◌, [], Some, true, is_some, length, map, IfOk, OnOk};
ghost use Rattle.std.specs.List.{AllByRecursion};
ghost use Rattle.spec_records.specs.Changes.{first_length, first_record, laid_all, stored_volume, volume_laid, volumes_laid};
ghost use Rattle.spec_records.specs.Durable as durable;
ghost use Rattle.spec_fold.specs.Fold.{body_taken, is_first};
ghost use Rattle.spec_records.specs.Durable.{Durable};
ghost use Rattle.spec_records.specs.Forms.{HasImageForm};
ghost use Rattle.spec_records.specs.Records.{record_bytes, volume_form, FitsRecord};
ghost use Rattle.spec_ideal.specs.VnodeImage.{image_words, kind_fits, FitsImage};
ghost use Rattle.afs_seats.specs.Seated.{seen_as};
ghost use Rattle.afs_volume.specs.Giving.{volume_of};
ghost use Rattle.afs_volume.specs.Taking.{stored_of, IsAtSetUp};
ghost use Rattle.afs_xdr.specs.Words.{AreWords};
ghost use Rattle.afs_volstore.specs.Laying.{head_words, AreLaid, HasShortName, HaveShortNames, IsLaid};
ghost use Rattle.afs_memory.specs.Numbered.{AreNumbered};
ghost use Rattle.afs_volstore.specs.Opening.{CanBeSetUp};

use afs_laying::lay;
use afs_num::records::{RecordBody, StoreRecord, StoredVolume, StoredVolumes};
use afs_num::types::Mem;
use afs_num::vnodes::{Vnode, Vnodes};
use afs_num::volumes::VolumeHead;
use afs_reads::faults::OpFault;
use afs_record::records::encode_record;
use afs_seats::Seats;
use afs_volstore::creating::no_head;
use afs_volume::Volume;
use spec_history::scripts::{SetupLine, VolumeLine};
use std::alloc::{AllocError, Global};

/// Lays all lines, each of which is accepted behind those before it.
fn lay_all(volume: &mut Volume, lines: &[SetupLine]) -> Mem<()>
    requires { is_some (laid_all volume.old.head.id lines.now (volume_of volume.old)) ≡ true }
    ensures laid { OnOk result (laid_all volume.old.head.id lines.now (volume_of volume.old) ≡ Some (volume_of volume.new)) }
    ensures times { IsAtSetUp volume.old → IsAtSetUp volume.new }
    ensures id { volume.new.head.id ≡ volume.old.head.id }
{
    for line in lines {
        match lay(volume, line) {
            Ok(()) => {}
            Err(OpFault::OutOfMemory) => return Err(AllocError),
            Err(OpFault::Code(_)) => unreachable!(),
        }
    }
    Ok(())
}

/// The volume of a line, with all that is laid in it.
fn volume_laid(alloc: Global, line: &VolumeLine) -> Mem<Volume>
    requires accepted { is_some (volume_laid line.now) ≡ true }
    requires name { HasShortName line.now }
    ensures laid { IfOk result (λ v. volume_laid line.now ≡ Some (volume_of v)) }
    ensures as_set_up { IfOk result (λ v. IsLaid v) }
    ensures id { IfOk result (λ v. v.head.id ≡ line.now.id) }
{
    let name = line.name.as_slice();
    let mut volume = Volume::new(alloc, line.id, line.id, name, 0, 0, line.quota)?;
    lay_all(&mut volume, line.lines.as_slice())?;
    Ok(volume)
}

/// The volumes of all lines, by their numbers.
fn volumes_laid(alloc: Global, lines: &[&VolumeLine]) -> Mem<Seats<Volume>>
    requires accepted { is_some (volumes_laid (map (λ l. l.now) lines.now) []) ≡ true }
    requires names { HaveShortNames (map (λ l. l.now) lines.now) }
    ensures laid { IfOk result (λ s. volumes_laid (map (λ l. l.now) lines.now) [] ≡ Some (seen_as stored_of s.table)) }
    ensures as_set_up { IfOk result (λ s. AreLaid s.table) }
    ensures numbered { IfOk result (λ s. AreNumbered s.table) }
    ensures few { IfOk result (λ s. length s.table ≤ length lines.now) }
{
    let mut volumes = Seats::new(alloc);
    for line in lines {
        let volume = volume_laid(alloc, line)?;
        volumes.put(line.id, volume)?;
    }
    Ok(volumes)
}

/// A head as it is: its numbers are words.
fn head_in_words(head: VolumeHead) -> VolumeHead
    ensures same { result ≡ head }
    ensures words { AreWords (head_words result) }
{
    head
}

/// A vnode as it is: its numbers are words.
fn in_words(vnode: Vnode) -> Vnode
    ensures same { result ≡ vnode }
    ensures words { AreWords (image_words result) }
{
    vnode
}

/// The images of vnodes, as they are: each has its spelling.
fn images_told(alloc: Global, vnodes: Vnodes) -> Mem<Vnodes>
    requires fits { AllByRecursion FitsImage vnodes }
    requires kinds { AllByRecursion (λ x. kind_fits x.vnode x.kind ≡ true) vnodes }
    ensures same { IfOk result (λ xs. xs ≡ vnodes) }
    ensures form { IfOk result (λ xs. AllByRecursion HasImageForm xs) }
{
    let mut images = Vnodes::new(alloc);
    for vnode in vnodes.into_vec() {
        images.push(in_words(vnode))?;
    }
    Ok(images)
}

/// A volume as a first record tells it.
fn volume_told(alloc: Global, volume: Volume) -> Mem<StoredVolume>
    requires { IsLaid volume }
    ensures told { IfOk result (λ s. s ≡ stored_volume volume.head.id (stored_of volume)) }
    ensures fits { IfOk result (λ s. volume_form.Fits s) }
    ensures taken { IfOk result (λ s. is_some (durable.stored_of s) ≡ true) }
{
    let (head, vnodes) = volume.into_parts();
    let vnodes = images_told(alloc, vnodes.into_vnodes())?;
    let head = head_in_words(head);
    Ok(StoredVolume { head, vnodes })
}

/// All of them, in order of their numbers.
fn volumes_told(alloc: Global, volumes: Seats<Volume>) -> Mem<StoredVolumes>
    requires as_set_up { AreLaid volumes.table }
    requires numbered { AreNumbered volumes.table }
    ensures told { IfOk result (λ ss. ss ≡ map (λ p. stored_volume p.0 p.1) (seen_as stored_of volumes.table)) }
    ensures fits { IfOk result (λ ss. AllByRecursion volume_form.Fits ss) }
    ensures taken { IfOk result (λ ss. AllByRecursion (λ s. is_some (durable.stored_of s) ≡ true) ss) }
{
    let mut all = StoredVolumes::new(alloc);
    for item in volumes.into_items() {
        let told = volume_told(alloc, item.1)?;
        all.push(told)?;
    }
    Ok(all)
}

/// The first record of a disk with these volumes.
pub fn first_record(alloc: Global, volumes: &[&VolumeLine]) -> Mem<StoreRecord>
    requires { CanBeSetUp (map (λ l. l.now) volumes.now) }
    ensures value { IfOk result (λ r. first_record (map (λ l. l.now) volumes.now) ≡ Some r) }
    ensures fits { IfOk result (λ r. FitsRecord r) }
    ensures first { IfOk result (λ r. is_first r.body ≡ true) }
    ensures taken { IfOk result (λ r. (d : Durable) → d.volumes ≡ [] → is_some (body_taken r.body d) ≡ true) }
{
    let laid = volumes_laid(alloc, volumes)?;
    let volumes = volumes_told(alloc, laid)?;
    let head = no_head(alloc);
    Ok(StoreRecord {
        head,
        body: RecordBody::First { volumes },
    })
}

/// How many bytes a record has.
pub fn record_length(alloc: Global, rec: &StoreRecord) -> Mem<u64>
    requires { FitsRecord rec.now }
    ensures value { IfOk result (λ n. n ≡ length (record_bytes rec.now)) }
    ensures small { IfOk result (λ n. n < 2 ^ 63) }
{
    let bytes = encode_record(alloc, rec)?;
    Ok(bytes.len() as u64)
}

/// How many bytes the first record of these volumes has.
pub fn first_length(alloc: Global, volumes: &[&VolumeLine]) -> Mem<u64>
    requires { CanBeSetUp (map (λ l. l.now) volumes.now) }
    ensures { IfOk result (λ n. first_length (map (λ l. l.now) volumes.now) ≡ Some n) }
{
    let rec = first_record(alloc, volumes)?;
    let len = record_length(alloc, &rec);
    drop(rec);
    len
}
