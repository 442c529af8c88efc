//! Records of a volume server are made ready for the volumes that are there: all memory that their deeds take is taken here.

ghost use Rattle.std.specs.Prelude.{◌≡◌, ◌≤◌, ◌||◌, Bool, Err, true, false, is_some, length, IfOk, IfSome};
ghost use Rattle.afs_num.specs.declared.records.RecordBody.TheVariants as bodies;
ghost use Rattle.afs_num.specs.Nodes.{node_number};
ghost use Rattle.spec_ideal.specs.Tables.{get};
ghost use Rattle.spec_records.specs.Records.{most_name, row, server_form};
ghost use Rattle.spec_fold.specs.Deeds.{can_take, has_volume, has_volume_room};
ghost use Rattle.afs_record.specs.declared.faults.Unfit.TheVariants.{Bad};
ghost use Rattle.spec_shape.specs.Tables.{IsVolumeKind};
ghost use Rattle.afs_shelves.specs.Deeds.{clone_by, deed_body, SuitsDeed};
ghost use Rattle.afs_shelves.specs.Shelving.{is_new_in, kept_on, stored_as};

use afs_clone::{clone_of, reclone};
use afs_num::records::RecordBody;
use afs_num::sequences::Octets;
use afs_num::types::{Mem, Node};
use afs_record::faults::Unfit;
use afs_restore::{DumpFault, restore};
use afs_shelves::deed::{CloneDeed, Deed, RestoreDeed};
use afs_shelves::shelf::Shelf;
use afs_shelves::shelves::Shelves;
use afs_volume::Volume;

/// The server of this number, which is one.
fn server_of(number: u32) -> Node
    requires { server_form.Fits number }
    ensures { node_number result ≡ number }
{
    match Node::from_number(number) {
        Some(node) => node,
        None => unreachable!(),
    }
}

/// A new volume. `Bad` where one has its number, or where there are as many as a server may have.
fn create(
    shelves: &Shelves,
    id: u32,
    family: u32,
    name: &Octets,
    kind: u32,
    flags: u32,
    quota: u32,
    is_new: bool,
) -> Result<Deed, Unfit>
    requires kind { IsVolumeKind kind }
    requires name { length name.now ≤ most_name }
    ensures told { IfOk result (λ x. deed_body x ≡ bodies.Create id family name.now kind flags quota is_new) }
    ensures suits { IfOk result (λ x. SuitsDeed x (kept_on shelves.now)) }
    ensures bad { result ≡ Err Bad → can_take (bodies.Create id family name.now kind flags quota is_new) (kept_on shelves.now) ≡ false }
{
    if shelves.has_volume(id) || !shelves.has_volume_room() {
        return Err(Unfit::Bad);
    }
    let volume = Volume::new(
        shelves.alloc,
        id,
        family,
        name.as_slice(),
        kind,
        flags,
        quota,
    )?;
    Ok(Deed::Create(Shelf { volume, is_new }))
}

/// A volume goes. `Bad` where it isn't there.
fn delete(shelves: &Shelves, id: u32) -> Result<Deed, Unfit>
    ensures told { IfOk result (λ x. deed_body x ≡ bodies.Delete id) }
    ensures suits { IfOk result (λ x. SuitsDeed x (kept_on shelves.now)) }
    ensures bad { result ≡ Err Bad → can_take (bodies.Delete id) (kept_on shelves.now) ≡ false }
{
    if !shelves.has_volume(id) {
        return Err(Unfit::Bad);
    }
    Ok(Deed::Delete(id))
}

/// The clone of a volume under this number: the one that has the number is made anew, or a new one is made. None where none
/// has it and there are as many volumes as a server may have.
fn cloned(
    shelves: &Shelves,
    source: &Volume,
    id: u32,
    name: &Octets,
    kind: u32,
    release: u32,
) -> Mem<Option<Volume>>
    requires kind { IsVolumeKind kind }
    requires name { length name.now ≤ most_name }
    ensures id { IfOk result (λ o. IfSome o (λ v. v.head.id ≡ id)) }
    ensures clone { IfOk result (λ o. IfSome o (λ v. (is_new : Bool) → stored_as (is_new_in id (kept_on shelves.now).volumes) v ≡ clone_by name.now kind release (stored_as is_new source.now) (get id (kept_on shelves.now).volumes))) }
    ensures can { IfOk result (λ o. is_some o ≡ (has_volume id (kept_on shelves.now) || has_volume_room (kept_on shelves.now))) }
{
    match shelves.shelf(id) {
        Some(old) => {
            let volume = reclone(shelves.alloc, source, &old.volume, release)?;
            Ok(Some(volume))
        }
        None => {
            if !shelves.has_volume_room() {
                return Ok(None);
            }
            let volume = clone_of(shelves.alloc, source, id, name.as_slice(), kind, release)?;
            Ok(Some(volume))
        }
    }
}

/// A clone is made, or made anew. `Bad` where its volume isn't there, or where there is no room for a new one.
fn clone(
    shelves: &Shelves,
    source: u32,
    id: u32,
    name: &Octets,
    kind: u32,
    release: u32,
) -> Result<Deed, Unfit>
    requires kind { IsVolumeKind kind }
    requires name { length name.now ≤ most_name }
    ensures told { IfOk result (λ x. deed_body x ≡ bodies.Clone source id name.now kind release) }
    ensures suits { IfOk result (λ x. SuitsDeed x (kept_on shelves.now)) }
    ensures bad { result ≡ Err Bad → can_take (bodies.Clone source id name.now kind release) (kept_on shelves.now) ≡ false }
{
    let Some(from) = shelves.shelf(source) else {
        return Err(Unfit::Bad);
    };
    let Some(volume) = cloned(shelves, &from.volume, id, name, kind, release)? else {
        return Err(Unfit::Bad);
    };
    Ok(Deed::Clone(CloneDeed {
        source,
        name: name.copy(shelves.alloc)?,
        kind,
        release,
        volume,
    }))
}

/// A dump is restored. `Bad` where the volume isn't there, or the dump makes no sound volume of it.
fn restored(shelves: &Shelves, id: u32, dump: &Octets) -> Result<Deed, Unfit>
    ensures told { IfOk result (λ x. deed_body x ≡ bodies.Restore id dump.now) }
    ensures suits { IfOk result (λ x. SuitsDeed x (kept_on shelves.now)) }
    ensures bad { result ≡ Err Bad → can_take (bodies.Restore id dump.now) (kept_on shelves.now) ≡ false }
{
    let Some(old) = shelves.shelf(id) else {
        return Err(Unfit::Bad);
    };
    match restore(shelves.alloc, dump.as_slice(), &old.volume) {
        Ok(volume) => Ok(Deed::Restore(RestoreDeed {
            dump: dump.copy(shelves.alloc)?,
            volume,
        })),
        Err(DumpFault::Bad(_)) => Err(Unfit::Bad),
        Err(DumpFault::OutOfMemory) => Err(Unfit::OutOfMemory),
    }
}

/// A volume gets these flags. `Bad` where it isn't there.
fn flag(shelves: &Shelves, id: u32, flags: u32) -> Result<Deed, Unfit>
    ensures told { IfOk result (λ x. deed_body x ≡ bodies.Flags id flags) }
    ensures suits { IfOk result (λ x. SuitsDeed x (kept_on shelves.now)) }
    ensures bad { result ≡ Err Bad → can_take (bodies.Flags id flags) (kept_on shelves.now) ≡ false }
{
    if !shelves.has_volume(id) {
        return Err(Unfit::Bad);
    }
    Ok(Deed::Flags(id, flags))
}

/// A volume is forwarded to this server. `Bad` where it isn't there.
fn forward(shelves: &Shelves, id: u32, server: u32) -> Result<Deed, Unfit>
    requires { server_form.Fits server }
    ensures told { IfOk result (λ x. deed_body x ≡ bodies.Forward id server) }
    ensures suits { IfOk result (λ x. SuitsDeed x (kept_on shelves.now)) }
    ensures bad { result ≡ Err Bad → can_take (bodies.Forward id server) (kept_on shelves.now) ≡ false }
{
    if !shelves.has_volume(id) {
        return Err(Unfit::Bad);
    }
    Ok(Deed::Forward(id, server_of(server)))
}

/// What the body of a volume server's record says, ready to be done. `Bad` where it can't be taken here, and where the record
/// is none of a volume server.
pub fn deed_of(shelves: &Shelves, body: &RecordBody) -> Result<Deed, Unfit>
    requires { (row body.now).Fits }
    ensures told { IfOk result (λ x. deed_body x ≡ body.now) }
    ensures suits { IfOk result (λ x. SuitsDeed x (kept_on shelves.now)) }
    ensures bad { result ≡ Err Bad → can_take body.now (kept_on shelves.now) ≡ false }
{
    match body {
        RecordBody::Create {
            id,
            family,
            name,
            kind,
            flags,
            quota,
            is_new,
        } => create(shelves, *id, *family, name, *kind, *flags, *quota, *is_new),
        RecordBody::Delete { id } => delete(shelves, *id),
        RecordBody::Clone {
            source,
            id,
            name,
            kind,
            release,
        } => clone(shelves, *source, *id, name, *kind, *release),
        RecordBody::Restore { id, dump } => restored(shelves, *id, dump),
        RecordBody::Flags { id, flags } => flag(shelves, *id, *flags),
        RecordBody::Forward { id, server } => forward(shelves, *id, *server),
        RecordBody::Stamp => Ok(Deed::Stamp),
        _ => Err(Unfit::Bad),
    }
}
