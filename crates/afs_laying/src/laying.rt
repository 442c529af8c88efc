//! Lines of set-up. Each is laid as the operations do by a caller with all rights, and what it changes is as at first.

ghost use Rattle.std.specs.Prelude.{◌≡◌, ◌≤◌, true, length, map, Some, None, IfOk, OnOk, OnErr};
ghost use Rattle.afs_num.specs.declared.calls.FsCall.TheVariants as calls;
ghost use Rattle.spec_ideal.specs.Operations.{adds_name, all_rights, creating, first_failing, is_kind, most_file_bytes, names_in, new_file, op, IsOn};
ghost use Rattle.spec_ideal.specs.SetUp.{a_file_of, laid, laid_at, laid_in, led, nothing_set};
ghost use Rattle.spec_ideal.specs.Tables.{get};
ghost use Rattle.spec_ideal.specs.VnodeImage.{most_contents, FitsImage};
ghost use Rattle.spec_ideal.specs.VnodeMaps.{most_vnodes};
ghost use Rattle.spec_ideal.specs.Volumes.{a_directory, ascending, vnode_of};
ghost use Rattle.spec_history.specs.Written.{bytes_in};
ghost use Rattle.afs_laying.specs.Filled.{at_once, image_at_first, is_accepted, SetUpAccepts, CanBeLaid, IsFilled, Lays, LaysEdits, Leads};
ghost use Rattle.afs_changes.specs.Planning.{edits_seen, is_changing, Plans};
ghost use Rattle.afs_volume.specs.Giving.{volume_of};
ghost use Rattle.afs_reads.specs.Replying.{FitsCall};
ghost use Rattle.afs_volume.specs.Seen.{seen, IsReadable};
ghost use Rattle.afs_volume.specs.Taking.{IsAtSetUp};

use crate::laying_calls::{lay_access_list, lay_directory, lay_link};
use afs_changes::applying::unique_left;
use afs_changes::creating::creates;
use afs_changes::drafting::{Draft, draft_of};
use afs_changes::edits::{Edit, Edits, Plan};
use afs_changes::finding::named;
use afs_changes::limits::is_within_quota;
use afs_changes::making::new_file;
use afs_changes::operations::MOST_BYTES;
use afs_changes::planning::plan_within;
use afs_num::calls::{AfsStoreStatus, FsCall};
use afs_num::sequences::Octets;
use afs_num::types::{Code, Fid, Mem};
use afs_num::vnodes::{Vnode, Vnodes};
use afs_reads::callers::Caller;
use afs_reads::checks::check;
use afs_reads::faults::OpFault;
use afs_reads::finding::vnode;
use afs_volume::{Volume, is_directory};
use spec_history::acts::Written;
use spec_history::scripts::SetupLine;
use spec_history::written::bytes_in;
use std::alloc::Global;

/// A status of which nothing is set.
pub fn nothing_set() -> AfsStoreStatus
    ensures { result ≡ nothing_set }
{
    AfsStoreStatus {
        mask: 0,
        client_mod_time: 0,
        owner: 0,
        group: 0,
        unix_mode_bits: 0,
        seg_size: 0,
    }
}

/// A vnode as at first.
fn at_first(x: Vnode) -> Vnode
    ensures { result ≡ image_at_first x }
{
    let mut x = x;
    x.index = 1;
    x.data_version = 1;
    x.change_counter = 1;
    x
}

/// Vnodes as at first.
fn all_at_first(alloc: Global, vnodes: Vnodes) -> Mem<Vnodes>
    ensures { IfOk result (λ xs. xs ≡ map image_at_first vnodes) }
{
    let mut first = Vnodes::new(alloc);
    for x in vnodes.into_vec() {
        first.push(at_first(x))?;
    }
    Ok(first)
}

/// A new file with these bytes.
#[tactic(auto, unfolding(afs_volume::specs::Seen::seen))]
fn file_of(alloc: Global, d: &Fid, contents: &Octets) -> Mem<Vnode>
    requires { length contents.now ≤ most_contents }
    ensures seen { IfOk result (λ x. seen x ≡ record (new_file d.now) { contents = contents.now }) }
    ensures readable { IfOk result (λ x. IsReadable x) }
    ensures fits { IfOk result (λ x. FitsImage x) }
{
    let mut file = new_file(alloc, d);
    file.contents = contents.copy(alloc)?;
    Ok(file)
}

/// Where names lead from the root: 20 where one is looked for in another kind than a directory, 2 where it isn't there.
pub fn led(volume: &Volume, path: &[Octets]) -> Result<Fid, OpFault>
    ensures leads { Leads (led volume.now.head.id (volume_of volume.now) path.now) result }
    ensures volume { IfOk result (λ d. d.volume ≡ volume.now.head.id) }
{
    let Some(root) = volume.get(1) else {
        return Err(OpFault::Code(Code(102)));
    };
    let mut at = root;
    for name in path {
        check(is_directory(at), 20)?;
        let names = volume.names(at.vnode, at);
        let Some(x) = named(volume, names, name.as_slice()) else {
            return Err(OpFault::Code(Code(2)));
        };
        at = x;
    }
    Ok(Fid {
        volume: volume.head.id,
        vnode: at.vnode,
        unique: at.unique,
    })
}

/// What the operation of a call of the caller with all rights is to do, within its limits.
pub fn plan_laid(volume: &Volume, call: FsCall) -> Result<Plan, OpFault>
    requires changing { is_changing call ≡ true }
    requires fits { FitsCall call }
    requires on { IsOn volume.now.head.id call }
    ensures plan { Plans (op volume.now.head.id all_rights call (volume_of volume.now)) result }
    ensures few { IfOk result (λ p. length (volume_of volume.now).vnodes ≤ most_vnodes) }
{
    let planned = plan_within(volume, &Caller::AllRights, &call);
    // (One call to prove. The end of the scope would be one for each part of each kind of call.)
    drop(call);
    planned
}

/// Whether a file of this name may be made in a directory; the refusals are those of CreateFile.
fn accepts_file(volume: &Volume, d: &Fid, name: &Octets) -> Result<(), OpFault>
    requires { d.now.volume ≡ volume.now.head.id }
    ensures accepts { SetUpAccepts (op volume.now.head.id all_rights (calls.CreateFile d.now name.now nothing_set) (volume_of volume.now)) result }
    ensures few { OnOk result (length (volume_of volume.now).vnodes ≤ most_vnodes) }
{
    let call = FsCall::CreateFile {
        directory: *d,
        name: name.copy(volume.alloc)?,
        status: nothing_set(),
    };
    plan_laid(volume, call)?;
    Ok(())
}

/// The edits that make a file, in a directory where one may be made.
#[tactic(auto, using(afs_changes::proofs::Placed::may_be_added))]
fn filled_edits(volume: &Volume, d: &Fid, x: &Vnode, name: &Octets, file: Vnode) -> Mem<Edits>
    requires found { vnode_of d.now (volume_of volume.now) ≡ Some (seen x.now) }
    requires there { get d.now.vnode volume.now.vnodes.table ≡ Some x.now }
    requires directory { is_kind (seen x.now).kind a_directory ≡ true }
    requires readable { IsReadable file }
    requires fits { FitsImage file }
    requires passes { first_failing (adds_name name.now (names_in (Some (seen x.now))) true) ≡ None }
    ensures { IfOk result (λ es. edits_seen es ≡ ascending (creating d.now name.now nothing_set None (seen file) (volume_of volume.now))) }
{
    let plan = creates(volume, d, x, name.as_slice(), &nothing_set(), None, file)?;
    Ok(plan.edits)
}

/// The edits that make a file with these bytes, where CreateFile makes one without.
fn file_edits(volume: &Volume, d: &Fid, name: &Octets, contents: &Octets) -> Mem<Edits>
    requires accepted { is_accepted (op volume.now.head.id all_rights (calls.CreateFile d.now name.now nothing_set) (volume_of volume.now)) ≡ true }
    requires short { length contents.now ≤ most_file_bytes }
    ensures { IfOk result (λ es. IsFilled volume.now.head.id d.now name.now contents.now (volume_of volume.now) (edits_seen es)) }
{
    let file = file_of(volume.alloc, d, contents)?;
    match vnode(volume, d) {
        Some(x) => filled_edits(volume, d, x, name, file),
        None => unreachable!(),
    }
}

/// The edits that lay a file: it is made as CreateFile does, and its bytes are stored as StoreData does.
fn plan_file(volume: &Volume, d: &Fid, name: &Octets, contents: &Octets) -> Result<Edits, OpFault>
    requires { d.now.volume ≡ volume.now.head.id }
    ensures { LaysEdits volume.now.head.id (volume_of volume.now) (laid_in volume.now.head.id (volume_of volume.now) d.now name.now (a_file_of contents.now)) result }
{
    accepts_file(volume, d, name)?;
    check(contents.len() <= MOST_BYTES, 27)?;
    let edits = file_edits(volume, d, name, contents)?;
    check(is_within_quota(volume, edits.as_slice()), 109)?;
    Ok(edits)
}

/// The edits that lay a file at a path: 22 where it has no name.
fn plan_path(volume: &Volume, path: &[Octets], contents: &Octets) -> Result<Edits, OpFault>
    ensures { LaysEdits volume.now.head.id (volume_of volume.now) (laid_at volume.now.head.id path.now (a_file_of contents.now) (volume_of volume.now)) result }
{
    let Some(name) = path.last() else {
        return Err(OpFault::Code(Code(22)));
    };
    let d = led(volume, &path[..path.len() - 1])?;
    plan_file(volume, &d, name, contents)
}

/// Lays what edits change.
#[tactic(auto, using(afs_volume::proofs::AtSetUp::still_at_set_up))]
pub fn lay_edits(volume: &mut Volume, edits: &[Edit]) -> Mem<()>
    requires { CanBeLaid volume.old.head.id (volume_of volume.old) (edits_seen edits.now) }
    ensures ok { OnOk result (volume_of volume.new ≡ at_once volume.old.head.id (edits_seen edits.now) (volume_of volume.old)) }
    ensures err { OnErr result ((volume.new.head ≡ volume.old.head) × (volume.new.vnodes.table ≡ volume.old.vnodes.table)) }
    ensures id { volume.new.head.id ≡ volume.old.head.id }
    ensures times { IsAtSetUp volume.old → IsAtSetUp volume.new }
{
    let draft = draft_of(volume, edits, 0)?;
    let unique = unique_left(volume, edits);
    let Draft {
        versions,
        vnodes,
        names,
        removed,
        ..
    } = draft;
    drop(versions);
    let vnodes = all_at_first(volume.alloc, vnodes)?;
    volume.make_room(vnodes.len())?;
    volume.take(vnodes, names.into_vec(), removed, 1, unique);
    Ok(())
}

/// Lays a file with these bytes, or leaves the volume as it was: 22 where its path has no name, 20 and 2 where it doesn't
/// lead to a directory, and the refusals of CreateFile and StoreData.
fn lay_file(volume: &mut Volume, path: &[Octets], contents: &Written) -> Result<(), OpFault>
    ensures lays { Lays (laid_at volume.old.head.id path.now (a_file_of (bytes_in contents.now)) (volume_of volume.old)) volume.old volume.new result }
    ensures id { volume.new.head.id ≡ volume.old.head.id }
    ensures times { IsAtSetUp volume.old → IsAtSetUp volume.new }
{
    let contents = bytes_in(volume.alloc, contents)?;
    let edits = plan_path(volume, path, &contents)?;
    lay_edits(volume, edits.as_slice())?;
    Ok(())
}

/// Lays a line of set-up, or leaves the volume as it was: 27 where a link's text or an access list's is larger than an
/// image holds, 22 where its path has no name, 20 and 2 where it doesn't lead to a directory, and the refusals of the
/// operations. Indexes, data versions and the counter stay at 1, the times of a
/// volume at set-up at 0. On a volume that has changed, what the line changes has index and data version 1 again, and so
/// has the counter.
pub fn lay(volume: &mut Volume, line: &SetupLine) -> Result<(), OpFault>
    ensures lays { Lays (laid volume.old.head.id line.now (volume_of volume.old)) volume.old volume.new result }
    ensures id { volume.new.head.id ≡ volume.old.head.id }
    ensures times { IsAtSetUp volume.old → IsAtSetUp volume.new }
{
    match line {
        SetupLine::Directory { path } => lay_directory(volume, path.as_slice()),
        SetupLine::File { path, contents } => lay_file(volume, path.as_slice(), contents),
        SetupLine::Link { path, target } => lay_link(volume, path.as_slice(), target),
        SetupLine::AccessList { path, text } => lay_access_list(volume, path.as_slice(), text),
    }
}
