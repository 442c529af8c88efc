//! Operations that make a vnode or a further name: CreateFile, Symlink, MakeDir, Link.

ghost use Rattle.std.specs.Prelude.{◌≡◌, ◌≤◌, ◌∷◌, [], Some, None, true, length, IfOk, OnOk};
ghost use Rattle.afs_num.specs.declared.calls.FsCall.TheVariants as calls;
ghost use Rattle.spec_ideal.specs.Directories.{add_refused};
ghost use Rattle.spec_ideal.specs.Operations.{adds_name, create_tests, creating, first_failing, free_number, has_right, is_kind, is_read_write, link_tests, linking, no_amend};
ghost use Rattle.spec_ideal.specs.Tables.{get};
ghost use Rattle.spec_ideal.specs.VnodeImage.{most_contents, FitsImage};
ghost use Rattle.spec_ideal.specs.Volumes.{a_directory, amends, ascending, makes, vnode_of};
ghost use Rattle.afs_reads.specs.Replying.{caller_seen, Passes};
ghost use Rattle.afs_changes.specs.Planning.{edits_seen, planned, Plans};
ghost use Rattle.afs_volume.specs.Giving.{volume_of};
ghost use Rattle.afs_volume.specs.Seen.{names_spelled, seen, IsReadable, SpellsNames};

use crate::edits::{Amend, Edit, Edits, New, Plan};
use crate::finding::{
    free_number, has_name, is_writable, links_of, links_there, list_of, may_link,
};
use crate::making::{new_directory, new_file, new_link, set_status};
use crate::naming::{MOST_NAMES, ascending, push_spelled, spelled_with};
use crate::operations::is_mask;
use afs_num::calls::AfsStoreStatus;
use afs_num::names::name_ok;
use afs_num::sequences::Octets;
use afs_num::types::{Fid, Mem};
use afs_num::vnodes::Vnode;
use afs_reads::callers::Caller;
use afs_reads::checks::{check, check_all};
use afs_reads::faults::OpFault;
use afs_reads::finding::{found, vnode};
use afs_reads::rights::may;
use afs_volume::{Volume, is_directory};
use std::alloc::Global;

/// Other names of a directory, which these bytes spell, and a new vnode.
fn plan_made(
    alloc: Global,
    d: u32,
    names: Octets,
    links: Option<u64>,
    number: u32,
    made: Vnode,
) -> Mem<Plan>
    requires spelled { SpellsNames (Some names) }
    requires short { length names ≤ most_contents }
    requires readable { IsReadable made }
    requires fits { FitsImage made }
    ensures edits { IfOk result (λ p. edits_seen p.edits ≡ ascending (amends d (record no_amend { names = Some (names_spelled names); links = links }) ∷ makes number (seen made) ∷ [])) }
    ensures shown { IfOk result (λ p. p.shown ≡ number) }
{
    let mut edits = Edits::new(alloc);
    push_spelled(&mut edits, d, names, links)?;
    edits.push(Edit::Makes(number, New { vnode: made }))?;
    Ok(Plan {
        edits: ascending(alloc, edits)?,
        shown: number,
    })
}

/// A caller may add a name to a directory: 30, 13, 22 where it is none or something else is bad, 17, 27.
#[tactic(auto, using(crate::proofs::Placed::may_be_added))]
fn may_add(
    volume: &Volume,
    caller: &Caller,
    number: u32,
    d: &Vnode,
    name: &[u8],
    good: bool,
) -> Result<(), OpFault>
    requires there { get number volume.now.vnodes.table ≡ Some d.now }
    requires directory { is_kind (seen d.now).kind a_directory ≡ true }
    ensures answer { Passes (first_failing (is_read_write (volume_of volume.now) ∷ has_right (caller_seen caller.now) 4 (volume_of volume.now) (Some (seen d.now)) ∷ adds_name name.now (seen d.now).names good)) result }
    ensures added { OnOk result (add_refused name.now (seen d.now).names ≡ None) }
{
    let names = volume.names(number, d);
    let is_good = good && name_ok(name);
    check_all(&[
        (is_writable(volume), 30),
        (may(volume, caller, 4, d), 13),
        (is_good, 22),
        (!has_name(names, name), 17),
        (names.len() < MOST_NAMES, 27),
    ])
}

/// A directory in which a caller may put a new name: 102, 20, 30, 13, 22, 17, 27.
fn may_create<'a>(
    volume: &'a Volume,
    caller: &Caller,
    fid: &Fid,
    name: &[u8],
    status: &AfsStoreStatus,
) -> Result<&'a Vnode, OpFault>
    ensures answer { Passes (first_failing (create_tests (caller_seen caller.now) fid.now name.now status.now (volume_of volume.now))) result }
    ensures found { IfOk result (λ d. vnode_of fid.now (volume_of volume.now) ≡ Some (seen d.now)) }
    ensures there { IfOk result (λ d. get fid.now.vnode volume.now.vnodes.table ≡ Some d.now) }
    ensures directory { IfOk result (λ d. is_kind (seen d.now).kind a_directory ≡ true) }
    ensures added { IfOk result (λ d. add_refused name.now (seen d.now).names ≡ None) }
    ensures fits { IfOk result (λ d. FitsImage d.now) }
    ensures readable { IfOk result (λ d. IsReadable d.now) }
{
    let d = found(volume, fid)?;
    check(is_directory(d), 20)?;
    may_add(volume, caller, fid.vnode, d, name, is_mask(status))?;
    Ok(d)
}

/// A new vnode and its name, in a directory to which the name may be added.
pub fn creates(
    volume: &Volume,
    fid: &Fid,
    d: &Vnode,
    name: &[u8],
    status: &AfsStoreStatus,
    links: Option<u64>,
    made: Vnode,
) -> Mem<Plan>
    requires found { vnode_of fid.now (volume_of volume.now) ≡ Some (seen d.now) }
    requires there { get fid.now.vnode volume.now.vnodes.table ≡ Some d.now }
    requires directory { is_kind (seen d.now).kind a_directory ≡ true }
    requires added { add_refused name.now (seen d.now).names ≡ None }
    requires readable { IsReadable made }
    requires fits { FitsImage made }
    ensures edits { IfOk result (λ p. edits_seen p.edits ≡ ascending (creating fid.now name.now status.now links (seen made) (volume_of volume.now))) }
    ensures shown { IfOk result (λ p. p.shown ≡ free_number (seen made).kind (volume_of volume.now)) }
{
    let number = free_number(volume, &made);
    let names = volume.names(fid.vnode, d);
    let bytes = d.contents.as_slice();
    let names = spelled_with(volume.alloc, names, bytes, name, number, volume.head.unique)?;
    let mut made = made;
    set_status(&mut made, status);
    plan_made(volume.alloc, fid.vnode, names, links, number, made)
}

/// CreateFile: a file of mode 644, in octal, and its name.
pub fn create_file(
    volume: &Volume,
    caller: &Caller,
    fid: &Fid,
    name: &Octets,
    status: &AfsStoreStatus,
) -> Result<Plan, OpFault>
    ensures { Plans (planned (caller_seen caller.now) (calls.CreateFile fid.now name.now status.now) (volume_of volume.now)) result }
{
    let d = may_create(volume, caller, fid, name.as_slice(), status)?;
    let made = new_file(volume.alloc, fid);
    Ok(creates(volume, fid, d, name.as_slice(), status, None, made)?)
}

/// Symlink: a link of mode 777 with this text, and its name.
pub fn symlink(
    volume: &Volume,
    caller: &Caller,
    fid: &Fid,
    name: &Octets,
    target: &Octets,
    status: &AfsStoreStatus,
) -> Result<Plan, OpFault>
    requires { length target.now ≤ most_contents }
    ensures { Plans (planned (caller_seen caller.now) (calls.Symlink fid.now name.now target.now status.now) (volume_of volume.now)) result }
{
    let d = may_create(volume, caller, fid, name.as_slice(), status)?;
    let made = new_link(volume.alloc, fid, target)?;
    Ok(creates(volume, fid, d, name.as_slice(), status, None, made)?)
}

/// MakeDir: a directory of mode 755 with its parent's access list, and its name.
pub fn make_dir(
    volume: &Volume,
    caller: &Caller,
    fid: &Fid,
    name: &Octets,
    status: &AfsStoreStatus,
) -> Result<Plan, OpFault>
    ensures { Plans (planned (caller_seen caller.now) (calls.MakeDir fid.now name.now status.now) (volume_of volume.now)) result }
{
    let d = may_create(volume, caller, fid, name.as_slice(), status)?;
    let made = new_directory(volume.alloc, fid, list_of(d))?;
    let links = Some(links_of(d) + 1);
    Ok(creates(volume, fid, d, name.as_slice(), status, links, made)?)
}

/// A further name of a file, in a directory to which the name may be added.
fn links(volume: &Volume, fid: &Fid, d: &Vnode, name: &[u8], existing: &Fid) -> Mem<Plan>
    requires found { vnode_of fid.now (volume_of volume.now) ≡ Some (seen d.now) }
    requires there { get fid.now.vnode volume.now.vnodes.table ≡ Some d.now }
    requires directory { is_kind (seen d.now).kind a_directory ≡ true }
    requires added { add_refused name.now (seen d.now).names ≡ None }
    ensures edits { IfOk result (λ p. edits_seen p.edits ≡ ascending (linking fid.now name.now existing.now (volume_of volume.now))) }
    ensures shown { IfOk result (λ p. p.shown ≡ existing.now.vnode) }
{
    let names = spelled_with(
        volume.alloc,
        volume.names(fid.vnode, d),
        d.contents.as_slice(),
        name,
        existing.vnode,
        existing.unique,
    )?;
    let links = links_there(vnode(volume, existing)) + 1;
    let mut edits = Edits::new(volume.alloc);
    push_spelled(&mut edits, fid.vnode, names, None)?;
    edits.push(Edit::Amends(existing.vnode, Amend::with_links(links)))?;
    Ok(Plan {
        edits: ascending(volume.alloc, edits)?,
        shown: existing.vnode,
    })
}

/// A directory in which a caller may give a vnode a further name: 102, 20, 30, 13, 22, 17, 27.
fn may_name<'a>(
    volume: &'a Volume,
    caller: &Caller,
    fid: &Fid,
    name: &[u8],
    existing: &Fid,
) -> Result<&'a Vnode, OpFault>
    ensures answer { Passes (first_failing (link_tests (caller_seen caller.now) fid.now name.now existing.now (volume_of volume.now))) result }
    ensures found { IfOk result (λ d. vnode_of fid.now (volume_of volume.now) ≡ Some (seen d.now)) }
    ensures there { IfOk result (λ d. get fid.now.vnode volume.now.vnodes.table ≡ Some d.now) }
    ensures directory { IfOk result (λ d. is_kind (seen d.now).kind a_directory ≡ true) }
    ensures added { IfOk result (λ d. add_refused name.now (seen d.now).names ≡ None) }
{
    let d = found(volume, fid)?;
    let is_here = existing.volume == fid.volume;
    let x = vnode(volume, existing);
    check(!is_here || x.is_some(), 102)?;
    check(is_directory(d), 20)?;
    may_add(
        volume,
        caller,
        fid.vnode,
        d,
        name,
        is_here && may_link(fid, x),
    )?;
    Ok(d)
}

/// Link: a further name of a file.
pub fn link(
    volume: &Volume,
    caller: &Caller,
    fid: &Fid,
    name: &Octets,
    existing: &Fid,
) -> Result<Plan, OpFault>
    ensures { Plans (planned (caller_seen caller.now) (calls.Link fid.now name.now existing.now) (volume_of volume.now)) result }
{
    let d = may_name(volume, caller, fid, name.as_slice(), existing)?;
    Ok(links(volume, fid, d, name.as_slice(), existing)?)
}
