//! Rename: a name is moved, in one directory or to another, and may take the place of a name that is there.

ghost use Rattle.std.specs.Prelude.{◌≡◌, ◌==◌, ◌<◌, ◌&&◌, ◌||◌, nat_lt, ◌∷◌, ◌++◌, [], Some, true, is_some, length, IfOk, OnOk};
ghost use Rattle.std.specs.Option.{option_copied, option_map};
ghost use Rattle.afs_num.specs.Names.{name_ok};
ghost use Rattle.afs_num.specs.declared.calls.FsCall.TheVariants as calls;
ghost use Rattle.spec_ideal.specs.Directories.{named, with_name, without_name};
ghost use Rattle.spec_ideal.specs.Operations.{by_tests, effect, first_failing, has_room_for, is_below, is_kind, is_same_name, linked, may_move, directory_name, named_vnode, no_amend, rename_out_tests, rename_rights, renaming, same_vnode, Result};
ghost use Rattle.spec_ideal.specs.Volumes.{a_directory, amends, vnode_of};
ghost use Rattle.afs_reads.specs.Replying.{caller_seen};
ghost use Rattle.afs_changes.specs.Planning.{edits_seen, move_tests, planned, takes_place, Plans};
ghost use Rattle.afs_volume.specs.Giving.{volume_of};
ghost use Rattle.afs_volume.specs.Seen.{seen};

use crate::edits::{Amend, Edit, Edits, Plan};
use crate::finding::{
    has_name, is_directory_there, is_empty, is_writable, links_of, named, number_named,
};
use crate::naming::{MOST_NAMES, ascending, push_names, push_unlink, take_name};
use afs_dir::{Dir, DirFault, Listing};
use afs_num::names::name_ok;
use afs_num::sequences::Octets;
use afs_num::types::{Code, Fid, Mem};
use afs_num::vnodes::Vnode;
use afs_reads::callers::Caller;
use afs_reads::checks::{check, check_all};
use afs_reads::faults::OpFault;
use afs_reads::finding::found;
use afs_reads::rights::may;
use afs_volume::finding::names_of;
use afs_volume::{Volume, is_directory};
use std::alloc::{AllocError, Global};

/// A name in a directory, whether it is there or not: the directory's fid, its vnode and its names, and the name.
#[derive(Clone, Copy)]
pub struct Place<'a> {
    pub fid: &'a Fid,
    pub vnode: &'a Vnode,
    pub names: &'a Listing,
    pub name: &'a [u8],
}

/// What takes the place of another is no directory, or that is one too.
fn takes_place(x: Option<&Vnode>, other: Option<&Vnode>) -> bool
    ensures { result ≡ takes_place (option_map seen (option_copied x.entry)) (option_map seen (option_copied other.entry)) }
{
    match (x, other) {
        (Some(x), Some(other)) => !is_directory(x) || is_directory(other),
        _ => true,
    }
}

fn is_same_name(from: &Place, to: &Place) -> bool
    ensures { result ≡ is_same_name from.now.fid.now from.now.name.now to.now.fid.now to.now.name.now }
{
    from.fid.vnode == to.fid.vnode && from.name == to.name
}

/// Both names are there, and of one vnode.
fn is_same_vnode(from: &Place, to: &Place) -> bool
    ensures { result ≡ same_vnode (named from.now.name.now from.now.names.now) (named to.now.name.now to.now.names.now) }
{
    match (from.names.find(from.name), to.names.find(to.name)) {
        (Some((number, unique)), Some(other)) => number == other.0 && unique == other.1,
        _ => false,
    }
}

/// One link more where a directory comes, one less where one goes.
fn linked(comes: bool, goes: bool, links: u64) -> u64
    requires { links < 4_294_967_296 }
    ensures { result ≡ linked comes goes links }
{
    match (comes, goes) {
        (true, false) => links + 1,
        (false, true) => links.saturating_sub(1),
        _ => links,
    }
}

/// Puts a name, in the place of the one of that name where there is one.
#[tactic(auto, using(crate::proofs::Renamed::no_refusal))]
fn put_name(names: &mut Dir, name: &[u8], vnode: u32, unique: u32) -> Mem<()>
    requires good { name_ok name.now ≡ true }
    requires room { length (without_name name.now names.old) < 1024 }
    ensures { OnOk result (names.new ≡ with_name (directory_name name.now vnode unique) (without_name name.now names.old)) }
{
    take_name(names, name);
    match names.add(name, vnode, unique) {
        Ok(()) => Ok(()),
        Err(DirFault::OutOfMemory) => Err(AllocError),
        Err(_) => unreachable!(),
    }
}

/// Takes a name from its directory, which then has so many links.
fn take_from(alloc: Global, edits: &mut Edits, from: &Place, links: u64) -> Mem<()>
    requires names { from.now.names.now ≡ (seen from.now.vnode.now).names }
    requires directory { is_kind (seen from.now.vnode.now).kind a_directory ≡ true }
    ensures { OnOk result (edits_seen edits.new ≡ edits_seen edits.old ++ amends from.now.fid.now.vnode (record no_amend { names = Some (without_name from.now.name.now from.now.names.now); links = Some links }) ∷ []) }
{
    let mut left = names_of(alloc, from.vnode)?;
    take_name(&mut left, from.name);
    push_names(edits, from.fid.vnode, &left, Some(links))
}

/// Puts a name in a directory, which then has so many links.
fn put_in(
    edits: &mut Edits,
    e: &Fid,
    names: Dir,
    new: &[u8],
    moved: (u32, u32),
    links: u64,
) -> Mem<()>
    requires good { name_ok new.now ≡ true }
    requires room { length (without_name new.now names) < 1024 }
    ensures { OnOk result (edits_seen edits.new ≡ edits_seen edits.old ++ amends e.now.vnode (record no_amend { names = Some (with_name (directory_name new.now moved.0 moved.1) (without_name new.now names)); links = Some links }) ∷ []) }
{
    let mut names = names;
    put_name(&mut names, new, moved.0, moved.1)?;
    push_names(edits, e.vnode, &names, Some(links))
}

/// Puts a name in the place of another of the same directory, which then has so many links.
#[tactic(auto, using(crate::proofs::Renamed::room_within))]
fn put_within(
    alloc: Global,
    edits: &mut Edits,
    from: &Place,
    new: &[u8],
    moved: (u32, u32),
    links: u64,
) -> Mem<()>
    requires good { name_ok new.now ≡ true }
    requires names { from.now.names.now ≡ (seen from.now.vnode.now).names }
    requires directory { is_kind (seen from.now.vnode.now).kind a_directory ≡ true }
    requires there { is_some (named from.now.name.now from.now.names.now) ≡ true }
    ensures { OnOk result (edits_seen edits.new ≡ edits_seen edits.old ++ amends from.now.fid.now.vnode (record no_amend { names = Some (with_name (directory_name new.now moved.0 moved.1) (without_name new.now (without_name from.now.name.now from.now.names.now))); links = Some links }) ∷ []) }
{
    let mut left = names_of(alloc, from.vnode)?;
    take_name(&mut left, from.name);
    put_in(edits, from.fid, left, new, moved, links)
}

/// Puts a name of another directory in one that has room for it, and which then has so many links.
#[tactic(auto, using(crate::proofs::Renamed::room_across))]
fn put_across(
    alloc: Global,
    edits: &mut Edits,
    to: &Place,
    moved: (u32, u32),
    links: u64,
) -> Mem<()>
    requires good { name_ok to.now.name.now ≡ true }
    requires names { to.now.names.now ≡ (seen to.now.vnode.now).names }
    requires directory { is_kind (seen to.now.vnode.now).kind a_directory ≡ true }
    requires room { (is_some (named to.now.name.now to.now.names.now) || nat_lt (length to.now.names.now) 1024) ≡ true }
    ensures { OnOk result (edits_seen edits.new ≡ edits_seen edits.old ++ amends to.now.fid.now.vnode (record no_amend { names = Some (with_name (directory_name to.now.name.now moved.0 moved.1) (without_name to.now.name.now to.now.names.now)); links = Some links }) ∷ []) }
{
    let all = names_of(alloc, to.vnode)?;
    put_in(edits, to.fid, all, to.name, moved, links)
}

/// Takes a name from a directory and puts it in another, which is then the parent; each has then so many links.
fn move_across(
    alloc: Global,
    edits: &mut Edits,
    from: &Place,
    left: u64,
    to: &Place,
    moved: (u32, u32),
    links: u64,
) -> Mem<()>
    requires good { name_ok to.now.name.now ≡ true }
    requires names { (from.now.names.now ≡ (seen from.now.vnode.now).names) × (to.now.names.now ≡ (seen to.now.vnode.now).names) }
    requires kinds { (is_kind (seen from.now.vnode.now).kind a_directory ≡ true) × (is_kind (seen to.now.vnode.now).kind a_directory ≡ true) }
    requires room { (is_some (named to.now.name.now to.now.names.now) || nat_lt (length to.now.names.now) 1024) ≡ true }
    ensures { OnOk result (edits_seen edits.new ≡ ((edits_seen edits.old
        ++ amends from.now.fid.now.vnode (record no_amend { names = Some (without_name from.now.name.now from.now.names.now); links = Some left }) ∷ [])
        ++ amends to.now.fid.now.vnode (record no_amend { names = Some (with_name (directory_name to.now.name.now moved.0 moved.1) (without_name to.now.name.now to.now.names.now)); links = Some links }) ∷ [])
        ++ amends moved.0 (record no_amend { parent = Some (to.now.fid.now.vnode, to.now.fid.now.unique) }) ∷ []) }
{
    take_from(alloc, edits, from, left)?;
    put_across(alloc, edits, to, moved, links)?;
    edits.push(Edit::Amends(moved.0, Amend::with_parent(to.fid.vnode, to.fid.unique)))
}

/// Nothing is added to a directory, or a name is replaced, or there is room for one more.
fn has_room_for(from: &Place, to: &Place) -> bool
    ensures { result ≡ (from.now.fid.now.vnode == to.now.fid.now.vnode || (is_some (named to.now.name.now to.now.names.now) || nat_lt (length to.now.names.now) 1024)) }
{
    from.fid.vnode == to.fid.vnode || has_name(to.names, to.name) || to.names.len() < MOST_NAMES
}

/// The vnode of a number is this one, or stands below it. The way up has no more steps than there are vnodes.
fn is_below(volume: &Volume, number: u32, top: u32) -> bool
    ensures { result ≡ is_below number top (volume_of volume.now) }
{
    let mut at = number;
    for _ in 0..volume.vnodes.len() {
        match volume.get(at) {
            None => return false,
            Some(_) if at == top => return true,
            Some(x) => at = x.parent_vnode,
        }
    }
    false
}

/// To another volume, which isn't looked at: 22.
fn rename_out(volume: &Volume, caller: &Caller, d: &Fid) -> Result<Plan, OpFault>
    ensures { (r : Result) → Plans (by_tests (first_failing (rename_out_tests (caller_seen caller.now) d.now (volume_of volume.now))) r) result }
{
    let x = found(volume, d)?;
    check(is_directory(x), 20)?;
    check(is_writable(volume), 30)?;
    check(may(volume, caller, 16, x), 13)?;
    Err(OpFault::Code(Code(22)))
}

/// From one directory a name is taken, and in the other one is put and maybe replaced.
fn may_rename(volume: &Volume, caller: &Caller, from: &Place, to: &Place) -> bool
    requires from { vnode_of from.now.fid.now (volume_of volume.now) ≡ Some (seen from.now.vnode.now) }
    requires to { vnode_of to.now.fid.now (volume_of volume.now) ≡ Some (seen to.now.vnode.now) }
    requires names { to.now.names.now ≡ (seen to.now.vnode.now).names }
    ensures { result ≡ rename_rights (caller_seen caller.now) from.now.fid.now to.now.fid.now to.now.name.now (volume_of volume.now) }
{
    let takes = may(volume, caller, 16, from.vnode);
    let puts = may(volume, caller, 4, to.vnode);
    let may_replace = may(volume, caller, 16, to.vnode);
    takes && puts && (!has_name(to.names, to.name) || may_replace)
}

/// A directory doesn't move below itself, a file with more than one name stays in its directory, and no name takes
/// the place of another of the same vnode.
fn may_move(volume: &Volume, from: &Place, to: &Place) -> bool
    ensures { result ≡ may_move from.now.fid.now to.now.fid.now (named from.now.name.now from.now.names.now) (named to.now.name.now to.now.names.now) (volume_of volume.now) (named_vnode (volume_of volume.now) (named from.now.name.now from.now.names.now)) }
{
    match named(volume, from.names, from.name) {
        None => true,
        Some(x) => {
            !is_same_vnode(from, to)
                && (if is_directory(x) {
                    !is_below(volume, to.fid.vnode, number_named(from.names, from.name))
                } else {
                    from.fid.vnode == to.fid.vnode || links_of(x) < 2
                })
        }
    }
}

/// What is done where the tests pass. From one directory to another, which is then the parent, a directory takes its
/// link along; a directory that is replaced is one link less.
fn renames(volume: &Volume, from: &Place, to: &Place) -> Mem<Edits>
    requires from { vnode_of from.now.fid.now (volume_of volume.now) ≡ Some (seen from.now.vnode.now) }
    requires to { vnode_of to.now.fid.now (volume_of volume.now) ≡ Some (seen to.now.vnode.now) }
    requires names { (from.now.names.now ≡ (seen from.now.vnode.now).names) × (to.now.names.now ≡ (seen to.now.vnode.now).names) }
    requires kinds { (is_kind (seen from.now.vnode.now).kind a_directory ≡ true) × (is_kind (seen to.now.vnode.now).kind a_directory ≡ true) }
    requires good { name_ok to.now.name.now ≡ true }
    requires there { is_some (named from.now.name.now from.now.names.now) ≡ true }
    requires room { has_room_for from.now.fid.now to.now.fid.now to.now.name.now (volume_of volume.now) ≡ true }
    ensures { IfOk result (λ es. edits_seen es ≡ renaming from.now.fid.now to.now.fid.now from.now.name.now to.now.name.now (named from.now.name.now from.now.names.now) (named to.now.name.now to.now.names.now) (volume_of volume.now)) }
{
    let mut edits = Edits::new(volume.alloc);
    let Some(moved) = from.names.find(from.name) else {
        return Ok(edits);
    };
    let number = number_named(to.names, to.name);
    let target = named(volume, to.names, to.name);
    let replaced = is_directory_there(target);
    if from.fid.vnode == to.fid.vnode {
        let links = linked(false, replaced, links_of(from.vnode));
        put_within(volume.alloc, &mut edits, from, to.name, moved, links)?;
    } else {
        let moves = is_directory_there(named(volume, from.names, from.name));
        let left = linked(false, moves, links_of(from.vnode));
        let links = linked(moves, replaced, links_of(to.vnode));
        move_across(volume.alloc, &mut edits, from, left, to, moved, links)?;
    }
    push_unlink(&mut edits, number, target)?;
    Ok(edits)
}

/// Rename from one name to another, after the tests of kinds: 13, 22, 2, 39, 27.
fn moves(volume: &Volume, caller: &Caller, from: &Place, to: &Place) -> Result<Plan, OpFault>
    requires from { vnode_of from.now.fid.now (volume_of volume.now) ≡ Some (seen from.now.vnode.now) }
    requires to { vnode_of to.now.fid.now (volume_of volume.now) ≡ Some (seen to.now.vnode.now) }
    requires names { (from.now.names.now ≡ (seen from.now.vnode.now).names) × (to.now.names.now ≡ (seen to.now.vnode.now).names) }
    requires kinds { (is_kind (seen from.now.vnode.now).kind a_directory ≡ true) × (is_kind (seen to.now.vnode.now).kind a_directory ≡ true) }
    ensures { Plans (by_tests (first_failing (move_tests (caller_seen caller.now) from.now.fid.now from.now.name.now to.now.fid.now to.now.name.now (volume_of volume.now))) (effect (caller_seen caller.now) (calls.Rename from.now.fid.now from.now.name.now to.now.fid.now to.now.name.now) (volume_of volume.now))) result }
{
    let is_good = name_ok(to.name) && !is_same_name(from, to) && may_move(volume, from, to);
    check_all(&[
        (may_rename(volume, caller, from, to), 13),
        (is_good, 22),
        (has_name(from.names, from.name), 2),
        (is_empty(volume, named(volume, to.names, to.name)), 39),
        (has_room_for(from, to), 27),
    ])?;
    let edits = renames(volume, from, to)?;
    Ok(Plan {
        edits: ascending(volume.alloc, edits)?,
        shown: to.fid.vnode,
    })
}

/// Rename within a volume, of two directories.
#[tactic(auto, using(crate::proofs::Renamed::kinds_tested))]
fn rename_in(volume: &Volume, caller: &Caller, from: &Place, to: &Place) -> Result<Plan, OpFault>
    requires from { vnode_of from.now.fid.now (volume_of volume.now) ≡ Some (seen from.now.vnode.now) }
    requires to { vnode_of to.now.fid.now (volume_of volume.now) ≡ Some (seen to.now.vnode.now) }
    requires names { (from.now.names.now ≡ (seen from.now.vnode.now).names) × (to.now.names.now ≡ (seen to.now.vnode.now).names) }
    requires directories { (is_kind (seen from.now.vnode.now).kind a_directory && is_kind (seen to.now.vnode.now).kind a_directory) ≡ true }
    requires within { to.now.fid.now.volume ≡ from.now.fid.now.volume }
    ensures { Plans (planned (caller_seen caller.now) (calls.Rename from.now.fid.now from.now.name.now to.now.fid.now to.now.name.now) (volume_of volume.now)) result }
{
    let source = named(volume, from.names, from.name);
    let target = named(volume, to.names, to.name);
    check(takes_place(source, target), 20)?;
    check(takes_place(target, source), 21)?;
    check(is_writable(volume), 30)?;
    moves(volume, caller, from, to)
}

/// Rename.
pub fn rename(
    volume: &Volume,
    caller: &Caller,
    d: &Fid,
    old: &Octets,
    e: &Fid,
    new: &Octets,
) -> Result<Plan, OpFault>
    ensures { Plans (planned (caller_seen caller.now) (calls.Rename d.now old.now e.now new.now) (volume_of volume.now)) result }
{
    if e.volume != d.volume {
        return rename_out(volume, caller, d);
    }
    let x = found(volume, d)?;
    let y = found(volume, e)?;
    check(is_directory(x) && is_directory(y), 20)?;
    let from = Place {
        fid: d,
        vnode: x,
        names: volume.names(d.vnode, x),
        name: old.as_slice(),
    };
    let to = Place {
        fid: e,
        vnode: y,
        names: volume.names(e.vnode, y),
        name: new.as_slice(),
    };
    rename_in(volume, caller, &from, &to)
}
