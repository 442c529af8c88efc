//! What an act needs next: by what it has read.

ghost use Rattle.spec_ideal.specs.SetUp.{nothing_set};
ghost use Rattle.std.specs.Prelude.{◌≡◌, ◌≤◌, ◌++◌, IfOk, Some, length, take};
ghost use Rattle.afs_num.specs.declared.calls.FsCall.{FsCall};
ghost use Rattle.spec_rows.specs.Going.{asks_for, by_kind, is_root_path, mode_set, named_first, next, stored_whole};
ghost use Rattle.spec_history.specs.Written.{bytes_in};
ghost use Rattle.afs_acts.specs.Acts.{FitsNeed, FitsCalls};
ghost use Rattle.spec_history.specs.declared.acts.Operand.TheVariants as operands;
ghost use Rattle.afs_acts.specs.Needs.{are_read, asks_in, asks_on, at_of, came, came_within, linked, moved, needed_by, rights_by, shows_by, status_by, statuses_in, statuses_seen, within_of};
ghost use Rattle.afs_acts.specs.Walks.{need_of};
ghost use Rattle.afs_acts.specs.Ways.{first_operand, IsUnderway};

use crate::types::{Going, Homes, Need, Shown, Way};
use crate::walks::{
    At, Within, behind_status, body_at, first_parent, has_rights, object, parent, path_object,
};
use afs_num::calls::{AfsStoreStatus, Fids, FsCall};
use afs_num::directories::{Name, Names};
use afs_num::histories::Body;
use afs_num::sequences::Sequence;
use afs_num::types::{Fid, Mem};
use spec_history::acts::{Act, Path, Written};
use spec_history::written::bytes_in;
use std::alloc::Global;

/// The status of so many names is shown at most.
const MOST_SHOWN: usize = 50;

/// The need that comes before, or what the value gives.
macro_rules! reach {
    ($reached:expr) => {
        match $reached {
            Ok(reached) => reached,
            Err(need) => return Ok(need),
        }
    };
}

fn set(mask: u32, mode: u32) -> AfsStoreStatus
    ensures { result ≡ record { mask = mask; client_mod_time = 0; owner = 0; group = 0; unix_mode_bits = mode; seg_size = 0 } }
{
    AfsStoreStatus {
        mask,
        client_mod_time: 0,
        owner: 0,
        group: 0,
        unix_mode_bits: mode,
        seg_size: 0,
    }
}

/// An act asks with this call.
fn ask(alloc: Global, call: FsCall) -> Mem<Need>
    ensures { IfOk result (λ n. need_of n ≡ asks_for call) }
{
    Ok(Need::Call(Box::new(alloc, call)?))
}

/// The answer by what the object is.
fn kind(file: u32, directory: u32, link: u32, body: &Body) -> Need
    ensures { need_of result ≡ by_kind file directory link body.now }
{
    match body {
        Body::File(_) => Need::Answer(file),
        Body::Dir(_) => Need::Answer(directory),
        _ => Need::Answer(link),
    }
}

fn show(file: u32, directory: u32, link: u32, reached: Result<At<'_>, Need>) -> Need
    ensures { need_of result ≡ shows_by file directory link (came reached.entry) }
{
    let at = match reached {
        Ok(at) => at,
        Err(need) => return need,
    };
    match body_at(at) {
        Ok(taken) => kind(file, directory, link, taken.body),
        Err(need) => need,
    }
}

fn status(reached: Result<At<'_>, Need>) -> Need
    ensures { need_of result ≡ status_by (came reached.entry) }
{
    let at = match reached {
        Ok(at) => at,
        Err(need) => return need,
    };
    match behind_status(&at.fid, at.rest) {
        Some(_) => Need::Answer(0),
        None => Need::Status(at.fid),
    }
}

fn rights(reached: Result<At<'_>, Need>) -> Need
    ensures { need_of result ≡ rights_by (came reached.entry) }
{
    let at = match reached {
        Ok(at) => at,
        Err(need) => return need,
    };
    if has_rights(&at.fid, at.rest) {
        Need::Answer(0)
    } else {
        Need::Rights(at.fid)
    }
}

fn first_names(names: &[Name]) -> &[Name]
    ensures { result.now ≡ take 50 names.now }
{
    names.split_at(MOST_SHOWN.min(names.len())).0
}

/// The fids of a directory's first names.
fn first_fids(alloc: Global, volume: u32, names: &Names) -> Mem<Fids>
    ensures value { IfOk result (λ fs. fs ≡ named_first volume names.now) }
{
    let mut fids = Sequence::new(alloc);
    for name in first_names(names.as_slice()) {
        fids.push(Fid {
            volume,
            vnode: name.vnode,
            unique: name.unique,
        })?;
    }
    Ok(fids)
}

/// The status of each of these, or what was read of them.
fn all_read(fids: &[Fid], reads: &[Shown]) -> bool
    ensures { result ≡ are_read fids.now reads.now }
{
    let mut rest = reads;
    for fid in fids {
        match behind_status(fid, rest) {
            Some(more) => rest = more,
            None => return false,
        }
    }
    true
}

fn statuses_of(alloc: Global, volume: u32, reads: &[Shown], body: &Body) -> Mem<Need>
    ensures { IfOk result (λ n. need_of n ≡ statuses_seen volume reads.now body.now) }
{
    let Body::Dir(names) = body else {
        return Ok(Need::Answer(20));
    };
    let fids = first_fids(alloc, volume, names)?;
    if all_read(fids.as_slice(), reads) {
        Ok(Need::Answer(0))
    } else {
        Ok(Need::Statuses(fids))
    }
}

fn statuses(alloc: Global, reached: Result<At<'_>, Need>) -> Mem<Need>
    ensures { IfOk result (λ n. need_of n ≡ statuses_in (came reached.entry)) }
{
    let at = reach!(reached);
    let taken = reach!(body_at(at));
    statuses_of(alloc, at.fid.volume, taken.rest, taken.body)
}

fn close(alloc: Global, contents: &Written, reached: Result<At<'_>, Need>) -> Mem<Need>
    requires { length (bytes_in contents.now) ≤ 2097152 }
    ensures { IfOk result (λ n. need_of n ≡ asks_on (λ f. stored_whole f (bytes_in contents.now)) (came reached.entry)) }
{
    let at = reach!(reached);
    let contents = bytes_in(alloc, contents)?;
    let length = contents.len() as i32;
    ask(
        alloc,
        FsCall::StoreData {
            fid: at.fid,
            status: set(0, 0),
            position: 0,
            length,
            file_length: length,
            contents,
        },
    )
}

fn set_mode(alloc: Global, mode: u32, reached: Result<At<'_>, Need>) -> Mem<Need>
    ensures { IfOk result (λ n. need_of n ≡ asks_on (λ f. FsCall.StoreStatus f (mode_set mode)) (came reached.entry)) }
{
    let at = reach!(reached);
    ask(
        alloc,
        FsCall::StoreStatus {
            fid: at.fid,
            status: set(8, mode),
        },
    )
}

fn set_acl(alloc: Global, text: &Written, reached: Result<At<'_>, Need>) -> Mem<Need>
    ensures { IfOk result (λ n. need_of n ≡ asks_on (λ f. FsCall.StoreAcl f (bytes_in text.now)) (came reached.entry)) }
{
    let at = reach!(reached);
    ask(
        alloc,
        FsCall::StoreAcl {
            fid: at.fid,
            acl: bytes_in(alloc, text)?,
        },
    )
}

/// A call with a name in a directory.
fn make(alloc: Global, reached: Result<Within<'_, '_>, Need>) -> Mem<Need>
    ensures { IfOk result (λ n. need_of n ≡ asks_in (λ d name. FsCall.CreateFile d name nothing_set) (came_within reached.entry)) }
{
    let within = reach!(reached);
    ask(
        alloc,
        FsCall::CreateFile {
            directory: within.directory,
            name: within.name.copy(alloc)?,
            status: set(0, 0),
        },
    )
}

fn make_directory(alloc: Global, reached: Result<Within<'_, '_>, Need>) -> Mem<Need>
    ensures { IfOk result (λ n. need_of n ≡ asks_in (λ d name. FsCall.MakeDir d name nothing_set) (came_within reached.entry)) }
{
    let within = reach!(reached);
    ask(
        alloc,
        FsCall::MakeDir {
            directory: within.directory,
            name: within.name.copy(alloc)?,
            status: set(0, 0),
        },
    )
}

fn symlink(alloc: Global, target: &Written, reached: Result<Within<'_, '_>, Need>) -> Mem<Need>
    ensures { IfOk result (λ n. need_of n ≡ asks_in (λ d name. FsCall.Symlink d name (bytes_in target.now) nothing_set) (came_within reached.entry)) }
{
    let within = reach!(reached);
    ask(
        alloc,
        FsCall::Symlink {
            directory: within.directory,
            name: within.name.copy(alloc)?,
            target: bytes_in(alloc, target)?,
            status: set(0, 0),
        },
    )
}

fn remove(alloc: Global, reached: Result<Within<'_, '_>, Need>) -> Mem<Need>
    ensures { IfOk result (λ n. need_of n ≡ asks_in FsCall.RemoveFile (came_within reached.entry)) }
{
    let within = reach!(reached);
    ask(
        alloc,
        FsCall::RemoveFile {
            directory: within.directory,
            name: within.name.copy(alloc)?,
        },
    )
}

fn remove_directory(alloc: Global, reached: Result<Within<'_, '_>, Need>) -> Mem<Need>
    ensures { IfOk result (λ n. need_of n ≡ asks_in FsCall.RemoveDir (came_within reached.entry)) }
{
    let within = reach!(reached);
    ask(
        alloc,
        FsCall::RemoveDir {
            directory: within.directory,
            name: within.name.copy(alloc)?,
        },
    )
}

fn is_root(path: &Path) -> bool
    ensures { result ≡ is_root_path path.now }
{
    path.names.is_empty()
}

/// Two volumes are 22, found once both walks were made.
fn rename(alloc: Global, old: Within<'_, '_>, new: Within<'_, '_>) -> Mem<Need>
    ensures { IfOk result (λ n. need_of n ≡ moved (within_of old.entry) (within_of new.entry)) }
{
    if old.directory.volume != new.directory.volume {
        return Ok(Need::Answer(22));
    }
    ask(
        alloc,
        FsCall::Rename {
            old_directory: old.directory,
            old_name: old.name.copy(alloc)?,
            new_directory: new.directory,
            new_name: new.name.copy(alloc)?,
        },
    )
}

fn mv(alloc: Global, homes: &Homes, from: &Path, to: &Path, way: &Way, rest: &[Shown]) -> Mem<Need>
    requires { IsUnderway homes.now.first (Some (operands.Path from.now)) way.now.names way.now.fid way.now.behind }
    ensures { IfOk result (λ n. need_of n ≡ needed_by homes.now (Act.Move from.now to.now) (way.now.behind ++ rest.now)) }
{
    if is_root(from) || is_root(to) {
        return Ok(Need::Answer(22));
    }
    let old = reach!(first_parent(alloc, homes.first, from, way, rest)?);
    let new = reach!(parent(alloc, homes.second, to, old.rest)?);
    rename(alloc, old, new)
}

fn add_name(alloc: Global, target: At<'_>, new: Within<'_, '_>) -> Mem<Need>
    ensures { IfOk result (λ n. need_of n ≡ linked (at_of target.entry) (within_of new.entry)) }
{
    if target.fid.volume != new.directory.volume {
        return Ok(Need::Answer(22));
    }
    ask(
        alloc,
        FsCall::Link {
            directory: new.directory,
            name: new.name.copy(alloc)?,
            existing: target.fid,
        },
    )
}

fn link(
    alloc: Global,
    homes: &Homes,
    target: &Path,
    path: &Path,
    way: &Way,
    rest: &[Shown],
) -> Mem<Need>
    requires { IsUnderway homes.now.first (Some (operands.Path target.now)) way.now.names way.now.fid way.now.behind }
    ensures { IfOk result (λ n. need_of n ≡ needed_by homes.now (Act.Link target.now path.now) (way.now.behind ++ rest.now)) }
{
    if is_root(path) {
        return Ok(Need::Answer(22));
    }
    let at = reach!(path_object(alloc, homes.first, target, way, rest)?);
    let new = reach!(parent(alloc, homes.second, path, at.rest)?);
    add_name(alloc, at, new)
}

/// What an act needs, by how far it has come and what it has read ahead.
fn needed(alloc: Global, homes: &Homes, act: &Act, way: &Way, rest: &[Shown]) -> Mem<Need>
    requires short { FitsCalls act.now }
    requires way { IsUnderway homes.now.first (first_operand act.now) way.now.names way.now.fid way.now.behind }
    ensures value { IfOk result (λ n. need_of n ≡ needed_by homes.now act.now (way.now.behind ++ rest.now)) }
{
    let home = homes.first;
    match act {
        Act::Open { operand } => Ok(show(0, 21, 22, object(alloc, home, operand, way, rest)?)),
        Act::ListNames { operand } => Ok(show(20, 0, 20, object(alloc, home, operand, way, rest)?)),
        Act::ReadLink { operand } => Ok(show(22, 21, 0, object(alloc, home, operand, way, rest)?)),
        Act::Stat { operand } => Ok(status(object(alloc, home, operand, way, rest)?)),
        Act::StatAll { operand } => statuses(alloc, object(alloc, home, operand, way, rest)?),
        Act::GetAccessList { operand } => Ok(rights(object(alloc, home, operand, way, rest)?)),
        Act::GiveUp => Ok(Need::GiveBack),
        Act::Close { operand, contents } => {
            close(alloc, contents, object(alloc, home, operand, way, rest)?)
        }
        Act::SetMode { operand, mode } => {
            set_mode(alloc, *mode, object(alloc, home, operand, way, rest)?)
        }
        Act::SetAccessList { operand, text } => {
            set_acl(alloc, text, object(alloc, home, operand, way, rest)?)
        }
        Act::Make { path } => make(alloc, first_parent(alloc, home, path, way, rest)?),
        Act::MakeDirectory { path } => make_directory(
            alloc,
            first_parent(alloc, home, path, way, rest)?,
        ),
        Act::Symlink { path, target } => {
            symlink(alloc, target, first_parent(alloc, home, path, way, rest)?)
        }
        Act::Remove { path } => remove(alloc, first_parent(alloc, home, path, way, rest)?),
        Act::RemoveDirectory { path } => {
            remove_directory(alloc, first_parent(alloc, home, path, way, rest)?)
        }
        Act::Move { from, to } => mv(alloc, homes, from, to, way, rest),
        Act::Link { target, path } => link(alloc, homes, target, path, way, rest),
    }
}

/// What an act needs next.
pub fn next(alloc: Global, going: &Going) -> Mem<Need>
    requires { FitsCalls going.now.act }
    ensures value { IfOk result (λ n. need_of n ≡ next going.now) }
    ensures fits { FitsNeed (next going.now) }
{
    let act = going.act.get();
    let need = needed(alloc, &going.homes, act, &going.way, going.rest.as_slice())?;
    Ok(need)
}
