//! Walks along names: each directory on the way must have been read.

ghost use Rattle.std.specs.Prelude.{◌≡◌, ◌<◌, ◌≤◌, ◌∷◌, [], ◌++◌, ℕ, List, Ok, Some, drop, length, true, IfOk, IfSome};
ghost use Rattle.std.specs.Option.{option_copied, option_map};
ghost use Rattle.spec_ideal.specs.Directories.{named};
ghost use Rattle.spec_rows.specs.Going.{first_body, first_status, has_rights, is_even, is_last_name, looked_up, parted};
ghost use Rattle.spec_rows.specs.Going.{ReadShown as Read};
ghost use Rattle.spec_history.specs.declared.acts.Operand.TheVariants as operands;
ghost use Rattle.spec_rows.specs.Going.{locates};
ghost use Rattle.afs_acts.specs.Walks.{along, at_root, body_at, entry_by, fid_at, need_of, object_at, parent_at, path_at, then_on, walk_to, within};
ghost use Rattle.afs_acts.specs.Ways.{IsUnderway};
ghost use Rattle.afs_acts.specs.Needs.{at_of, came, came_body, came_fid, came_within, first_name, first_parted, first_read, status_rest, taken_of};

use crate::copies::copy_path;
use crate::types::{Need, Shown, Way};
use crate::ways::root;
use afs_num::directories::Name;
use afs_num::histories::{Body, ReadBody};
use afs_num::sequences::Octets;
use afs_num::types::{Fid, Mem};
use spec_history::acts::{Operand, Path};
use std::alloc::Global;

/// A fid that was reached, and the reads behind it.
#[derive(Clone, Copy)]
pub struct At<'a> {
    pub fid: Fid,
    pub rest: &'a [Shown],
}

/// A directory in which a name is meant, and the reads behind it.
#[derive(Clone, Copy)]
pub struct Within<'a, 'b> {
    pub directory: Fid,
    pub name: &'b Octets,
    pub rest: &'a [Shown],
}

/// A body that was read, and the reads behind it.
#[derive(Clone, Copy)]
pub struct Taken<'a> {
    pub body: &'a Body,
    pub rest: &'a [Shown],
}

fn next_read(reads: &[Shown]) -> Option<(&Shown, &[Shown])>
    ensures value { option_map (λ r. (r.0.now, r.1.now)) result ≡ first_read reads.now }
    ensures less { IfSome result (λ r. length r.1.now < length reads.now) }
{
    match reads {
        [shown, rest @ ..] => Some((shown, rest)),
        [] => None,
    }
}

fn next_name(names: &[Octets]) -> Option<(&Octets, &[Octets])>
    ensures value { option_map (λ r. (r.0.now, r.1.now)) result ≡ first_name names.now }
    ensures less { IfSome result (λ r. length r.1.now < length names.now) }
{
    match names {
        [name, rest @ ..] => Some((name, rest)),
        [] => None,
    }
}

/// The first body that was read of this fid.
fn first_body<'a>(fid: &Fid, reads: &'a [Shown]) -> Option<Taken<'a>>
    ensures { option_map taken_of result ≡ first_body fid.now reads.now }
{
    let mut rest = reads;
    while let Some((shown, more)) = next_read(rest) {
        if shown.fid == *fid
            && let ReadBody::Contents(body) = &shown.body
        {
            return Some(Taken { body, rest: more });
        }
        rest = more;
    }
    None
}

/// The reads behind the first status that was read of this fid.
pub fn behind_status<'a>(fid: &Fid, reads: &'a [Shown]) -> Option<&'a [Shown]>
    ensures { option_copied result ≡ status_rest (first_status fid.now reads.now) }
{
    let mut rest = reads;
    while let Some((shown, more)) = next_read(rest) {
        if shown.fid == *fid
            && let ReadBody::Status(_) = &shown.body
        {
            return Some(more);
        }
        rest = more;
    }
    None
}

/// Whether the rights of this fid were read.
pub fn has_rights(fid: &Fid, reads: &[Shown]) -> bool
    ensures { result ≡ has_rights fid.now reads.now }
{
    let mut rest = reads;
    while let Some((shown, more)) = next_read(rest) {
        if shown.fid == *fid
            && let ReadBody::AccessList(_) = &shown.body
        {
            return true;
        }
        rest = more;
    }
    false
}

/// The body of this fid.
pub fn body_at(at: At<'_>) -> Result<Taken<'_>, Need>
    ensures { came_body result ≡ body_at (at_of at.entry) }
{
    match first_body(&at.fid, at.rest) {
        Some(taken) => Ok(taken),
        None => Err(Need::Body(at.fid)),
    }
}

fn is_even(vnode: u32) -> bool
    ensures { result ≡ is_even vnode }
{
    vnode % 2 == 0
}

fn is_last(names: &[Octets]) -> bool
    ensures { result ≡ is_last_name names.now }
{
    match names {
        [] => true,
        _ => false,
    }
}

/// What a directory's body has under a name: no directory is 20, no such name 2, and what isn't the last name must be a
/// directory, which its number tells.
fn entry(inner: bool, volume: u32, name: &Octets, body: &Body) -> Result<Fid, Need>
    ensures { came_fid result ≡ entry_by inner volume (looked_up name.now body.now) }
{
    let Body::Dir(names) = body else {
        return Err(Need::Answer(20));
    };
    let Some(found) = find_name(names.as_slice(), name) else {
        return Err(Need::Answer(2));
    };
    if inner && is_even(found.vnode) {
        return Err(Need::Answer(20));
    }
    Ok(Fid {
        volume,
        vnode: found.vnode,
        unique: found.unique,
    })
}

fn find_name<'a>(names: &'a [Name], name: &Octets) -> Option<&'a Name>
    ensures { option_copied result ≡ named name.now names.entry.now }
{
    names
        .iter()
        .find(|entry| entry.name.as_slice() == name.as_slice())
}

/// One name along.
fn along<'a>(inner: bool, name: &Octets, at: At<'a>) -> Result<At<'a>, Need>
    ensures { came result ≡ along inner name.now (at_of at.entry) }
{
    let taken = body_at(at)?;
    let fid = entry(inner, at.fid.volume, name, taken.body)?;
    Ok(At {
        fid,
        rest: taken.rest,
    })
}

/// Along the names; where all of them must be directories `inner` says so, else all but the last must.
fn walk<'a>(inner: bool, names: &[Octets], start: At<'a>) -> Result<At<'a>, Need>
    ensures { came result ≡ walk_to inner names.now (at_of start.entry) }
{
    let mut at = start;
    let mut rest = names;
    while let Some((name, more)) = next_name(rest) {
        at = along(inner || !is_last(more), name, at)?;
        rest = more;
    }
    Ok(at)
}

/// Where a walk stands at a directory and reads this, it goes on to what the directory has under this name, if that is a directory.
pub fn goes_on(directory: &Fid, name: &Octets, fid: &Fid, body: &ReadBody) -> Option<Fid>
    ensures { IfSome result (λ next. (rest : List Read) → along true name.now (record { fid = directory.now; rest = record { fid = fid.now; body = body.now } ∷ rest }) ≡ Ok (record { fid = next; rest = rest })) }
{
    if *fid != *directory {
        return None;
    }
    match body {
        ReadBody::Contents(body) => entry(true, directory.volume, name, body).ok(),
        _ => None,
    }
}

fn at_root(volume: u32, reads: &[Shown]) -> At<'_>
    ensures { at_of result ≡ at_root volume reads.now }
{
    At {
        fid: root(volume),
        rest: reads,
    }
}

/// The names behind those that were walked.
fn names_ahead<'b>(names: &'b [Octets], way: &Way) -> &'b [Octets]
    requires { way.now.names ≤ length names.now }
    ensures { result.now ≡ drop way.now.names names.entry.now }
{
    names.split_at(way.names).1
}

/// Where a walk goes on.
fn ahead<'a>(way: &Way, rest: &'a [Shown]) -> At<'a>
    ensures { at_of result ≡ record { fid = way.now.fid; rest = rest.entry.now } }
{
    At { fid: way.fid, rest }
}

/// The volume of an operand isn't known: where it is is asked for.
fn locate(alloc: Global, operand: Operand) -> Mem<Need>
    ensures { IfOk result (λ n. need_of n ≡ locates operand) }
{
    Ok(Need::Locate(Box::new(alloc, operand)?))
}

fn locate_path(alloc: Global, path: &Path) -> Mem<Need>
    ensures { IfOk result (λ n. need_of n ≡ locates (Operand.Path path.now)) }
{
    let operand = Operand::Path(copy_path(alloc, path)?);
    locate(alloc, operand)
}

/// The object of the path that an act names first.
pub fn path_object<'a>(
    alloc: Global,
    home: Option<u32>,
    path: &Path,
    way: &Way,
    rest: &'a [Shown],
) -> Mem<Result<At<'a>, Need>>
    requires { IsUnderway home (Some (operands.Path path.now)) way.now.names way.now.fid way.now.behind }
    ensures { IfOk result (λ r. came r ≡ path_at home path.now (way.now.behind ++ rest.entry.now)) }
{
    match home {
        Some(_) => Ok(walk(
            false,
            names_ahead(path.names.as_slice(), way),
            ahead(way, rest),
        )),
        None => Ok(Err(locate_path(alloc, path)?)),
    }
}

/// The object of a fid that an act names first.
fn fid_object<'a>(
    alloc: Global,
    home: Option<u32>,
    fid: Fid,
    way: &Way,
    rest: &'a [Shown],
) -> Mem<Result<At<'a>, Need>>
    requires { IsUnderway home (Some (operands.Fid fid)) way.now.names way.now.fid way.now.behind }
    ensures { IfOk result (λ r. came r ≡ fid_at home fid (way.now.behind ++ rest.entry.now)) }
{
    match home {
        Some(_) => Ok(Ok(ahead(way, rest))),
        None => Ok(Err(locate(alloc, Operand::Fid(fid))?)),
    }
}

/// The object of the operand that an act names first.
pub fn object<'a>(
    alloc: Global,
    home: Option<u32>,
    operand: &Operand,
    way: &Way,
    rest: &'a [Shown],
) -> Mem<Result<At<'a>, Need>>
    requires { IsUnderway home (Some operand.now) way.now.names way.now.fid way.now.behind }
    ensures { IfOk result (λ r. came r ≡ object_at home operand.now (way.now.behind ++ rest.entry.now)) }
{
    match operand {
        Operand::Fid(fid) => fid_object(alloc, home, *fid, way, rest),
        Operand::Path(path) => path_object(alloc, home, path, way, rest),
    }
}

/// The name in a directory that was reached: what isn't one is 20.
fn in_directory<'a, 'b>(name: &'b Octets, at: At<'a>) -> Result<Within<'a, 'b>, Need>
    ensures { came_within result ≡ within name.now (at_of at.entry) }
{
    let taken = body_at(at)?;
    match taken.body {
        Body::Dir(_) => Ok(Within {
            directory: at.fid,
            name,
            rest: taken.rest,
        }),
        _ => Err(Need::Answer(20)),
    }
}

/// The names before the last, and that one.
fn part(names: &[Octets]) -> Option<(&[Octets], &Octets)>
    ensures value { option_map first_parted result ≡ parted names.now }
    ensures split { IfSome result (λ r. names.now ≡ r.0.now ++ r.1.now ∷ []) }
{
    match names.split_last() {
        Some((last, front)) => Some((front, last)),
        None => None,
    }
}

/// Along the names to the directory, and the last name in it.
fn to_directory<'a, 'b>(
    front: &[Octets],
    last: &'b Octets,
    start: At<'a>,
) -> Result<Within<'a, 'b>, Need>
    ensures { came_within result ≡ then_on (within last.now) (walk_to true front.now (at_of start.entry)) }
{
    let at = walk(true, front, start)?;
    in_directory(last, at)
}

/// The last name in its directory, which is read too: the root has none. Where an act walks along a second path.
pub fn parent<'a, 'b>(
    alloc: Global,
    home: Option<u32>,
    path: &'b Path,
    reads: &'a [Shown],
) -> Mem<Result<Within<'a, 'b>, Need>>
    ensures { IfOk result (λ r. came_within r ≡ parent_at home path.entry.now reads.now) }
{
    let Some((front, last)) = part(path.names.as_slice()) else {
        return Ok(Err(Need::Answer(22)));
    };
    match home {
        Some(volume) => Ok(to_directory(front, last, at_root(volume, reads))),
        None => Ok(Err(locate_path(alloc, path)?)),
    }
}

/// The last name of the path that an act names first, in its directory, which is read too: the root has none.
pub fn first_parent<'a, 'b>(
    alloc: Global,
    home: Option<u32>,
    path: &'b Path,
    way: &Way,
    rest: &'a [Shown],
) -> Mem<Result<Within<'a, 'b>, Need>>
    requires { IsUnderway home (Some (operands.Path path.now)) way.now.names way.now.fid way.now.behind }
    ensures { IfOk result (λ r. came_within r ≡ parent_at home path.entry.now (way.now.behind ++ rest.entry.now)) }
{
    let Some((front, last)) = part(path.names.as_slice()) else {
        return Ok(Err(Need::Answer(22)));
    };
    if home.is_none() {
        return Ok(Err(locate_path(alloc, path)?));
    }
    Ok(to_directory(names_ahead(front, way), last, ahead(way, rest)))
}
