//! Copies.

ghost use Rattle.std.specs.Prelude.{◌≡◌, IfOk};
ghost use Rattle.spec_history.specs.declared.acts.Act.TheVariants as acts;
ghost use Rattle.afs_acts.specs.Named.{operand_at};

use crate::named::Place;
use afs_num::histories::{Body, ReadBody};
use afs_num::location_calls::{LocEntry, LocSite, LocSites};
use afs_num::sequences::{Octets, Sequence};
use afs_num::types::Mem;
use spec_history::acts::{Act, Operand, Path, Written};
use std::alloc::Global;

pub fn copy_body(alloc: Global, body: &Body) -> Mem<Body>
    ensures { IfOk result (λ c. c ≡ body.now) }
{
    match body {
        Body::File(contents) => Ok(Body::File(contents.copy(alloc)?)),
        Body::Dir(names) => Ok(Body::Dir(names.copy()?)),
        Body::Link(text) => Ok(Body::Link(text.copy(alloc)?)),
        Body::Gone => Ok(Body::Gone),
    }
}

pub fn copy_read(alloc: Global, body: &ReadBody) -> Mem<ReadBody>
    ensures { IfOk result (λ c. c ≡ body.now) }
{
    match body {
        ReadBody::Contents(body) => Ok(ReadBody::Contents(copy_body(alloc, body)?)),
        ReadBody::Status(status) => Ok(ReadBody::Status(*status)),
        ReadBody::AccessList(text) => Ok(ReadBody::AccessList(text.copy(alloc)?)),
    }
}

fn copy_components(alloc: Global, names: &Sequence<Octets>) -> Mem<Sequence<Octets>>
    ensures { IfOk result (λ c. c ≡ names.now) }
{
    let mut copy = Sequence::new(alloc);
    for name in names.as_slice() {
        copy.push(name.copy(alloc)?)?;
    }
    Ok(copy)
}

pub fn copy_path(alloc: Global, path: &Path) -> Mem<Path>
    ensures { IfOk result (λ c. c ≡ path.now) }
{
    Ok(Path {
        volume: path.volume.copy(alloc)?,
        names: copy_components(alloc, &path.names)?,
    })
}

pub fn copy_operand(alloc: Global, operand: &Operand) -> Mem<Operand>
    ensures { IfOk result (λ c. c ≡ operand.now) }
{
    match operand {
        Operand::Path(path) => Ok(Operand::Path(copy_path(alloc, path)?)),
        Operand::Fid(fid) => Ok(Operand::Fid(*fid)),
    }
}

pub fn copy_place(alloc: Global, place: Place<'_>) -> Mem<Operand>
    ensures { IfOk result (λ c. c ≡ operand_at place.entry) }
{
    match place {
        Place::Object(operand) => copy_operand(alloc, operand),
        Place::Path(path) => Ok(Operand::Path(copy_path(alloc, path)?)),
    }
}

fn copy_written(alloc: Global, written: &Written) -> Mem<Written>
    ensures { IfOk result (λ c. c ≡ written.now) }
{
    match written {
        Written::Hex(bytes) => Ok(Written::Hex(bytes.copy(alloc)?)),
        Written::Fill { count, byte } => Ok(Written::Fill {
            count: *count,
            byte: *byte,
        }),
    }
}

fn copy_close(alloc: Global, operand: &Operand, contents: &Written) -> Mem<Act>
    ensures { IfOk result (λ c. c ≡ acts.Close operand.now contents.now) }
{
    let operand = copy_operand(alloc, operand)?;
    let contents = copy_written(alloc, contents)?;
    Ok(Act::Close { operand, contents })
}

fn copy_set_mode(alloc: Global, operand: &Operand, mode: u32) -> Mem<Act>
    ensures { IfOk result (λ c. c ≡ acts.SetMode operand.now mode) }
{
    let operand = copy_operand(alloc, operand)?;
    Ok(Act::SetMode { operand, mode })
}

fn copy_set_access_list(alloc: Global, operand: &Operand, text: &Written) -> Mem<Act>
    ensures { IfOk result (λ c. c ≡ acts.SetAccessList operand.now text.now) }
{
    let operand = copy_operand(alloc, operand)?;
    let text = copy_written(alloc, text)?;
    Ok(Act::SetAccessList { operand, text })
}

fn copy_move(alloc: Global, from: &Path, to: &Path) -> Mem<Act>
    ensures { IfOk result (λ c. c ≡ acts.Move from.now to.now) }
{
    let from = copy_path(alloc, from)?;
    let to = copy_path(alloc, to)?;
    Ok(Act::Move { from, to })
}

fn copy_link(alloc: Global, target: &Path, path: &Path) -> Mem<Act>
    ensures { IfOk result (λ c. c ≡ acts.Link target.now path.now) }
{
    let target = copy_path(alloc, target)?;
    let path = copy_path(alloc, path)?;
    Ok(Act::Link { target, path })
}

fn copy_symlink(alloc: Global, path: &Path, target: &Written) -> Mem<Act>
    ensures { IfOk result (λ c. c ≡ acts.Symlink path.now target.now) }
{
    let path = copy_path(alloc, path)?;
    let target = copy_written(alloc, target)?;
    Ok(Act::Symlink { path, target })
}

/// The act that holds this copy alone.
macro_rules! holding {
    ($copy:expr, $act:ident { $field:ident }) => {
        match $copy {
            Ok($field) => Ok(Act::$act { $field }),
            Err(fault) => Err(fault),
        }
    };
}

pub fn copy_act(alloc: Global, act: &Act) -> Mem<Act>
    ensures { IfOk result (λ c. c ≡ act.now) }
{
    match act {
        Act::Open { operand } => holding!(copy_operand(alloc, operand), Open { operand }),
        Act::ListNames { operand } => holding!(copy_operand(alloc, operand), ListNames { operand }),
        Act::ReadLink { operand } => holding!(copy_operand(alloc, operand), ReadLink { operand }),
        Act::Stat { operand } => holding!(copy_operand(alloc, operand), Stat { operand }),
        Act::StatAll { operand } => holding!(copy_operand(alloc, operand), StatAll { operand }),
        Act::GetAccessList { operand } => {
            holding!(copy_operand(alloc, operand), GetAccessList { operand })
        }
        Act::GiveUp => Ok(Act::GiveUp),
        Act::Close { operand, contents } => copy_close(alloc, operand, contents),
        Act::SetMode { operand, mode } => copy_set_mode(alloc, operand, *mode),
        Act::SetAccessList { operand, text } => copy_set_access_list(alloc, operand, text),
        Act::Make { path } => holding!(copy_path(alloc, path), Make { path }),
        Act::MakeDirectory { path } => holding!(copy_path(alloc, path), MakeDirectory { path }),
        Act::Remove { path } => holding!(copy_path(alloc, path), Remove { path }),
        Act::RemoveDirectory { path } => holding!(copy_path(alloc, path), RemoveDirectory { path }),
        Act::Move { from, to } => copy_move(alloc, from, to),
        Act::Link { target, path } => copy_link(alloc, target, path),
        Act::Symlink { path, target } => copy_symlink(alloc, path, target),
    }
}

fn copy_sites(alloc: Global, sites: &LocSites) -> Mem<LocSites>
    ensures { IfOk result (λ c. c ≡ sites.now) }
{
    let mut copy = Sequence::new(alloc);
    for site in sites.as_slice() {
        copy.push(LocSite {
            server: site.server,
            flags: site.flags,
        })?;
    }
    Ok(copy)
}

pub fn copy_entry(alloc: Global, entry: &LocEntry) -> Mem<LocEntry>
    ensures { IfOk result (λ c. c ≡ entry.now) }
{
    Ok(LocEntry {
        name: entry.name.copy(alloc)?,
        read_write: entry.read_write,
        read_only: entry.read_only,
        backup: entry.backup,
        flags: entry.flags,
        sites: copy_sites(alloc, &entry.sites)?,
    })
}
