//! Images as edits leave them.

ghost use Rattle.std.specs.Prelude.{◌≡◌, Some, not, true, IfOk};
ghost use Rattle.std.specs.Option.{option_map};
ghost use Rattle.spec_ideal.specs.Operations.{amend_fits, implies, is_last_count, links_fit};
ghost use Rattle.spec_ideal.specs.VnodeImage.{FitsImage};
ghost use Rattle.spec_ideal.specs.Volumes.{amended, fresh, or_old, up_if, with_status};
ghost use Rattle.afs_changes.specs.Drawing.{HasOwn, IsLeft};
ghost use Rattle.afs_changes.specs.Planning.{amend_seen, KeepsBody};
ghost use Rattle.afs_changes.specs.Images.{image_amended, list_left};
ghost use Rattle.afs_volume.specs.Seen.{seen, kind_seen, IsReadable};

use crate::edits::Amend;
use crate::limits::{body_left, has_body};
use crate::making::set_status;
use afs_num::calls::AfsStoreStatus;
use afs_num::sequences::Octets;
use afs_num::types::Mem;
use afs_num::vnodes::Vnode;
use afs_volume::is_directory;
use std::alloc::Global;

/// The text of the access list of a vnode after an edit; a directory alone has one.
fn list_left<'a>(x: &'a Vnode, amend: &'a Amend) -> &'a Octets
    ensures { result.now ≡ list_left (kind_seen x.now.kind) amend.now x.now.acl }
{
    match &amend.acl {
        Some(text) if is_directory(x) => text,
        _ => &x.acl,
    }
}

/// How many links a vnode has after an edit.
fn links_left(x: &Vnode, links: Option<u64>) -> u32
    requires { links_fit links ≡ true }
    ensures { result ≡ or_old links x.now.link_count }
{
    match links {
        Some(links) => links as u32,
        None => x.link_count,
    }
}

/// The number of the directory that holds a vnode after an edit, and its unique number.
fn parent_left(x: &Vnode, parent: Option<(u32, u32)>) -> (u32, u32)
    ensures vnode { result.0 ≡ or_old (option_map (λ p. p.0) parent) x.now.parent_vnode }
    ensures unique { result.1 ≡ or_old (option_map (λ p. p.1) parent) x.now.parent_unique }
{
    match parent {
        Some(parent) => parent,
        None => (x.parent_vnode, x.parent_unique),
    }
}

/// A data version, one higher where the body is changed.
fn version_left(data_version: u32, has_body: bool) -> u32
    requires { implies has_body (not (is_last_count data_version)) ≡ true }
    ensures { result ≡ up_if has_body data_version }
{
    if has_body {
        data_version + 1
    } else {
        data_version
    }
}

/// The image of a vnode after an edit, but for the words of a status.
#[tactic(auto, unfolding(afs_volume::specs::Seen::seen))]
fn image_amended(alloc: Global, x: &Vnode, amend: &Amend, counter: u32, now: u32) -> Mem<Vnode>
    requires { amend_fits (amend_seen amend.now) (Some (seen x.now)) ≡ true }
    ensures { IfOk result (λ y. y ≡ image_amended counter now amend.now x.now) }
{
    let (parent_vnode, parent_unique) = parent_left(x, amend.parent);
    Ok(Vnode {
        vnode: x.vnode,
        unique: x.unique,
        kind: x.kind,
        index: x.index + 1,
        data_version: version_left(x.data_version, has_body(amend)),
        link_count: links_left(x, amend.links),
        owner: x.owner,
        group: x.group,
        mode: x.mode,
        segment_size: x.segment_size,
        client_time: x.client_time,
        server_time: now,
        parent_vnode,
        parent_unique,
        change_counter: counter,
        acl: list_left(x, amend).copy(alloc)?,
        contents: body_left(x, amend).copy(alloc)?,
    })
}

/// A vnode with the words that a status sets.
fn with_status(x: Vnode, status: &Option<AfsStoreStatus>) -> Vnode
    ensures seen { seen result ≡ with_status status.now (seen x) }
    ensures kept { KeepsBody x result }
{
    let mut after = x;
    if let Some(status) = status {
        set_status(&mut after, status);
    }
    after
}

/// A vnode after an edit.
pub fn amended(alloc: Global, x: &Vnode, amend: &Amend, counter: u32, now: u32) -> Mem<Vnode>
    requires counts { amend_fits (amend_seen amend.now) (Some (seen x.now)) ≡ true }
    requires own { HasOwn (seen x.now).kind (amended counter (amend_seen amend.now) (seen x.now)) }
    requires readable { IsReadable x.now }
    requires fits { FitsImage x.now }
    ensures number { IfOk result (λ y. y.vnode ≡ x.now.vnode) }
    ensures seen { IfOk result (λ y. seen y ≡ amended counter (amend_seen amend.now) (seen x.now)) }
    ensures left { IfOk result (λ y. IsLeft now y) }
{
    let after = image_amended(alloc, x, amend, counter, now)?;
    Ok(with_status(after, &amend.status))
}

/// A new vnode, with the numbers that every new vnode gets.
#[tactic(auto, unfolding(afs_volume::specs::Seen::seen))]
pub fn made(
    alloc: Global,
    x: &Vnode,
    number: u32,
    unique: u32,
    counter: u32,
    now: u32,
) -> Mem<Vnode>
    requires readable { IsReadable x.now }
    requires fits { FitsImage x.now }
    ensures number { IfOk result (λ y. y.vnode ≡ number) }
    ensures seen { IfOk result (λ y. seen y ≡ fresh counter unique (seen x.now)) }
    ensures left { IfOk result (λ y. IsLeft now y) }
{
    Ok(Vnode {
        vnode: number,
        unique,
        kind: x.kind,
        index: 1,
        data_version: 1,
        link_count: x.link_count,
        owner: x.owner,
        group: x.group,
        mode: x.mode,
        segment_size: x.segment_size,
        client_time: x.client_time,
        server_time: now,
        parent_vnode: x.parent_vnode,
        parent_unique: x.parent_unique,
        change_counter: counter,
        acl: x.acl.copy(alloc)?,
        contents: x.contents.copy(alloc)?,
    })
}
