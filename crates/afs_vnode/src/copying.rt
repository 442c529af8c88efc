//! Copies of vnodes. They share contents and access lists: no bytes of them are copied.

ghost use Rattle.std.specs.Prelude.{◌≡◌, IfOk};

use afs_num::types::Mem;
use afs_num::vnodes::{Vnode, Vnodes};
use std::alloc::Global;

/// A copy of a vnode, which shares its access list and contents.
pub fn copy_vnode(alloc: Global, x: &Vnode) -> Mem<Vnode>
    ensures { IfOk result (λ y. y ≡ x.now) }
{
    Ok(Vnode {
        vnode: x.vnode,
        unique: x.unique,
        kind: x.kind,
        index: x.index,
        data_version: x.data_version,
        link_count: x.link_count,
        owner: x.owner,
        group: x.group,
        mode: x.mode,
        segment_size: x.segment_size,
        client_time: x.client_time,
        server_time: x.server_time,
        parent_vnode: x.parent_vnode,
        parent_unique: x.parent_unique,
        change_counter: x.change_counter,
        acl: x.acl.copy(alloc)?,
        contents: x.contents.copy(alloc)?,
    })
}

/// A copy of vnodes.
pub fn copy_vnodes(alloc: Global, vnodes: &[Vnode]) -> Mem<Vnodes>
    ensures { IfOk result (λ ys. ys ≡ vnodes.now) }
{
    let mut copies = Vec::with_capacity(alloc, vnodes.len())?;
    for x in vnodes {
        copies.push(copy_vnode(alloc, x)?)?;
    }
    Ok(Vnodes::from_vec(copies))
}
