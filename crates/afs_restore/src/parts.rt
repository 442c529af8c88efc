//! What a reader of a dump keeps of what it read.

ghost use Rattle.std.specs.Prelude.{◌≡◌, take, IfOk};
ghost use Rattle.afs_restore.specs.Parts.{IsAtFirst, IsNoted};

use crate::headers::{Headers, copy_headers, no_headers};
use crate::images::no_vnode;
use afs_num::types::Mem;
use afs_num::vnodes::Vnode;
use afs_vnode::copying::copy_vnode;
use std::alloc::Global;

/// What was read: the headers, the list of the vnodes, the images, and of the image that comes next what was read of it. Until they
/// are read, the headers and the next image are none.
#[derive(Drop)]
pub struct Parts {
    pub headers: Headers,
    pub live: Vec<(u32, u32)>,
    pub images: Vec<Vnode>,
    pub next: Vnode,
}

/// What was read so far, so that it can be gone back to: how many vnodes were listed, how many images had come, and the rest.
#[derive(Drop)]
pub struct Noted {
    headers: Headers,
    listed: usize,
    imaged: usize,
    next: Vnode,
}

impl Parts {
    /// Nothing was read. It takes no memory.
    pub fn new(alloc: Global) -> Parts
        ensures { IsAtFirst result }
    {
        Parts {
            headers: no_headers(alloc),
            live: Vec::new(alloc),
            images: Vec::new(alloc),
            next: no_vnode(alloc),
        }
    }

    /// Where to go back to.
    pub fn noted(&self, alloc: Global) -> Mem<Noted>
        ensures { IfOk result (IsNoted self.now) }
    {
        Ok(Noted {
            headers: copy_headers(alloc, &self.headers)?,
            listed: self.live.len(),
            imaged: self.images.len(),
            next: copy_vnode(alloc, &self.next)?,
        })
    }

    /// Goes back. It takes no memory.
    pub fn go_back(&mut self, noted: Noted)
        ensures headers { self.new.headers ≡ noted.headers }
        ensures live { self.new.live.items ≡ take noted.listed self.old.live.items }
        ensures images { self.new.images.items ≡ take noted.imaged self.old.images.items }
        ensures next { self.new.next ≡ noted.next }
    {
        let Noted {
            headers,
            listed,
            imaged,
            next,
        } = noted;
        self.headers = headers;
        self.live.truncate(listed);
        self.images.truncate(imaged);
        self.next = next;
    }
}
