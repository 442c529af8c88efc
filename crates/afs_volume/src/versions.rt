//! The versions of vnodes.

ghost use Rattle.std.specs.Prelude.{◌≡◌, IfOk};
ghost use Rattle.spec_ideal.specs.Volumes.{body_of, fid_of, version_at};
ghost use Rattle.afs_volume.specs.Listed.{listed_as};
ghost use Rattle.afs_volume.specs.Seen.{seen};

use crate::Volume;
use crate::directories::listed_as;
use crate::finding::{DIRECTORY, LINK};
use afs_dir::Listing;
use afs_num::histories::{Body, Version};
use afs_num::types::{Fid, Mem};
use afs_num::vnodes::Vnode;
use std::alloc::Global;

/// What the version of a vnode with these names holds.
#[tactic(auto, unfolding(crate::specs::Seen::seen))]
fn body_of(alloc: Global, x: &Vnode, names: &Option<Listing>) -> Mem<Body>
    requires { names.now ≡ listed_as x.now }
    ensures { IfOk result (λ b. b ≡ body_of (seen x.now)) }
{
    match x.kind {
        DIRECTORY => match names {
            Some(names) => Ok(Body::Dir(names.share()?)),
            None => unreachable!(),
        },
        LINK => Ok(Body::Link(x.contents.copy(alloc)?)),
        _ => Ok(Body::File(x.contents.copy(alloc)?)),
    }
}

impl Volume {
    #[tactic(auto, unfolding(crate::specs::Seen::seen))]
    pub fn fid_of(&self, x: &Vnode) -> Fid
        ensures { result ≡ fid_of self.now.head.id x.now.vnode (seen x.now) }
    {
        Fid {
            volume: self.head.id,
            vnode: x.vnode,
            unique: x.unique,
        }
    }

    /// The version that a vnode with this image and these names has in the volume, or would have.
    #[tactic(auto, unfolding(crate::specs::Seen::seen))]
    pub fn version_named(&self, x: &Vnode, names: &Option<Listing>) -> Mem<Version>
        requires { names.now ≡ listed_as x.now }
        ensures { IfOk result (λ v. v ≡ version_at self.now.head.id x.now.vnode (seen x.now)) }
    {
        Ok(Version {
            fid: self.fid_of(x),
            index: x.index,
            data_version: x.data_version,
            body: body_of(self.alloc, x, names)?,
        })
    }

    /// The version that a vnode with this image has in the volume, or would have.
    pub fn version_of(&self, x: &Vnode) -> Mem<Version>
        ensures { IfOk result (λ v. v ≡ version_at self.now.head.id x.now.vnode (seen x.now)) }
    {
        let names = listed_as(self.alloc, x)?;
        self.version_named(x, &names)
    }
}
