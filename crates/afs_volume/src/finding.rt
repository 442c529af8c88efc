//! What is found in a volume by numbers.

ghost use Rattle.std.specs.Prelude.{◌≡◌, length, true, ◌≤◌, Some, IfOk, IfSome, Ok};
ghost use Rattle.std.specs.Option.{option_copied, option_map};
ghost use Rattle.spec_ideal.specs.Directories.{directory_of};
ghost use Rattle.spec_ideal.specs.Operations.{is_kind};
ghost use Rattle.spec_ideal.specs.Tables.{get};
ghost use Rattle.spec_ideal.specs.VnodeImage.{FitsImage};
ghost use Rattle.spec_ideal.specs.Volumes.{a_directory};
ghost use Rattle.afs_volume.specs.Giving.{volume_of};
ghost use Rattle.afs_volume.specs.Listed.{names_in};
ghost use Rattle.afs_volume.specs.Seen.{seen, names_spelled, kind_seen, IsReadable};

use crate::Volume;
use afs_dir::{Dir, DirFault, Listing};
use afs_num::directories::Name;
use afs_num::types::Mem;
use afs_num::vnodes::Vnode;
use std::alloc::{AllocError, Global};

pub const FILE: u32 = 1;

pub const DIRECTORY: u32 = 2;

pub const LINK: u32 = 3;

/// The names that bytes spell; bytes that spell no directory have none.
#[tactic(auto, unfolding(crate::specs::Seen::names_spelled))]
fn names_spelled(alloc: Global, bytes: &[u8]) -> Mem<Dir>
    ensures names { IfOk result (λ names. names ≡ names_spelled bytes.now) }
    ensures few { IfOk result (λ names. length names ≤ 1024) }
{
    match Dir::from_bytes(alloc, bytes) {
        Ok(names) => Ok(names),
        Err(DirFault::OutOfMemory) => Err(AllocError),
        Err(_) => Dir::new(alloc),
    }
}

/// The names of a directory.
#[tactic(auto, unfolding(crate::specs::Seen::seen))]
pub fn names_of(alloc: Global, d: &Vnode) -> Mem<Dir>
    requires { is_kind (seen d.now).kind a_directory ≡ true }
    ensures names { IfOk result (λ names. names ≡ (seen d.now).names) }
    ensures few { IfOk result (λ names. length names ≤ 1024) }
{
    names_spelled(alloc, d.contents.as_slice())
}

/// A vnode is a directory.
#[tactic(auto, unfolding(crate::specs::Seen::seen))]
pub fn is_directory(x: &Vnode) -> bool
    ensures seen { result ≡ is_kind (seen x.now).kind a_directory }
    ensures kind { result ≡ is_kind (kind_seen x.now.kind) a_directory }
{
    x.kind == DIRECTORY
}

impl Volume {
    /// The vnode of a number.
    #[tactic(auto, using(crate::proofs::Tables::got))]
    pub fn get(&self, number: u32) -> Option<&Vnode>
        ensures value { option_copied result ≡ get number self.now.vnodes.table }
        ensures seen { option_map seen (option_copied result) ≡ get number (volume_of self.now).vnodes }
        ensures number { IfSome result (λ x. x.now.vnode ≡ number) }
        ensures fits { IfSome result (λ x. FitsImage x.now) }
        ensures readable { IfSome result (λ x. IsReadable x.now) }
    {
        self.vnodes.get(number)
    }

    /// The names of a directory. It takes no memory, and doesn't read the directory's contents.
    pub fn names(&self, number: u32, d: &Vnode) -> &Listing
        requires there { get number self.now.vnodes.table ≡ Some d.now }
        requires directory { is_kind (seen d.now).kind a_directory ≡ true }
        ensures names { result.now ≡ (seen d.now).names }
        ensures read { directory_of d.now.contents ≡ Ok result.now }
    {
        match self.dirs.get(number) {
            Some(names) => names,
            None => unreachable!(),
        }
    }

    /// The names of the vnode of this number: what is no directory has none, nor has what isn't there. It takes no memory, and
    /// doesn't read a directory's contents.
    pub fn names_at(&self, number: u32) -> &[Name]
        ensures { result.now ≡ names_in (get number self.now.vnodes.table) }
    {
        self.dirs.names(number)
    }
}
