//! The bytes of vnodes: what they spell, and how many blocks they take.

ghost use Rattle.std.specs.Prelude.{◌≡◌, ◌<◌, ◌+◌, ◌/◌, ◌^◌, length, ◌≤◌, IfOk};
ghost use Rattle.spec_ideal.specs.Volumes.{blocks_of, bytes_by};
ghost use Rattle.afs_volume.specs.Seen.{seen, IsReadable, names_spelled};
ghost use Rattle.spec_ideal.specs.Directories.{directory_bytes};
ghost use Rattle.spec_ideal.specs.VnodeImage.{most_contents};
ghost use Rattle.spec_ideal.specs.Operations.{is_acl};

use afs_acl::acl::Acl;
use afs_acl::faults::AclFault;
use afs_dir::Dir;
use afs_num::sequences::Octets;
use afs_num::types::Mem;
use afs_num::vnodes::Vnode;
use std::alloc::{AllocError, Global};

/// How many blocks of 1,024 bytes these bytes take.
pub fn blocks(bytes: &Octets) -> u64
    ensures value { result ≡ (length bytes.now + 1023) / 1024 }
    ensures small { result < 2 ^ 54 }
{
    (bytes.len() as u64 + 1023) / 1024
}

/// How many blocks a vnode takes.
pub fn blocks_of(x: &Vnode) -> u64
    requires { IsReadable x.now }
    ensures value { result ≡ blocks_of (seen x.now) }
    ensures small { result < 2 ^ 54 }
{
    blocks(bytes_of(x))
}

/// The bytes that spell the names.
#[tactic(auto, unfolding(crate::specs::Seen::names_spelled))]
pub fn spelled(names: &Dir) -> Mem<Octets>
    ensures read { IfOk result (λ bytes. names_spelled bytes ≡ names.now) }
    ensures spelled { IfOk result (λ bytes. bytes ≡ directory_bytes names.now) }
    ensures short { IfOk result (λ bytes. length bytes ≤ most_contents) }
{
    names.to_bytes()
}

/// Whether a text is an access list.
pub fn is_acl(alloc: Global, text: &[u8]) -> Mem<bool>
    ensures { IfOk result (λ b. b ≡ is_acl text.now) }
{
    match Acl::parse(alloc, text) {
        Ok(_) => Ok(true),
        Err(AclFault::OutOfMemory) => Err(AllocError),
        Err(_) => Ok(false),
    }
}

/// The bytes of a vnode; a directory's spell its names.
#[tactic(auto, unfolding(crate::specs::Seen::seen))]
pub fn bytes_of(x: &Vnode) -> &Octets
    requires { IsReadable x.now }
    ensures seen { result.now ≡ bytes_by (seen x.now).kind (seen x.now) }
    ensures contents { result.now ≡ x.now.contents }
{
    &x.contents
}
