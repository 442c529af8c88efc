//! What is found in a volume by names, and what is asked of a vnode.

ghost use Rattle.std.specs.Prelude.{◌≡◌, ◌==◌, length, true, ◌<◌, ◌≤◌, ◌^◌, None, Some, IfSome, is_ok, is_some};
ghost use Rattle.std.specs.Option.{option_copied, option_map};
ghost use Rattle.spec_ideal.specs.AccessLists.{acl_at};
ghost use Rattle.spec_ideal.specs.Directories.{named};
ghost use Rattle.spec_ideal.specs.Operations.{is_directory, is_kind, has_no_names, free_number, links_of, may_link, named_vnode, number_named};
ghost use Rattle.spec_ideal.specs.Tables.{get};
ghost use Rattle.spec_ideal.specs.VnodeImage.{most_acl, FitsImage};
ghost use Rattle.spec_ideal.specs.Volumes.{a_directory, a_file};
ghost use Rattle.afs_volume.specs.Giving.{volume_of};
ghost use Rattle.afs_volume.specs.Seen.{seen, list_spelled, IsReadable};

use afs_dir::Listing;
use afs_num::sequences::Octets;
use afs_num::types::Fid;
use afs_num::vnodes::Vnode;
use afs_reads::finding::at;
use afs_volume::finding::{DIRECTORY, LINK};
use afs_volume::{Volume, is_directory};

/// A vnode is a file.
#[tactic(auto, unfolding(afs_volume::specs::Seen::seen))]
pub fn is_file(x: &Vnode) -> bool
    ensures { result ≡ is_kind (seen x.now).kind a_file }
{
    x.kind != DIRECTORY && x.kind != LINK
}

/// A vnode is there, and is a directory.
pub fn is_directory_there(x: Option<&Vnode>) -> bool
    ensures { result ≡ is_directory (option_map seen (option_copied x.entry)) }
{
    match x {
        Some(x) => is_directory(x),
        None => false,
    }
}

/// How many links a vnode has.
#[tactic(auto, unfolding(afs_volume::specs::Seen::seen))]
pub fn links_of(x: &Vnode) -> u64
    ensures value { result ≡ (seen x.now).links }
    ensures small { result < 2 ^ 32 }
{
    u64::from(x.link_count)
}

/// How many links a vnode has that may not be there.
pub fn links_there(x: Option<&Vnode>) -> u64
    ensures value { result ≡ links_of (option_map seen (option_copied x.entry)) }
    ensures small { result < 2 ^ 32 }
{
    match x {
        Some(x) => links_of(x),
        None => 0,
    }
}

/// The text of a directory's access list.
#[tactic(auto, unfolding(afs_volume::specs::Seen::seen))]
pub fn list_of(d: &Vnode) -> &Octets
    requires { is_kind (seen d.now).kind a_directory ≡ true }
    ensures list { list_spelled result.now ≡ (seen d.now).acl }
    ensures read { IsReadable d.now → is_ok (acl_at result.now) ≡ true }
    ensures short { FitsImage d.now → length result.now ≤ most_acl }
{
    &d.acl
}

/// A further name is given to a file alone, and in its own directory.
#[tactic(auto, unfolding(afs_volume::specs::Seen::seen))]
pub fn may_link(d: &Fid, x: Option<&Vnode>) -> bool
    ensures { result ≡ may_link d.now (option_map seen (option_copied x.entry)) }
{
    match x {
        Some(x) => is_file(x) && x.parent_vnode == d.vnode && x.parent_unique == d.unique,
        None => false,
    }
}

/// A name is there.
pub fn has_name(names: &Listing, name: &[u8]) -> bool
    ensures { result ≡ is_some (named name.now names.now) }
{
    names.find(name).is_some()
}

/// The number of the vnode that a name names, 0 where it isn't there.
pub fn number_named(names: &Listing, name: &[u8]) -> u32
    ensures { result ≡ number_named (named name.now names.now) }
{
    match names.find(name) {
        Some((number, _)) => number,
        None => 0,
    }
}

/// The vnode that a name of a directory names.
pub fn named<'a>(volume: &'a Volume, names: &Listing, name: &[u8]) -> Option<&'a Vnode>
    ensures seen { option_map seen (option_copied result) ≡ named_vnode (volume_of volume.now) (named name.now names.now) }
    ensures number { IfSome result (λ x. x.now.vnode ≡ number_named (named name.now names.now)) }
    ensures value { IfSome result (λ x. get x.now.vnode volume.now.vnodes.table ≡ Some x.now) }
    ensures readable { IfSome result (λ x. IsReadable x.now) }
{
    let (number, unique) = names.find(name)?;
    at(volume, number, unique)
}

/// The lowest free number for a vnode of this kind.
#[tactic(auto, using(afs_volume::proofs::Tables::free_seen))]
pub fn free_number(volume: &Volume, x: &Vnode) -> u32
    ensures value { result ≡ free_number (seen x.now).kind (volume_of volume.now) }
    ensures free { get result volume.now.vnodes.table ≡ None }
{
    volume.vnodes.lowest_free(is_directory(x))
}

/// Whether a directory has no names, or isn't there.
#[tactic(auto, unfolding(afs_volume::specs::Seen::seen))]
pub fn is_empty(volume: &Volume, x: Option<&Vnode>) -> bool
    requires { IfSome x (λ x. get x.now.vnode volume.now.vnodes.table ≡ Some x.now) }
    ensures { result ≡ has_no_names (option_map seen (option_copied x.entry)) }
{
    match x {
        Some(x) if is_directory(x) => volume.names(x.vnode, x).is_empty(),
        _ => true,
    }
}

/// The volume is a read-write one.
pub fn is_writable(volume: &Volume) -> bool
    ensures { result ≡ (volume.now.head.kind == 0) }
{
    volume.head.kind == 0
}
