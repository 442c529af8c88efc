//! How long a volume is in the first record of its server.

ghost use Rattle.std.specs.Prelude.{◌≡◌, ◌≤◌, ◌<◌, ◌+◌, ◌^◌, length, slice_get};
ghost use Rattle.spec_ideal.specs.Tables.{AscendsFrom};
ghost use Rattle.spec_ideal.specs.VnodeImage.{FitsImage};
ghost use Rattle.afs_volume.specs.Giving.{volume_of};
ghost use Rattle.afs_grammar.specs.Lines.{filled_up};
ghost use Rattle.afs_grammar.specs.Sizes.{volume_size};
ghost use Rattle.afs_ground.specs.Sizes.{image_size, images_size, size_in_place};

use afs_num::vnodes::Vnode;
use afs_vnode::store::VnodeStore;
use afs_volume::Volume;

/// A length filled up to words of four bytes.
pub fn filled_up(length: usize) -> u64
    requires { length < 2 ^ 32 }
    ensures { result ≡ filled_up length }
{
    let length = length as u64;
    length + (4 - length % 4) % 4
}

/// A vnode has two words where it is listed, and its image has seventeen and a mark, beside its access list and its bytes.
fn image_size(x: &Vnode) -> u64
    requires { FitsImage x.now }
    ensures { result ≡ image_size x.now }
{
    80 + filled_up(x.acl.len()) + filled_up(x.contents.len())
}

/// How long the vnode in a place is.
fn size_in_place(vnodes: &VnodeStore, place: u32) -> u64
    ensures value { result ≡ size_in_place (slice_get vnodes.now.table place) }
    ensures few { result ≤ 2100000 }
{
    match vnodes.at(place) {
        Some(x) => image_size(x),
        None => 0,
    }
}

/// How long the vnodes are; there are at most 4,096.
fn images_size(vnodes: &VnodeStore) -> u64
    ensures value { result ≡ images_size vnodes.now.table }
    ensures few { result < 2 ^ 34 }
    ensures ascends { AscendsFrom 0 vnodes.now.table }
{
    let mut size = 0;
    for place in 0..vnodes.len() as u32 {
        size += size_in_place(vnodes, place);
    }
    size
}

/// How long a volume is.
pub fn volume_size(volume: &Volume) -> u64
    ensures { result ≡ volume_size (volume_of volume.now) }
{
    44 + filled_up(volume.head().name.len()) + images_size(volume.vnodes())
}
