ghost use Rattle.std.specs.Prelude.{◌≡◌, nat_eq, true};
ghost use Rattle.indexmap.specs.IndexMap as maps;
ghost use Rattle.spec_ideal.specs.Volumes.{blocks_in};
ghost use Rattle.spec_records.specs.Sound.{is_sound};
ghost use Rattle.afs_volume.specs.Listed.{Lists};
ghost use Rattle.afs_volume.specs.Seen.{all_seen, volume_seen, AreReadable, FitsHead};

use crate::directories::Directories;
use afs_num::volumes::VolumeHead;
use afs_vnode::store::VnodeStore;
use std::alloc::Global;

/// A volume: its head, its vnodes, the names of those that are directories, and how many blocks the vnodes take. The contents
/// of a directory spell its names too.
#[derive(Drop)]
pub struct Volume {
    pub alloc: Global,
    pub head: VolumeHead,
    pub vnodes: VnodeStore,
    pub(crate) dirs: Directories,
    pub blocks: u32,
    ghost fits: { FitsHead head },
    ghost readable: { AreReadable vnodes.table },
    ghost listed: { Lists (maps.get nat_eq dirs.dirs) (all_seen vnodes.table) },
    ghost counted: { blocks ≡ blocks_in (all_seen vnodes.table) },
    ghost sound: { is_sound (volume_seen head vnodes.table) ≡ true },
}
