//! What a volume shows, its flags and its release number.

ghost use Rattle.std.specs.Prelude.{◌≡◌, ◌<◌, ◌+◌};
ghost use Rattle.spec_ideal.specs.Operations.{last_count};
ghost use Rattle.spec_ideal.specs.Volumes.{blocks_in};
ghost use Rattle.afs_volume.specs.Giving.{volume_of};
ghost use Rattle.afs_volume.specs.Seen.{FitsHead};

use crate::Volume;
use afs_num::volumes::VolumeHead;
use afs_vnode::store::VnodeStore;

impl Volume {
    /// The head. It takes no memory.
    pub fn head(&self) -> &VolumeHead
        ensures value { result.now ≡ self.now.head }
        ensures fits { FitsHead result.now }
    {
        &self.head
    }

    /// The vnodes. It takes no memory.
    pub fn vnodes(&self) -> &VnodeStore
        ensures { result.now ≡ self.now.vnodes }
    {
        &self.vnodes
    }

    /// How many blocks of 1,024 bytes the vnodes take. It takes no memory.
    pub fn blocks(&self) -> u32
        ensures { result ≡ blocks_in (volume_of self.now).vnodes }
    {
        self.blocks
    }

    /// Other flags, and nothing else. It takes no memory.
    pub fn set_flags(&mut self, flags: u32)
        ensures head { self.new.head ≡ record self.old.head { flags = flags } }
        ensures vnodes { self.new.vnodes ≡ self.old.vnodes }
    {
        self.head.flags = flags;
    }

    /// The next release number, and nothing else changed. It takes no memory.
    pub fn raise_release(&mut self)
        requires { self.old.head.release < last_count }
        ensures head { self.new.head ≡ record self.old.head { release = self.old.head.release + 1 } }
        ensures vnodes { self.new.vnodes ≡ self.old.vnodes }
    {
        self.head.release += 1;
    }
}
