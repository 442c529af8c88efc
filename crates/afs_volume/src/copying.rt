//! Copies of volumes.

ghost use Rattle.std.specs.Prelude.{◌≡◌, IfOk};
ghost use Rattle.afs_volume.specs.Seen.{FitsHead};

use crate::Volume;
use afs_num::types::Mem;
use afs_num::volumes::VolumeHead;

impl Volume {
    /// A volume with the same vnodes under another head. Contents, access lists and the names of directories are shared: no bytes
    /// of them are copied. The head has to be within the limits of a record, and has the same next unique number.
    pub fn copied(&self, head: VolumeHead) -> Mem<Volume>
        requires fits { FitsHead head }
        requires unique { head.unique ≡ self.now.head.unique }
        ensures head { IfOk result (λ v. v.head ≡ head) }
        ensures vnodes { IfOk result (λ v. v.vnodes.table ≡ self.now.vnodes.table) }
    {
        let vnodes = self.vnodes.copy(self.alloc)?;
        let dirs = self.dirs.share(self.alloc, &vnodes)?;
        Ok(Volume {
            alloc: self.alloc,
            head,
            vnodes,
            dirs,
            blocks: self.blocks,
        })
    }
}
