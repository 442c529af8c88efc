// A volume in memory, and what stands beside it.
use afs_volume::Volume;

/// A volume, and whether it is new: made under no stamp, and never yet with flags 0.
#[derive(Drop)]
pub struct Shelf {
    pub volume: Volume,
    pub is_new: bool,
}
