// What a record of a volume server says.
use crate::shelf::Shelf;
use afs_num::sequences::Octets;
use afs_num::types::Node;
use afs_volume::Volume;

/// A clone that is made, or made anew, of the volume of this number: what the record says of it, and the clone.
#[derive(Drop)]
pub struct CloneDeed {
    pub source: u32,
    pub name: Octets,
    pub kind: u32,
    pub release: u32,
    pub volume: Volume,
}

/// A dump that is restored, and the volume as it is then.
#[derive(Drop)]
pub struct RestoreDeed {
    pub dump: Octets,
    pub volume: Volume,
}

/// What a record of a volume server says, ready to be done: this new volume is made; the volume of this number goes; this clone
/// is made; this dump is restored; the volume of this number gets these flags; calls for it are to go to this server; or nothing,
/// where the record's head says all.
#[derive(Drop)]
pub enum Deed {
    Create(Shelf),
    Delete(u32),
    Clone(CloneDeed),
    Restore(RestoreDeed),
    Flags(u32, u32),
    Forward(u32, Node),
    Stamp,
}
