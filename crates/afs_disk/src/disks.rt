//! The disks of a cell's nodes.

use afs_num::sequences::Sequence;

/// The disk of the node of this number.
#[derive(Drop)]
pub struct Lent<D> {
    pub node: u8,
    pub disk: D,
}

/// Disks, each with its node's number.
pub type Disks<D> = Sequence<Lent<D>>;
