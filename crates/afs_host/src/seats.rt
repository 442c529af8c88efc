//! The place of a node of the cell that has a disk.

use crate::resting::Resting;
use crate::running::DatabaseRunning;

/// A node that is up, or what is left of one that is down.
#[derive(Drop)]
pub enum Seat<U, R> {
    Up(U),
    Down(R),
}

/// The place of the location database over a disk behind a fuse.
pub type DatabaseSeat<D> = Seat<DatabaseRunning<D>, Resting<D>>;
