// The volumes of a server in memory.
ghost use Rattle.afs_shelves.specs.Numbered.{AreShelved, AreShelved-prop};

use crate::shelf::Shelf;
use afs_num::types::Node;
use afs_seats::Seats;
use std::alloc::Global;

/// The volumes of a server by their numbers; and, by the numbers of volumes that are forwarded, the servers to which calls for
/// them are to go.
#[derive(Drop)]
pub struct Shelves {
    pub alloc: Global,
    pub volumes: Seats<Shelf>,
    pub forwardings: Seats<Node>,
    ghost shelved: { AreShelved volumes.table } by { AreShelved-prop volumes.table },
}
