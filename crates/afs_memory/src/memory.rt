// What a server's disk keeps, in memory.
ghost use Rattle.afs_memory.specs.Called.{AreCalled, AreCalled-prop};

use afs_num::sequences::Octets;
use afs_num::types::Node;
use afs_seats::Seats;
use afs_shelves::shelves::Shelves;
use std::alloc::Global;

/// The last reply to a caller.
#[derive(Drop)]
pub struct KeptReply {
    pub caller: Node,
    pub epoch: u32,
    pub number: u32,
    pub reply: Octets,
}

/// The boot number, the volumes with their forwardings, the stamps by families, and the kept replies by the callers' numbers.
#[derive(Drop)]
pub struct State {
    pub alloc: Global,
    pub boot: u32,
    pub shelves: Shelves,
    pub stamps: Seats<u32>,
    pub kept: Seats<KeptReply>,
    ghost called: { AreCalled kept.table } by { AreCalled-prop kept.table },
}
