//! What an act needs beside its place, what it asks, and where an answer leads it.

use crate::places::Place;
use afs_num::messages::Call;
use afs_num::sequences::{Octets, Sequence};
use afs_num::types::{Code, Node};
use spec_history::orders::SharedAdminAct;

/// An act, and how many servers the cell has.
#[derive(Drop)]
pub struct Errand {
    pub act: SharedAdminAct,
    pub servers: u32,
}

/// What is asked, of whom, and with which stamp.
#[derive(Drop)]
pub struct Ask {
    pub callee: Node,
    pub stamp: u32,
    pub call: Call,
}

/// Where an answer leads: to a place, at once or with a dump that is whole and is kept; to the end of the act, or to its end where what it
/// left may not be in order; or the answer is none to its call.
#[derive(Drop)]
pub enum Turn {
    Goes {
        place: Place,
    },
    Keeps {
        label: Octets,
        bytes: Octets,
        place: Place,
    },
    Ends {
        code: Code,
    },
    Sticks {
        code: Code,
    },
    Passes,
}

/// A dump that is held under a label.
#[derive(Drop)]
pub struct HeldDump {
    pub label: Octets,
    pub bytes: Octets,
}

pub type HeldDumps = Sequence<HeldDump>;

/// The act that runs, and its place.
#[derive(Drop)]
pub struct Running {
    pub act: SharedAdminAct,
    pub place: Place,
}
