//! Where an act of an administrator stands. A place is known by the call that is asked there, and carries all that the rest of the act
//! uses but the act itself. So the act's unanswered call is told by its place. (A program may keep it beside the place, to send it again.)

ghost use Rattle.std.specs.Prelude.{◌≡◌, IfOk};

use afs_num::location_calls::LocEntry;
use afs_num::sequences::{Octets, Sequence};
use afs_num::types::{Code, Mem};
use afs_num::volume_calls::ListedVolume;
use std::alloc::Global;
use std::marker::Model;
use std::sync::Arc;

// ---- what places carry

/// The entry of a family of volumes as the database told it when it locked the entry for the act, and the stamp of that lock.
#[derive(Drop)]
pub struct Hold {
    pub entry: LocEntry,
    pub stamp: u32,
}

/// A hold that several places have. A copy shares it.
#[derive(Drop)]
pub struct SharedHold {
    hold: Arc<Hold>,
}

impl Model for SharedHold {
    ghost use Rattle.std.specs.Arc.{arc_value};
    ghost use Rattle.spec_adminrows.specs.declared.places.Hold.{Hold};

    ghost Value = { Hold };

    ghost view = { λ s. arc_value s.hold };
}

impl SharedHold {
    pub fn new(alloc: Global, hold: Hold) -> Mem<SharedHold>
        ensures { IfOk result (λ s. s ≡ hold) }
    {
        Ok(SharedHold {
            hold: Arc::new(alloc, hold)?,
        })
    }

    /// The hold. It takes no memory.
    pub fn get(&self) -> &Hold
        ensures { result.now ≡ self.now }
    {
        &self.hold
    }

    /// A copy. It is refused where the hold has as many copies as can be counted.
    pub fn copy(&self) -> Mem<SharedHold>
        ensures { IfOk result (λ s. s ≡ self.now) }
    {
        Ok(SharedHold {
            hold: self.hold.clone()?,
        })
    }
}

/// For what an entry is looked up and locked: for the act itself, or for the recovery that follows a failure of the act with this code, which
/// then is the act's answer. In a recovery `Asked` says that the recovery is the act.
#[derive(Clone, Copy)]
pub enum Cause {
    Asked,
    After { code: Code },
}

/// A new volume: at which server, with which quota, and from which dump, if from one.
#[derive(Drop)]
pub struct Fresh {
    pub server: u32,
    pub quota: u32,
    pub dump: Option<Octets>,
}

/// A dump that is taken: its label, the counter from which on, and its bytes so far.
#[derive(Drop)]
pub struct Saving {
    pub hold: SharedHold,
    pub label: Octets,
    pub from: u32,
    pub bytes: Octets,
}

pub type Servers = Sequence<u32>;

/// A release: the numbers of the read-only volume and of the clone that is sent to its sites; the first code with which a site was
/// skipped; the sites that were reached; and those behind the one at which the release is.
#[derive(Drop)]
pub struct Tour {
    pub hold: SharedHold,
    pub read_only: u32,
    pub clone: u32,
    pub first: Option<Code>,
    pub reached: Servers,
    pub left: Servers,
}

/// A move: to which server, and by which clone.
#[derive(Drop)]
pub struct Trip {
    pub hold: SharedHold,
    pub target: u32,
    pub clone: u32,
}

/// A volume at a server, as that listed it.
#[derive(Clone, Copy)]
pub struct Seen {
    pub server: u32,
    pub volume: ListedVolume,
}

pub type AllSeen = Sequence<Seen>;

/// A volume at a server.
#[derive(Clone, Copy)]
pub struct Spot {
    pub server: u32,
    pub volume: u32,
}

pub type Spots = Sequence<Spot>;

/// A recovery: of which volume, under which stamp; the server that the database names; the servers that have a further copy, and the
/// other volumes that have to go; and the flags of the volume at the named server, if it is there.
#[derive(Drop)]
pub struct Mend {
    pub cause: Cause,
    pub stamp: u32,
    pub volume: u32,
    pub named: u32,
    pub copies: Servers,
    pub others: Spots,
    pub flags: Option<u32>,
}

/// What the servers are asked for, one after the other: a move to this server, a removal, or a recovery.
#[derive(Clone, Copy)]
pub enum Purpose {
    Moves { target: u32 },
    Removes,
    Mends { cause: Cause },
}

// ---- the steps of each act. A transaction is on the volume that the step before it named; `new` is one at the new server of a move,
// ---- and `old` one at the old server

/// A new volume is made and filled while it is out of service; it gets its entry; then it is brought into service.
#[derive(Clone, Copy)]
pub enum Creating {
    /// GetNewVolumeId.
    Numbers,
    /// CreateVolume.
    Makes {
        volume: u32,
    },
    /// Restore of the piece at this offset.
    Fills {
        volume: u32,
        transaction: u32,
        offset: u32,
    },
    /// SetFlags 2.
    Closes {
        volume: u32,
        transaction: u32,
    },
    /// EndTrans.
    Ends {
        volume: u32,
        transaction: u32,
    },
    /// CreateEntry.
    Enters {
        volume: u32,
    },
    /// The entry was refused with this code. GetEntryByID: is it there all the same?
    Checks {
        volume: u32,
        code: Code,
    },
    /// It isn't. TransCreate, to delete the volume.
    Scraps {
        volume: u32,
        code: Code,
    },
    /// DeleteVolume.
    Scrapped {
        volume: u32,
        code: Code,
        transaction: u32,
    },
    /// The entry is locked under this stamp. TransCreate.
    Begins {
        volume: u32,
        stamp: u32,
    },
    /// SetFlags 0.
    Opens {
        volume: u32,
        stamp: u32,
        transaction: u32,
    },
    /// EndTrans.
    Opened {
        volume: u32,
        stamp: u32,
        transaction: u32,
    },
    /// ReleaseLock.
    Frees {
        volume: u32,
        stamp: u32,
    },
}

/// A backup is cloned, or made anew where there is one.
#[derive(Clone, Copy)]
pub enum Backing {
    /// ListVols, which brings the stamp.
    Stamps,
    /// TransCreate, busy.
    Begins,
    /// GetNewVolumeId.
    Numbers { transaction: u32 },
    /// Clone.
    Clones { transaction: u32, backup: u32 },
    /// ReClone.
    Renews { transaction: u32, backup: u32 },
    /// EndTrans.
    Ends { transaction: u32, backup: u32 },
    /// ReplaceEntry.
    Writes { backup: u32 },
}

/// A dump is read piece by piece.
#[derive(Clone, Copy)]
pub enum Dumping {
    /// ListVols, which brings the stamp.
    Stamps,
    /// TransCreate, busy.
    Begins,
    /// Dump of the next piece.
    Reads { transaction: u32 },
    /// EndTrans.
    Ends { transaction: u32 },
}

/// A release before its clone has a number.
#[derive(Clone, Copy)]
pub enum Releasing {
    /// ListVols, which brings the stamp.
    Stamps,
    /// GetNewVolumeId for the read-only volume, which the entry has none of.
    Numbers,
    /// GetNewVolumeId for the clone.
    NumbersClone { read_only: u32 },
}

/// A release before its first site and behind its last.
#[derive(Clone, Copy)]
pub enum Touring {
    /// TransCreate, busy.
    Begins,
    /// Clone.
    Clones { transaction: u32 },
    /// EndTrans.
    Cloned { transaction: u32 },
    /// TransCreate, to delete the clone.
    Drops,
    /// DeleteVolume.
    Dropped { transaction: u32 },
    /// ReplaceEntry.
    Writes,
}

/// A release at one of its sites. `transaction` is on the read-only volume there, `clone` is one on the clone.
#[derive(Clone, Copy)]
pub enum Visiting {
    /// ListVols, which brings the stamp.
    Stamps,
    /// The read-only volume is there. TransCreate.
    Takes,
    /// It isn't. CreateVolume.
    Makes,
    /// TransCreate of the clone, busy.
    Opens { transaction: u32 },
    /// Forward.
    Sends { transaction: u32, clone: u32 },
    /// EndTrans of the clone.
    Closes { transaction: u32, clone: u32 },
    /// SetFlags 0.
    Sets { transaction: u32 },
    /// EndTrans.
    Ends { transaction: u32 },
    /// The site is skipped with this code. EndTrans of the clone.
    Leaves { code: Code, clone: u32 },
}

/// A move: a clone goes to the new server while the volume is in service; behind the fence what changed since; then the entry names the
/// new server; then the old copy goes.
#[derive(Clone, Copy)]
pub enum Moving {
    /// TransCreate, busy.
    Begins,
    /// Clone.
    Clones {
        transaction: u32,
    },
    /// EndTrans. `counter` is that of the clone, from here on.
    Cloned {
        counter: u32,
        transaction: u32,
    },
    /// CreateVolume at the new server.
    Makes {
        counter: u32,
    },
    /// TransCreate of the clone, busy.
    Opens {
        counter: u32,
        new: u32,
    },
    /// Forward of the clone.
    Sends {
        counter: u32,
        new: u32,
        transaction: u32,
    },
    /// EndTrans of the clone.
    Sent {
        counter: u32,
        new: u32,
        transaction: u32,
    },
    /// TransCreate, offline.
    Holds {
        counter: u32,
        new: u32,
    },
    /// SetFlags 2, the fence.
    Fences {
        counter: u32,
        new: u32,
        old: u32,
    },
    /// Forward of what changed since the clone.
    Fills {
        counter: u32,
        new: u32,
        old: u32,
    },
    /// SetFlags 2 at the new server.
    Clears {
        new: u32,
        old: u32,
    },
    /// ReplaceEntry, the deciding write.
    Decides {
        new: u32,
        old: u32,
    },
    /// SetFlags 0 at the new server.
    Starts {
        new: u32,
        old: u32,
    },
    /// EndTrans at the new server.
    Started {
        new: u32,
        old: u32,
    },
    /// SetForwarding at the old server.
    Points {
        old: u32,
    },
    /// DeleteVolume at the old server.
    Deletes {
        old: u32,
    },
    /// TransCreate, to delete the clone.
    Drops,
    /// DeleteVolume.
    Dropped {
        transaction: u32,
    },
    /// TransCreate, to delete the backup.
    DropsBackup,
    /// DeleteVolume.
    DroppedBackup {
        transaction: u32,
    },
}

/// A removal of the volume itself.
#[derive(Clone, Copy)]
pub enum Removing {
    /// TransCreate, offline.
    Begins,
    /// SetFlags 2.
    Fences { transaction: u32 },
    /// DeleteEntry.
    Decides { transaction: u32 },
    /// DeleteVolume.
    Deletes { transaction: u32 },
}

/// The removal of one other volume.
#[derive(Clone, Copy)]
pub enum Sweeping {
    /// TransCreate, offline.
    Begins,
    /// DeleteVolume.
    Deletes { transaction: u32 },
}

/// A recovery, once it knows what is to be done: further copies go, then other volumes, then the volume comes into service.
#[derive(Clone, Copy)]
pub enum Mending {
    /// A further copy at this server: TransCreate.
    Takes { server: u32 },
    /// SetForwarding.
    Points { server: u32, transaction: u32 },
    /// DeleteVolume.
    Deletes { server: u32, transaction: u32 },
    /// Another volume: TransCreate.
    Drops { spot: Spot },
    /// DeleteVolume.
    Dropped { spot: Spot, transaction: u32 },
    /// The volume itself: TransCreate.
    Begins,
    /// SetFlags 0.
    Opens { transaction: u32 },
    /// EndTrans.
    Ends { transaction: u32 },
    /// ReleaseLock.
    Frees,
}

/// Where an act stands.
pub enum Place {
    /// GetEntryByName, with which most acts begin.
    Seeks {
        cause: Cause,
    },
    /// SetLock.
    Locks {
        cause: Cause,
        volume: u32,
    },
    /// ReleaseLock, with which most acts end. Where it goes well, this code is the answer. Where it is refused a recovery follows, behind the
    /// first code of the act, if there is one.
    Frees {
        hold: SharedHold,
        code: Code,
        first: Option<Code>,
    },
    Creates {
        fresh: Fresh,
        at: Creating,
    },
    /// ReplaceEntry with a further site.
    Adds {
        hold: SharedHold,
        server: u32,
    },
    Backs {
        hold: SharedHold,
        at: Backing,
    },
    Dumps {
        saving: Saving,
        at: Dumping,
    },
    Releases {
        hold: SharedHold,
        at: Releasing,
    },
    Tours {
        tour: Tour,
        at: Touring,
    },
    Visits {
        tour: Tour,
        site: u32,
        at: Visiting,
    },
    /// ListVols at this server, which brings the stamp; then at those that are left. What was listed before is kept.
    Surveys {
        hold: SharedHold,
        purpose: Purpose,
        server: u32,
        left: Servers,
        seen: AllSeen,
    },
    /// GetNewVolumeId for the clone of a move.
    Plans {
        hold: SharedHold,
        target: u32,
    },
    Moves {
        trip: Trip,
        at: Moving,
    },
    Removes {
        hold: SharedHold,
        seen: AllSeen,
        at: Removing,
    },
    Sweeps {
        hold: SharedHold,
        spot: Spot,
        left: Spots,
        at: Sweeping,
    },
    /// GetEntryByID: which server does the database name now?
    Asks {
        cause: Cause,
        hold: SharedHold,
        seen: AllSeen,
    },
    Mends {
        mend: Mend,
        at: Mending,
    },
}

/// A place ends by a drop of its own: what holds one has one drop to prove where it ends.
impl Drop for Place {
    fn drop(self) {
        match self {
            Place::Seeks { cause: _ }
            | Place::Locks {
                cause: _,
                volume: _,
            } => {}
            Place::Frees {
                hold,
                code: _,
                first: _,
            }
            | Place::Adds { hold, server: _ }
            | Place::Backs { hold, at: _ }
            | Place::Releases { hold, at: _ }
            | Place::Plans { hold, target: _ } => drop(hold),
            Place::Creates { fresh, at: _ } => drop(fresh),
            Place::Dumps { saving, at: _ } => drop(saving),
            Place::Tours { tour, at: _ }
            | Place::Visits {
                tour,
                site: _,
                at: _,
            } => drop(tour),
            Place::Surveys {
                hold,
                purpose: _,
                server: _,
                left,
                seen,
            } => {
                drop(hold);
                drop(left);
                drop(seen);
            }
            Place::Moves { trip, at: _ } => drop(trip),
            Place::Removes { hold, seen, at: _ }
            | Place::Asks {
                cause: _,
                hold,
                seen,
            } => {
                drop(hold);
                drop(seen);
            }
            Place::Sweeps {
                hold,
                spot: _,
                left,
                at: _,
            } => {
                drop(hold);
                drop(left);
            }
            Place::Mends { mend, at: _ } => drop(mend),
        }
    }
}
