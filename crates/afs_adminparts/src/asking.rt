//! Of whom something is asked, and what is read of the act (AFS-3 Programmer's Reference, Volume Server / Volume Location Server Interface).

ghost use Rattle.std.specs.Prelude.{◌≡◌};
ghost use Rattle.spec_shape.specs.Tables.{IsServer};
ghost use Rattle.spec_adminrows.specs.Asks as asks;

use crate::entries::home_in;
use afs_num::location_calls::LocCall;
use afs_num::messages::Call;
use afs_num::sequences::Octets;
use afs_num::types::Node;
use afs_num::volume_calls::VolCall;
use spec_adminrows::places::{Cause, Hold};
use spec_adminrows::turns::Ask;
use spec_history::scripts::AdminAct;

/// The flags of a transaction whose volume is offline to all others.
pub const OFFLINE: u32 = 1;

/// The flags of a transaction whose volume is busy, but is read.
pub const BUSY: u32 = 2;

/// The flags of a volume that is out of service.
pub const CLOSED: u32 = 2;

/// The flags of a volume that is out of service, and not filled yet.
pub const UNFILLED: u32 = 3;

/// The kinds of volumes.
pub const READ_WRITE: u32 = 0;

pub const READ_ONLY: u32 = 1;

pub const BACKUP: u32 = 2;

/// What an entry is locked for, as the database tells it: a move, a release, a dump or a clone, a deletion.
const FOR_MOVE: u32 = 16;

const FOR_RELEASE: u32 = 32;

const FOR_DUMP: u32 = 64;

const FOR_DELETION: u32 = 128;

/// The name of the volume that the act is on.
pub fn name_in(act: &AdminAct) -> &Octets
    ensures { result.now ≡ asks.name_in_act act.now }
{
    match act {
        AdminAct::Create { name, .. }
        | AdminAct::Restore { name, .. }
        | AdminAct::AddSite { name, .. }
        | AdminAct::Backup { name }
        | AdminAct::Release { name }
        | AdminAct::Move { name, .. }
        | AdminAct::Dump { name, .. }
        | AdminAct::Remove { name }
        | AdminAct::Recover { name } => name,
    }
}

/// The operation that the act locks the entry for.
fn operation_of(act: &AdminAct) -> u32
    ensures { result ≡ asks.operation_of act.now }
{
    match act {
        AdminAct::AddSite { .. } | AdminAct::Release { .. } => FOR_RELEASE,
        AdminAct::Backup { .. } | AdminAct::Dump { .. } => FOR_DUMP,
        AdminAct::Remove { .. } => FOR_DELETION,
        _ => FOR_MOVE,
    }
}

/// 1 where the act takes the lock from whoever has it, else 0.
fn force_of(act: &AdminAct) -> u32
    ensures { result ≡ asks.force_of act.now }
{
    match act {
        AdminAct::Recover { .. } => 1,
        _ => 0,
    }
}

/// The operation that the entry is locked for; a recovery behind a failure locks it as for a move.
pub fn operation_by(cause: Cause, act: &AdminAct) -> u32
    ensures { result ≡ asks.operation_by cause act.now }
{
    match cause {
        Cause::Asked => operation_of(act),
        Cause::After { .. } => FOR_MOVE,
    }
}

/// 1 where the lock is taken from whoever has it, as by each recovery, else 0.
pub fn force_by(cause: Cause, act: &AdminAct) -> u32
    ensures { result ≡ asks.force_by cause act.now }
{
    match cause {
        Cause::Asked => force_of(act),
        Cause::After { .. } => 1,
    }
}

/// The number of the read-write volume of the entry, by which its family is known.
pub fn family(hold: &Hold) -> u32
    ensures { result ≡ asks.family hold.now }
{
    hold.entry.read_write
}

/// The number of its server, 1 to 8; 0 where the entry names none.
pub fn home(hold: &Hold) -> u32
    ensures { result ≡ asks.home hold.now }
{
    home_in(&hold.entry)
}

/// What the location database is asked.
pub fn at_loc(stamp: u32, call: LocCall) -> Ask
    ensures { result ≡ asks.at_loc stamp call }
{
    Ask {
        callee: Node::Loc,
        stamp,
        call: Call::Location(call),
    }
}

/// What the volume server of this number is asked.
pub fn at_server(stamp: u32, server: u32, call: VolCall) -> Ask
    requires { IsServer server }
    ensures { result ≡ asks.at_server stamp server call }
{
    Ask {
        callee: Node::Server(server as u8),
        stamp,
        call: Call::Volume(call),
    }
}

/// What the database is asked under the stamp of the lock.
pub fn held_at_loc(hold: &Hold, call: LocCall) -> Ask
    ensures { result ≡ asks.held_at_loc hold.now call }
{
    at_loc(hold.stamp, call)
}

/// What this server is asked under the stamp of the lock.
pub fn held_at(hold: &Hold, server: u32, call: VolCall) -> Ask
    requires { IsServer server }
    ensures { result ≡ asks.held_at hold.now server call }
{
    at_server(hold.stamp, server, call)
}

/// What the server of the entry's volume is asked under the stamp of the lock.
pub fn at_home(hold: &Hold, call: VolCall) -> Ask
    requires { IsServer (asks.home hold.now) }
    ensures { result ≡ asks.at_home hold.now call }
{
    held_at(hold, home(hold), call)
}
