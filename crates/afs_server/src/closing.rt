//! Which volumes a file server keeps closed, and with which code it refuses calls on them.

ghost use Rattle.std.specs.Prelude.{◌≡◌, Bool, pos, false, IfSome};
ghost use Rattle.std.specs.Option.{option_map};
ghost use Rattle.spec_model.specs.Heads.{is_zero};
ghost use Rattle.spec_ideal.specs.Tables.{get};
ghost use Rattle.afs_shelves.specs.Shelving.{stored_as};
ghost use Rattle.spec_volrows.specs.FileRow.{closed_code, missing_code};
ghost use Rattle.afs_server.specs.Closing.{code_with};
ghost use Rattle.afs_server.specs.Handling.{holds_seen};
ghost use Rattle.afs_sharing.specs.Lasting.{lasting_of};

use afs_decisions::deciding::NO_VOLUME;
use afs_disk::Disk;
use afs_volstore::VolStore;
use afs_volume::Volume;

/// The volume isn't here, and it is known to which server it went.
const WENT_ON: i32 = 111;

/// The volume is out of service, or offline in a transaction.
const OUT_OF_SERVICE: i32 = 106;

/// The volume is busy in a transaction.
const BUSY: i32 = 110;

/// No transaction holds the volume.
const NOT_HELD: u32 = 0;

/// One does, and it is offline.
const OFFLINE: u32 = 1;

/// The code for a call on a volume that isn't here.
pub(crate) fn missing_code<D: Disk>(store: &VolStore<D>, id: u32) -> i32
    ensures value { result ≡ pos (missing_code (lasting_of store.now.durable) id) }
    ensures told { is_zero result ≡ false }
{
    if store.forwarding(id).is_some() {
        WENT_ON
    } else {
        NO_VOLUME
    }
}

/// The code with which a volume with these flags, held so, refuses every call, if it does.
fn code_of(flags: u32, held: u32) -> Option<i32>
    ensures value { result ≡ option_map pos (code_with flags held) }
    ensures told { IfSome result (λ code. is_zero code ≡ false) }
{
    if flags != 0 {
        Some(OUT_OF_SERVICE)
    } else if held == NOT_HELD {
        None
    } else if held == OFFLINE {
        Some(OUT_OF_SERVICE)
    } else {
        Some(BUSY)
    }
}

/// The code with which a volume that the store keeps refuses every call, if it does.
pub(crate) fn closed_code<D: Disk>(store: &VolStore<D>, volume: &Volume) -> Option<i32>
    ensures value { (new : Bool) → result ≡ option_map pos (closed_code (stored_as new volume.now) (get volume.now.head.id (holds_seen store.now))) }
    ensures told { IfSome result (λ code. is_zero code ≡ false) }
{
    let head = volume.head();
    code_of(head.flags, store.held(head.id))
}
