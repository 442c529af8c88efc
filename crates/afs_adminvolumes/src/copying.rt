//! A further site of the read-only volume (`vos addsite`); a backup (`vos backup`); a dump (`vos dump`).

ghost use Rattle.std.specs.Prelude.{◌≡◌, ◌++◌, ◌<◌, ◌^◌, IfOk, [], length};
ghost use Rattle.afs_num.specs.declared.messages.Reply.TheVariants as tell;
ghost use Rattle.afs_num.specs.declared.volume_calls.VolReply.TheVariants as volumes;
ghost use Rattle.spec_shape.specs.Tables.{IsServer};
ghost use Rattle.spec_adminrows.specs.Asks as asks;
ghost use Rattle.spec_adminrows.specs.Copying as copying;
ghost use Rattle.afs_adminparts.specs.Fitting.{FitsDump};

use afs_adminparts::asking::{BACKUP, BUSY, at_home, family, held_at_loc};
use afs_adminparts::copies::{copy_saving, name_with};
use afs_adminparts::entries::{entry_added, entry_backed, has_read_only_at};
use afs_adminparts::turning::{FINE, SAME_PLACE, frees};
use afs_num::location_calls::{LocCall, LocReply};
use afs_num::messages::Reply;
use afs_num::sequences::Octets;
use afs_num::types::Mem;
use afs_num::volume_calls::{VolCall, VolReply};
use spec_adminrows::places::{Backing, Dumping, Hold, Place, Saving, SharedHold};
use spec_adminrows::turns::{Ask, Turn};
use std::alloc::Global;

/// The end of the name of a backup.
const BACKUP_END: &[u8] = b".backup";

// ---- a further site

/// The entry is written with a site at this server.
pub fn add_asks(alloc: Global, hold: &Hold, server: u32) -> Mem<Ask>
    ensures { IfOk result (λ a. a ≡ copying.add_asks hold.now server) }
{
    let entry = entry_added(alloc, server, &hold.entry)?;
    Ok(held_at_loc(
        hold,
        LocCall::ReplaceEntry {
            volume: family(hold),
            entry,
        },
    ))
}

/// A site at this server is to be added. Where the read-only volume has it already nothing is written.
pub fn adds(hold: &SharedHold, server: u32) -> Mem<Turn>
    ensures { IfOk result (λ t. t ≡ copying.adds hold.now server) }
{
    if has_read_only_at(server, &hold.get().entry) {
        return frees(hold, SAME_PLACE);
    }
    Ok(Turn::Goes {
        place: Place::Adds {
            hold: hold.copy()?,
            server,
        },
    })
}

/// Where a reply leads.
pub fn add_answered(hold: &SharedHold, reply: &Reply) -> Mem<Turn>
    ensures { IfOk result (λ t. t ≡ copying.add_answered hold.now reply.now) }
{
    match reply {
        Reply::Location(LocReply::ReplaceEntry) => frees(hold, FINE),
        _ => Ok(Turn::Passes),
    }
}

// ---- a backup

/// Clone: the backup is made.
fn clones(alloc: Global, name: &Octets, hold: &Hold, transaction: u32, backup: u32) -> Mem<Ask>
    requires { IsServer (asks.home hold.now) }
    ensures { IfOk result (λ a. a ≡ copying.backup_asks name.now hold.now (Backing.Clones transaction backup)) }
{
    let call = VolCall::Clone {
        family: family(hold),
        transaction,
        volume: backup,
        name: name_with(alloc, name, BACKUP_END)?,
        kind: BACKUP,
    };
    Ok(at_home(hold, call))
}

/// ReplaceEntry: the backup is listed.
fn writes(alloc: Global, hold: &Hold, backup: u32) -> Mem<Ask>
    ensures { IfOk result (λ a. a ≡ copying.backup_asks [] hold.now (Backing.Writes backup)) }
{
    let entry = entry_backed(alloc, backup, &hold.entry)?;
    Ok(held_at_loc(
        hold,
        LocCall::ReplaceEntry {
            volume: family(hold),
            entry,
        },
    ))
}

/// What is asked where a backup is made.
pub fn backup_asks(alloc: Global, name: &Octets, hold: &Hold, at: Backing) -> Mem<Ask>
    requires { IsServer (asks.home hold.now) }
    ensures { IfOk result (λ a. a ≡ copying.backup_asks name.now hold.now at) }
{
    let family = family(hold);
    match at {
        Backing::Stamps => Ok(at_home(hold, VolCall::ListVols { family })),
        Backing::Begins => Ok(at_home(
            hold,
            VolCall::TransCreate {
                family,
                volume: family,
                flags: BUSY,
            },
        )),
        Backing::Numbers { .. } => Ok(held_at_loc(hold, LocCall::GetNewVolumeId)),
        Backing::Clones {
            transaction,
            backup,
        } => clones(alloc, name, hold, transaction, backup),
        Backing::Renews {
            transaction,
            backup,
        } => Ok(at_home(
            hold,
            VolCall::ReClone {
                family,
                transaction,
                volume: backup,
            },
        )),
        Backing::Ends { transaction, .. } => Ok(at_home(
            hold,
            VolCall::EndTrans {
                family,
                transaction,
            },
        )),
        Backing::Writes { backup } => writes(alloc, hold, backup),
    }
}

pub fn backs(hold: &SharedHold, at: Backing) -> Mem<Turn>
    ensures { IfOk result (λ t. t ≡ copying.backs hold.now at) }
{
    Ok(Turn::Goes {
        place: Place::Backs {
            hold: hold.copy()?,
            at,
        },
    })
}

/// A backup that is there is made anew; else it needs a number first.
fn clones_or_renews(hold: &SharedHold, transaction: u32, backup: u32) -> Mem<Turn>
    ensures { IfOk result (λ t. t ≡ copying.clones_or_renews hold.now transaction backup) }
{
    match backup {
        0 => backs(hold, Backing::Numbers { transaction }),
        _ => backs(
            hold,
            Backing::Renews {
                transaction,
                backup,
            },
        ),
    }
}

/// Where a reply of the volume server leads.
fn backup_told(hold: &SharedHold, at: Backing, reply: &VolReply) -> Mem<Turn>
    ensures { IfOk result (λ t. t ≡ copying.backup_answered hold.now at (tell.Volume reply.now)) }
{
    match (at, reply) {
        (Backing::Stamps, VolReply::ListVols { .. }) => backs(hold, Backing::Begins),
        (Backing::Begins, VolReply::TransCreate { transaction }) => clones_or_renews(
            hold,
            *transaction,
            hold.get().entry.backup,
        ),
        (
            Backing::Clones {
                transaction,
                backup,
            },
            VolReply::Clone { .. },
        )
        | (
            Backing::Renews {
                transaction,
                backup,
            },
            VolReply::ReClone { .. },
        ) => backs(
            hold,
            Backing::Ends {
                transaction,
                backup,
            },
        ),
        (Backing::Ends { backup, .. }, VolReply::EndTrans) => backs(
            hold,
            Backing::Writes { backup },
        ),
        _ => Ok(Turn::Passes),
    }
}

/// Where a reply of the database leads.
fn backup_located(hold: &SharedHold, at: Backing, reply: &LocReply) -> Mem<Turn>
    ensures { IfOk result (λ t. t ≡ copying.backup_answered hold.now at (tell.Location reply.now)) }
{
    match (at, reply) {
        (Backing::Numbers { transaction }, LocReply::GetNewVolumeId { volume }) => backs(
            hold,
            Backing::Clones {
                transaction,
                backup: *volume,
            },
        ),
        (Backing::Writes { .. }, LocReply::ReplaceEntry) => frees(hold, FINE),
        _ => Ok(Turn::Passes),
    }
}

/// Where a reply leads. Of another kind it is none to the call.
pub fn backup_answered(hold: &SharedHold, at: Backing, reply: &Reply) -> Mem<Turn>
    ensures { IfOk result (λ t. t ≡ copying.backup_answered hold.now at reply.now) }
{
    match reply {
        Reply::Volume(reply) => backup_told(hold, at, reply),
        Reply::Location(reply) => backup_located(hold, at, reply),
        Reply::File(_) => Ok(Turn::Passes),
    }
}

// ---- a dump

/// What is asked where a dump is taken. The next piece is that behind the bytes that are there.
pub fn dump_asks(saving: &Saving, at: Dumping) -> Ask
    requires home { IsServer (asks.home saving.now.hold) }
    requires bytes { FitsDump saving.now.bytes }
    ensures { result ≡ copying.dump_asks saving.now at }
{
    let hold = saving.hold.get();
    let family = family(hold);
    let call = match at {
        Dumping::Stamps => VolCall::ListVols { family },
        Dumping::Begins => VolCall::TransCreate {
            family,
            volume: family,
            flags: BUSY,
        },
        Dumping::Reads { transaction } => VolCall::Dump {
            family,
            transaction,
            from: saving.from,
            offset: saving.bytes.len() as u32,
        },
        Dumping::Ends { transaction } => VolCall::EndTrans {
            family,
            transaction,
        },
    };
    at_home(hold, call)
}

pub fn dumps(alloc: Global, saving: &Saving, at: Dumping) -> Mem<Turn>
    ensures { IfOk result (λ t. t ≡ copying.dumps saving.now at) }
{
    Ok(Turn::Goes {
        place: Place::Dumps {
            saving: copy_saving(alloc, saving)?,
            at,
        },
    })
}

/// Whether the dump still has fewer bytes than a word counts, with this piece.
fn has_room(saving: &Saving, piece: &Octets) -> bool
    ensures { result ≡ copying.has_offset saving.now piece.now }
{
    saving.bytes.len() + piece.len() < 4_294_967_296
}

/// The dump with one more piece.
fn with_piece(alloc: Global, saving: &Saving, piece: &Octets) -> Mem<Saving>
    ensures { IfOk result (λ s. s ≡ record saving.now { bytes = saving.now.bytes ++ piece.now }) }
{
    let mut bytes = Vec::with_capacity(alloc, saving.bytes.len().saturating_add(piece.len()))?;
    bytes.extend_from_slice(saving.bytes.as_slice())?;
    bytes.extend_from_slice(piece.as_slice())?;
    Ok(Saving {
        hold: saving.hold.copy()?,
        label: saving.label.copy(alloc)?,
        from: saving.from,
        bytes: Octets::from_vec(bytes)?,
    })
}

/// Behind the last piece the dump is held.
fn dumps_on(alloc: Global, saving: &Saving, transaction: u32, last: u32) -> Mem<Turn>
    ensures { IfOk result (λ t. t ≡ copying.dumps_on saving.now transaction last) }
{
    if last == 0 {
        return dumps(alloc, saving, Dumping::Reads { transaction });
    }
    Ok(Turn::Keeps {
        label: saving.label.copy(alloc)?,
        bytes: saving.bytes.copy(alloc)?,
        place: Place::Dumps {
            saving: copy_saving(alloc, saving)?,
            at: Dumping::Ends { transaction },
        },
    })
}

/// A piece came. One by which the dump would have too many bytes for a word is none.
fn takes_piece(
    alloc: Global,
    saving: &Saving,
    transaction: u32,
    last: u32,
    piece: &Octets,
) -> Mem<Turn>
    ensures { IfOk result (λ t. t ≡ copying.dump_answered saving.now (Dumping.Reads transaction) (tell.Volume (volumes.Dump last piece.now))) }
{
    if !has_room(saving, piece) {
        return Ok(Turn::Passes);
    }
    let saving = with_piece(alloc, saving, piece)?;
    dumps_on(alloc, &saving, transaction, last)
}

/// Where a reply of the volume server leads.
fn dump_told(alloc: Global, saving: &Saving, at: Dumping, reply: &VolReply) -> Mem<Turn>
    ensures { IfOk result (λ t. t ≡ copying.dump_answered saving.now at (tell.Volume reply.now)) }
{
    match (at, reply) {
        (Dumping::Stamps, VolReply::ListVols { .. }) => dumps(alloc, saving, Dumping::Begins),
        (Dumping::Begins, VolReply::TransCreate { transaction }) => dumps(
            alloc,
            saving,
            Dumping::Reads {
                transaction: *transaction,
            },
        ),
        (Dumping::Reads { transaction }, VolReply::Dump { last, piece }) => takes_piece(
            alloc,
            saving,
            transaction,
            *last,
            piece,
        ),
        (Dumping::Ends { .. }, VolReply::EndTrans) => frees(&saving.hold, FINE),
        _ => Ok(Turn::Passes),
    }
}

/// Where a reply leads. Of another kind it is none to the call.
pub fn dump_answered(alloc: Global, saving: &Saving, at: Dumping, reply: &Reply) -> Mem<Turn>
    ensures { IfOk result (λ t. t ≡ copying.dump_answered saving.now at reply.now) }
{
    match reply {
        Reply::Volume(reply) => dump_told(alloc, saving, at, reply),
        _ => Ok(Turn::Passes),
    }
}
