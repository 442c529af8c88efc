//! A new volume, empty (`vos create`) or from a dump (`vos restore`).

ghost use Rattle.std.specs.Prelude.{◌≡◌, IfOk, [], None, drop, take};
ghost use Rattle.spec_dumps.specs.Streams.{is_last_at, piece_at};
ghost use Rattle.afs_num.specs.declared.location_calls.LocReply.TheVariants as entries;
ghost use Rattle.afs_num.specs.declared.messages.Reply.TheVariants as tell;
ghost use Rattle.afs_num.specs.declared.volume_calls.VolReply.TheVariants as volumes;
ghost use Rattle.spec_shape.specs.Tables.{IsServer};
ghost use Rattle.spec_volrows.specs.VolRow.{last_word, most_piece};
ghost use Rattle.spec_adminrows.specs.Asks as asks;
ghost use Rattle.spec_adminrows.specs.Creating as creating;
ghost use Rattle.afs_adminparts.specs.Fitting.{FitsFresh};

use afs_adminparts::asking::{CLOSED, OFFLINE, READ_WRITE, UNFILLED, at_loc, at_server};
use afs_adminparts::copies::copy_fresh;
use afs_adminparts::entries::new_entry;
use afs_adminparts::turning::{FINE, fails, is_dead, is_unlisted};
use afs_num::location_calls::{LocCall, LocReply};
use afs_num::messages::Reply;
use afs_num::sequences::Octets;
use afs_num::types::{Code, Mem};
use afs_num::volume_calls::{VolCall, VolReply};
use spec_adminrows::places::{Creating, Fresh, Place};
use spec_adminrows::turns::{Ask, Turn};
use std::alloc::Global;

/// At most so many bytes of a dump go in one piece.
const MOST_PIECE: usize = 33_554_432;

// ---- what is asked. The entry has no lock before it is there, so the calls before that have stamp 0.

/// The bytes of the dump that the volume is made from.
fn dump_in(fresh: &Fresh) -> &[u8]
    ensures { result.now ≡ creating.dump_in fresh.now }
{
    match &fresh.dump {
        Some(bytes) => bytes.as_slice(),
        None => &[],
    }
}

/// Whether the piece from this offset on is the last.
fn is_last_at(offset: u32, bytes: &[u8]) -> bool
    ensures { result ≡ is_last_at most_piece offset bytes.now }
{
    bytes.len() <= offset as usize + MOST_PIECE
}

/// 1 with the last piece, else 0.
fn last_word(offset: u32, bytes: &[u8]) -> u32
    ensures { result ≡ last_word offset bytes.now }
{
    if is_last_at(offset, bytes) { 1 } else { 0 }
}

/// The bytes from this offset on.
#[tactic(auto, using(crate::proofs::Creates::behind_the_end))]
fn behind(offset: u32, bytes: &[u8]) -> &[u8]
    ensures { result.now ≡ drop offset bytes.entry.now }
{
    let (_, rest) = bytes.split_at(bytes.len().min(offset as usize));
    rest
}

/// The first of these bytes, so many as go in one piece.
fn front(bytes: &[u8]) -> &[u8]
    ensures { result.now ≡ take most_piece bytes.entry.now }
{
    if bytes.len() <= MOST_PIECE {
        bytes
    } else {
        bytes.split_at(MOST_PIECE).0
    }
}

/// The piece from this offset on.
fn piece_at(alloc: Global, offset: u32, bytes: &[u8]) -> Mem<Octets>
    ensures { IfOk result (λ p. p ≡ piece_at most_piece offset bytes.now) }
{
    Octets::from_slice(alloc, front(behind(offset, bytes)))
}

/// CreateVolume: the volume is out of service until it is filled.
fn makes(alloc: Global, name: &Octets, fresh: &Fresh, volume: u32) -> Mem<Ask>
    requires { IsServer fresh.now.server }
    ensures { IfOk result (λ a. a ≡ creating.create_asks name.now fresh.now (Creating.Makes volume)) }
{
    let call = VolCall::CreateVolume {
        family: volume,
        volume,
        name: name.copy(alloc)?,
        kind: READ_WRITE,
        flags: UNFILLED,
        quota: fresh.quota,
    };
    Ok(at_server(0, fresh.server, call))
}

/// Restore: the next piece of the dump.
fn fills(alloc: Global, fresh: &Fresh, volume: u32, transaction: u32, offset: u32) -> Mem<Ask>
    requires { IsServer fresh.now.server }
    ensures { IfOk result (λ a. a ≡ creating.create_asks [] fresh.now (Creating.Fills volume transaction offset)) }
{
    let dump = dump_in(fresh);
    let call = VolCall::Restore {
        family: volume,
        transaction,
        offset,
        last: last_word(offset, dump),
        piece: piece_at(alloc, offset, dump)?,
    };
    Ok(at_server(0, fresh.server, call))
}

/// CreateEntry.
fn enters(alloc: Global, name: &Octets, fresh: &Fresh, volume: u32) -> Mem<Ask>
    ensures { IfOk result (λ a. a ≡ creating.create_asks name.now fresh.now (Creating.Enters volume)) }
{
    let entry = new_entry(alloc, name, volume, fresh.server)?;
    Ok(at_loc(0, LocCall::CreateEntry { entry }))
}

/// What is asked where a volume is made.
pub fn asks(alloc: Global, name: &Octets, fresh: &Fresh, at: Creating) -> Mem<Ask>
    requires { IsServer fresh.now.server }
    ensures { IfOk result (λ a. a ≡ creating.create_asks name.now fresh.now at) }
{
    let server = fresh.server;
    match at {
        Creating::Numbers => Ok(at_loc(0, LocCall::GetNewVolumeId)),
        Creating::Makes { volume } => makes(alloc, name, fresh, volume),
        Creating::Fills {
            volume,
            transaction,
            offset,
        } => fills(alloc, fresh, volume, transaction, offset),
        Creating::Closes {
            volume,
            transaction,
        } => Ok(at_server(
            0,
            server,
            VolCall::SetFlags {
                family: volume,
                transaction,
                flags: CLOSED,
            },
        )),
        Creating::Ends {
            volume,
            transaction,
        } => Ok(at_server(
            0,
            server,
            VolCall::EndTrans {
                family: volume,
                transaction,
            },
        )),
        Creating::Enters { volume } => enters(alloc, name, fresh, volume),
        Creating::Checks { volume, .. } => Ok(at_loc(0, LocCall::GetEntryById { volume })),
        Creating::Scraps { volume, .. } => Ok(at_server(
            0,
            server,
            VolCall::TransCreate {
                family: volume,
                volume,
                flags: OFFLINE,
            },
        )),
        Creating::Scrapped {
            volume,
            transaction,
            ..
        } => Ok(at_server(
            0,
            server,
            VolCall::DeleteVolume {
                family: volume,
                transaction,
            },
        )),
        Creating::Begins { volume, stamp } => Ok(at_server(
            stamp,
            server,
            VolCall::TransCreate {
                family: volume,
                volume,
                flags: OFFLINE,
            },
        )),
        Creating::Opens {
            volume,
            stamp,
            transaction,
        } => Ok(at_server(
            stamp,
            server,
            VolCall::SetFlags {
                family: volume,
                transaction,
                flags: 0,
            },
        )),
        Creating::Opened {
            volume,
            stamp,
            transaction,
        } => Ok(at_server(
            stamp,
            server,
            VolCall::EndTrans {
                family: volume,
                transaction,
            },
        )),
        Creating::Frees { volume, stamp } => Ok(at_loc(stamp, LocCall::ReleaseLock { volume })),
    }
}

// ---- where replies lead

pub fn creates(alloc: Global, fresh: &Fresh, at: Creating) -> Mem<Turn>
    ensures { IfOk result (λ t. t ≡ creating.creates fresh.now at) }
{
    Ok(Turn::Goes {
        place: Place::Creates {
            fresh: copy_fresh(alloc, fresh)?,
            at,
        },
    })
}

/// The volume is filled, where it is made from a dump.
fn fills_or_closes(alloc: Global, fresh: &Fresh, volume: u32, transaction: u32) -> Mem<Turn>
    ensures { IfOk result (λ t. t ≡ creating.fills_or_closes fresh.now volume transaction fresh.now.dump) }
{
    match &fresh.dump {
        Some(_) => creates(
            alloc,
            fresh,
            Creating::Fills {
                volume,
                transaction,
                offset: 0,
            },
        ),
        None => creates(
            alloc,
            fresh,
            Creating::Closes {
                volume,
                transaction,
            },
        ),
    }
}

/// A piece was taken: the next one follows, or it was the last.
fn fills_on(alloc: Global, fresh: &Fresh, volume: u32, transaction: u32, offset: u32) -> Mem<Turn>
    requires { FitsFresh fresh.now }
    ensures { IfOk result (λ t. t ≡ creating.fills_on fresh.now volume transaction offset) }
{
    if is_last_at(offset, dump_in(fresh)) {
        return creates(
            alloc,
            fresh,
            Creating::Closes {
                volume,
                transaction,
            },
        );
    }
    let offset = offset + MOST_PIECE as u32;
    creates(
        alloc,
        fresh,
        Creating::Fills {
            volume,
            transaction,
            offset,
        },
    )
}

/// Where a reply of a volume server leads.
fn told(alloc: Global, fresh: &Fresh, at: Creating, reply: &VolReply) -> Mem<Turn>
    requires { FitsFresh fresh.now }
    ensures { IfOk result (λ t. t ≡ creating.create_answered fresh.now at (tell.Volume reply.now)) }
{
    match (at, reply) {
        (Creating::Makes { volume }, VolReply::CreateVolume { transaction }) => fills_or_closes(
            alloc,
            fresh,
            volume,
            *transaction,
        ),
        (
            Creating::Fills {
                volume,
                transaction,
                offset,
            },
            VolReply::Restore,
        ) => fills_on(alloc, fresh, volume, transaction, offset),
        (
            Creating::Closes {
                volume,
                transaction,
            },
            VolReply::SetFlags,
        ) => creates(
            alloc,
            fresh,
            Creating::Ends {
                volume,
                transaction,
            },
        ),
        (Creating::Ends { volume, .. }, VolReply::EndTrans) => creates(
            alloc,
            fresh,
            Creating::Enters { volume },
        ),
        (Creating::Scraps { volume, code }, VolReply::TransCreate { transaction }) => creates(
            alloc,
            fresh,
            Creating::Scrapped {
                volume,
                code,
                transaction: *transaction,
            },
        ),
        (Creating::Scrapped { code, .. }, VolReply::DeleteVolume) => Ok(Turn::Ends { code }),
        (Creating::Begins { volume, stamp }, VolReply::TransCreate { transaction }) => creates(
            alloc,
            fresh,
            Creating::Opens {
                volume,
                stamp,
                transaction: *transaction,
            },
        ),
        (
            Creating::Opens {
                volume,
                stamp,
                transaction,
            },
            VolReply::SetFlags,
        ) => creates(
            alloc,
            fresh,
            Creating::Opened {
                volume,
                stamp,
                transaction,
            },
        ),
        (Creating::Opened { volume, stamp, .. }, VolReply::EndTrans) => creates(
            alloc,
            fresh,
            Creating::Frees { volume, stamp },
        ),
        _ => Ok(Turn::Passes),
    }
}

/// Where a reply of the database leads.
fn located(alloc: Global, fresh: &Fresh, at: Creating, reply: &LocReply) -> Mem<Turn>
    ensures { IfOk result (λ t. t ≡ creating.create_answered fresh.now at (tell.Location reply.now)) }
{
    match (at, reply) {
        (Creating::Numbers, LocReply::GetNewVolumeId { volume }) => creates(
            alloc,
            fresh,
            Creating::Makes { volume: *volume },
        ),
        (Creating::Enters { volume }, LocReply::CreateEntry { stamp }) => creates(
            alloc,
            fresh,
            Creating::Begins {
                volume,
                stamp: *stamp,
            },
        ),
        (Creating::Checks { code, .. }, LocReply::GetEntryById { .. }) => Ok(Turn::Ends { code }),
        (Creating::Frees { .. }, LocReply::ReleaseLock) => Ok(Turn::Ends { code: FINE }),
        _ => Ok(Turn::Passes),
    }
}

/// Where a reply leads. Of another kind it is none to the call.
pub fn answered(alloc: Global, fresh: &Fresh, at: Creating, reply: &Reply) -> Mem<Turn>
    requires { FitsFresh fresh.now }
    ensures { IfOk result (λ t. t ≡ creating.create_answered fresh.now at reply.now) }
{
    match reply {
        Reply::Volume(reply) => told(alloc, fresh, at, reply),
        Reply::Location(reply) => located(alloc, fresh, at, reply),
        Reply::File(_) => Ok(Turn::Passes),
    }
}

// ---- where refusals lead

/// The entry of the volume was refused. A call that was given up may still be served, so nothing more is done. Behind a refusal it is asked
/// whether the entry is there all the same: the call may have been sent twice, and the database keeps no refusal over a restart.
fn enters_not(alloc: Global, fresh: &Fresh, volume: u32, code: Code) -> Mem<Turn>
    ensures { IfOk result (λ t. t ≡ creating.enters_not fresh.now volume code) }
{
    if is_dead(code) {
        return Ok(Turn::Ends { code });
    }
    creates(alloc, fresh, Creating::Checks { volume, code })
}

/// The entry isn't there, so the volume is deleted; or that isn't known. The answer is the first refusal.
fn scraps_by(alloc: Global, fresh: &Fresh, volume: u32, first: Code, code: Code) -> Mem<Turn>
    ensures { IfOk result (λ t. t ≡ creating.scraps_by fresh.now volume first code) }
{
    if is_unlisted(code) {
        return creates(
            alloc,
            fresh,
            Creating::Scraps {
                volume,
                code: first,
            },
        );
    }
    Ok(Turn::Ends { code: first })
}

/// Where a refusal leads, or a call that was given up (code -1). Before the entry it is the answer: what is left of the volume is out of
/// service. Behind it a recovery follows.
pub fn refused(alloc: Global, fresh: &Fresh, at: Creating, code: Code) -> Mem<Turn>
    ensures { IfOk result (λ t. t ≡ creating.create_refused fresh.now at code) }
{
    match at {
        Creating::Enters { volume } => enters_not(alloc, fresh, volume, code),
        Creating::Checks {
            volume,
            code: first,
        } => scraps_by(alloc, fresh, volume, first, code),
        Creating::Scraps { code: first, .. } | Creating::Scrapped { code: first, .. } => Ok(
            Turn::Ends { code: first },
        ),
        Creating::Begins { .. }
        | Creating::Opens { .. }
        | Creating::Opened { .. }
        | Creating::Frees { .. } => Ok(fails(None, code)),
        _ => Ok(Turn::Ends { code }),
    }
}
