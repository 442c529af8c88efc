//! What replies tell.

ghost use Rattle.std.specs.Prelude.{◌≡◌, ◌+◌, ◌<◌, length, map, nat_eq, not, IfOk, IfSome};
ghost use Rattle.std.specs.List.{list_any};
ghost use Rattle.std.specs.Option.{option_copied, option_map};
ghost use Rattle.afs_num.specs.declared.types.Fid.{Fid as AnyFid};
ghost use Rattle.spec_rows.specs.ClientRow.{body_told, entries_told, cache_entry_told, stands_below, is_busy_code, is_trusted, names_told, status_told};
ghost use Rattle.spec_rows.specs.Scopes.{may_change};
ghost use Rattle.spec_rows.specs.States.{CacheEntry};
ghost use Rattle.spec_ideal.specs.Directories.{directory_of};
ghost use Rattle.afs_asking.specs.Telling.{first_of, first_told, told_of};
ghost use Rattle.afs_entries.specs.Cached.{drops_of, entry_at, entry_of};

use afs_acts::volume_changed;
use afs_dir::{Dir, DirFault};
use afs_entries::{Drops, Entry, Fresh};
use afs_num::calls::{AfsCallBack, AfsFetchStatus, AfsVolSync, FsCall};
use afs_num::directories::Names;
use afs_num::histories::{Body, ReadStatus};
use afs_num::sequences::Octets;
use afs_num::types::{Code, Fid, Mem, Node};
use std::alloc::{AllocError, Global};

/// The status that is shown.
pub fn status_told(status: &AfsFetchStatus) -> ReadStatus
    ensures { result ≡ status_told status.now }
{
    ReadStatus {
        kind: status.file_type,
        link_count: status.link_count,
        length: status.length,
        mode: status.unix_mode_bits,
    }
}

/// The entry that a reply brings, whatever fid it is of.
pub fn entry_told(
    server: Node,
    status: &AfsFetchStatus,
    callback: &AfsCallBack,
    sync: &AfsVolSync,
    body: Option<Body>,
) -> Entry
    ensures { (fid : AnyFid) → entry_at fid result ≡ cache_entry_told server fid status.now callback.now sync.now body }
{
    Entry {
        index: status.sync_counter,
        status: status_told(status),
        body,
        server,
        expiry: callback.expiration_time,
        release: sync.release,
    }
}

/// The volume is out of service, or busy, for a while.
pub fn is_busy(code: Code) -> bool
    ensures { result ≡ is_busy_code code }
{
    code.0 == 106 || code.0 == 110
}

/// The entries of what an answered call may have changed.
pub fn scope_of(call: &FsCall) -> Drops
    ensures { (e : CacheEntry) → drops_of result e ≡ may_change call.now e.fid }
{
    match call {
        FsCall::StoreData { fid, .. }
        | FsCall::StoreAcl { fid, .. }
        | FsCall::StoreStatus { fid, .. } => Drops::Fid(*fid),
        FsCall::CreateFile { directory, .. }
        | FsCall::Symlink { directory, .. }
        | FsCall::MakeDir { directory, .. } => Drops::Fid(*directory),
        _ => match volume_changed(call) {
            Some(volume) => Drops::Volume(volume),
            None => Drops::Nothing,
        },
    }
}

/// Whether an entry stands just below this index.
fn stands_below(entry: &Entry, index: u32) -> bool
    ensures { result ≡ nat_eq (entry.now.index + 1) index }
{
    entry.index < index && index - entry.index == 1
}

/// Whether a trusted entry stands just below this index, or none is there.
pub fn is_below(now: u32, index: u32, entry: Option<&Entry>) -> bool
    ensures { (fid : AnyFid) → result ≡ stands_below now index (option_map (entry_at fid) (option_copied entry.entry)) }
{
    match entry {
        Some(entry) => !entry.is_trusted(now) || stands_below(entry, index),
        None => true,
    }
}

/// What a body is, by the type in its status. Bytes that spell no directory have no names.
pub fn body_told(alloc: Global, kind: u32, contents: Octets) -> Mem<Body>
    ensures { IfOk result (λ b. b ≡ body_told kind contents) }
{
    match kind {
        1 => Ok(Body::File(contents)),
        2 => Ok(Body::Dir(names_told(alloc, contents.as_slice())?)),
        _ => Ok(Body::Link(contents)),
    }
}

fn names_told(alloc: Global, contents: &[u8]) -> Mem<Names>
    ensures { IfOk result (λ ns. ns ≡ names_told (directory_of contents.now)) }
{
    match Dir::from_bytes(alloc, contents) {
        Ok(directory) => directory.into_names(),
        Err(DirFault::OutOfMemory) => Err(AllocError),
        Err(_) => Names::from_vec(Vec::new(alloc)),
    }
}

/// A fid with its status and its promise, and what stands behind each.
#[derive(Clone, Copy)]
struct Told<'a> {
    fid: Fid,
    status: &'a AfsFetchStatus,
    callback: &'a AfsCallBack,
    fids: &'a [Fid],
    statuses: &'a [AfsFetchStatus],
    callbacks: &'a [AfsCallBack],
}

/// The first of these, and those behind it.
fn next_fid(fids: &[Fid]) -> Option<(&Fid, &[Fid])>
    ensures value { option_map (λ r. (r.0.now, r.1.now)) result ≡ first_of fids.now }
    ensures less { IfSome result (λ r. length r.1.now < length fids.now) }
{
    match fids {
        [fid, rest @ ..] => Some((fid, rest)),
        [] => None,
    }
}

fn next_status(statuses: &[AfsFetchStatus]) -> Option<(&AfsFetchStatus, &[AfsFetchStatus])>
    ensures { option_map (λ r. (r.0.now, r.1.now)) result ≡ first_of statuses.now }
{
    match statuses {
        [status, rest @ ..] => Some((status, rest)),
        [] => None,
    }
}

fn next_callback(callbacks: &[AfsCallBack]) -> Option<(&AfsCallBack, &[AfsCallBack])>
    ensures { option_map (λ r. (r.0.now, r.1.now)) result ≡ first_of callbacks.now }
{
    match callbacks {
        [callback, rest @ ..] => Some((callback, rest)),
        [] => None,
    }
}

fn next_told<'a>(
    fids: &'a [Fid],
    statuses: &'a [AfsFetchStatus],
    callbacks: &'a [AfsCallBack],
) -> Option<Told<'a>>
    ensures value { option_map told_of result ≡ first_told fids.entry.now statuses.entry.now callbacks.entry.now }
    ensures less { IfSome result (λ t. length t.fids.now < length fids.entry.now) }
{
    let (fid, fids) = next_fid(fids)?;
    let (status, statuses) = next_status(statuses)?;
    let (callback, callbacks) = next_callback(callbacks)?;
    Some(Told {
        fid: *fid,
        status,
        callback,
        fids,
        statuses,
        callbacks,
    })
}

/// The entries that statuses come with, one for each fid, status and promise.
pub fn entries_told(
    alloc: Global,
    server: Node,
    sync: &AfsVolSync,
    fids: &[Fid],
    statuses: &[AfsFetchStatus],
    callbacks: &[AfsCallBack],
) -> Mem<Vec<Fresh>>
    ensures { IfOk result (λ all. map entry_of all.items ≡ entries_told server sync.now fids.now statuses.now callbacks.now) }
{
    let mut all = Vec::new(alloc);
    let mut fids = fids;
    let mut statuses = statuses;
    let mut callbacks = callbacks;
    while let Some(told) = next_told(fids, statuses, callbacks) {
        all.push(Fresh {
            fid: told.fid,
            entry: entry_told(server, told.status, told.callback, sync, None),
        })?;
        fids = told.fids;
        statuses = told.statuses;
        callbacks = told.callbacks;
    }
    Ok(all)
}

/// Whether one of these can't be used any more.
pub fn is_any_spent(all: &[Fresh], now: u32) -> bool
    ensures { result ≡ list_any (λ e. not (is_trusted now e)) (map entry_of all.now) }
{
    for fresh in all {
        if !fresh.entry.is_trusted(now) {
            return true;
        }
    }
    false
}
