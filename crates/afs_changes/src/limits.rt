//! The limits of a change, tested on what its edits make.

ghost use Rattle.std.specs.Prelude.{◌≡◌, ◌≤◌, ◌<◌, ◌^◌, Some, not, nat_lt, length};
ghost use Rattle.spec_ideal.specs.Operations.{amend_fits, edit_fits, first_failing, free_fits, is_last_count, limits, links_fit};
ghost use Rattle.std.specs.List.{list_all};
ghost use Rattle.spec_ideal.specs.Tables.{get, AscendsFrom};
ghost use Rattle.spec_ideal.specs.VnodeMaps.{most_vnodes};
ghost use Rattle.spec_ideal.specs.Volumes.{amended, blocks_in, bytes_by, edit_number, edited_all, has_body};
ghost use Rattle.spec_ideal.proofs.Looks.{Distinct};
ghost use Rattle.afs_changes.specs.Counting.{blocks_after, blocks_before, made_of};
ghost use Rattle.afs_volume.specs.Counting.{blocks_at};
ghost use Rattle.afs_changes.specs.Planning.{amend_seen, edit_seen, edits_seen};
ghost use Rattle.afs_volume.specs.Giving.{volume_of};
ghost use Rattle.afs_reads.specs.Replying.{Passes};
ghost use Rattle.afs_changes.specs.Images.{body_left};
ghost use Rattle.afs_volume.specs.Seen.{kind_seen, seen, IsReadable};

use crate::edits::{Amend, Edit};
use afs_num::sequences::Octets;
use afs_num::vnodes::Vnode;
use afs_reads::checks::check;
use afs_reads::faults::OpFault;
use afs_volume::bodies::{blocks, blocks_of};
use afs_volume::{Volume, is_directory};

/// The most vnodes of a volume.
const MOST_VNODES: usize = 4_096;

/// The bytes of a vnode after an edit; a directory's spell its names.
#[tactic(auto, unfolding(afs_volume::specs::Seen::seen))]
pub fn body_left<'a>(x: &'a Vnode, amend: &'a Amend) -> &'a Octets
    ensures image { result.now ≡ body_left (kind_seen x.now.kind) amend.now x.now.contents }
    ensures seen { IsReadable x.now → result.now ≡ bytes_by (seen x.now).kind (amended 0 (amend_seen amend.now) (seen x.now)) }
{
    let new = if is_directory(x) {
        &amend.names
    } else {
        &amend.contents
    };
    match new {
        Some(bytes) => bytes,
        None => &x.contents,
    }
}

/// A count that isn't the last one.
fn is_raised(count: u32) -> bool
    ensures { result ≡ not (is_last_count count) }
{
    count < 4_294_967_295
}

pub fn has_body(amend: &Amend) -> bool
    ensures { result ≡ has_body (amend_seen amend.now).contents (amend_seen amend.now).names }
{
    amend.contents.is_some() || amend.names.is_some()
}

fn links_fit(links: Option<u64>) -> bool
    ensures { result ≡ links_fit links }
{
    match links {
        Some(links) => links <= 4_294_967_295,
        None => true,
    }
}

#[tactic(auto, unfolding(afs_volume::specs::Seen::seen))]
fn amend_fits(x: &Vnode, amend: &Amend) -> bool
    ensures { result ≡ amend_fits (amend_seen amend.now) (Some (seen x.now)) }
{
    let fits = !has_body(amend) || is_raised(x.data_version);
    is_raised(x.index) && fits && links_fit(amend.links)
}

#[tactic(auto, unfolding(afs_volume::specs::Seen::seen))]
fn free_fits(x: &Vnode) -> bool
    ensures { result ≡ free_fits (Some (seen x.now)) }
{
    is_raised(x.index) && is_raised(x.data_version)
}

/// How many blocks the vnode of an edit takes before it.
fn blocks_at(volume: &Volume, edit: &Edit) -> u64
    ensures value { result ≡ blocks_at (get (edit_number (edit_seen edit.now)) (volume_of volume.now).vnodes) }
    ensures small { result < 2 ^ 54 }
{
    match volume.get(edit.number()) {
        Some(x) => blocks_of(x),
        None => 0,
    }
}

/// How many blocks the vnode of an edit takes after it.
fn blocks_made(volume: &Volume, edit: &Edit) -> u64
    ensures value { result ≡ blocks_at (made_of (edit_seen edit.now) (get (edit_number (edit_seen edit.now)) (volume_of volume.now).vnodes)) }
    ensures small { result < 2 ^ 54 }
{
    match (edit, volume.get(edit.number())) {
        (Edit::Amends(_, amend), Some(x)) => blocks(body_left(x, amend)),
        (Edit::Makes(_, made), None) => blocks_of(&made.vnode),
        (Edit::Makes(_, _), Some(x)) => blocks_of(x),
        _ => 0,
    }
}

fn blocks_before(volume: &Volume, edits: &[Edit]) -> u64
    requires { length edits.now ≤ 4 }
    ensures value { result ≡ blocks_before (edits_seen edits.now) (volume_of volume.now) }
    ensures small { result < 2 ^ 60 }
{
    let mut sum = 0;
    for edit in edits {
        sum += blocks_at(volume, edit);
    }
    sum
}

fn blocks_after(volume: &Volume, edits: &[Edit]) -> u64
    requires { length edits.now ≤ 4 }
    ensures value { result ≡ blocks_after (edits_seen edits.now) (volume_of volume.now) }
    ensures small { result < 2 ^ 60 }
{
    let mut sum = 0;
    for edit in edits {
        sum += blocks_made(volume, edit);
    }
    sum
}

/// The quota, in blocks.
fn quota(volume: &Volume) -> u64
    ensures value { result ≡ volume.now.head.quota }
    ensures small { result < 2 ^ 32 }
{
    u64::from(volume.head.quota)
}

/// The blocks after the edits are within the quota: those before, without those of the vnodes that are edited, and
/// with theirs after the edits. No other vnode is looked at.
pub fn is_within_quota(volume: &Volume, edits: &[Edit]) -> bool
    requires apart { Distinct (edits_seen edits.now) }
    requires few { length edits.now ≤ 4 }
    requires ordered { AscendsFrom 0 (volume_of volume.now).vnodes }
    ensures { result ≡ not (nat_lt volume.now.head.quota (blocks_in (edited_all volume.now.head.id (edits_seen edits.now) (volume_of volume.now)).vnodes)) }
{
    let blocks = u64::from(volume.blocks());
    let added = blocks + blocks_after(volume, edits);
    let allowed = quota(volume) + blocks_before(volume, edits);
    added <= allowed
}

/// There may be one more vnode.
#[tactic(auto, using(afs_volume::proofs::Upward::same_length, afs_volume::proofs::Sums::ordered))]
fn has_room(volume: &Volume) -> bool
    ensures value { result ≡ nat_lt (length (volume_of volume.now).vnodes) most_vnodes }
    ensures ordered { AscendsFrom 0 (volume_of volume.now).vnodes }
    ensures few { length (volume_of volume.now).vnodes ≤ most_vnodes }
{
    volume.vnodes.len() < MOST_VNODES
}

/// No count that the edit raises is at its last value, and there is room for a new vnode.
fn edit_fits(volume: &Volume, edit: &Edit, has_room: bool) -> bool
    requires { has_room ≡ nat_lt (length (volume_of volume.now).vnodes) most_vnodes }
    ensures { result ≡ edit_fits (volume_of volume.now) (edit_seen edit.now) }
{
    match (edit, volume.get(edit.number())) {
        (Edit::Makes(_, _), _) => has_room && is_raised(volume.head.unique),
        (Edit::Amends(_, amend), Some(x)) => amend_fits(x, amend),
        (Edit::Frees(_), Some(x)) => free_fits(x),
        _ => true,
    }
}

fn all_fit(volume: &Volume, edits: &[Edit], has_room: bool) -> bool
    requires { has_room ≡ nat_lt (length (volume_of volume.now).vnodes) most_vnodes }
    ensures { result ≡ list_all (edit_fits (volume_of volume.now)) (edits_seen edits.now) }
{
    for edit in edits {
        if !edit_fits(volume, edit, has_room) {
            return false;
        }
    }
    true
}

/// 109: more blocks than the quota; 108: more vnodes than there may be, or a count that can't be raised.
pub fn check_limits(volume: &Volume, edits: &[Edit]) -> Result<(), OpFault>
    requires apart { Distinct (edits_seen edits.now) }
    requires few { length edits.now ≤ 4 }
    ensures answer { Passes (first_failing (limits volume.now.head.id (edits_seen edits.now) (volume_of volume.now))) result }
    ensures few { length (volume_of volume.now).vnodes ≤ most_vnodes }
{
    let has_room = has_room(volume);
    check(is_within_quota(volume, edits), 109)?;
    let all_fit = all_fit(volume, edits, has_room);
    check(is_raised(volume.head.counter) && all_fit, 108)
}
