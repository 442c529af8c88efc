//! The change that a call makes.

ghost use Rattle.std.specs.Prelude.{◌≡◌, ◌≤◌, ◌+◌, ◌<◌, true, length, map, IfOk, if◌then◌else◌};
ghost use Rattle.std.specs.List.{list_any};
ghost use Rattle.spec_ideal.specs.Operations.{changes, last_count, op, the_user, IsOn};
ghost use Rattle.spec_ideal.specs.Soundness.{IsSound};
ghost use Rattle.spec_ideal.specs.VnodeMaps.{most_vnodes};
ghost use Rattle.afs_changes.specs.Changes.{Applies, IsChangeBy, IsKeptAs, RepliesBy};
ghost use Rattle.afs_changes.specs.Drawing.{makes_vnode};
ghost use Rattle.afs_reads.specs.Replying.{caller_seen, FitsCall, FitsReply};
ghost use Rattle.afs_changes.specs.Planning.{edit_seen, edits_seen, is_changing};
ghost use Rattle.afs_volume.specs.Giving.{volume_of};
ghost use Rattle.afs_volume.specs.Listed.{listed_as};
ghost use Rattle.afs_volume.specs.Taking.{CanTakeIn};

use crate::drafting::{Draft, draft_of};
use crate::edits::{Edit, Plan};
use crate::planning::plan_within;
use crate::sights::Sight;
use afs_num::calls::FsCall;
use afs_num::types::Mem;
use afs_num::volumes::Change;
use afs_reads::callers::Caller;
use afs_reads::faults::OpFault;
use afs_volume::{ReadyChange, ReadyNames, Volume};

fn makes_vnode(edit: &Edit) -> bool
    ensures { result ≡ makes_vnode (edit_seen edit.now) }
{
    match edit {
        Edit::Makes(..) => true,
        _ => false,
    }
}

/// An edit makes a vnode.
fn is_new_among(edits: &[Edit]) -> bool
    ensures { result ≡ list_any (λ e. makes_vnode (edit_seen e)) edits.now }
{
    edits.iter().any(|edit| makes_vnode(edit))
}

/// The next unique number after edits, of which one at most makes a vnode.
#[tactic(auto, using(crate::proofs::Changed::any_seen))]
pub fn unique_left(volume: &Volume, edits: &[Edit]) -> u32
    requires { list_any makes_vnode (edits_seen edits.now) ≡ true → volume.now.head.unique < last_count }
    ensures { result ≡ (if list_any makes_vnode (edits_seen edits.now) then volume.now.head.unique + 1 else volume.now.head.unique) }
{
    if is_new_among(edits) {
        volume.head.unique + 1
    } else {
        volume.head.unique
    }
}

/// The change that a plan makes at this time, with the reply to its call, and the names of the vnodes that it leaves.
fn changed_by(
    volume: &Volume,
    caller: &Caller,
    call: &FsCall,
    plan: &Plan,
    now: u32,
) -> Mem<(Change, ReadyNames)>
    requires changing { is_changing call.now ≡ true }
    requires on { IsOn volume.now.head.id call.now }
    requires sound { IsSound (volume_of volume.now) }
    requires few { length (volume_of volume.now).vnodes ≤ most_vnodes }
    requires planned { op volume.now.head.id (caller_seen caller.now) call.now (volume_of volume.now) ≡ changes (edits_seen plan.now.edits) plan.now.shown }
    ensures change { IfOk result (λ c. IsChangeBy volume.now now (edits_seen plan.now.edits) plan.now.shown c.0) }
    ensures reply { IfOk result (λ c. RepliesBy volume.now (caller_seen caller.now) call.now now (edits_seen plan.now.edits) plan.now.shown c.0) }
    ensures row { IfOk result (λ c. FitsReply c.0.reply) }
    ensures kept { IfOk result (λ c. IsKeptAs volume.now now (edits_seen plan.now.edits) c.0) }
    ensures fits { IfOk result (λ c. CanTakeIn volume.now c.0) }
    ensures names { IfOk result (λ c. c.1 ≡ map listed_as c.0.vnodes) }
{
    let edits = plan.edits.as_slice();
    let draft = draft_of(volume, edits, now)?;
    let sight = Sight {
        volume,
        draft: &draft,
    };
    let reply = sight.reply(caller, plan.shown, call);
    let Draft {
        versions,
        vnodes,
        names,
        removed,
        ..
    } = draft;
    let change = Change {
        versions,
        vnodes,
        removed,
        counter: volume.head.counter + 1,
        unique: unique_left(volume, edits),
        reply,
    };
    Ok((change, names))
}

/// The change that a call of a user makes at this time, 133 to 142, within the limits of a volume: what is told, the
/// vnodes and numbers that it leaves, and the reply, whose promise to call back is left for the server to fill. Or its
/// refusal, by the first of 102, 20 or 21, 30, 13, 22, 2 or 17, 39, 27, 109, 108. The volume stays as it is.
pub fn apply(volume: &Volume, call: &FsCall, user: &[u8], now: u32) -> Result<Change, OpFault>
    requires changing { is_changing call.now ≡ true }
    requires fits { FitsCall call.now }
    requires on { IsOn volume.now.head.id call.now }
    ensures applies { Applies volume.now (the_user user.now) call.now now (op volume.now.head.id (the_user user.now) call.now (volume_of volume.now)) result }
    ensures reply { IfOk result (λ c. FitsReply c.reply) }
    ensures fits { IfOk result (λ c. CanTakeIn volume.now c) }
{
    let ready = apply_ready(volume, call, user, now)?;
    Ok(ready.into_change())
}

/// The change that `apply` makes, with the names of the directories that it leaves: each is read once, for the version that
/// the change tells and for the volume.
pub fn apply_ready(
    volume: &Volume,
    call: &FsCall,
    user: &[u8],
    now: u32,
) -> Result<ReadyChange, OpFault>
    requires changing { is_changing call.now ≡ true }
    requires fits { FitsCall call.now }
    requires on { IsOn volume.now.head.id call.now }
    ensures applies { Applies volume.now (the_user user.now) call.now now (op volume.now.head.id (the_user user.now) call.now (volume_of volume.now)) result }
    ensures reply { IfOk result (λ c. FitsReply c.reply) }
    ensures fits { IfOk result (λ c. CanTakeIn volume.now c) }
{
    let caller = Caller::User(user);
    let plan = plan_within(volume, &caller, call)?;
    let (change, names) = changed_by(volume, &caller, call, &plan, now)?;
    Ok(ReadyChange::named(change, names))
}
