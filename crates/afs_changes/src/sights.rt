//! Statuses and replies by the vnodes that a change leaves.

ghost use Rattle.std.specs.Prelude.{◌≡◌, ◌==◌, true, Some, find, length, IfSome};
ghost use Rattle.std.specs.List.{list_any, AllByRecursion};
ghost use Rattle.std.specs.Option.{option_copied, option_map};
ghost use Rattle.spec_ideal.specs.AccessLists.{anyuser, rights_of};
ghost use Rattle.spec_ideal.specs.Operations.{list_for, rights_by};
ghost use Rattle.spec_ideal.specs.Replies.{change_reply, vnode_status, status_of, vnode_at};
ghost use Rattle.spec_ideal.specs.Tables.{get};
ghost use Rattle.spec_ideal.specs.VnodeImage.{FitsImage};
ghost use Rattle.spec_ideal.specs.Volumes.{fid_of};
ghost use Rattle.afs_changes.specs.Drafts.{numbers_shown, volume_drafted, IsLeftIn};
ghost use Rattle.afs_changes.specs.Drawing.{shown_by, IsLeft};
ghost use Rattle.afs_reads.specs.Replying.{caller_seen};
ghost use Rattle.afs_changes.specs.Planning.{is_changing};
ghost use Rattle.afs_volume.specs.Seen.{seen, IsReadable};

use crate::drafting::Draft;
use afs_num::calls::{AfsFetchStatus, FsCall, FsReply};
use afs_num::types::Fid;
use afs_num::vnodes::Vnode;
use afs_reads::callers::Caller;
use afs_reads::replies::{no_callback, status_with, sync};
use afs_reads::rights::{Rights, rights_in};
use afs_volume::{Volume, is_directory};

/// The vnode of this number among these.
fn found(vnodes: &[Vnode], number: u32) -> Option<&Vnode>
    ensures value { option_copied result ≡ find (λ x. x.vnode == number) vnodes.now }
    ensures number { IfSome result (λ x. x.now.vnode ≡ number) }
{
    vnodes.iter().find(|x| x.vnode == number)
}

/// A volume, and the draft of a change of it, by which its vnodes are as they are after the change.
#[derive(Clone, Copy)]
pub struct Sight<'a> {
    pub volume: &'a Volume,
    pub draft: &'a Draft,
}

impl<'a> Sight<'a> {
    /// The vnode that the change leaves under this number.
    fn left(&self, number: u32) -> Option<&Vnode>
        requires { AllByRecursion (IsLeft self.now.draft.now.time) self.now.draft.now.vnodes }
        ensures seen { option_map seen (option_copied result) ≡ get number (shown_by self.now.draft.now.vnodes) }
        ensures number { IfSome result (λ x. x.now.vnode ≡ number) }
        ensures left { IfSome result (λ x. IsLeft self.now.draft.now.time x.now) }
    {
        found(self.draft.vnodes.as_slice(), number)
    }

    /// The vnode of this number, which the change leaves.
    fn shown(&self, number: u32) -> &Vnode
        requires images { AllByRecursion (IsLeft self.now.draft.now.time) self.now.draft.now.vnodes }
        requires left { IsLeftIn (shown_by self.now.draft.now.vnodes) number }
        ensures seen { vnode_at (volume_drafted self.now.draft.now self.now.volume.now) number ≡ seen result.now }
        ensures left { IsLeft self.now.draft.now.time result.now }
    {
        match self.left(number) {
            Some(x) => x,
            None => unreachable!(),
        }
    }

    /// The number is that of a vnode that goes.
    fn is_gone(&self, number: u32) -> bool
        ensures { result ≡ list_any (λ n. n == number) self.now.draft.now.removed }
    {
        self.draft.removed.as_slice().iter().any(|n| *n == number)
    }

    /// The vnode of a number, as it is after the change.
    #[tactic(auto, using(crate::proofs::Drawn::get_among, crate::proofs::Drawn::get_without))]
    fn get(&self, number: u32) -> Option<&Vnode>
        requires { AllByRecursion (IsLeft self.now.draft.now.time) self.now.draft.now.vnodes }
        ensures { option_map seen (option_copied result) ≡ get number (volume_drafted self.now.draft.now self.now.volume.now).vnodes }
    {
        match self.left(number) {
            Some(x) => Some(x),
            None if self.is_gone(number) => None,
            None => self.volume.get(number),
        }
    }

    /// The rights on a vnode.
    #[tactic(auto, unfolding(afs_volume::specs::Seen::seen))]
    fn rights(&self, caller: &Caller, x: &Vnode) -> Rights
        requires { AllByRecursion (IsLeft self.now.draft.now.time) self.now.draft.now.vnodes }
        ensures caller { result.caller ≡ rights_by (caller_seen caller.now) (list_for (seen x.now).kind (seen x.now) (volume_drafted self.now.draft.now self.now.volume.now)) }
        ensures anonymous { result.anonymous ≡ rights_of anyuser (list_for (seen x.now).kind (seen x.now) (volume_drafted self.now.draft.now self.now.volume.now)) }
    {
        let holder = if is_directory(x) {
            Some(x)
        } else {
            self.get(x.parent_vnode)
        };
        rights_in(caller, holder)
    }

    /// The status of a vnode that the change leaves.
    fn status(&self, caller: &Caller, x: &Vnode) -> AfsFetchStatus
        requires images { AllByRecursion (IsLeft self.now.draft.now.time) self.now.draft.now.vnodes }
        requires readable { IsReadable x.now }
        requires fits { FitsImage x.now }
        ensures { result ≡ status_of (caller_seen caller.now) (volume_drafted self.now.draft.now self.now.volume.now) x.now.server_time (seen x.now) }
    {
        status_with(x, self.rights(caller, x))
    }

    /// The status of the vnode of a number that the change leaves.
    fn status_at(&self, caller: &Caller, number: u32) -> AfsFetchStatus
        requires images { AllByRecursion (IsLeft self.now.draft.now.time) self.now.draft.now.vnodes }
        requires left { IsLeftIn (shown_by self.now.draft.now.vnodes) number }
        ensures { result ≡ vnode_status self.now.volume.now.head.id (caller_seen caller.now) (λ f. self.now.draft.now.time) (volume_drafted self.now.draft.now self.now.volume.now) number }
    {
        self.status(caller, self.shown(number))
    }

    /// The fid of the vnode of a number that the change leaves.
    #[tactic(auto, unfolding(afs_volume::specs::Seen::seen))]
    fn fid_at(&self, number: u32) -> Fid
        requires images { AllByRecursion (IsLeft self.now.draft.now.time) self.now.draft.now.vnodes }
        requires left { IsLeftIn (shown_by self.now.draft.now.vnodes) number }
        ensures { let v = volume_drafted self.now.draft.now self.now.volume.now in result ≡ fid_of self.now.volume.now.head.id number (vnode_at v number) }
    {
        Fid {
            volume: self.volume.head.id,
            vnode: number,
            unique: self.shown(number).unique,
        }
    }

    /// The reply to a change that tells the status of two vnodes.
    fn reply_of_two(&self, caller: &Caller, shown: u32, call: &FsCall) -> FsReply
        requires two { length (numbers_shown shown call.now) ≡ 2 }
        requires images { AllByRecursion (IsLeft self.now.draft.now.time) self.now.draft.now.vnodes }
        requires left { AllByRecursion (IsLeftIn (shown_by self.now.draft.now.vnodes)) (numbers_shown shown call.now) }
        ensures { change_reply self.now.volume.now.head.id (caller_seen caller.now) (λ f. self.now.draft.now.time) (volume_drafted self.now.draft.now self.now.volume.now) shown call.now ≡ Some result }
    {
        let sync = sync(self.volume);
        let callback = no_callback();
        match call {
            FsCall::CreateFile { directory, .. } => FsReply::CreateFile {
                fid: self.fid_at(shown),
                status: self.status_at(caller, shown),
                directory: self.status_at(caller, directory.vnode),
                callback,
                sync,
            },
            FsCall::Symlink { directory, .. } => FsReply::Symlink {
                fid: self.fid_at(shown),
                status: self.status_at(caller, shown),
                directory: self.status_at(caller, directory.vnode),
                sync,
            },
            FsCall::MakeDir { directory, .. } => FsReply::MakeDir {
                fid: self.fid_at(shown),
                status: self.status_at(caller, shown),
                directory: self.status_at(caller, directory.vnode),
                callback,
                sync,
            },
            FsCall::Link {
                directory,
                existing,
                ..
            } => FsReply::Link {
                status: self.status_at(caller, existing.vnode),
                directory: self.status_at(caller, directory.vnode),
                sync,
            },
            FsCall::Rename {
                old_directory,
                new_directory,
                ..
            } => FsReply::Rename {
                old_directory: self.status_at(caller, old_directory.vnode),
                new_directory: self.status_at(caller, new_directory.vnode),
                sync,
            },
            _ => unreachable!(),
        }
    }

    /// The reply to a change. Promises to call back are left for the server to fill.
    pub fn reply(&self, caller: &Caller, shown: u32, call: &FsCall) -> FsReply
        requires changing { is_changing call.now ≡ true }
        requires images { AllByRecursion (IsLeft self.now.draft.now.time) self.now.draft.now.vnodes }
        requires left { AllByRecursion (IsLeftIn (shown_by self.now.draft.now.vnodes)) (numbers_shown shown call.now) }
        ensures { change_reply self.now.volume.now.head.id (caller_seen caller.now) (λ f. self.now.draft.now.time) (volume_drafted self.now.draft.now self.now.volume.now) shown call.now ≡ Some result }
    {
        let sync = sync(self.volume);
        match call {
            FsCall::StoreData { fid, .. } => FsReply::StoreData {
                status: self.status_at(caller, fid.vnode),
                sync,
            },
            FsCall::StoreAcl { fid, .. } => FsReply::StoreAcl {
                status: self.status_at(caller, fid.vnode),
                sync,
            },
            FsCall::StoreStatus { fid, .. } => FsReply::StoreStatus {
                status: self.status_at(caller, fid.vnode),
                sync,
            },
            FsCall::RemoveFile { directory, .. } => FsReply::RemoveFile {
                directory: self.status_at(caller, directory.vnode),
                sync,
            },
            FsCall::RemoveDir { directory, .. } => FsReply::RemoveDir {
                directory: self.status_at(caller, directory.vnode),
                sync,
            },
            _ => self.reply_of_two(caller, shown, call),
        }
    }
}
