//! Rights on vnodes. The text of an access list is gone through once, for a caller and for everyone.

ghost use Rattle.std.specs.Prelude.{◌≡◌, Some};
ghost use Rattle.std.specs.Option.{option_copied, option_map};
ghost use Rattle.spec_ideal.specs.AccessLists.{anyuser, no_acl, rights_of};
ghost use Rattle.spec_ideal.specs.Operations.{acl_of, list_for, may, rights_by};
ghost use Rattle.spec_ideal.specs.Volumes.{has_bit};
ghost use Rattle.afs_reads.specs.Replying.{caller_seen};
ghost use Rattle.afs_volume.specs.Giving.{volume_of};
ghost use Rattle.afs_volume.specs.Seen.{seen, list_spelled};

use crate::callers::Caller;
use afs_acl::walking::rights_spelled;
use afs_num::vnodes::Vnode;
use afs_volume::{Volume, is_directory};

/// The rights that a caller has, and those that everyone has.
#[derive(Clone, Copy)]
pub struct Rights {
    pub caller: u32,
    pub anonymous: u32,
}

impl Rights {
    /// The caller has this right.
    pub fn has(&self, right: u32) -> bool
        ensures { result ≡ has_bit right self.now.caller }
    {
        self.caller & right != 0
    }
}

/// The rights where there is no access list: none, but for those of a caller with all rights.
#[tactic(auto, unfolding(spec_ideal::specs::AccessLists::rights_of))]
fn rights_without(caller: &Caller) -> Rights
    ensures caller { result.caller ≡ rights_by (caller_seen caller.now) no_acl }
    ensures anonymous { result.anonymous ≡ rights_of anyuser no_acl }
{
    let caller = match caller {
        Caller::AllRights => 127,
        Caller::User(_) => 0,
    };
    Rights {
        caller,
        anonymous: 0,
    }
}

/// The rights of a user, and everyone's, by the access list of this text; a text that is no list gives none.
#[tactic(auto, unfolding(afs_volume::specs::Seen::list_spelled, spec_ideal::specs::AccessLists::rights_of))]
fn rights_of_user(user: &[u8], text: &[u8]) -> Rights
    ensures caller { result.caller ≡ rights_of user.now (list_spelled text.now) }
    ensures anonymous { result.anonymous ≡ rights_of anyuser (list_spelled text.now) }
{
    match rights_spelled(text, user) {
        Some((caller, anonymous)) => Rights { caller, anonymous },
        None => Rights {
            caller: 0,
            anonymous: 0,
        },
    }
}

/// The rights by the access list of this text.
fn rights_by(caller: &Caller, text: &[u8]) -> Rights
    ensures caller { result.caller ≡ rights_by (caller_seen caller.now) (list_spelled text.now) }
    ensures anonymous { result.anonymous ≡ rights_of anyuser (list_spelled text.now) }
{
    match caller {
        Caller::AllRights => Rights {
            caller: 127,
            anonymous: rights_of_user(b"system:anyuser", text).anonymous,
        },
        Caller::User(user) => rights_of_user(user, text),
    }
}

/// The rights by the list of this directory.
#[tactic(auto, unfolding(afs_volume::specs::Seen::seen))]
pub fn rights_in(caller: &Caller, holder: Option<&Vnode>) -> Rights
    ensures caller { result.caller ≡ rights_by (caller_seen caller.now) (acl_of (option_map seen (option_copied holder.entry))) }
    ensures anonymous { result.anonymous ≡ rights_of anyuser (acl_of (option_map seen (option_copied holder.entry))) }
{
    match holder {
        Some(x) if is_directory(x) => rights_by(caller, x.acl.as_slice()),
        _ => rights_without(caller),
    }
}

/// The rights on a vnode: those on a directory by its own access list, on others by that of their parent.
#[tactic(auto, unfolding(afs_volume::specs::Seen::seen))]
pub fn rights_on(volume: &Volume, caller: &Caller, x: &Vnode) -> Rights
    ensures caller { result.caller ≡ rights_by (caller_seen caller.now) (list_for (seen x.now).kind (seen x.now) (volume_of volume.now)) }
    ensures anonymous { result.anonymous ≡ rights_of anyuser (list_for (seen x.now).kind (seen x.now) (volume_of volume.now)) }
{
    let holder = if is_directory(x) {
        Some(x)
    } else {
        volume.get(x.parent_vnode)
    };
    rights_in(caller, holder)
}

/// Whether a caller has a right on a vnode.
pub fn may(volume: &Volume, caller: &Caller, right: u32, x: &Vnode) -> bool
    ensures { result ≡ may (caller_seen caller.now) right (volume_of volume.now) (Some (seen x.now)) }
{
    rights_on(volume, caller, x).has(right)
}
