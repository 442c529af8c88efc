//! What an operation does to the vnodes of a volume.

ghost use Rattle.std.specs.Prelude.{◌≡◌, ◌≤◌, true, length};
ghost use Rattle.spec_ideal.specs.VnodeImage.{most_acl, most_contents};
ghost use Rattle.afs_volume.specs.Seen.{is_within, IsReadable, SpellsList, SpellsNames};

use afs_num::calls::AfsStoreStatus;
use afs_num::sequences::{Octets, Sequence};
use afs_num::vnodes::Vnode;

/// What an edit gives a vnode; `None` leaves it as it is. Names are spelled, and an access list is its text.
#[derive(Drop)]
pub struct Amend {
    pub contents: Option<Octets>,
    pub names: Option<Octets>,
    pub links: Option<u64>,
    pub parent: Option<(u32, u32)>,
    pub status: Option<AfsStoreStatus>,
    pub acl: Option<Octets>,
    ghost names_spelled: { SpellsNames names },
    ghost list_spelled: { SpellsList acl },
    ghost contents_short: { is_within most_contents contents ≡ true },
    ghost names_short: { is_within most_contents names ≡ true },
    ghost list_short: { is_within most_acl acl ≡ true },
}

/// A new vnode as it is to be, but for the numbers that every new vnode gets.
#[derive(Drop)]
pub struct New {
    pub vnode: Vnode,
    ghost readable: { IsReadable vnode },
    ghost fits: { (length vnode.acl ≤ most_acl) × (length vnode.contents ≤ most_contents) },
}

/// A vnode is changed, made or freed.
#[derive(Drop)]
pub enum Edit {
    Amends(u32, Amend),
    Makes(u32, New),
    Frees(u32),
}

pub type Edits = Sequence<Edit>;

/// What an operation is to do, and the vnode that its reply shows beside those that the call names.
#[derive(Drop)]
pub struct Plan {
    pub edits: Edits,
    pub shown: u32,
}
