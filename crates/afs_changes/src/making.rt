//! New vnodes.

ghost use Rattle.std.specs.Prelude.{◌≡◌, ◌≤◌, Some, true, is_ok, length, IfOk, if◌then◌else◌};
ghost use Rattle.spec_ideal.specs.AccessLists.{acl_at};
ghost use Rattle.spec_ideal.specs.Operations.{new_in, new_file, new_directory, new_link};
ghost use Rattle.spec_ideal.specs.VnodeImage.{most_acl, most_contents, FitsImage};
ghost use Rattle.spec_ideal.specs.Volumes.{has_bit, with_status};
ghost use Rattle.afs_changes.specs.Planning.{KeepsBody};
ghost use Rattle.afs_volume.specs.Seen.{seen, kind_seen, contents_seen, names_seen, list_seen, list_spelled, IsReadable};

use afs_dir::Dir;
use afs_num::calls::AfsStoreStatus;
use afs_num::sequences::Octets;
use afs_num::types::{Fid, Mem};
use afs_num::vnodes::Vnode;
use afs_volume::bodies::spelled;
use afs_volume::finding::{DIRECTORY, FILE, LINK};
use std::alloc::Global;

/// A new vnode in this directory, without the numbers that every new vnode gets.
#[tactic(auto, unfolding(afs_volume::specs::Seen::seen))]
fn new_in(d: &Fid, kind: u32, links: u32, mode: u32, acl: Octets, contents: Octets) -> Vnode
    ensures body { (result.kind ≡ kind) × ((result.acl ≡ acl) × (result.contents ≡ contents)) }
    ensures seen { seen result ≡ record (new_in d.now (kind_seen kind) links mode (contents_seen (kind_seen kind) contents) (list_seen (kind_seen kind) acl)) { names = names_seen (kind_seen kind) contents } }
{
    Vnode {
        vnode: 0,
        unique: 0,
        kind,
        index: 0,
        data_version: 0,
        link_count: links,
        owner: 0,
        group: 0,
        mode,
        segment_size: 0,
        client_time: 0,
        server_time: 0,
        parent_vnode: d.vnode,
        parent_unique: d.unique,
        change_counter: 0,
        acl,
        contents,
    }
}

/// An empty file of mode 644, in octal.
pub fn new_file(alloc: Global, d: &Fid) -> Vnode
    ensures seen { seen result ≡ new_file d.now }
    ensures readable { IsReadable result }
    ensures fits { FitsImage result }
{
    new_in(d, FILE, 1, 0o644, Octets::new(alloc), Octets::new(alloc))
}

/// A directory of mode 755 without names, with the access list of this text.
#[tactic(auto, unfolding(afs_volume::specs::Seen::names_spelled))]
pub fn new_directory(alloc: Global, d: &Fid, acl: &Octets) -> Mem<Vnode>
    requires read { is_ok (acl_at acl.now) ≡ true }
    requires short { length acl.now ≤ most_acl }
    ensures seen { IfOk result (λ x. seen x ≡ new_directory d.now (list_spelled acl.now)) }
    ensures readable { IfOk result (λ x. IsReadable x) }
    ensures fits { IfOk result (λ x. FitsImage x) }
{
    let names = Dir::new(alloc)?;
    let contents = spelled(&names)?;
    Ok(new_in(d, DIRECTORY, 2, 0o755, acl.copy(alloc)?, contents))
}

/// A link of mode 777 with this text.
pub fn new_link(alloc: Global, d: &Fid, target: &Octets) -> Mem<Vnode>
    requires { length target.now ≤ most_contents }
    ensures seen { IfOk result (λ x. seen x ≡ new_link d.now target.now) }
    ensures readable { IfOk result (λ x. IsReadable x) }
    ensures fits { IfOk result (λ x. FitsImage x) }
{
    Ok(new_in(d, LINK, 1, 0o777, Octets::new(alloc), target.copy(alloc)?))
}

/// The word, where the mask has its bit.
fn set_by(mask: u32, bit: u32, word: u32, old: u32) -> u32
    ensures { result ≡ (if has_bit bit mask then word else old) }
{
    if mask & bit != 0 { word } else { old }
}

/// The words that the mask of a status names.
#[tactic(auto, unfolding(afs_volume::specs::Seen::seen))]
pub fn set_status(x: &mut Vnode, s: &AfsStoreStatus)
    ensures seen { seen x.new ≡ with_status (Some s.now) (seen x.old) }
    ensures kept { KeepsBody x.old x.new }
{
    x.client_time = set_by(s.mask, 1, s.client_mod_time, x.client_time);
    x.owner = set_by(s.mask, 2, s.owner, x.owner);
    x.group = set_by(s.mask, 4, s.group, x.group);
    x.mode = set_by(s.mask, 8, s.unix_mode_bits, x.mode);
    x.segment_size = set_by(s.mask, 16, s.seg_size, x.segment_size);
}
