//! Names that operations add and remove, and the order of their edits.

ghost use Rattle.std.specs.Prelude.{◌≡◌, ◌∷◌, [], Some, None, true, IfOk, OnOk, ◌++◌, ◌≤◌, length, is_some, nat_lt, Ok};
ghost use Rattle.std.specs.List.{prefix_len};
ghost use Rattle.std.specs.Option.{option_copied, option_map};
ghost use Rattle.spec_ideal.specs.Directories.{add_refused, directory_of, named, with_name, without_name};
ghost use Rattle.spec_ideal.specs.Operations.{directory_name, no_amend, unlinks};
ghost use Rattle.spec_ideal.specs.VnodeImage.{most_contents};
ghost use Rattle.spec_ideal.specs.Volumes.{amends, ascending, edit_number, edit_put};
ghost use Rattle.afs_changes.specs.Planning.{edit_seen, edits_seen};
ghost use Rattle.afs_volume.specs.Seen.{names_spelled, seen, SpellsNames};

use crate::edits::{Amend, Edit, Edits, Plan};
use afs_dir::{Dir, Listing};
use afs_num::sequences::Octets;
use afs_num::types::Mem;
use afs_num::vnodes::Vnode;
use afs_volume::bodies::spelled;
use afs_volume::is_directory;
use std::alloc::Global;

/// How many names a directory has at most.
pub const MOST_NAMES: usize = 1_024;

/// The bytes that spell the names and one more, which may be added. `bytes` spell the names as they are.
#[tactic(auto, unfolding(afs_volume::specs::Seen::names_spelled))]
pub fn spelled_with(
    alloc: Global,
    names: &Listing,
    bytes: &[u8],
    name: &[u8],
    vnode: u32,
    unique: u32,
) -> Mem<Octets>
    requires added { add_refused name.now names.now ≡ None }
    requires read { directory_of bytes.now ≡ Ok names.now }
    ensures read { IfOk result (λ bs. names_spelled bs ≡ with_name (directory_name name.now vnode unique) names.now) }
    ensures spelled { IfOk result (λ bs. SpellsNames (Some bs)) }
    ensures short { IfOk result (λ bs. length bs ≤ most_contents) }
{
    names.bytes_with(alloc, bytes, name, vnode, unique)
}

/// The bytes that spell the names without this one, which is there. `bytes` spell all of them.
#[tactic(auto, unfolding(afs_volume::specs::Seen::names_spelled), using(crate::proofs::Placed::may_be_added))]
pub fn spelled_without(alloc: Global, names: &Listing, bytes: &[u8], name: &[u8]) -> Mem<Octets>
    requires there { is_some (named name.now names.now) ≡ true }
    requires read { directory_of bytes.now ≡ Ok names.now }
    ensures read { IfOk result (λ bs. names_spelled bs ≡ without_name name.now names.now) }
    ensures spelled { IfOk result (λ bs. SpellsNames (Some bs)) }
    ensures short { IfOk result (λ bs. length bs ≤ most_contents) }
{
    names.bytes_without(alloc, bytes, name)
}

/// Takes a name away, where it is there.
#[tactic(auto, using(crate::proofs::Renamed::nothing_taken))]
pub fn take_name(names: &mut Dir, name: &[u8])
    ensures { names.new ≡ without_name name.now names.old }
{
    match names.remove(name) {
        Ok(_) => {}
        Err(_) => {}
    }
}

fn is_before(edit: &Edit, number: u32) -> bool
    ensures { result ≡ nat_lt (edit_number (edit_seen edit.now)) number }
{
    edit.number() < number
}

/// How many edits stand before those of this vnode.
fn place_of(edits: &[Edit], number: u32) -> usize
    ensures value { result ≡ prefix_len (λ e. nat_lt (edit_number (edit_seen e)) number) edits.now }
    ensures bound { result ≤ length edits.now }
{
    edits.iter().take_while(|e| is_before(e, number)).count()
}

/// The edit in its place among those that stand by ascending vnode.
#[tactic(auto, using(crate::proofs::Placed::placed_at))]
fn put_in_place(edits: &mut Vec<Edit>, edit: Edit) -> Mem<()>
    ensures { OnOk result (edits_seen edits.new.items ≡ edit_put (edit_seen edit) (edits_seen edits.old.items)) }
{
    let place = place_of(edits, edit.number());
    edits.insert(place, edit)?;
    Ok(())
}

/// The edits by ascending vnode.
#[tactic(auto, using(crate::proofs::Placed::placed_none, crate::proofs::Placed::taken_last))]
pub fn ascending(alloc: Global, edits: Edits) -> Mem<Edits>
    ensures { IfOk result (λ es. edits_seen es ≡ ascending (edits_seen edits)) }
{
    let mut left = edits.into_vec();
    let mut placed = Vec::new(alloc);
    while let Some(edit) = left.pop() {
        put_in_place(&mut placed, edit)?;
    }
    Ok(Edits::from_vec(placed))
}

/// One name of a file or link less; without its last one it goes.
#[tactic(auto, unfolding(afs_volume::specs::Seen::seen))]
fn unlink(number: u32, x: &Vnode) -> Edit
    ensures { edit_seen result ∷ [] ≡ unlinks number (Some (seen x.now)) }
{
    if !is_directory(x) && 1 < x.link_count {
        Edit::Amends(number, Amend::with_links(u64::from(x.link_count) - 1))
    } else {
        Edit::Frees(number)
    }
}

/// Appends what becomes of the vnode that loses a name, where there is one.
pub fn push_unlink(edits: &mut Edits, number: u32, target: Option<&Vnode>) -> Mem<()>
    ensures { OnOk result (edits_seen edits.new ≡ edits_seen edits.old ++ unlinks number (option_map seen (option_copied target.entry))) }
{
    match target {
        Some(x) => edits.push(unlink(number, x)),
        None => Ok(()),
    }
}

/// Appends other names of a directory, which these bytes spell.
pub fn push_spelled(edits: &mut Edits, d: u32, bytes: Octets, links: Option<u64>) -> Mem<()>
    requires spelled { SpellsNames (Some bytes) }
    requires short { length bytes ≤ most_contents }
    ensures { OnOk result (edits_seen edits.new ≡ edits_seen edits.old ++ amends d (record no_amend { names = Some (names_spelled bytes); links = links }) ∷ []) }
{
    edits.push(Edit::Amends(d, Amend::with_names(bytes, links)))
}

/// Appends other names of a directory.
pub fn push_names(edits: &mut Edits, d: u32, names: &Dir, links: Option<u64>) -> Mem<()>
    ensures { OnOk result (edits_seen edits.new ≡ edits_seen edits.old ++ amends d (record no_amend { names = Some names.now; links = links }) ∷ []) }
{
    let bytes = spelled(names)?;
    push_spelled(edits, d, bytes, links)
}

/// A name less in a directory, whose names these bytes then spell, and the vnode that it named without that name.
pub fn removes(
    alloc: Global,
    d: u32,
    left: Octets,
    links: Option<u64>,
    number: u32,
    target: Option<&Vnode>,
) -> Mem<Plan>
    requires spelled { SpellsNames (Some left) }
    requires short { length left ≤ most_contents }
    ensures edits { IfOk result (λ p. edits_seen p.edits ≡ ascending (amends d (record no_amend { names = Some (names_spelled left); links = links }) ∷ unlinks number (option_map seen (option_copied target.entry)))) }
    ensures shown { IfOk result (λ p. p.shown ≡ d) }
{
    let mut edits = Edits::new(alloc);
    push_spelled(&mut edits, d, left, links)?;
    push_unlink(&mut edits, number, target)?;
    Ok(Plan {
        edits: ascending(alloc, edits)?,
        shown: d,
    })
}
