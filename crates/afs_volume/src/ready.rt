//! A change made ready to be taken in.

ghost use Rattle.std.specs.Prelude.{◌≡◌, false, true, is_ok, map, Err, Some, IfErr, IfOk, OnOk};
ghost use Rattle.std.specs.List.{list_all, AllByRecursion};
ghost use Rattle.std.specs.Option.{option_copied};
ghost use Rattle.spec_ideal.specs.Directories.{directory_bytes, directory_of};
ghost use Rattle.afs_volume.specs.Assembling.{can_be_read};
ghost use Rattle.afs_volume.specs.Given.{names_given, names_or_none};
ghost use Rattle.afs_volume.specs.Listed.{listed_as};
ghost use Rattle.afs_volume.specs.Seen.{names_spelled, IsReadable};
ghost use Rattle.afs_volume.specs.declared.faults.AssembleFault.TheVariants.{NotSound, OutOfMemory};

use crate::ReadyNames;
use crate::bodies::is_acl;
use crate::faults::AssembleFault;
use crate::finding::{DIRECTORY, FILE, LINK};
use afs_dir::{Dir, DirFault, Listing};
use afs_num::directories::Name;
use afs_num::vnodes::Vnode;
use afs_num::volumes::Change;
use std::alloc::Global;
use std::marker::Model;

/// A change whose vnodes can be read, and the names of each of them, where that is a directory: a volume takes it in without
/// memory.
#[derive(Drop)]
pub struct ReadyChange {
    change: Change,
    names: ReadyNames,
}

impl Model for ReadyChange {
    ghost use Rattle.std.specs.Prelude.{◌≡◌, map};
    ghost use Rattle.std.specs.List.{AllByRecursion};
    ghost use Rattle.afs_num.specs.declared.volumes.Change.{Change};
    ghost use Rattle.afs_volume.specs.Listed.{listed_as};
    ghost use Rattle.afs_volume.specs.Seen.{IsReadable};

    ghost Value = { Change };

    ghost view = { λ r. r.change };

    ghost invariant = { λ r. record {
      named : r.names ≡ map listed_as r.change.vnodes;
      readable : AllByRecursion IsReadable r.change.vnodes;
    } };
}

/// The names that bytes spell.
#[tactic(auto, unfolding(crate::specs::Seen::names_spelled))]
fn read_names(alloc: Global, bytes: &[u8]) -> Result<Listing, AssembleFault>
    ensures names { IfOk result (λ names. names ≡ names_spelled bytes.now) }
    ensures read { OnOk result (is_ok (directory_of bytes.now) ≡ true) }
    ensures spelled { OnOk result (directory_bytes (names_spelled bytes.now) ≡ bytes.now) }
    ensures not_sound { result ≡ Err NotSound → is_ok (directory_of bytes.now) ≡ false }
{
    match Dir::from_bytes(alloc, bytes) {
        Ok(names) => Ok(names.into_listing()?),
        Err(DirFault::OutOfMemory) => Err(AssembleFault::OutOfMemory),
        Err(_) => Err(AssembleFault::NotSound),
    }
}

/// The names of a directory, where they and its access list can be read.
#[tactic(auto, unfolding(crate::specs::Seen::seen), using(crate::proofs::Readable::directory_read, crate::proofs::Readable::readable_directory))]
fn read_directory(alloc: Global, x: &Vnode) -> Result<Listing, AssembleFault>
    requires { x.now.kind ≡ 2 }
    ensures names { IfOk result (λ names. listed_as x.now ≡ Some names) }
    ensures readable { OnOk result (IsReadable x.now) }
    ensures read { OnOk result (can_be_read x.now ≡ true) }
    ensures not_sound { result ≡ Err NotSound → can_be_read x.now ≡ false }
{
    let names = read_names(alloc, x.contents.as_slice())?;
    if is_acl(alloc, x.acl.as_slice())? {
        Ok(names)
    } else {
        Err(AssembleFault::NotSound)
    }
}

/// The names of a vnode that can be read; it has some where it is a directory.
#[tactic(auto, unfolding(crate::specs::Seen::seen), using(crate::proofs::Readable::other_read, crate::proofs::Readable::readable_other))]
pub fn read_vnode(alloc: Global, x: &Vnode) -> Result<Option<Listing>, AssembleFault>
    ensures names { IfOk result (λ names. names ≡ listed_as x.now) }
    ensures readable { OnOk result (IsReadable x.now) }
    ensures read { OnOk result (can_be_read x.now ≡ true) }
    ensures not_sound { result ≡ Err NotSound → can_be_read x.now ≡ false }
{
    if x.kind == DIRECTORY {
        Ok(Some(read_directory(alloc, x)?))
    } else if (x.kind == FILE || x.kind == LINK) && x.acl.is_empty() {
        Ok(None)
    } else {
        Err(AssembleFault::NotSound)
    }
}

/// The names of each vnode, where all can be read.
fn read_all(alloc: Global, vnodes: &[Vnode]) -> Result<ReadyNames, AssembleFault>
    ensures names { IfOk result (λ names. names ≡ map listed_as vnodes.now) }
    ensures readable { OnOk result (AllByRecursion IsReadable vnodes.now) }
    ensures not_sound { result ≡ Err NotSound → list_all can_be_read vnodes.now ≡ false }
{
    let mut names = ReadyNames::new(alloc);
    for x in vnodes {
        names.push(read_vnode(alloc, x)?)?;
    }
    Ok(names)
}

/// The names of a vnode that are ready; what is no directory has none.
fn names_or_none(names: &Option<Listing>) -> &[Name]
    ensures { result.now ≡ names_or_none names.now }
{
    match names {
        Some(names) => names.names(),
        None => &[],
    }
}

/// The names of the last of these vnodes that has the number.
fn names_given<'a>(
    number: u32,
    vnodes: &[Vnode],
    ready: &'a [Option<Listing>],
) -> Option<&'a [Name]>
    requires { ready.now ≡ map listed_as vnodes.now }
    ensures { option_copied result ≡ names_given number vnodes.now }
{
    let mut given = None;
    for (place, x) in vnodes.iter().enumerate() {
        if x.vnode == number {
            given = Some(names_or_none(&ready[place]));
        }
    }
    given
}

impl ReadyChange {
    /// A change with the names of its directories, each of which is read once. `NotSound` where a vnode that it gives can't be
    /// read, which is none that `apply` gives.
    pub fn of(alloc: Global, c: Change) -> Result<ReadyChange, AssembleFault>
        ensures change { IfOk result (λ r. r ≡ c) }
        ensures read { IfOk result (λ r. AllByRecursion IsReadable r.vnodes) }
        ensures not_sound { result ≡ Err NotSound → list_all can_be_read c.vnodes ≡ false }
        ensures memory { AllByRecursion IsReadable c.vnodes → IfErr result (λ e. e ≡ OutOfMemory) }
    {
        let names = read_all(alloc, c.vnodes.as_slice())?;
        Ok(ReadyChange::named(c, names))
    }

    /// A change whose vnodes can be read, with these names, which are theirs. It takes no memory, and reads nothing.
    pub fn named(change: Change, names: ReadyNames) -> ReadyChange
        requires named { names ≡ map listed_as change.vnodes }
        requires readable { AllByRecursion IsReadable change.vnodes }
        ensures { result ≡ change }
    {
        ReadyChange { change, names }
    }

    /// The change.
    pub fn change(&self) -> &Change
        ensures { result.now ≡ self.now }
    {
        &self.change
    }

    /// The names that the change gives the vnode of this number, where it gives one; what is no directory has none. It takes no
    /// memory.
    pub fn names_given(&self, number: u32) -> Option<&[Name]>
        ensures { option_copied result ≡ names_given number self.now.vnodes }
    {
        names_given(number, self.change.vnodes.as_slice(), self.names.as_slice())
    }

    /// The change, without the names. It takes no memory.
    pub fn into_change(self) -> Change
        ensures { result ≡ self }
    {
        self.into_parts().0
    }

    /// The change, whose vnodes can be read, and the names of those that are directories. It takes no memory.
    pub fn into_parts(self) -> (Change, ReadyNames)
        ensures change { result.0 ≡ self }
        ensures names { result.1 ≡ map listed_as self.vnodes }
        ensures readable { AllByRecursion IsReadable self.vnodes }
    {
        let ReadyChange { change, names } = self;
        (change, names)
    }
}
