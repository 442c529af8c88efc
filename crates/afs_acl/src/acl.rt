ghost use Rattle.std.specs.Prelude.{◌≡◌, ◌++◌, IfOk, OnOk, Ok};
ghost use Rattle.std.specs.List.{flat_map};
ghost use Rattle.spec_ideal.specs.AccessLists.{acl_at, acl_text, acl_entry_text, lists_at, number_line, matches, matching_rights, rights_of, without_rights};
ghost use Rattle.afs_acl.specs.Reading.{Gives, GivesAcl};

use crate::faults::AclFault;
use crate::reading::{count, entries, must_be_few, must_end};
use crate::stops::Stop;
use afs_num::acls::{AccessList, AclEntry};
use afs_num::sequences::Octets;
use afs_num::types::Mem;
use std::alloc::Global;
use std::fmt::Write;
use std::marker::Model;

/// An access list, as one may stand in a text: at most 20 entries; each name has 1 to 64 bytes without tab and newline,
/// and stands once among those that give rights, and once among those that take them.
#[derive(Drop)]
pub struct Acl {
    list: AccessList,
}

impl Model for Acl {
    ghost use Rattle.afs_num.specs.declared.acls.AccessList.{AccessList};
    ghost use Rattle.spec_ideal.specs.AccessLists.{IsAccessList};

    ghost Value = { AccessList };

    ghost view = { λ a. a.list };

    ghost invariant = { λ a. IsAccessList a.list };
}

impl Acl {
    /// The access list of a text. `BadAcl` has the offset of the first byte that can't stand there (the length of the
    /// text where it ends too early; the tab behind a name that stood before), `TooMany` the sum of the two counts.
    pub fn parse(alloc: Global, text: &[u8]) -> Result<Acl, AclFault>
        ensures value { GivesAcl text.now (acl_at text.now) result }
        ensures spelled { IfOk result (λ a. text.now ≡ acl_text a) }
    {
        match read(alloc, text) {
            Ok(list) => Ok(Acl { list }),
            Err(Stop::BadFrom(rest)) => Err(AclFault::BadAcl((text.len() - rest.len()) as u32)),
            Err(Stop::TooMany(count)) => Err(AclFault::TooMany(count)),
            Err(Stop::OutOfMemory) => Err(AclFault::OutOfMemory),
        }
    }

    /// The text of the list, the only one that it has.
    pub fn text(&self, alloc: Global) -> Mem<Octets>
        ensures spelled { IfOk result (λ t. t ≡ acl_text self.now) }
        ensures parsed { IfOk result (λ t. acl_at t ≡ Ok self.now) }
    {
        spelled(alloc, &self.list)
    }

    /// The rights that a user has by the list, as their sum. It takes no memory.
    #[tactic(auto, unfolding(spec_ideal::specs::AccessLists::rights_of))]
    pub fn rights(&self, user: &[u8]) -> u32
        ensures { result ≡ rights_of user.now self.now }
    {
        let positive = matching_rights(self.list.positive.as_slice(), user);
        let negative = matching_rights(self.list.negative.as_slice(), user);
        without_rights(positive, negative)
    }
}

/// The access list of so many entries of each kind, behind their counts.
fn lists(alloc: Global, positive: u32, negative: u32, text: &[u8]) -> Result<AccessList, Stop<'_>>
    ensures { Gives (λ a. a) (lists_at positive negative text.now) result }
{
    let (positive, rest) = entries(alloc, positive, text)?;
    let (negative, rest) = entries(alloc, negative, rest)?;
    must_end(rest)?;
    Ok(AccessList { positive, negative })
}

/// The access list that stands in a text.
#[tactic(auto, unfolding(spec_ideal::specs::AccessLists::acl_at))]
fn read(alloc: Global, text: &[u8]) -> Result<AccessList, Stop<'_>>
    ensures { Gives (λ a. a) (acl_at text.now) result }
{
    let (positive, rest) = count(text)?;
    let (negative, rest) = count(rest)?;
    must_be_few(u64::from(positive) + u64::from(negative))?;
    lists(alloc, positive, negative, rest)
}

/// Whether an entry speaks of the user.
fn matches(entry: &AclEntry, user: &[u8]) -> bool
    ensures { result ≡ matches user.now entry.now }
{
    let name = entry.name.as_slice();
    name == user || name == b"system:anyuser".as_slice()
}

/// The rights of the entries that speak of the user.
fn matching_rights(entries: &[AclEntry], user: &[u8]) -> u32
    ensures { result ≡ matching_rights user.now 0 entries.now }
{
    let mut rights = 0;
    for entry in entries {
        if matches(entry, user) {
            rights |= entry.rights;
        }
    }
    rights
}

/// The rights that are none of the others.
pub fn without_rights(rights: u32, others: u32) -> u32
    ensures { result ≡ without_rights rights others }
{
    rights & !others
}

/// Appends a number alone on its line.
fn put_number(alloc: Global, out: &mut Vec<u8>, n: usize) -> Mem<()>
    ensures { OnOk result (out.new.items ≡ out.old.items ++ number_line n) }
{
    let line = format!(in alloc; "{n}\n")?;
    out.extend_from_slice(line.as_bytes())?;
    Ok(())
}

/// Appends an entry.
#[tactic(auto, unfolding(spec_ideal::specs::AccessLists::acl_entry_text))]
fn put_entry(alloc: Global, out: &mut Vec<u8>, entry: &AclEntry) -> Mem<()>
    ensures { OnOk result (out.new.items ≡ out.old.items ++ acl_entry_text entry.now) }
{
    out.extend_from_slice(entry.name.as_slice())?;
    out.push(b'\t')?;
    put_number(alloc, out, entry.rights as usize)?;
    Ok(())
}

fn put_entries(alloc: Global, out: &mut Vec<u8>, entries: &[AclEntry]) -> Mem<()>
    ensures { OnOk result (out.new.items ≡ out.old.items ++ flat_map acl_entry_text entries.now) }
{
    for entry in entries {
        put_entry(alloc, out, entry)?;
    }
    Ok(())
}

/// The text of an access list.
#[tactic(auto, unfolding(spec_ideal::specs::AccessLists::acl_text))]
fn spelled(alloc: Global, list: &AccessList) -> Mem<Octets>
    ensures { IfOk result (λ t. t ≡ acl_text list.now) }
{
    let mut out = Vec::new(alloc);
    put_number(alloc, &mut out, list.positive.len())?;
    put_number(alloc, &mut out, list.negative.len())?;
    put_entries(alloc, &mut out, list.positive.as_slice())?;
    put_entries(alloc, &mut out, list.negative.as_slice())?;
    Octets::from_vec(out)
}
