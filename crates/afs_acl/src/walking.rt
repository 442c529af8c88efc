//! The rights that the text of an access list gives, found in the text itself by one walk from line to line.

ghost use Rattle.std.specs.Prelude.{◌≡◌, [], bit_or, if◌then◌else◌};
ghost use Rattle.std.specs.Option.{option_map};
ghost use Rattle.std.specs.Result.{result_ok};
ghost use Rattle.spec_ideal.specs.AccessLists.{acl_at, anyuser, entries_at, acl_entry_at, lists_at, matches};
ghost use Rattle.afs_acl.specs.Reading.{Reads};
ghost use Rattle.afs_acl.specs.Walks.{behind_line, both_read, both_with, entry_seen, is_among, kinds_read, name_of_line, rights_read};

use crate::acl::without_rights;
use crate::reading::{count, line_number, must_be_few, must_end, name, name_length};
use crate::stops::Stop;

/// The rights of some entries: of those that speak of a user, and of those that speak of everyone.
#[derive(Clone, Copy)]
struct Both {
    user: u32,
    everyone: u32,
}

/// An entry as it stands on its line.
#[derive(Clone, Copy)]
struct Line<'a> {
    name: &'a [u8],
    rights: u32,
}

/// Whether the entry speaks of everyone.
#[tactic(auto, using(crate::proofs::Matching::twice))]
fn is_of_everyone(line: &Line<'_>) -> bool
    ensures { result ≡ matches anyuser (entry_seen line.now) }
{
    line.name == b"system:anyuser".as_slice()
}

/// Whether the entry speaks of the user, where it is known whether it speaks of everyone.
#[tactic(auto, using(crate::proofs::Matching::either_way))]
fn matches_too(line: &Line<'_>, user: &[u8], everyone: bool) -> bool
    requires { everyone ≡ matches anyuser (entry_seen line.now) }
    ensures { result ≡ matches user.now (entry_seen line.now) }
{
    everyone || line.name == user
}

/// The rights, with those of an entry where it counts.
fn with_rights(rights: u32, others: u32, counts: bool) -> u32
    ensures { result ≡ (if counts then bit_or rights others else rights) }
{
    if counts { rights | others } else { rights }
}

/// The rights of the entries, and of one more.
fn with_one(both: Both, line: &Line<'_>, user: &[u8]) -> Both
    ensures { result ≡ both_with user.now both (entry_seen line.now) }
{
    let everyone = is_of_everyone(line);
    let mine = matches_too(line, user, everyone);
    Both {
        user: with_rights(both.user, line.rights, mine),
        everyone: with_rights(both.everyone, line.rights, everyone),
    }
}

/// The entry on the line that stands first, and what follows it.
#[tactic(auto, unfolding(spec_ideal::specs::AccessLists::acl_entry_at))]
fn read_line(bytes: &[u8]) -> Result<(Line<'_>, &[u8]), Stop<'_>>
    ensures { Reads (λ r. (entry_seen r.0, r.1.now)) (acl_entry_at [] bytes.now) result }
{
    let (name, rest) = name(&[], bytes)?;
    let (rights, rest) = line_number(rest, 127)?;
    Ok((Line { name, rights }, rest))
}

/// The entry on the line that stands first, and what follows it, where it can stand there.
fn first_line(bytes: &[u8]) -> Option<(Line<'_>, &[u8])>
    ensures { option_map (λ r. (entry_seen r.0, r.1.now)) result ≡ result_ok (acl_entry_at [] bytes.now) }
{
    read_line(bytes).ok()
}

/// What follows the line that stands first.
fn behind_line(bytes: &[u8]) -> &[u8]
    ensures { result.now ≡ behind_line bytes.now }
{
    let mut rest = bytes;
    while let Some((byte, after)) = rest.split_first() {
        rest = after;
        if *byte == b'\n' {
            return rest;
        }
    }
    rest
}

/// The name on the line that stands first.
fn name_of_line(bytes: &[u8]) -> &[u8]
    ensures { result.now ≡ name_of_line bytes.now }
{
    bytes.split_at(name_length(bytes)).0
}

/// Whether one of the first lines, so many, has the name.
fn is_among(name: &[u8], count: u32, lines: &[u8]) -> bool
    ensures { result ≡ is_among name.now count lines.now }
{
    let mut rest = lines;
    for _ in 0..count {
        if name_of_line(rest) == name {
            return true;
        }
        rest = behind_line(rest);
    }
    false
}

/// The rights of so many entries, and what follows them; none where one of them can't stand there.
fn both_among<'a>(count: u32, bytes: &'a [u8], user: &[u8]) -> Option<(Both, &'a [u8])>
    ensures { option_map (λ r. (r.0, r.1.now)) result ≡ both_read user.now (entries_at count [] bytes.entry.now) }
{
    let mut both = Both {
        user: 0,
        everyone: 0,
    };
    let mut rest = bytes;
    for before in 0..count {
        let (entry, after) = first_line(rest)?;
        if is_among(entry.name, before, bytes) {
            return None;
        }
        both = with_one(both, &entry, user);
        rest = after;
    }
    Some((both, rest))
}

/// The rights of so many entries of each kind, with nothing behind them.
fn both_kinds(positive: u32, negative: u32, bytes: &[u8], user: &[u8]) -> Option<(Both, Both)>
    ensures { result ≡ kinds_read user.now (lists_at positive negative bytes.now) }
{
    let (given, rest) = both_among(positive, bytes, user)?;
    let (taken, rest) = both_among(negative, rest, user)?;
    must_end(rest).ok()?;
    Some((given, taken))
}

/// The rights of the entries of each kind in an access list.
#[tactic(auto, unfolding(spec_ideal::specs::AccessLists::acl_at))]
fn kinds(text: &[u8], user: &[u8]) -> Option<(Both, Both)>
    ensures { result ≡ kinds_read user.now (acl_at text.now) }
{
    let (positive, rest) = count(text).ok()?;
    let (negative, rest) = count(rest).ok()?;
    must_be_few(u64::from(positive) + u64::from(negative)).ok()?;
    both_kinds(positive, negative, rest, user)
}

/// The rights that a user has by the access list of a text, and those that everyone has; none where the text is no access
/// list. They are found in the text itself. It takes no memory.
#[tactic(auto, unfolding(spec_ideal::specs::AccessLists::rights_of))]
pub fn rights_spelled(text: &[u8], user: &[u8]) -> Option<(u32, u32)>
    ensures { result ≡ rights_read user.now (acl_at text.now) }
{
    let (positive, negative) = kinds(text, user)?;
    Some((
        without_rights(positive.user, negative.user),
        without_rights(positive.everyone, negative.everyone),
    ))
}
