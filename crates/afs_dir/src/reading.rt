//! Reading a directory. Where a field is refused the reader stands before it, so its offset is the reader's. A name
//! takes at most 4, 255 and 3 bytes, and 270 with its two numbers; 1,024 of them behind their count 276,484. So the
//! offset fits in a word, however long the bytes are.

ghost use Rattle.std.specs.Prelude.{◌≡◌, ◌≤◌, ◌+◌, ◌*◌, [], true, length, IfOk};
ghost use Rattle.afs_xdr.specs.Reading.{KeepsEnd};
ghost use Rattle.spec_ideal.specs.Directories.{IsDirectory, may_follow, follow, most_names, count_at, spelled_at, name_at, names_at, whole_at};
ghost use Rattle.afs_dir.specs.Reads.{ReadsGood, ReadsWhole, last_name};
ghost use Rattle.afs_dir.specs.declared.reading.Stop.TheVariants.{BadField, OutOfMemory};

use crate::MOST_NAMES;
use crate::places::is_below;
use afs_num::directories::Name;
use afs_num::names::name_ok;
use afs_num::sequences::Octets;
use afs_xdr::faults::XdrFault;
use afs_xdr::reading::Reader;
use std::alloc::{AllocError, AllocFailed, Global};

/// Why reading stopped.
#[derive(Drop)]
pub enum Stop {
    BadField,
    OutOfMemory,
}

impl From<XdrFault> for Stop {
    ghost from_gives = { λ f e. e ≡ BadField };

    fn from(_: XdrFault) -> Self {
        Stop::BadField
    }
}

impl From<AllocError> for Stop {
    ghost from_gives = { λ f e. e ≡ OutOfMemory };

    fn from(_: AllocError) -> Self {
        Stop::OutOfMemory
    }
}

impl<T: Drop> From<AllocFailed<T>> for Stop {
    ghost from_gives = { λ f e. e ≡ OutOfMemory };

    fn from(_: AllocFailed<T>) -> Self {
        Stop::OutOfMemory
    }
}

fn may_follow(last: &[u8], name: &[u8]) -> bool
    ensures { result ≡ may_follow last.now name.now }
{
    name_ok(name) && is_below(last, name)
}

fn last_name(names: &[Name]) -> &[u8]
    ensures { result.now ≡ last_name [] names.entry.now }
{
    match names.last() {
        Some(n) => n.name.as_slice(),
        None => &[],
    }
}

#[tactic(auto, using(crate::proofs::Reach::word_far), unfolding(spec_ideal::specs::Directories::count_at))]
fn read_count(reader: &mut Reader) -> Result<u32, Stop>
    ensures value { ReadsGood count_at (λ n. n) reader.old reader.new result }
    ensures few { IfOk result (λ n. n ≤ most_names) }
    ensures end { KeepsEnd reader.old reader.new }
    ensures far { reader.new.at ≤ reader.old.at + 4 }
{
    let mut ahead = reader.fork();
    let count = ahead.word()?;
    if count > MOST_NAMES {
        return Err(Stop::BadField);
    }
    *reader = ahead;
    Ok(count)
}

#[tactic(auto, using(crate::proofs::Reach::name_far), unfolding(spec_ideal::specs::Directories::spelled_at))]
fn read_spelled<'a>(reader: &mut Reader<'a>, last: &[u8]) -> Result<&'a [u8], Stop>
    ensures value { ReadsGood (spelled_at last.now) (λ b. b.now) reader.old reader.new result }
    ensures follows { IfOk result (λ b. may_follow last.now b.now ≡ true) }
    ensures end { KeepsEnd reader.old reader.new }
    ensures far { reader.new.at ≤ reader.old.at + 262 }
{
    let mut ahead = reader.fork();
    let name = ahead.opaque(255)?;
    if !may_follow(last, name) {
        return Err(Stop::BadField);
    }
    *reader = ahead;
    Ok(name)
}

#[tactic(auto, using(crate::proofs::Reach::word_far), unfolding(spec_ideal::specs::Directories::name_at))]
fn read_name(alloc: Global, reader: &mut Reader, last: &[u8]) -> Result<Name, Stop>
    ensures value { ReadsGood (name_at last.now) (λ n. n) reader.old reader.new result }
    ensures follows { IfOk result (λ n. may_follow last.now n.name ≡ true) }
    ensures end { KeepsEnd reader.old reader.new }
    ensures far { reader.new.at ≤ reader.old.at + 270 }
{
    let name = read_spelled(reader, last)?;
    let vnode = reader.word()?;
    let unique = reader.word()?;
    Ok(Name {
        name: Octets::from_slice(alloc, name)?,
        vnode,
        unique,
    })
}

fn read_names(alloc: Global, reader: &mut Reader, count: u32) -> Result<Vec<Name>, Stop>
    ensures value { ReadsGood (names_at count []) (λ v. v.items) reader.old reader.new result }
    ensures ordered { IfOk result (λ v. follow [] v.items ≡ true) }
    ensures many { IfOk result (λ v. length v.items ≡ count) }
    ensures end { KeepsEnd reader.old reader.new }
    ensures far { reader.new.at ≤ reader.old.at + 270 * count }
{
    let mut names = Vec::with_capacity(alloc, count as usize)?;
    for _ in 0..count {
        let name = read_name(alloc, reader, last_name(&names))?;
        names.push(name)?;
    }
    Ok(names)
}

/// The names of the directory that the bytes left spell. At a bad field the reader stands before it.
#[tactic(auto, unfolding(spec_ideal::specs::Directories::whole_at))]
pub fn read_whole(alloc: Global, reader: &mut Reader) -> Result<Vec<Name>, Stop>
    ensures value { ReadsWhole whole_at (λ v. v.items) reader.old reader.new result }
    ensures directory { IfOk result (λ v. IsDirectory v.items) }
    ensures end { KeepsEnd reader.old reader.new }
    ensures far { reader.new.at ≤ reader.old.at + 276484 }
{
    let count = read_count(reader)?;
    let names = read_names(alloc, reader, count)?;
    reader.end()?;
    Ok(names)
}
