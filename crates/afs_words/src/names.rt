//! Names, paths and operands.

ghost use Rattle.std.specs.Prelude.{◌≡◌, ◌<◌, ◌++◌, [], ◌∷◌, ℕ, List, Some, None, length, IfSome, IfNone, IfOk, if◌then◌else◌};
ghost use Rattle.std.specs.List.{list_all};
ghost use Rattle.afs_num.specs.Names.{is_plain};
ghost use Rattle.afs_words.specs.Words.{is_high_hex, high_value, is_escape, escaped_byte, unescaped_from, name_of, name_at, label_at, names_from, fit_in, path_in, path_of, path_at, is_fid, act_path_at, operand_of, operand_at};
ghost use Rattle.afs_words.specs.Reads.{Reads, ReadsInMemory, Gives};

use crate::faults::LineFault;
use crate::parts::Parts;
use crate::words::{fid_of, must, next_pair, word};
use afs_num::names::{is_plain, volume_name_ok};
use afs_num::scripts::Reason;
use afs_num::sequences::{Octets, Sequence};
use spec_history::acts::{Operand, Path};
use std::alloc::{AllocError, Global};

/// The most bytes of a path, its slashes among them.
const PATH: usize = 1024;

/// The most bytes of a volume's name in a path, and of a name below it.
const VOLUME_NAME: usize = 32;

const NAME: usize = 256;

/// Most paths have no more names below their volume.
const USUAL_NAMES: usize = 4;

fn high_value(digit: u8) -> Option<u8>
    ensures value { result ≡ (if is_high_hex digit then Some (high_value digit) else None) }
    ensures bound { IfSome result (λ n. n < 16) }
{
    match digit {
        b'0'..=b'9' => Some(digit - b'0'),
        b'A'..=b'F' => Some(digit - b'A' + 10),
        _ => None,
    }
}

/// The byte that an escape stands for; a plain byte has none.
fn escaped(mark: u8, high: u8, low: u8) -> Option<u8>
    ensures { result ≡ (if is_escape mark high low then Some (escaped_byte high low) else None) }
{
    if mark != b'%' {
        return None;
    }
    let byte = high_value(high)? * 16 + high_value(low)?;
    if is_plain(byte) { None } else { Some(byte) }
}

/// The first byte, and those behind it.
fn next_mark(spelled: &[u8]) -> Option<(u8, &[u8])>
    ensures none { IfNone result (spelled.now ≡ []) }
    ensures some { IfSome result (λ r. spelled.now ≡ r.0 ∷ r.1.now) }
{
    match spelled {
        [mark, more @ ..] => Some((*mark, more)),
        [] => None,
    }
}

/// The first byte of a spelled name, and the spelling behind it.
#[tactic(auto, using(crate::proofs::Escapes::plain_goes_on, crate::proofs::Escapes::escape_goes_on, crate::proofs::Escapes::no_escape, crate::proofs::Escapes::too_short))]
fn next_byte(spelled: &[u8]) -> Option<(u8, &[u8])>
    ensures none { IfNone result ((out : List ℕ) → 0 < length spelled.now → unescaped_from out spelled.now ≡ None) }
    ensures some { IfSome result (λ r. (out : List ℕ) → unescaped_from out spelled.now ≡ unescaped_from (out ++ r.0 ∷ []) r.1.now) }
    ensures less { IfSome result (λ r. length r.1.now < length spelled.now) }
{
    let (mark, more) = next_mark(spelled)?;
    if is_plain(mark) {
        return Some((mark, more));
    }
    let (high, low, rest) = next_pair(more)?;
    let byte = escaped(mark, high, low)?;
    Some((byte, rest))
}

/// The bytes of a spelled name that may have escapes.
fn without_escapes(alloc: Global, spelled: &[u8]) -> Result<Option<Octets>, AllocError>
    ensures { IfOk result (λ name. name ≡ unescaped_from [] spelled.now) }
{
    let mut name = Vec::with_capacity(alloc, spelled.len())?;
    let mut rest = spelled;
    while let Some((byte, more)) = next_byte(rest) {
        name.push(byte)?;
        rest = more;
    }
    if rest.is_empty() {
        Ok(Some(Octets::from_vec(name)?))
    } else {
        Ok(None)
    }
}

/// Whether a spelled name is its own spelling.
fn are_plain(spelled: &[u8]) -> bool
    ensures { result ≡ list_all is_plain spelled.now }
{
    spelled.iter().all(|byte| is_plain(*byte))
}

/// The bytes of a spelled name.
#[tactic(auto, using(crate::proofs::Escapes::plain_stays))]
fn unescaped(alloc: Global, spelled: &[u8]) -> Result<Option<Octets>, AllocError>
    ensures { IfOk result (λ name. name ≡ unescaped_from [] spelled.now) }
{
    if are_plain(spelled) {
        Ok(Some(Octets::from_slice(alloc, spelled)?))
    } else {
        without_escapes(alloc, spelled)
    }
}

/// A name of 1 to `most` bytes.
#[tactic(auto, unfolding(crate::specs::Words::name_of))]
fn name_of(alloc: Global, most: usize, reason: Reason, word: &[u8]) -> Result<Octets, LineFault>
    ensures { Gives (name_of most reason word.now) result }
{
    let name = unescaped(alloc, word)?.ok_or(reason)?;
    must(0 < name.len() && name.len() <= most, reason)?;
    Ok(name)
}

#[tactic(auto, unfolding(crate::specs::Words::name_at))]
pub fn name(alloc: Global, words: &mut Parts<'_>, most: usize) -> Result<Octets, LineFault>
    ensures { ReadsInMemory (name_at most) (λ n. n) words.old words.new result }
{
    let word = word(words)?;
    name_of(alloc, most, Reason::Name, word)
}

/// The name of a volume, in an act.
pub fn volume_name(alloc: Global, words: &mut Parts<'_>) -> Result<Octets, LineFault>
    ensures { ReadsInMemory (name_at 32) (λ n. n) words.old words.new result }
{
    name(alloc, words, VOLUME_NAME)
}

/// A name that a volume may have.
#[tactic(auto, unfolding(crate::specs::Words::label_at))]
pub fn label<'a>(words: &mut Parts<'a>) -> Result<&'a [u8], Reason>
    ensures { Reads label_at (λ l. l.now) words.old words.new result }
{
    let word = word(words)?;
    must(volume_name_ok(word), Reason::Name)?;
    Ok(word)
}

/// The names below a volume's root.
fn names(alloc: Global, mut words: Parts<'_>) -> Result<Sequence<Octets>, LineFault>
    ensures { Gives (names_from [] words.entry) result }
{
    let mut names = Sequence::from_vec(Vec::with_capacity(alloc, USUAL_NAMES)?);
    while let Some(word) = words.part() {
        let name = name_of(alloc, NAME, Reason::Path, word)?;
        names.push(name)?;
    }
    Ok(names)
}

/// Whether the names, each with a slash before it, have at most so many bytes.
fn fit_in(room: usize, names: &[Octets]) -> bool
    ensures { result ≡ fit_in room names.now }
{
    let mut room = room;
    for name in names {
        if name.len() >= room {
            return false;
        }
        room -= name.len() + 1;
    }
    true
}

#[tactic(auto, unfolding(crate::specs::Words::path_in))]
fn path_in(alloc: Global, mut parts: Parts<'_>) -> Result<Path, LineFault>
    ensures { Gives (path_in parts.entry) result }
{
    let first = parts.part().ok_or(Reason::Name)?;
    let volume = name_of(alloc, VOLUME_NAME, Reason::Name, first)?;
    let names = names(alloc, parts)?;
    must(
        fit_in(PATH.saturating_sub(volume.len()), names.as_slice()),
        Reason::Limit,
    )?;
    Ok(Path { volume, names })
}

#[tactic(auto, unfolding(crate::specs::Words::path_of))]
fn path_of(alloc: Global, word: &[u8]) -> Result<Path, LineFault>
    ensures { Gives (path_of word.now) result }
{
    path_in(alloc, Parts::new(word, b'/'))
}

/// A path of a line of set-up.
#[tactic(auto, unfolding(crate::specs::Words::path_at))]
pub fn path(alloc: Global, words: &mut Parts<'_>) -> Result<Path, LineFault>
    ensures { ReadsInMemory path_at (λ p. p) words.old words.new result }
{
    let word = word(words)?;
    path_of(alloc, word)
}

fn is_fid(word: &[u8]) -> bool
    ensures { result ≡ is_fid word.now }
{
    word.starts_with(b"@")
}

/// A path of an act, where no fid may stand.
#[tactic(auto, unfolding(crate::specs::Words::act_path_at))]
pub fn act_path(alloc: Global, words: &mut Parts<'_>) -> Result<Path, LineFault>
    ensures { ReadsInMemory act_path_at (λ p. p) words.old words.new result }
{
    let word = word(words)?;
    must(!is_fid(word), Reason::Path)?;
    path_of(alloc, word)
}

#[tactic(auto, unfolding(crate::specs::Words::operand_of))]
fn operand_of(alloc: Global, word: &[u8]) -> Result<Operand, LineFault>
    ensures { Gives (operand_of word.now) result }
{
    if is_fid(word) {
        let fid = fid_of(Parts::new(word.split_at(1).1, b'.'))?;
        Ok(Operand::Fid(fid))
    } else {
        let path = path_of(alloc, word)?;
        Ok(Operand::Path(path))
    }
}

#[tactic(auto, unfolding(crate::specs::Words::operand_at))]
pub fn operand(alloc: Global, words: &mut Parts<'_>) -> Result<Operand, LineFault>
    ensures { ReadsInMemory operand_at (λ o. o) words.old words.new result }
{
    let word = word(words)?;
    operand_of(alloc, word)
}
