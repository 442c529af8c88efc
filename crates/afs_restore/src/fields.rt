//! Fields of a stream. Each call reads one; where it is cut or no good, the reader stays at its first byte.

ghost use Rattle.std.specs.Prelude.{◌≡◌, not, nat_eq, nat_lt, IfOk, OnErr};
ghost use Rattle.afs_xdr.specs.Words.{IsBytes};
ghost use Rattle.spec_ideal.specs.VnodeImage.{kind_fits};
ghost use Rattle.spec_dumps.specs.Fields.{only, text_field, word_field};
ghost use Rattle.spec_dumps.specs.Fields as fields;
ghost use Rattle.spec_dumps.specs.Streams.{acl_field, are_good_contents, contents_field, count_field, is_good_acl, pair_field};
ghost use Rattle.afs_restore.specs.Reading.{ReadsField};

use crate::stops::Stop;
use afs_acl::acl::Acl;
use afs_acl::faults::AclFault;
use afs_dir::{Dir, DirFault};
use afs_num::types::Mem;
use afs_xdr::faults::XdrFault;
use afs_xdr::reading::Reader;
use std::alloc::{AllocError, Global};

/// The most bytes of an access list and of contents, and the most vnodes of a volume.
const MOST_ACL: u32 = 1_024;

const MOST_CONTENTS: u32 = 2_097_152;

const MOST_VNODES: u32 = 4_096;

/// The kind of a directory.
const DIRECTORY: u32 = 2;

/// Bytes are bytes.
pub fn are_bytes(bytes: &[u8])
    ensures { IsBytes bytes.now }
{
    let _ = bytes.len();
}

/// A word.
pub fn word(r: &mut Reader) -> Result<u32, Stop>
    ensures value { ReadsField word_field.at (λ n. n) r.old r.new result }
    ensures err { OnErr result (r.new ≡ r.old) }
{
    match r.word() {
        Ok(n) => Ok(n),
        Err(XdrFault::Short) => Err(Stop::Cut),
        Err(_) => Err(Stop::Bad),
    }
}

/// This word and no other.
pub fn mark(r: &mut Reader, expected: u32) -> Result<(), Stop>
    ensures { ReadsField (fields.mark expected).at (λ u. u) r.old r.new result }
{
    let mut ahead = r.fork();
    if word(&mut ahead)? != expected {
        return Err(Stop::Bad);
    }
    *r = ahead;
    Ok(())
}

/// A word that is this one.
pub fn same_word(r: &mut Reader, other: u32) -> Result<u32, Stop>
    ensures value { ReadsField (only (λ n. nat_eq n other) word_field).at (λ n. n) r.old r.new result }
    ensures same { IfOk result (λ n. n ≡ other) }
{
    let mut ahead = r.fork();
    let n = word(&mut ahead)?;
    if n != other {
        return Err(Stop::Bad);
    }
    *r = ahead;
    Ok(n)
}

/// How many vnodes are listed.
pub fn count(r: &mut Reader) -> Result<u32, Stop>
    ensures { ReadsField count_field.at (λ n. n) r.old r.new result }
{
    let mut ahead = r.fork();
    let n = word(&mut ahead)?;
    if n > MOST_VNODES {
        return Err(Stop::Bad);
    }
    *r = ahead;
    Ok(n)
}

/// A word of at least this value.
fn word_from(r: &mut Reader, least: u64) -> Result<u32, Stop>
    ensures { ReadsField (only (λ n. not (nat_lt n least)) word_field).at (λ n. n) r.old r.new result }
{
    let mut ahead = r.fork();
    let n = word(&mut ahead)?;
    if u64::from(n) < least {
        return Err(Stop::Bad);
    }
    *r = ahead;
    Ok(n)
}

/// The number and the unique number of a vnode, whose number is at least this one.
pub fn pair(r: &mut Reader, least: u64) -> Result<(u32, u32), Stop>
    ensures { ReadsField (pair_field least).at (λ p. p) r.old r.new result }
{
    let number = word_from(r, least)?;
    let unique = word(r)?;
    Ok((number, unique))
}

/// Whether the kind is one, and fits the number: directories have odd numbers, files and links even ones.
#[tactic(auto, unfolding(spec_ideal::specs::VnodeImage::kind_fits))]
fn kind_fits(vnode: u32, kind: u32) -> bool
    ensures { result ≡ kind_fits vnode kind }
{
    if vnode % 2 == 1 {
        kind == 2
    } else {
        kind == 1 || kind == 3
    }
}

/// The kind of the vnode of this number.
pub fn kind(r: &mut Reader, vnode: u32) -> Result<u32, Stop>
    ensures { ReadsField (only (kind_fits vnode) word_field).at (λ n. n) r.old r.new result }
{
    let mut ahead = r.fork();
    let n = word(&mut ahead)?;
    if !kind_fits(vnode, n) {
        return Err(Stop::Bad);
    }
    *r = ahead;
    Ok(n)
}

/// A text of at most so many bytes.
pub fn text<'a>(r: &mut Reader<'a>, most: u32) -> Result<&'a [u8], Stop>
    ensures value { ReadsField (text_field most).at (λ b. b.now) r.old r.new result }
    ensures err { OnErr result (r.new ≡ r.old) }
{
    match r.opaque(most) {
        Ok(bytes) => Ok(bytes),
        Err(XdrFault::Short) => Err(Stop::Cut),
        Err(_) => Err(Stop::Bad),
    }
}

/// Whether the text is good as the access list of a vnode of this kind: a directory has one that can be read, another none.
fn is_good_acl(alloc: Global, kind: u32, text: &[u8]) -> Mem<bool>
    ensures { IfOk result (λ b. b ≡ is_good_acl kind text.now) }
{
    if kind != DIRECTORY {
        return Ok(text.is_empty());
    }
    match Acl::parse(alloc, text) {
        Ok(_) => Ok(true),
        Err(AclFault::OutOfMemory) => Err(AllocError),
        Err(_) => Ok(false),
    }
}

/// Whether the bytes are good as the contents of a vnode of this kind: a directory has names that can be read.
fn are_good_contents(alloc: Global, kind: u32, bytes: &[u8]) -> Mem<bool>
    ensures { IfOk result (λ b. b ≡ are_good_contents kind bytes.now) }
{
    if kind != DIRECTORY {
        return Ok(true);
    }
    match Dir::from_bytes(alloc, bytes) {
        Ok(_) => Ok(true),
        Err(DirFault::OutOfMemory) => Err(AllocError),
        Err(_) => Ok(false),
    }
}

/// The access list of a vnode of this kind.
pub fn acl<'a>(alloc: Global, r: &mut Reader<'a>, kind: u32) -> Result<&'a [u8], Stop>
    ensures { ReadsField (acl_field kind).at (λ b. b.now) r.old r.new result }
{
    let mut ahead = r.fork();
    let list = text(&mut ahead, MOST_ACL)?;
    if !is_good_acl(alloc, kind, list)? {
        return Err(Stop::Bad);
    }
    *r = ahead;
    Ok(list)
}

/// The contents of a vnode of this kind.
pub fn contents<'a>(alloc: Global, r: &mut Reader<'a>, kind: u32) -> Result<&'a [u8], Stop>
    ensures { ReadsField (contents_field kind).at (λ b. b.now) r.old r.new result }
{
    let mut ahead = r.fork();
    let bytes = text(&mut ahead, MOST_CONTENTS)?;
    if !are_good_contents(alloc, kind, bytes)? {
        return Err(Stop::Bad);
    }
    *r = ahead;
    Ok(bytes)
}
