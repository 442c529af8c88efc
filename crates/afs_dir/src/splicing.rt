//! The spelling of a directory with one name more or less, made from its own: what stays is copied as bytes.

ghost use Rattle.std.specs.Prelude.{◌≡◌, ◌++◌, ◌≤◌, ◌<◌, ◌+◌, ◌*◌, length, replicate, take, drop, IfOk, OnOk};
ghost use Rattle.std.specs.List.{flat_map, insert, remove};
ghost use Rattle.afs_xdr.specs.Words.{opaque, pad_length, word};
ghost use Rattle.spec_ideal.specs.Directories.{directory_bytes, name_bytes, IsDirectory};

use afs_num::directories::Name;
use afs_num::sequences::Octets;
use afs_num::types::Mem;
use std::alloc::Global;

/// How many pad bytes stand behind `count` bytes.
fn pad_of(count: usize) -> usize
    ensures value { result ≡ pad_length count }
    ensures few { result < 4 }
{
    (4 - count % 4) % 4
}

/// How many bytes spell a name of so many bytes, with what it names.
fn name_len(count: usize) -> usize
    requires { count ≤ 255 }
    ensures value { result ≡ 12 + (count + pad_length count) }
    ensures few { result ≤ 270 }
{
    12 + (count + pad_of(count))
}

/// How many bytes spell the name in this place.
fn len_at(names: &[Name], place: usize) -> usize
    requires directory { IsDirectory names.now }
    requires within { place < length names.now }
    ensures value { result + length (flat_map name_bytes (take place names.now)) ≡ length (flat_map name_bytes (take (place + 1) names.now)) }
    ensures few { result ≤ 270 }
{
    name_len(names[place].name.len())
}

/// How many bytes spell the first names, so many.
fn front_len(names: &[Name], count: usize) -> usize
    requires directory { IsDirectory names.now }
    requires within { count ≤ length names.now }
    ensures value { result ≡ length (flat_map name_bytes (take count names.now)) }
    ensures small { result ≤ 270 * count }
{
    let mut len = 0;
    for place in 0..count {
        len += len_at(names, place);
    }
    len
}

/// So many zero bytes, at most three.
fn zeros(count: usize) -> &'static [u8]
    requires { count < 4 }
    ensures { result.now ≡ replicate count 0 }
{
    match count {
        0 => &[],
        1 => &[0],
        2 => &[0, 0],
        _ => &[0, 0, 0],
    }
}

/// Appends a word.
#[tactic(auto, unfolding(afs_xdr::specs::Words::word))]
fn put_word(out: &mut Vec<u8>, n: u32) -> Mem<()>
    ensures { OnOk result (out.new.items ≡ out.old.items ++ word n) }
{
    out.extend_from_slice(&n.to_be_bytes())
}

/// Appends an opaque.
#[tactic(auto, unfolding(afs_xdr::specs::Words::opaque, afs_xdr::specs::Words::pad))]
fn put_opaque(out: &mut Vec<u8>, bytes: &[u8]) -> Mem<()>
    requires { length bytes.now ≤ 255 }
    ensures { OnOk result (out.new.items ≡ out.old.items ++ opaque bytes.now) }
{
    put_word(out, bytes.len() as u32)?;
    out.extend_from_slice(bytes)?;
    out.extend_from_slice(zeros(pad_of(bytes.len())))?;
    Ok(())
}

/// Appends a name, with what it names.
#[tactic(auto, unfolding(spec_ideal::specs::Directories::name_bytes))]
fn put_name(out: &mut Vec<u8>, name: &[u8], vnode: u32, unique: u32) -> Mem<()>
    requires { length name.now ≤ 255 }
    ensures { OnOk result (out.new.items ≡ out.old.items ++ name_bytes (record { name = name.now; vnode = vnode; unique = unique })) }
{
    put_opaque(out, name)?;
    put_word(out, vnode)?;
    put_word(out, unique)?;
    Ok(())
}

/// What these bytes, which spell names, have of the names in front of this place, and of those behind it.
#[tactic(auto, unfolding(spec_ideal::specs::Directories::directory_bytes))]
fn parted<'a>(names: &[Name], bytes: &'a [u8], place: usize) -> (&'a [u8], &'a [u8])
    requires directory { IsDirectory names.now }
    requires spelled { directory_bytes names.now ≡ bytes.now }
    requires within { place ≤ length names.now }
    ensures front { result.0.now ≡ flat_map name_bytes (take place names.now) }
    ensures back { result.1.now ≡ flat_map name_bytes (drop place names.now) }
{
    let body = bytes.split_at(4).1;
    body.split_at(front_len(names, place))
}

/// The spelling of these names with one more in this place; `bytes` spell those that are there.
pub fn spelled_with(
    alloc: Global,
    names: &[Name],
    bytes: &[u8],
    place: usize,
    name: &[u8],
    vnode: u32,
    unique: u32,
) -> Mem<Octets>
    requires directory { IsDirectory names.now }
    requires spelled { directory_bytes names.now ≡ bytes.now }
    requires within { place ≤ length names.now }
    requires short { length name.now ≤ 255 }
    ensures { IfOk result (λ b. b ≡ directory_bytes (insert names.now place (record { name = name.now; vnode = vnode; unique = unique }))) }
{
    let (front, back) = parted(names, bytes, place);
    let mut out = Vec::with_capacity(alloc, bytes.len() + name_len(name.len()))?;
    put_word(&mut out, names.len() as u32 + 1)?;
    out.extend_from_slice(front)?;
    put_name(&mut out, name, vnode, unique)?;
    out.extend_from_slice(back)?;
    let spelled = Octets::from_vec(out)?;
    Ok(spelled)
}

/// The spelling of these names without the one in this place; `bytes` spell all of them.
pub fn spelled_without(alloc: Global, names: &[Name], bytes: &[u8], place: usize) -> Mem<Octets>
    requires directory { IsDirectory names.now }
    requires spelled { directory_bytes names.now ≡ bytes.now }
    requires within { place < length names.now }
    ensures { IfOk result (λ b. b ≡ directory_bytes (remove names.now place)) }
{
    let front = parted(names, bytes, place).0;
    let back = parted(names, bytes, place + 1).1;
    let mut out = Vec::with_capacity(alloc, bytes.len())?;
    put_word(&mut out, names.len() as u32 - 1)?;
    out.extend_from_slice(front)?;
    out.extend_from_slice(back)?;
    let spelled = Octets::from_vec(out)?;
    Ok(spelled)
}
