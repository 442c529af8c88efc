//! Where a name stands among a directory's.

ghost use Rattle.std.specs.Prelude.{◌≡◌, IfOk, IfErr, slice_get};
ghost use Rattle.spec_ideal.specs.Directories.{IsDirectory, bytes_below};
ghost use Rattle.afs_dir.specs.Places.{place_of, IsFound, IsGap, is_at};

use afs_num::directories::Name;
use std::cmp::Ord;

/// Whether one name is below the other in byte order: the first byte that differs decides, and where none does the shorter is
/// below the longer.
#[tactic(auto, unfolding(spec_ideal::specs::Directories::bytes_below))]
pub fn is_below(name: &[u8], other: &[u8]) -> bool
    ensures { result ≡ bytes_below name.now other.now }
{
    name.cmp(&other).is_lt()
}

// How many names are below this one.
fn place_of(names: &[Name], name: &[u8]) -> usize
    requires { IsDirectory names.now }
    ensures { result ≡ place_of name.now names.now }
{
    names.partition_point(|n| is_below(n.name.as_slice(), name))
}

fn is_at(names: &[Name], place: usize, name: &[u8]) -> bool
    ensures { result ≡ is_at name.now (slice_get names.now place) }
{
    match names.get(place) {
        Some(n) => n.name.as_slice() == name,
        None => false,
    }
}

/// Where the name is, or else where it would stand.
pub fn search(names: &[Name], name: &[u8]) -> Result<usize, usize>
    requires { IsDirectory names.now }
    ensures found { IfOk result (IsFound name.now names.now) }
    ensures absent { IfErr result (IsGap name.now names.now) }
{
    let place = place_of(names, name);
    if is_at(names, place, name) {
        Ok(place)
    } else {
        Err(place)
    }
}
