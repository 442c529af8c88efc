//! Names of files and of volumes.

ghost use Rattle.std.specs.Prelude.{◌≡◌, nat_eq};
ghost use Rattle.std.specs.List.{list_all};
ghost use Rattle.afs_num.specs.Names.{is_plain, is_name_byte, has_size, is_name_of, is_dots, name_ok, is_copy_name, volume_name_ok, is_in};

/// Whether the byte is a letter, a digit, `.`, `_` or `-`: what a name is written with.
pub fn is_plain(byte: u8) -> bool
    ensures { result ≡ is_plain byte }
{
    matches!(byte, b'A'..=b'Z' | b'a'..=b'z' | b'0'..=b'9' | b'.' | b'_' | b'-')
}

fn has_size(most: usize, name: &[u8]) -> bool
    ensures { result ≡ has_size most name.now }
{
    0 < name.len() && name.len() <= most
}

fn is_all_plain(name: &[u8]) -> bool
    ensures { result ≡ list_all is_plain name.now }
{
    name.iter().all(|byte| is_plain(*byte))
}

/// Whether these are 1 to `most` bytes, all of them plain.
#[tactic(auto, unfolding(crate::specs::Names::is_name_of))]
pub fn is_name_of(most: usize, name: &[u8]) -> bool
    ensures { result ≡ is_name_of most name.now }
{
    has_size(most, name) && is_all_plain(name)
}

fn is_name_byte(byte: u8) -> bool
    ensures { result ≡ is_name_byte byte }
{
    byte != b'/' && byte != 0
}

fn is_dots(name: &[u8]) -> bool
    ensures { result ≡ is_dots name.now }
{
    name == b".".as_slice() || name == b"..".as_slice()
}

fn has_name_bytes(name: &[u8]) -> bool
    ensures { result ≡ list_all is_name_byte name.now }
{
    name.iter().all(|byte| is_name_byte(*byte))
}

/// Whether a directory may have this name: 1 to 255 bytes with no `/` and no NUL, neither `.` nor `..`.
#[tactic(auto, unfolding(crate::specs::Names::name_ok))]
pub fn name_ok(name: &[u8]) -> bool
    ensures { result ≡ name_ok name.now }
{
    has_size(255, name) && has_name_bytes(name) && !is_dots(name)
}

fn is_number(name: &[u8]) -> bool
    ensures { result ≡ list_all (is_in 48 57) name.now }
{
    name.iter().all(|byte| matches!(*byte, b'0'..=b'9'))
}

fn is_copy_name(name: &[u8]) -> bool
    ensures { result ≡ is_copy_name name.now }
{
    name.ends_with(b".readonly") || name.ends_with(b".backup")
}

/// Whether a volume may have this name: 1 to 22 plain bytes, not all of them digits, and no end that the cell gives to
/// the names of copies.
#[tactic(auto, unfolding(crate::specs::Names::volume_name_ok))]
pub fn volume_name_ok(name: &[u8]) -> bool
    ensures { result ≡ volume_name_ok name.now }
{
    is_name_of(22, name) && !is_number(name) && !is_copy_name(name)
}
