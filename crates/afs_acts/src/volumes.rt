//! Names and numbers of volumes.

ghost use Rattle.std.specs.Prelude.{◌≡◌, ◌-◌, length, take};
ghost use Rattle.spec_rows.specs.Going.{base_of, copy_of, has_number, number_in, number_there};

use afs_num::location_calls::LocEntry;

/// The end of a name of a read-only copy.
const READ_ONLY_END: &[u8] = b".readonly";

/// The end of a name of a backup.
const BACKUP_END: &[u8] = b".backup";

/// A name but for so many of its last bytes.
fn without_last(name: &[u8], count: usize) -> &[u8]
    ensures { result.now ≡ take (length name.now - count) name.now }
{
    name.split_at(name.len().saturating_sub(count)).0
}

/// The name of a volume, from its own or from that of its read-only copy or its backup.
pub fn base_of(name: &[u8]) -> &[u8]
    ensures { result.now ≡ base_of name.now }
{
    if name.ends_with(READ_ONLY_END) {
        without_last(name, READ_ONLY_END.len())
    } else if name.ends_with(BACKUP_END) {
        without_last(name, BACKUP_END.len())
    } else {
        name
    }
}

/// The number 0 is none.
fn number_there(number: u32) -> Option<u32>
    ensures { result ≡ number_there number }
{
    if number == 0 { None } else { Some(number) }
}

/// The number of the volume that a path names so.
pub fn number_in(entry: &LocEntry, name: &[u8]) -> Option<u32>
    ensures { result ≡ number_in (copy_of name.now) entry.now }
{
    if name.ends_with(READ_ONLY_END) {
        number_there(entry.read_only)
    } else if name.ends_with(BACKUP_END) {
        number_there(entry.backup)
    } else {
        number_there(entry.read_write)
    }
}

/// Whether one of its three volumes has this number.
pub fn has_number(entry: &LocEntry, id: u32) -> bool
    ensures { result ≡ has_number id entry.now }
{
    id != 0 && (entry.read_write == id || (entry.read_only == id || entry.backup == id))
}
