//! Spelling a directory.

ghost use Rattle.std.specs.Prelude.{◌≡◌, ◌++◌, ◌≤◌, length, OnOk};
ghost use Rattle.std.specs.List.{flat_map};
ghost use Rattle.spec_ideal.specs.Directories.{FitNames, FitsName, IsDirectory, name_bytes};

use afs_num::directories::Name;
use afs_num::types::Mem;
use afs_xdr::writing::Writer;

#[tactic(auto, unfolding(spec_ideal::specs::Directories::name_bytes))]
fn write_name(name: &Name, bytes: &mut Writer) -> Mem<()>
    requires { length name.now.name ≤ 255 }
    ensures ok { OnOk result (bytes.new ≡ bytes.old ++ name_bytes name.now) }
    ensures fits { OnOk result (FitsName name.now) }
{
    bytes.opaque(name.name.as_slice())?;
    bytes.words(&[name.vnode, name.unique])
}

/// Appends the names of a directory, one behind the other.
pub fn write_names(names: &[Name], bytes: &mut Writer) -> Mem<()>
    requires { IsDirectory names.now }
    ensures ok { OnOk result (bytes.new ≡ bytes.old ++ flat_map name_bytes names.now) }
    ensures fits { OnOk result (FitNames names.now) }
{
    for name in names {
        write_name(name, bytes)?;
    }
    Ok(())
}
