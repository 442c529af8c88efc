//! Where an act walks first.

ghost use Rattle.std.specs.Prelude.{◌≡◌, ◌<◌, ◌≤◌, ◌+◌, ◌^◌, ℕ, Some, length, IfSome};
ghost use Rattle.std.specs.List.{slice_get};
ghost use Rattle.std.specs.Option.{option_copied};
ghost use Rattle.spec_rows.specs.Going.{root_of};
ghost use Rattle.afs_acts.specs.Ways.{first_operand, names_of, path_in, path_of, start_in, start_of};

use crate::named::{Naming, named};
use afs_num::sequences::Octets;
use afs_num::types::Fid;
use spec_history::acts::{Act, Operand, Path};

/// The root of a volume.
pub fn root(volume: u32) -> Fid
    ensures { result ≡ root_of volume }
{
    Fid {
        volume,
        vnode: 1,
        unique: 1,
    }
}

fn path_in(operand: &Operand) -> Option<&Path>
    ensures { option_copied result ≡ path_in operand.now }
{
    match operand {
        Operand::Path(path) => Some(path),
        Operand::Fid(_) => None,
    }
}

/// The path that an act names first, if it does.
fn first_path(act: &Act) -> Option<&Path>
    ensures { option_copied result ≡ path_of (first_operand act.now) }
{
    match named(act) {
        Naming::Object(operand) => path_in(operand),
        Naming::Entry(path) | Naming::Two(path, _) => Some(path),
        Naming::Nothing => None,
    }
}

/// The name behind so many of the path that an act names first, unless it is the last.
pub fn name_behind(act: &Act, count: usize) -> Option<&Octets>
    ensures named { IfSome result (λ name. slice_get (names_of (first_operand act.now)) count ≡ Some name.now) }
    ensures inside { IfSome result (λ name. count + 2 ≤ length (names_of (first_operand act.now))) }
    ensures few { IfSome result (λ name. count + 1 < 2 ^ 64) }
{
    let names = first_path(act)?.names.as_slice();
    if names.len().saturating_sub(count) < 2 {
        return None;
    }
    names.get(count)
}

fn start_in(volume: u32, operand: &Operand) -> Fid
    ensures { result ≡ start_in volume operand.now }
{
    match operand {
        Operand::Path(_) => root(volume),
        Operand::Fid(fid) => *fid,
    }
}

/// Where an act begins to walk, in the volume of this number.
fn start_at(volume: u32, act: &Act) -> Fid
    ensures { result ≡ start_of volume (first_operand act.now) }
{
    match named(act) {
        Naming::Object(operand) => start_in(volume, operand),
        _ => root(volume),
    }
}

/// Where an act begins to walk. Where its volume isn't known it walks nowhere.
pub fn start(home: Option<u32>, act: &Act) -> Fid
    ensures { (id : ℕ) → home ≡ Some id → result ≡ start_of id (first_operand act.now) }
{
    match home {
        Some(volume) => start_at(volume, act),
        None => root(0),
    }
}
