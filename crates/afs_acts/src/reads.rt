//! How many reads an act takes from a cache at most.

ghost use Rattle.std.specs.Prelude.{◌≡◌, ◌<◌, ◌^◌, length};
ghost use Rattle.spec_rows.specs.Going.{reads_of, reads_to};

use crate::named::{Naming, named};
use spec_history::acts::{Act, Operand, Path};

fn reads_along(path: &Path) -> u64
    ensures value { result ≡ length path.now.names }
    ensures small { result < 2 ^ 63 }
{
    path.names.len() as u64
}

fn reads_to(operand: &Operand) -> u64
    ensures { result ≡ reads_to operand.now }
{
    match operand {
        Operand::Path(path) => reads_along(path) + 1,
        Operand::Fid(_) => 1,
    }
}

/// Each directory of its paths, and an object.
pub fn most_reads(act: &Act) -> u64
    ensures { result ≡ reads_of act.now }
{
    match named(act) {
        Naming::Object(operand) => reads_to(operand),
        Naming::Entry(path) => reads_along(path),
        Naming::Two(first, second) => reads_along(first) + reads_along(second),
        Naming::Nothing => 0,
    }
}
