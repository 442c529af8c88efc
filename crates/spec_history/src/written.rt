//! The bytes that a script writes.

ghost use Rattle.std.specs.Prelude.{◌≡◌, IfOk, replicate};
ghost use Rattle.spec_history.specs.Written.{bytes_in};

use crate::acts::Written;
use afs_num::sequences::Octets;
use afs_num::types::Mem;
use std::alloc::Global;

/// The bytes that are written.
pub fn bytes_in(alloc: Global, written: &Written) -> Mem<Octets>
    ensures { IfOk result (λ b. b ≡ bytes_in written.now) }
{
    match written {
        Written::Hex(bytes) => bytes.copy(alloc),
        Written::Fill { count, byte } => filled(alloc, *count, *byte),
    }
}

fn filled(alloc: Global, count: u32, byte: u8) -> Mem<Octets>
    ensures { IfOk result (λ b. b ≡ replicate count byte) }
{
    let mut bytes = Vec::new(alloc);
    bytes.resize(count as usize, byte)?;
    Octets::from_vec(bytes)
}
