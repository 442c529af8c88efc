//! A dump that comes in pieces.

ghost use Rattle.std.specs.Prelude.{◌≡◌, ◌++◌, ℕ, [], Err, IfOk, None, Ok, OnOk, Some};
ghost use Rattle.spec_dumps.specs.Restores.{fed, restored_from};
ghost use Rattle.afs_volume.specs.Taking.{stored_of};
ghost use Rattle.afs_restore.specs.declared.faults.DumpFault.TheVariants.{Bad, OutOfMemory};

use crate::faults::DumpFault;
use crate::fields::are_bytes;
use crate::parts::Parts;
use crate::reading::{Read, read_more};
use crate::restoring::made;
use crate::steps::Step;
use afs_volume::Volume;
use afs_volume::faults::AssembleFault;
use std::alloc::Global;
use std::marker::Model;

/// How many bytes the tag of the end and the word after it take.
const END_LENGTH: u64 = 8;

/// A dump that comes in pieces. It is seen as the bytes that came, to the end of the piece for which it was refused. It keeps what
/// they tell, and not the bytes: only those of a field that isn't whole yet are pending. Each byte is read once as it comes, and of
/// such a field some words are looked at again: at most the headers, a pair, the words of an image, or the count of a text.
#[derive(Drop)]
pub struct Restorer {
    parts: Parts,
    step: Step,
    pending: Vec<u8>,
    length: u64,
    short: usize,
    refused: Option<u64>,
}

impl Model for Restorer {
    ghost use Rattle.std.specs.Prelude.{List, ℕ};
    ghost use Rattle.afs_restore.specs.ReadOn.{bytes_read, IsFed};

    ghost Value = { List ℕ };

    ghost view = { λ r. bytes_read r.step r.parts r.pending.items };

    ghost invariant = { λ r. IsFed r.step r.parts r.pending.items r.length r.short r.refused };
}

impl Restorer {
    /// Nothing came yet. It takes no memory.
    pub fn new(alloc: Global) -> Restorer
        ensures { result ≡ [] }
    {
        Restorer {
            parts: Parts::new(alloc),
            step: Step::Headers,
            pending: Vec::new(alloc),
            length: 0,
            short: 0,
            refused: None,
        }
    }

    /// Takes a piece. `Bad` as soon as what came can't become a dump any more, with the offset of the first field that is no good;
    /// and ever after the same. Running out of memory leaves the restorer as it was; so does a piece with which more bytes came
    /// than a count of 64 bits can tell.
    pub fn feed(&mut self, alloc: Global, piece: &[u8]) -> Result<(), DumpFault>
        ensures ok { OnOk result ((self.new ≡ self.old ++ piece.now) × (fed self.new ≡ None)) }
        ensures bad { (offset : ℕ) → result ≡ Err (Bad offset) → (fed (self.old ++ piece.now) ≡ Some offset) × (fed self.new ≡ Some offset) }
        ensures memory { result ≡ Err OutOfMemory → self.new ≡ self.old }
    {
        if let Some(offset) = self.refused {
            return Err(DumpFault::Bad(offset));
        }
        let Some(length) = self.length.checked_add(piece.len() as u64) else {
            return Err(DumpFault::OutOfMemory);
        };
        are_bytes(piece);
        match read_more(alloc, &mut self.pending, piece, &mut self.parts, self.step) {
            Ok(Read::Waits(step, _left, short)) => {
                self.step = step;
                self.length = length;
                self.short = short;
                Ok(())
            }
            Ok(Read::Refused(step, _left, short)) => {
                let offset = length.saturating_sub(short as u64);
                self.step = step;
                self.length = length;
                self.refused = Some(offset);
                Err(DumpFault::Bad(offset))
            }
            Err(_) => Err(DumpFault::OutOfMemory),
        }
    }

    /// The volume that the whole stream makes of `old`, under its number, as `old` is now. The restorer stays as it is: the volume
    /// shares its bytes with it.
    #[tactic(auto, unfolding(spec_dumps::specs::Restores::restored_from))]
    pub fn finish(&self, alloc: Global, old: &Volume) -> Result<Volume, DumpFault>
        ensures id { IfOk result (λ v. v.head.id ≡ old.now.head.id) }
        ensures ok { IfOk result (λ v. restored_from old.now.head.id (stored_of old.now) self.now ≡ Ok (stored_of v)) }
        ensures bad { (offset : ℕ) → result ≡ Err (Bad offset) → restored_from old.now.head.id (stored_of old.now) self.now ≡ Err offset }
    {
        if let Some(offset) = self.refused {
            return Err(DumpFault::Bad(offset));
        }
        if self.step != Step::End {
            return Err(DumpFault::Bad(self.length.saturating_sub(self.short as u64)));
        }
        match made(alloc, &self.parts, old) {
            Ok(volume) => Ok(volume),
            Err(AssembleFault::NotSound) => Err(DumpFault::Bad(
                self.length.saturating_sub(END_LENGTH),
            )),
            Err(AssembleFault::OutOfMemory) => Err(DumpFault::OutOfMemory),
        }
    }
}

/// What a whole stream makes of a volume, under its number. `Bad` has the offset of the first field that is no good or cut, or
/// that of the end's tag where the dump makes no sound volume.
pub fn restore(alloc: Global, bytes: &[u8], old: &Volume) -> Result<Volume, DumpFault>
    ensures id { IfOk result (λ v. v.head.id ≡ old.now.head.id) }
    ensures ok { IfOk result (λ v. restored_from old.now.head.id (stored_of old.now) bytes.now ≡ Ok (stored_of v)) }
    ensures bad { (offset : ℕ) → result ≡ Err (Bad offset) → restored_from old.now.head.id (stored_of old.now) bytes.now ≡ Err offset }
{
    let mut restorer = Restorer::new(alloc);
    restorer.feed(alloc, bytes)?;
    restorer.finish(alloc, old)
}
