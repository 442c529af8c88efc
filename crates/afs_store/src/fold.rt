//! A state in memory that records change.

ghost use Rattle.std.specs.Prelude.{◌≡◌, Err, None, Some, true, is_some, IfOk, OnOk};
ghost use Rattle.afs_store.specs.Folds.{IsBadAt, TakesOne, TellsOne};
ghost use Rattle.afs_store.specs.Waiting.{KeepsMemory};
ghost use Rattle.afs_store.specs.declared.fold.Unfit.TheVariants.{Bad};

use afs_num::types::{Mem, Node};
use spec_history::lines::Lines;
use std::alloc::Global;

/// Why a record isn't taken: it can't be, or memory ran out.
#[derive(Clone, Copy, Debug, PartialEq, Eq)]
pub enum Unfit {
    Bad,
    OutOfMemory,
}

/// A state in memory that records change. What it holds is what a disk keeps with these records on it.
pub trait Fold<R: Drop, T: Drop>: Drop {
    ghost use Rattle.afs_store.specs.Folding.{Folding};
    ghost use Rattle.afs_store.specs.Sound.{IsSound};

    /// A record that was made ready: it is spelled, and what it does wants no more memory than there was room made for.
    type Ready: Drop;

    /// The records, what they make, and how the memory holds it.
    ghost fold: { Folding R T Self Self.Ready };

    /// What stands on a disk without records. It takes no memory.
    fn nothing(alloc: Global) -> Self
        ensures { fold.held result ≡ fold.nothing };

    /// Takes the record that these bytes spell, as the first or behind others; the lines that it tells, where they are
    /// wanted. `Bad` where it can't be taken; then the state may be any.
    fn take(
        &mut self,
        alloc: Global,
        node: Node,
        first: bool,
        wanted: bool,
        bytes: &[u8],
    ) -> Result<Lines, Unfit>
        ensures taken { OnOk result (TakesOne fold first bytes.now (fold.held self.old) (fold.held self.new)) }
        ensures lines { IfOk result (λ ls. TellsOne fold node wanted bytes.now (fold.held self.old) ls) }
        ensures bad { result ≡ Err Bad → IsBadAt fold first bytes.now (fold.held self.old) };

    /// Makes a record ready, and what it makes of this state. `Bad` where it can't be taken.
    fn ready(&self, alloc: Global, rec: &R) -> Result<Self::Ready, Unfit>
        requires { fold.Fits rec.now }
        ensures told { IfOk result (λ p. fold.record_of p ≡ rec.now) }
        ensures ready { IfOk result (λ p. fold.IsReady p) }
        ensures suits { IfOk result (λ p. fold.Suits p (fold.held self.now)) }
        ensures bad { result ≡ Err Bad → fold.done rec.now (fold.held self.now) ≡ None };

    /// The bytes of a record that was made ready. It takes no memory.
    fn bytes(ready: &Self::Ready) -> &[u8]
        requires { fold.IsReady ready.now }
        ensures { result.now ≡ fold.spelled (fold.record_of ready.now) };

    /// Makes room for what a record does. It takes no room away that was there.
    fn reserve(&mut self, ready: &Self::Ready) -> Mem<()>
        ensures room { OnOk result (fold.HasRoomFor ready.now self.new) }
        ensures held { fold.held self.new ≡ fold.held self.old }
        ensures keeps { KeepsMemory fold self.old self.new };

    /// Does what a record says that can be taken, and for which there is room. It takes no memory.
    fn redo(&mut self, ready: Self::Ready)
        requires ready { fold.IsReady ready }
        requires suits { fold.Suits ready (fold.held self.old) }
        requires room { fold.HasRoomFor ready self.old }
        requires taken { is_some (fold.done (fold.record_of ready) (fold.held self.old)) ≡ true }
        ensures { fold.done (fold.record_of ready) (fold.held self.old) ≡ Some (fold.held self.new) };

    /// The boot number. It takes no memory.
    fn boot(&self) -> u32
        ensures { result ≡ fold.boot (fold.held self.now) };

    /// The record of a start with this boot number. It takes no memory.
    fn start(alloc: Global, boot: u32) -> R
        ensures record { result ≡ fold.start boot }
        ensures fits { fold.Fits result };

    /// Records, memory and disk fit together.
    ghost sound: { IsSound fold };
}
