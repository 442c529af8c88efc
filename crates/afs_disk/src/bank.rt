// Who lends the disks of a cell, and takes them back.
ghost use Rattle.std.specs.Prelude.{◌≡◌, ◌≤◌, ◌<◌, ◌+◌, ◌++◌, ◌∷◌, [], List, ℕ, Option, IfOk, OnOk, OnErr, IsErrOf, option_map, IsSome};
ghost use Rattle.afs_disk.specs.Banks.{IsTakenBack, counted};
ghost use Rattle.afs_disk.specs.declared.bank.Lend.{Lend};
ghost use Rattle.afs_disk.specs.declared.bank.Place.{Place as At};
ghost use Rattle.afs_disk.specs.declared.bank.LendFault.TheVariants.{Failed as LendFailed, OutOfMemory};
ghost use Rattle.afs_disk.specs.Disk.{Rose};

use crate::disk::Disk;
use afs_num::devices::Failed;
use afs_num::sequences::Octets;
use afs_num::types::Mem;
use std::alloc::{AllocError, AllocFailed, Global};

/// Where a disk is kept: in memory, or in a folder of files.
#[derive(Debug, Drop)]
pub enum Place {
    Memory,
    Folder(Octets),
}

impl Place {
    /// A copy.
    pub fn copy(&self, alloc: Global) -> Mem<Place>
        ensures { IfOk result (λ place. place ≡ self.now) }
    {
        match self {
            Place::Memory => Ok(Place::Memory),
            Place::Folder(path) => Ok(Place::Folder(path.copy(alloc)?)),
        }
    }
}

/// Why a bank lent no disk.
#[derive(Clone, Copy, Debug, PartialEq, Eq)]
pub enum LendFault {
    Failed,
    OutOfMemory,
}

impl From<AllocError> for LendFault {
    ghost from_gives = { λ _ fault. fault ≡ OutOfMemory };

    fn from(_: AllocError) -> Self {
        LendFault::OutOfMemory
    }
}

impl<T: Drop> From<AllocFailed<T>> for LendFault {
    ghost from_gives = { λ _ fault. fault ≡ OutOfMemory };

    fn from(_: AllocFailed<T>) -> Self {
        LendFault::OutOfMemory
    }
}

impl From<Failed> for LendFault {
    ghost from_gives = { λ _ fault. fault ≡ LendFailed };

    fn from(_: Failed) -> Self {
        LendFault::Failed
    }
}

/// A lend: its place, for which node, and with what capacity.
#[derive(Debug, Drop)]
pub struct Lend {
    pub place: Place,
    pub node: u8,
    pub capacity: u64,
}

/// Lends disks, and takes them back.
pub trait Bank {
    /// The disks that it lends.
    type D: Disk;

    /// Its lends so far, where it tells them.
    ghost lends: { Self → Option (List Lend) };

    /// The disks given back so far, where it tells them: each by its node, and the bytes that a read gives.
    ghost given: { Self → Option (List (ℕ × List ℕ)) };

    /// How often it has failed. It rises only where a lend or a return fails. It stands still at the last value of a counter, where
    /// each call counts as one in which it rose.
    ghost faults: { Self → ℕ };

    /// How often the disks of each node had failed that were given back. Each count stands still at the last value of a counter.
    ghost lent_faults: { Self → ℕ → ℕ };

    /// Whether the disks that it lends at this place tell what they hold.
    ghost tells: { Self → At → Type 0 };

    /// Lends a disk of this capacity for a node.
    fn lend(&mut self, place: &Place, node: u8, capacity: u64) -> Result<Self::D, LendFault>
        ensures limit { IfOk result (λ disk. Self.D.limit disk ≡ capacity) }
        ensures lends { OnOk result (lends self.new ≡ option_map (λ l. l ++ record { place = place.now; node = node; capacity = capacity } ∷ []) (lends self.old)) }
        ensures none { OnErr result (lends self.new ≡ lends self.old) }
        ensures given { given self.new ≡ given self.old }
        ensures unused { IfOk result (λ disk. Self.D.faults disk ≡ 0) }
        ensures lent { (n : ℕ) → lent_faults self.new n ≡ lent_faults self.old n }
        ensures told { IfOk result (λ disk. tells self.old place.now → IsSome (Self.D.seen disk)) }
        ensures tells { (at : At) → tells self.old at → tells self.new at }
        ensures never_falls { faults self.old ≤ faults self.new }
        ensures cause { IsErrOf result LendFault.Failed → Rose (faults self.old) (faults self.new) }
        ensures quiet { ¬ IsErrOf result LendFault.Failed → faults self.new ≡ faults self.old };

    /// Takes a disk back.
    fn give_back(&mut self, node: u8, disk: Self::D) -> Result<(), Failed>
        ensures given { OnOk result (IsTakenBack node (Self.D.seen disk) (given self.old) (given self.new)) }
        ensures kept { OnErr result (given self.new ≡ given self.old) }
        ensures lends { lends self.new ≡ lends self.old }
        ensures lent { (n : ℕ) → lent_faults self.new n ≡ counted node (Self.D.faults disk) n (lent_faults self.old n) }
        ensures tells { (at : At) → tells self.old at → tells self.new at }
        ensures never_falls { faults self.old ≤ faults self.new }
        ensures cause { OnErr result (Rose (faults self.old) (faults self.new)) }
        ensures quiet { OnOk result (faults self.new ≡ faults self.old) };
}
