// A bank in memory.
ghost use Rattle.std.specs.Prelude.{◌≡◌, ◌<◌, ◌≤◌, ◌+◌, ◌++◌, ◌∷◌, [], Some, length, map, min, replicate, slice_get, get_or, ℕ, IsErr, IsErrOf, IfOk, OnOk, OnErr, ◌↔◌};
ghost use Rattle.afs_disk.specs.Banks.{counted};
ghost use Rattle.afs_disk.specs.Fuses.{last_of_counter};
ghost use Rattle.afs_disk.specs.Disk.{Rose};

use crate::bank::{Bank, Lend, LendFault, Place};
use crate::counts::{NODES, add_faults};
use crate::memory::MemDisk;
use afs_num::devices::Failed;
use afs_num::sequences::{Octets, Records};
use afs_num::types::Mem;
use std::alloc::Global;
use std::marker::Model;

// What marks a call that is to fail.
const FAILS: u8 = 1;

/// A disk that was given back, and its node.
#[derive(Drop)]
pub struct Given {
    pub node: u8,
    pub disk: MemDisk,
}

/// A bank that lends disks in memory, whatever the place, and tells what it lent and was given back. It has the room to
/// take as many disks back as it lent.
#[derive(Drop)]
pub struct MemBank {
    alloc: Global,
    failing: Octets,
    disks: Records,
    calls: u64,
    faults: u64,
    lends: Vec<Lend>,
    given: Vec<Given>,
    lent_faults: [u64; NODES],
}

impl Model for MemBank {
    ghost use Rattle.std.specs.Prelude.{◌≤◌, length, map};
    ghost use Rattle.std.specs.Vec.{vec_capacity};
    ghost use Rattle.afs_disk.specs.Lending.{Lending};

    ghost Value = { Lending };

    ghost view = { λ b. record {
      lends = b.lends.items;
      given = map (λ g. (g.node, g.disk.held.now)) b.given.items;
      failing = b.failing;
      disks = b.disks;
      calls = b.calls;
      faults = b.faults;
      lent = b.lent_faults;
    } };

    ghost invariant = { λ b. length b.lends.items ≤ vec_capacity b.given };
}

// Counts a call, and says whether it may be made.
fn admits(calls: &mut u64, failing: &[u8], faults: &mut u64) -> Result<(), Failed>
    ensures counted { calls.new ≡ min (calls.old + 1) last_of_counter }
    ensures fails { IsErr result ↔ (slice_get failing.now calls.old ≡ Some 1) }
    ensures err { OnErr result (Rose faults.old faults.new) }
    ensures ok { OnOk result (faults.new ≡ faults.old) }
    ensures never_falls { faults.old ≤ faults.new }
{
    let fails = failing.get(*calls as usize) == Some(&FAILS);
    *calls = calls.saturating_add(1);
    if fails {
        *faults = faults.saturating_add(1);
        return Err(Failed);
    }
    Ok(())
}

// The list of failing calls of the nth disk: none, where no list is left.
fn failing_of(alloc: Global, disks: &[Octets], n: usize) -> Mem<Octets>
    ensures { IfOk result (λ failing. failing ≡ get_or disks.now n []) }
{
    match disks.get(n) {
        Some(failing) => failing.copy(alloc),
        None => Ok(Octets::new(alloc)),
    }
}

impl MemBank {
    /// A bank whose call n, of lends and returns together, fails where byte n - 1 of `failing` is 1. Its nth disk fails as
    /// the nth of `disks` says, and each further one never.
    pub fn new(alloc: Global, failing: Octets, disks: Records) -> MemBank
        ensures lends { result.lends ≡ [] }
        ensures given { result.given ≡ [] }
        ensures set { (result.failing ≡ failing) × (result.disks ≡ disks) }
        ensures counts { (result.calls ≡ 0) × (result.faults ≡ 0) × (result.lent ≡ replicate 256 0) }
    {
        MemBank {
            alloc,
            failing,
            disks,
            calls: 0,
            faults: 0,
            lends: Vec::new(alloc),
            given: Vec::new(alloc),
            lent_faults: [0; NODES],
        }
    }

    /// The lends so far.
    pub fn lends(&self) -> &[Lend]
        ensures { result.now ≡ self.now.lends }
    {
        &self.lends
    }

    /// The disks given back so far, each by its node.
    pub fn given(&self) -> &[Given]
        ensures { map (λ g. (g.node, g.disk.held.now)) result.now ≡ self.now.given }
    {
        &self.given
    }
}

impl Bank for MemBank {
    type D = MemDisk;

    ghost lends = { λ b. Some b.lends };

    ghost given = { λ b. Some b.given };

    ghost faults = { λ b. b.faults };

    ghost lent_faults = { λ b n. get_or b.lent n 0 };

    ghost tells = { λ b at. Unit {0} };

    fn lend(&mut self, place: &Place, node: u8, capacity: u64) -> Result<MemDisk, LendFault>
        ensures limit { IfOk result (λ disk. disk.limit ≡ capacity) }
        ensures empty { IfOk result (λ disk. (disk.held.now ≡ []) × (disk.held.kept ≡ []) × (disk.held.unsynced ≡ [])) }
        ensures unused { IfOk result (λ disk. (disk.calls ≡ 0) × (disk.faults ≡ 0)) }
        ensures failing { IfOk result (λ disk. disk.failing ≡ get_or self.old.disks (length self.old.lends) []) }
        ensures lends { OnOk result (self.new.lends ≡ self.old.lends ++ record { place = place.now; node = node; capacity = capacity } ∷ []) }
        ensures none { OnErr result (self.new.lends ≡ self.old.lends) }
        ensures given { self.new.given ≡ self.old.given }
        ensures lent { (n : ℕ) → get_or self.new.lent n 0 ≡ get_or self.old.lent n 0 }
        ensures counted { self.new.calls ≡ min (self.old.calls + 1) last_of_counter }
        ensures fails { IsErrOf result LendFault.Failed ↔ (slice_get self.old.failing self.old.calls ≡ Some 1) }
        ensures never_falls { self.old.faults ≤ self.new.faults }
        ensures cause { IsErrOf result LendFault.Failed → Rose self.old.faults self.new.faults }
        ensures quiet { ¬ IsErrOf result LendFault.Failed → self.new.faults ≡ self.old.faults }
        ensures set { (self.new.failing ≡ self.old.failing) × (self.new.disks ≡ self.old.disks) }
    {
        admits(&mut self.calls, self.failing.as_slice(), &mut self.faults)?;
        let failing = failing_of(self.alloc, self.disks.as_slice(), self.lends.len())?;
        let place = place.copy(self.alloc)?;
        // The room for the disks that are to come back, this one among them.
        self.given.reserve(
            self.lends
                .len()
                .saturating_sub(self.given.len())
                .saturating_add(1),
        )?;
        self.lends.push(Lend {
            place,
            node,
            capacity,
        })?;
        Ok(MemDisk::new(self.alloc, capacity, failing))
    }

    fn give_back(&mut self, node: u8, disk: MemDisk) -> Result<(), Failed>
        ensures given { OnOk result (self.new.given ≡ self.old.given ++ (node, disk.held.now) ∷ []) }
        ensures kept { OnErr result (self.new.given ≡ self.old.given) }
        ensures lends { self.new.lends ≡ self.old.lends }
        ensures lent { (n : ℕ) → get_or self.new.lent n 0 ≡ counted node disk.faults n (get_or self.old.lent n 0) }
        ensures counted { self.new.calls ≡ min (self.old.calls + 1) last_of_counter }
        ensures fails { slice_get self.old.failing self.old.calls ≡ Some 1 → IsErr result }

        // `lend` made the room for it.
        ensures succeeds { length self.old.given < length self.old.lends → IsErr result → slice_get self.old.failing self.old.calls ≡ Some 1 }

        ensures never_falls { self.old.faults ≤ self.new.faults }
        ensures cause { OnErr result (Rose self.old.faults self.new.faults) }
        ensures quiet { OnOk result (self.new.faults ≡ self.old.faults) }
        ensures set { (self.new.failing ≡ self.old.failing) × (self.new.disks ≡ self.old.disks) }
    {
        add_faults(&mut self.lent_faults, node, disk.faults());
        admits(&mut self.calls, self.failing.as_slice(), &mut self.faults)?;
        match self.given.push(Given { node, disk }) {
            Ok(()) => Ok(()),
            Err(_) => {
                self.faults = self.faults.saturating_add(1);
                Err(Failed)
            }
        }
    }
}
