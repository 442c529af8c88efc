//! The bank lends the disks of a cell's location database and servers, and takes them back.

ghost use Rattle.std.specs.Prelude.{◌≡◌, ◌≤◌, ◌<◌, ◌+◌, ◌^◌, ◌++◌, ◌∷◌, ◌⊎◌, [], ℕ, length, option_map, vec_capacity, vec_len, IfErr, IfOk, OnErr, OnOk};
ghost use Rattle.afs_disk.specs.Banks.{counted};
ghost use Rattle.afs_disk.specs.Disk.{Rose};
ghost use Rattle.afs_lending.specs.Lending.{all_kept, lends, with_faults, AreLent, AreUnused, GivesBackBut, GoBack, LendsSome, LentTell, OneGoesBack};

use afs_disk::{Bank, Disk, Disks, LendFault, Lent, Place};
use afs_final::{Left, disk_in};
use afs_num::devices::Failed;
use afs_volstore::VolStore;
use std::alloc::Global;

/// One more, for which there is a place.
fn put_last<T>(all: &mut Vec<T>, one: T)
    requires { vec_len all.old < vec_capacity all.old }
    ensures items { all.new.items ≡ all.old.items ++ one ∷ [] }
    ensures room { vec_capacity all.old ≤ vec_capacity all.new }
{
    match all.push(one) {
        Ok(()) => {}
        Err(_) => unreachable!(),
    }
}

/// Up to which length a disk makes room when it is lent.
const FIRST: u64 = 4_194_304;

/// A disk that was lent, with room for its first bytes. One in memory would else move its bytes as they grow, and have them twice
/// meanwhile; room takes no memory from others before it is written to. Where there is none it goes without, as each write asks for its own.
fn with_room<D: Disk>(disk: D, capacity: u32) -> D
    ensures seen { D.seen result ≡ D.seen disk }
    ensures faults { D.faults result ≡ D.faults disk }
    ensures limit { D.limit result ≡ D.limit disk }
{
    let mut disk = disk;
    match disk.room((capacity as u64).min(FIRST), 0) {
        Ok(()) => disk,
        Err(_) => disk,
    }
}

/// One disk for each of so many nodes, by their numbers from the first one on, each of this capacity. The location database is number 0,
/// servers are numbered from 1. At the first lend that fails no more are asked for, and the disks of those before it come back as they
/// were lent.
pub fn lend_all<B: Bank<D: Drop>>(
    alloc: Global,
    bank: &mut B,
    place: &Place,
    first: u8,
    count: u8,
    capacity: u32,
) -> Result<Disks<B::D>, (LendFault, Disks<B::D>)>
    requires { first + count ≤ 2 ^ 8 }
    ensures lent { IfOk result (AreLent B.D.limit capacity first) }
    ensures all { IfOk result (λ ds. length ds ≡ count) }
    ensures lends { OnOk result (B.lends bank.new ≡ option_map (λ ls. ls ++ lends place.now capacity first count) (B.lends bank.old)) }
    ensures some { LendsSome (lends place.now capacity first count) (B.lends bank.old) (B.lends bank.new) }
    ensures tells { B.tells bank.old place.now → IfOk result (LentTell B.D.seen) }
    ensures unused { IfOk result (AreUnused B.D.faults) }
    ensures back { IfErr result (λ e. AreUnused B.D.faults e.1) }
    ensures back_lent { IfErr result (λ e. AreLent B.D.limit capacity first e.1) }
    ensures fewer { IfErr result (λ e. e.0 ≡ LendFault.Failed → length e.1 < count) }
    ensures few { IfErr result (λ e. 0 < count → length e.1 < count) }
    ensures back_lends { IfErr result (λ e. B.lends bank.new ≡ option_map (λ ls. ls ++ lends place.now capacity first (length e.1)) (B.lends bank.old)) }
    ensures faults { (n : ℕ) → B.lent_faults bank.new n ≡ B.lent_faults bank.old n }
    ensures given { B.given bank.new ≡ B.given bank.old }
    ensures cause { IfErr result (λ e. e.0 ≡ LendFault.Failed → Rose (B.faults bank.old) (B.faults bank.new)) }
    ensures memory { IfErr result (λ e. e.0 ≡ LendFault.OutOfMemory → B.faults bank.new ≡ B.faults bank.old) }
    ensures quiet { OnOk result (B.faults bank.new ≡ B.faults bank.old) }
    ensures never_falls { B.faults bank.old ≤ B.faults bank.new }
{
    let Ok(mut disks) = Vec::with_capacity(alloc, count as usize) else {
        return Err((LendFault::OutOfMemory, Disks::new(alloc)));
    };
    for before in 0..count {
        let node = first + before;
        match bank.lend(place, node, capacity as u64) {
            Ok(disk) => put_last(
                &mut disks,
                Lent {
                    node,
                    disk: with_room(disk, capacity),
                },
            ),
            Err(fault) => return Err((fault, Disks::from_vec(disks))),
        }
    }
    Ok(Disks::from_vec(disks))
}

/// A disk goes back; whether all did so far.
fn give_one<B: Bank<D: Drop>>(
    bank: &mut B,
    node: u8,
    disk: B::D,
    all: Result<(), Failed>,
) -> Result<(), Failed>
    ensures goes { OneGoesBack node (B.D.seen disk) (B.given bank.old) (B.given bank.new) (B.faults bank.old) (B.faults bank.new) all result }
    ensures cause { OnErr result (Rose (B.faults bank.old) (B.faults bank.new) ⊎ (all ≡ result)) }
    ensures faults { (n : ℕ) → B.lent_faults bank.new n ≡ counted node (B.D.faults disk) n (B.lent_faults bank.old n) }
    ensures lends { B.lends bank.new ≡ B.lends bank.old }
    ensures never_falls { B.faults bank.old ≤ B.faults bank.new }
{
    match bank.give_back(node, disk) {
        Ok(()) => all,
        Err(fault) => Err(fault),
    }
}

/// All disks go back, also after one that the bank doesn't take.
pub fn give_back_all<B: Bank<D: Drop>>(bank: &mut B, disks: Disks<B::D>) -> Result<(), Failed>
    ensures all { OnOk result (GivesBackBut B.D.seen 0 disks (B.given bank.old) (B.given bank.new)) }
    ensures back { GoBack B.D.seen disks (B.given bank.old) (B.given bank.new) (B.faults bank.old) (B.faults bank.new) }
    ensures quiet { OnOk result (B.faults bank.new ≡ B.faults bank.old) }
    ensures cause { OnErr result (Rose (B.faults bank.old) (B.faults bank.new)) }
    ensures faults { (n : ℕ) → B.lent_faults bank.new n ≡ with_faults B.D.faults disks n (B.lent_faults bank.old n) }
    ensures lends { B.lends bank.new ≡ B.lends bank.old }
    ensures never_falls { B.faults bank.old ≤ B.faults bank.new }
{
    let mut all = Ok(());
    for lent in disks.into_vec() {
        let Lent { node, disk } = lent;
        all = give_one(bank, node, disk, all);
    }
    all
}

/// The disks go back: first that of the location database, which is number 0, and then those of the servers, after they were read, by
/// their numbers from 1 on.
pub fn give_back<B: Bank<D: Drop>>(
    bank: &mut B,
    database: B::D,
    left: Vec<Left<VolStore<B::D>, B::D>>,
) -> Result<(), Failed>
    requires { length left.items ≤ 8 }
    ensures all { OnOk result (GivesBackBut B.D.seen 0 (all_kept database left.items) (B.given bank.old) (B.given bank.new)) }
    ensures back { GoBack B.D.seen (all_kept database left.items) (B.given bank.old) (B.given bank.new) (B.faults bank.old) (B.faults bank.new) }
    ensures quiet { OnOk result (B.faults bank.new ≡ B.faults bank.old) }
    ensures cause { OnErr result (Rose (B.faults bank.old) (B.faults bank.new)) }
    ensures faults { (n : ℕ) → B.lent_faults bank.new n ≡ with_faults B.D.faults (all_kept database left.items) n (B.lent_faults bank.old n) }
    ensures lends { B.lends bank.new ≡ B.lends bank.old }
    ensures never_falls { B.faults bank.old ≤ B.faults bank.new }
{
    let taken = give_one(bank, 0, database, Ok(()));
    let mut all = taken;
    let mut before = 0;
    for found in left {
        all = give_one(bank, 1 + before, disk_in(found), all);
        before += 1;
    }
    all
}
