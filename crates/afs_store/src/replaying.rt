//! All records of a disk, from the first on.

ghost use Rattle.std.specs.Prelude.{◌≡◌, ◌+◌, ◌++◌, ◌∷◌, ◌<◌, ◌^◌, ℕ, List, [], Some, nat_eq, length, IfErr, IfNone, IfOk, IfSome, OnOk, slice_get, take};
ghost use Rattle.std.specs.Option.{option_copied};
ghost use Rattle.afs_num.specs.declared.faults.StoreFault.TheVariants as faults;
ghost use Rattle.afs_store.specs.Folds.{places_length, IsBadAt, IsFront, TakesOne, TellsLast, TellsOne};
ghost use Rattle.afs_store.specs.Opening.{IsFoldFault};

use crate::fold::{Fold, Unfit};
use afs_journal::Found;
use afs_num::faults::StoreFault;
use afs_num::types::Node;
use spec_history::lines::Lines;
use std::alloc::Global;

/// Takes the record of this number; the lines that it tells, where they are wanted.
fn take_numbered<R: Drop, T: Drop, S: Fold<R, T>>(
    alloc: Global,
    node: Node,
    state: &mut S,
    number: u64,
    wanted: bool,
    bytes: &[u8],
) -> Result<Lines, StoreFault>
    ensures taken { OnOk result (TakesOne S.fold (nat_eq number 1) bytes.now (S.fold.held state.old) (S.fold.held state.new)) }
    ensures lines { IfOk result (λ ls. TellsOne S.fold node wanted bytes.now (S.fold.held state.old) ls) }
    ensures bad { IfErr result (λ e. (n : ℕ) → e ≡ faults.BadRecord n → (n ≡ number) × IsBadAt S.fold (nat_eq number 1) bytes.now (S.fold.held state.old)) }
    ensures refusals { IfErr result (λ e. IsFoldFault e) }
{
    match state.take(alloc, node, number == 1, wanted, bytes) {
        Ok(lines) => Ok(lines),
        Err(Unfit::Bad) => Err(StoreFault::BadRecord(number)),
        Err(Unfit::OutOfMemory) => Err(StoreFault::OutOfMemory),
    }
}

/// The record in a place.
fn record_in(records: &Found, place: usize) -> Option<&[u8]>
    ensures { option_copied result ≡ slice_get records.now place }
{
    records.get(place)
}

/// Takes the record in this place, behind those that stand before it.
fn take_in_place<R: Drop, T: Drop, S: Fold<R, T>>(
    alloc: Global,
    node: Node,
    state: &mut S,
    records: &Found,
    place: usize,
) -> Result<(), StoreFault>
    requires front { IsFront S.fold (take place records.now) (S.fold.held state.old) }
    requires bound { place < 2 ^ 63 }
    ensures front { OnOk result (IsFront S.fold (take (place + 1) records.now) (S.fold.held state.new)) }
    ensures bad { IfErr result (λ e. (n : ℕ) → e ≡ faults.BadRecord n → (capacity : ℕ) (more : List (List ℕ)) → S.fold.first_bad capacity (records.now ++ more) ≡ Some n) }
    ensures refusals { IfErr result (λ e. IsFoldFault e) }
{
    let Some(bytes) = record_in(records, place) else {
        return Ok(());
    };
    let number = place as u64 + 1;
    take_numbered::<R, T, S>(alloc, node, state, number, false, bytes)?;
    Ok(())
}

/// What the first records make, so many, that stand before another.
fn fold_front<R: Drop, T: Drop, S: Fold<R, T>>(
    alloc: Global,
    node: Node,
    records: &Found,
    count: usize,
) -> Result<S, StoreFault>
    requires { count < 2 ^ 63 }
    ensures folded { IfOk result (λ s. IsFront S.fold (take count records.now) (S.fold.held s)) }
    ensures bad { IfErr result (λ e. (n : ℕ) → e ≡ faults.BadRecord n → (capacity : ℕ) (more : List (List ℕ)) → S.fold.first_bad capacity (records.now ++ more) ≡ Some n) }
    ensures refusals { IfErr result (λ e. IsFoldFault e) }
{
    let mut state = S::nothing(alloc);
    for place in 0..count {
        take_in_place::<R, T, S>(alloc, node, &mut state, records, place)?;
    }
    Ok(state)
}

/// How many records stand before the last, and that one.
fn last_of(records: &Found) -> Option<(usize, &[u8])>
    ensures some { IfSome result (λ r. records.now ≡ take r.0 records.now ++ r.1.now ∷ []) }
    ensures count { IfSome result (λ r. length records.now ≡ r.0 + 1) }
    ensures few { IfSome result (λ r. r.0 < 2 ^ 63) }
    ensures none { IfNone result (records.now ≡ []) }
{
    if records.is_empty() {
        return None;
    }
    let count = records.len() - 1;
    let Some(last) = records.get(count) else {
        unreachable!()
    };
    Some((count, last))
}

/// What all records make, and the lines of the last, where they are wanted.
pub(crate) fn fold<R: Drop, T: Drop, S: Fold<R, T>>(
    alloc: Global,
    node: Node,
    records: &Found,
    wanted: bool,
) -> Result<(S, Lines), StoreFault>
    ensures folded { IfOk result (λ r. (capacity : ℕ) → S.fold.fold_all capacity records.now ≡ Some (S.fold.placed (1 + places_length records.now) capacity (S.fold.held r.0))) }
    ensures lines { IfOk result (λ r. TellsLast S.fold node wanted records.now r.1) }
    ensures bad { IfErr result (λ e. (n : ℕ) → e ≡ faults.BadRecord n → (capacity : ℕ) → S.fold.first_bad capacity records.now ≡ Some n) }
    ensures refusals { IfErr result (λ e. IsFoldFault e) }
{
    let Some((count, last)) = last_of(records) else {
        return Err(StoreFault::BadRecord(1));
    };
    let mut state = fold_front::<R, T, S>(alloc, node, records, count)?;
    let number = count as u64 + 1;
    let lines = take_numbered::<R, T, S>(alloc, node, &mut state, number, wanted, last)?;
    Ok((state, lines))
}
