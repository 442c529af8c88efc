//! Laws about clones and dumps. Each is the contract of a function that does nothing.

ghost use Rattle.spec_dumps.specs.Laws.{ChangesAreSince, ClonesAreSound, CopiesHold, DumpsAreReadAgain, DumpsAreRestored, DumpsFinish, DumpsFit, FrontsAreCut, FullDumpsNeedNothing, IncrementsFollow, ReadDumpsAreSpelled, ReadersReadOn, RefusedStaysRefused};

/// A dump within its limits is read again from its bytes.
pub fn dumps_are_read_again()
    ensures { DumpsAreReadAgain }
{}

/// Bytes that are read as a dump are its one spelling.
pub fn read_dumps_are_spelled()
    ensures { ReadDumpsAreSpelled }
{}

/// A stream that was refused is refused at the same offset, whatever follows.
pub fn refused_stays_refused()
    ensures { RefusedStaysRefused }
{}

/// The beginning of a dump is cut, and not refused.
pub fn fronts_are_cut()
    ensures { FrontsAreCut }
{}

/// A dump since a counter, over what wasn't changed since, gives the dumped volume.
pub fn dumps_are_restored()
    ensures { DumpsAreRestored }
{}

/// A full dump gives it over any volume.
pub fn full_dumps_need_nothing()
    ensures { FullDumpsNeedNothing }
{}

/// What a volume held until a counter it holds of each later state of the other.
pub fn changes_are_since()
    ensures { ChangesAreSince }
{}

/// The dump of a volume in words has a spelling.
pub fn dumps_fit()
    ensures { DumpsFit }
{}

/// The bytes of a dump since a counter, over what wasn't changed since, give the dumped volume.
pub fn dumps_finish()
    ensures { DumpsFinish }
{}

/// A clone, and what was restored of it, holds what its volume had.
pub fn copies_hold()
    ensures { CopiesHold }
{}

/// A full dump of a clone, and then an increment since the clone's counter, give the volume as it is at last.
pub fn increments_follow()
    ensures { IncrementsFollow }
{}

/// A clone is sound where the volume is.
pub fn clones_are_sound()
    ensures { ClonesAreSound }
{}

/// A dump that is read field by field, as its bytes come, is the one that is read at once.
pub fn readers_read_on()
    ensures { ReadersReadOn }
{}
