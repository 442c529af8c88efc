//! Laws about the fold of all records. Each is the contract of a function that does nothing.

ghost use Rattle.spec_fold.specs.Laws.{ChangesAreKept, OneMoreStands, RecordsLeaveStorable, StartsAreKept, StorableAreTimed};
ghost use Rattle.spec_fold.specs.Orders.{RecordsLeaveFew};

use spec_dumps::laws::clones_are_sound;

/// The fold of a change's record puts the volume that its edits make, and keeps the reply.
pub fn changes_are_kept()
    ensures { ChangesAreKept }
{}

/// The fold of a start's record raises the boot number and deletes the flagged volumes; all else stays.
pub fn starts_are_kept()
    ensures { StartsAreKept }
{}

/// One more record, that can be taken, stands for what the fold makes of it.
pub fn one_more_stands()
    ensures { OneMoreStands }
{}

/// Whatever the records, the volumes that they leave are such as a disk may hold.
pub fn records_leave_storable()
    ensures { RecordsLeaveStorable }
{
    clones_are_sound();
}

/// And they stand by their numbers, no more of them than a server may have.
pub fn records_leave_few()
    ensures { RecordsLeaveFew }
{}

/// Their times are those of their vnodes.
pub fn storable_are_timed()
    ensures { StorableAreTimed }
{}
