//! Laws that join a script to the cell. Each is the contract of a function that does nothing.

ghost use Rattle.law_scripts.specs.SetUps.{LocSetUpsAreAccepted, NamesAreShort, NumbersAscend, SetUpsAreAccepted, VolumesAreInCell};

/// Each server's volumes can be set up on a disk of the script's capacity.
pub fn set_ups_are_accepted()
    ensures { SetUpsAreAccepted }
{}

/// The location database can be set up for all volumes on such a disk.
pub fn loc_set_ups_are_accepted()
    ensures { LocSetUpsAreAccepted }
{}

/// The names of volumes are within the limit of a record.
pub fn names_are_short()
    ensures { NamesAreShort }
{}

/// The numbers of volumes ascend.
pub fn numbers_ascend()
    ensures { NumbersAscend }
{}

/// Each volume of a script is at one of the cell's servers, of which there are eight at most.
pub fn volumes_are_in_cell()
    ensures { VolumesAreInCell }
{}
