//! Laws about records. Each is the contract of a function that does nothing.

ghost use Rattle.spec_records.specs.Laws.{ChangesAreTold, ChangesFit, LengthHasNoTime, PassingVolumesAreSound, ReadRecordsAreSpelled, RecordsAreReadAgain, SoundVolumesPass};
ghost use Rattle.spec_records.specs.LocLaws.{LocRecordsAreReadAgain, LocStartsAreKept, OneMoreLocStands, ReadLocRecordsAreSpelled};

/// A record within its limits is read again from its bytes.
pub fn records_are_read_again()
    ensures { RecordsAreReadAgain }
{}

/// Bytes that are read as a record are its one spelling.
pub fn read_records_are_spelled()
    ensures { ReadRecordsAreSpelled }
{}

/// A sound volume passes the test of the fold.
pub fn sound_volumes_pass()
    ensures { SoundVolumesPass }
{}

/// A volume that passes the test is sound, where its directories were read from images.
pub fn passing_volumes_are_sound()
    ensures { PassingVolumesAreSound }
{}

/// The record of a change has a spelling.
pub fn changes_fit()
    ensures { ChangesFit }
{}

/// What the record of one change tells are the versions that its edits make.
pub fn changes_are_told()
    ensures { ChangesAreTold }
{}

/// How long the record of a change is doesn't depend on its time.
pub fn length_has_no_time()
    ensures { LengthHasNoTime }
{}

/// A record of the location database within its limits is read again from its bytes.
pub fn loc_records_are_read_again()
    ensures { LocRecordsAreReadAgain }
{}

/// Bytes that are read as a record of the location database are its one spelling.
pub fn read_loc_records_are_spelled()
    ensures { ReadLocRecordsAreSpelled }
{}

/// One more record of it, that can be taken, stands for what the fold makes of it.
pub fn one_more_loc_stands()
    ensures { OneMoreLocStands }
{}

/// The fold of the record of its start raises the boot number; all else stays.
pub fn loc_starts_are_kept()
    ensures { LocStartsAreKept }
{}
