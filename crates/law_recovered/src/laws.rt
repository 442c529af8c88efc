//! The laws about the end of a recovery. Each is the contract of a function that does nothing.

ghost use Rattle.law_recovered.specs.Ends.{RecoveriesAreTold, RecoveriesEndAlone};

/// Where a recovery ends, no server has a copy of the volume but the one that the location database names.
pub fn recoveries_end_alone()
    ensures { RecoveriesEndAlone }
{}

/// So it is where the location database tells that a volume is recovered.
pub fn recoveries_are_told()
    ensures { RecoveriesAreTold }
{}
