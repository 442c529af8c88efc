//! The laws about a volume that was put in order. Each is the contract of a function that does nothing.

ghost use Rattle.law_in_service.specs.Service.{RecoveriesEndInService, VolumesAreRecovered};

/// Where a recovery ends, the server that the location database names has the volume in service, and no other has a copy of it.
pub fn recoveries_end_in_service()
    ensures { RecoveriesEndInService }
{}

/// So it is where the location database tells that a volume is recovered, and so the history tells it.
pub fn volumes_are_recovered()
    ensures { VolumesAreRecovered }
{}
