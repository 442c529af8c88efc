//! The law about the runs of a cell with administrators. It is the contract of a function that does nothing.

ghost use Rattle.law_enabling.specs.Enabling.{VolumesAreEnabledAlone};

/// Whatever administrators do, a volume is enabled only where the location database puts it, and while it accepts stores nowhere. And behind
/// each line of a history it accepts them at one server at most.
pub fn volumes_are_enabled_alone()
    ensures { VolumesAreEnabledAlone }
{}
