//! Laws about the runs of a cell with administrators. Each is the contract of a function that does nothing.

ghost use Rattle.law_vanishing.specs.Deletions.{DeletedElsewhere};
ghost use Rattle.law_vanishing.specs.Vanishing.{VolumesVanishElsewhere};

/// Moves, removals, recoveries and releases delete a read-write volume only at servers where the location database doesn't put it.
pub fn a_volume_is_deleted_elsewhere()
    ensures { DeletedElsewhere }
{}

/// So where a server that is up tells that a volume vanishes, the database doesn't put it there, unless the act lets its volume go.
pub fn a_volume_vanishes_elsewhere()
    ensures { VolumesVanishElsewhere }
{}
