//! The law about the runs of a cell with administrators. It is the contract of a function that does nothing.

ghost use Rattle.law_one_server.specs.Accepts.{VolumesAcceptAtOne};

/// Whatever administrators do, a volume accepts stores at one server at most: at the one where the location database puts it.
pub fn a_volume_accepts_at_one_server()
    ensures { VolumesAcceptAtOne }
{}
