//! Laws about the runs of a cell with administrators. Each is the contract of a function that does nothing.

ghost use Rattle.law_places.specs.Accepting.{AcceptsAsTold};
ghost use Rattle.law_places.specs.Standing.{LinesStandWell};

/// Behind every entry of every run, a server has a read-write volume in service exactly where the history tells that it accepts stores.
pub fn stores_are_accepted_as_told()
    ensures { AcceptsAsTold }
{}

/// Every change is told by a server that accepts stores of its volume, and no volume is taken out of service, or brought into it, twice.
pub fn lines_stand_well()
    ensures { LinesStandWell }
{}
