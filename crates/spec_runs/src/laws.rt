//! Laws about the runs of a cell of nodes of two halves. Each is the contract of a function that does nothing.

ghost use Rattle.spec_runs.specs.PlainRuns.{NodeRunsAreLegal, NodeRunsEndWell, PlainRunsAreFileRuns, PlainRunsBringNothing};

/// As long as nobody but clients calls its servers, such a run is one of the cell of file servers, with the same history.
pub fn plain_runs_are_file_runs()
    ensures { PlainRunsAreFileRuns }
{}

/// Then no entry of it brings a volume.
pub fn plain_runs_bring_nothing()
    ensures { PlainRunsBringNothing }
{}

/// So its history is legal.
pub fn node_runs_are_legal()
    ensures { NodeRunsAreLegal }
{}

/// And its servers end with the volumes that they should have.
pub fn node_runs_end_well()
    ensures { NodeRunsEndWell }
{}
