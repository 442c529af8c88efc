//! Laws about the runs in which administrators do nothing. Each is the contract of a function that does nothing.

ghost use Rattle.law_idle.specs.Idle.{IdleRunsAreLegal, IdleRunsEndWell};

/// Where administrators do nothing in a run but stop and begin again, its history is legal but for these entries.
pub fn idle_runs_are_legal()
    ensures { IdleRunsAreLegal }
{}

/// And at its end the servers hold the ideal volumes, with all that was acknowledged.
pub fn idle_runs_end_well()
    ensures { IdleRunsEndWell }
{}
