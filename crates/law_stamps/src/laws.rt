//! Laws about the stamps in the runs of a cell with administrators. Each is the contract of a function that does nothing.

ghost use Rattle.law_stamps.specs.Given.{StampsAreGivenOnce};
ghost use Rattle.law_stamps.specs.Stamps.{LocksAreDrawn, StampsNeverFall, TransactionsStand};
ghost use Rattle.law_stamps.specs.Told.{EntriesAsTold};

/// What a server has stored as the stamp of a family never falls.
pub fn stamps_never_fall()
    ensures { StampsNeverFall }
{}

/// Each transaction of a server that is up has the stamp stored for its family, and is alone on a volume that is there.
pub fn transactions_stand()
    ensures { TransactionsStand }
{}

/// Each lock of the location database has a stamp that was drawn, and the next one never falls.
pub fn locks_are_drawn()
    ensures { LocksAreDrawn }
{}

/// The database's entries are locked just as its lines tell, and name the servers that they told last.
pub fn entries_are_told()
    ensures { EntriesAsTold }
{}

/// Each stamp that the location database gives is given to one call.
pub fn stamps_are_given_once()
    ensures { StampsAreGivenOnce }
{}
