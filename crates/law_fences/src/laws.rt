//! Laws about what administrators are told of transactions, in the runs of a cell. Each is the contract of a function that does nothing.

ghost use Rattle.law_fences.specs.Claims.{ClaimsAreTrue};
ghost use Rattle.law_fences.specs.Fences.{FencesClose};

/// The number of a transaction that an administrator was told names, at its next call, one on the volume that it asked for.
pub fn claims_are_true()
    ensures { ClaimsAreTrue }
{}

/// An administrator that is told that its fence was done has taken the volume out of service that it meant.
pub fn fences_close()
    ensures { FencesClose }
{}
