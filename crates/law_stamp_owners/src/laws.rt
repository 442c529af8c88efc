//! Laws about the owners of stamps. Each is the contract of a function that does nothing.

ghost use Rattle.law_stamp_owners.specs.Owners.{StampsHaveOwners};

/// Each stamp is used by the administrator that the database gave it to, in the same epoch, and by servers that send dumps on for one; and not
/// before the reply that gives it.
pub fn stamps_have_owners()
    ensures { StampsHaveOwners }
{}
