//! Laws about the families of volumes in the runs of a cell with administrators. Each is the contract of a function that does nothing.

ghost use Rattle.law_families.specs.Enables.{EnablesAreAsked};
ghost use Rattle.law_families.specs.Families.{ReadWriteIsFamily, TransactionsAreOfFamilies};

/// Wherever a read-write volume is stored, its family has its number.
pub fn a_read_write_volume_is_its_family()
    ensures { ReadWriteIsFamily }
{}

/// Each transaction of a server that is up is of the family of its volume.
pub fn transactions_are_of_families()
    ensures { TransactionsAreOfFamilies }
{}

/// A read-write volume comes into service only by a call that sets its flags to 0, in a transaction on it and under the stored stamp.
pub fn enables_are_asked()
    ensures { EnablesAreAsked }
{}
