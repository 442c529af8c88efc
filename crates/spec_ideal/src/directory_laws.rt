//! Laws about directories. Each is the contract of a function that does nothing.

ghost use Rattle.spec_ideal.specs.DirectoryLaws.{AddedAreFound, ByteOrderIsStrict, DirectoriesAreReadAgain, ReadDirectoriesAreSpelled, RemovedAreGone};

/// Byte order of names is a strict total order.
pub fn byte_order_is_strict()
    ensures { ByteOrderIsStrict }
{}

/// A name that is added is found, and what is found by any other name stays.
pub fn added_are_found()
    ensures { AddedAreFound }
{}

/// A name that is removed is gone, and what is found by any other name stays.
pub fn removed_are_gone()
    ensures { RemovedAreGone }
{}

/// The bytes of a directory are read as it.
pub fn directories_are_read_again()
    ensures { DirectoriesAreReadAgain }
{}

/// Bytes that are read as a directory are its one spelling.
pub fn read_directories_are_spelled()
    ensures { ReadDirectoriesAreSpelled }
{}
