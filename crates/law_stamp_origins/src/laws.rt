//! A law about stored stamps in the runs of a cell with administrators. It is the contract of a function that does nothing.

ghost use Rattle.law_stamp_origins.specs.Brought.{StampsAreBrought};

/// Each stamp that a server has stored of a family was brought by a call in that family, and each such call is an administrator's.
pub fn stamps_are_brought()
    ensures { StampsAreBrought }
{}
