//! Laws about clients that read read-only volumes. Each is the contract of a function that does nothing.

ghost use Rattle.spec_copyrows.specs.PlainCopies.{CopiesArePlain};

/// Where a client knows no read-only volume, and is told nothing new, its row is that of clients without them.
pub fn copies_are_plain()
    ensures { CopiesArePlain }
{}
