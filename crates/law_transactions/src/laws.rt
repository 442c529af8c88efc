//! Laws about transactions in the runs of a cell with administrators. Each is the contract of a function that does nothing.

ghost use Rattle.law_transactions.specs.Begun.{TransactionsAreAskedFor};
ghost use Rattle.law_transactions.specs.Numbers.{NumbersAreKept};

/// Each transaction of a server that is up was asked for by a call of this boot that was sent to it.
pub fn transactions_are_asked_for()
    ensures { TransactionsAreAskedFor }
{}

/// In one boot a server gives each number of a transaction once.
pub fn numbers_are_kept()
    ensures { NumbersAreKept }
{}
