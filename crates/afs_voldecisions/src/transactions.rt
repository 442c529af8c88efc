//! The transactions of a volume server.

ghost use Rattle.std.specs.Prelude.{◌≡◌, ◌+◌, [], IfOk, OnOk};
ghost use Rattle.std.specs.Option.{option_copied};
ghost use Rattle.spec_ideal.specs.Tables.{get, set, unset, AscendsFrom};
ghost use Rattle.spec_volrows.specs.VolRow.{found, gave, is_held_by_other, last_after, transactions_after, without_family};
ghost use Rattle.afs_voldecisions.specs.Verdicts.{after_of};

use afs_num::sequences::Octets;
use afs_num::types::Mem;
use afs_seats::Seats;
use afs_server_parts::pumping::next_number;
use std::alloc::Global;
use std::marker::Model;
use std::mem::replace;

/// A transaction holds a volume of a family under a stamp. Its flags are 1 for a volume that is offline, 2 for one that is busy. And
/// what was given to it of a dump so far.
#[derive(Drop)]
pub struct Transaction {
    pub volume: u32,
    pub family: u32,
    pub flags: u32,
    pub stamp: u32,
    pub given: Octets,
}

impl Model for Transaction {
    ghost use Rattle.spec_volrows.specs.VolStates.{Transaction};

    ghost Value = { Transaction };

    ghost view = { λ t. record { volume = t.volume; family = t.family; flags = t.flags; stamp = t.stamp; given = t.given } };
}

impl Transaction {
    /// The same transaction, which was given these bytes. Bytes are shared.
    fn copy(&self, alloc: Global) -> Mem<Transaction>
        ensures { IfOk result (λ t. t ≡ self.now) }
    {
        Ok(Transaction {
            volume: self.volume,
            family: self.family,
            flags: self.flags,
            stamp: self.stamp,
            given: self.given.copy(alloc)?,
        })
    }

    /// The transaction with these bytes in the place of those that it was given.
    fn given(&self, given: Octets) -> Transaction
        ensures { result ≡ record self.now { given = given } }
    {
        Transaction {
            volume: self.volume,
            family: self.family,
            flags: self.flags,
            stamp: self.stamp,
            given,
        }
    }
}

/// What a call does to the transactions: they stay; one begins, on a volume of a family, with these flags and under this stamp; the one
/// of this number ends; or that one has then been given these bytes.
#[derive(Drop)]
pub enum After {
    Stays,
    Begins {
        volume: u32,
        family: u32,
        flags: u32,
        stamp: u32,
    },
    Ends {
        number: u32,
    },
    Gives {
        number: u32,
        given: Octets,
    },
}

/// The transactions by their numbers, and the last number of one in this boot.
#[derive(Drop)]
pub struct Transactions {
    items: Vec<(u32, Transaction)>,
    last: u32,
}

impl Model for Transactions {
    ghost use Rattle.spec_ideal.specs.Tables.{AscendsFrom};
    ghost use Rattle.afs_voldecisions.specs.Numbering.{Numbered};

    ghost Value = { Numbered };

    ghost view = { λ t. record { table = t.items.items; last = t.last } };

    ghost invariant = { λ t. AscendsFrom 0 t.items.items };
}

/// The transaction of this number.
fn find(items: &[(u32, Transaction)], number: u32) -> Option<&Transaction>
    ensures { option_copied result ≡ get number items.entry.now }
{
    for item in items {
        if item.0 == number {
            return Some(&item.1);
        }
    }
    None
}

/// A transaction stands under its number.
fn put(items: &mut Vec<(u32, Transaction)>, number: u32, transaction: Transaction) -> Mem<()>
    requires { AscendsFrom 0 items.old.items }
    ensures table { OnOk result (items.new.items ≡ set number transaction items.old.items) }
    ensures ascends { AscendsFrom 0 items.new.items }
{
    let alloc = *items.allocator();
    let taken = replace(items, Vec::new(alloc));
    let mut seats = Seats::from_items(taken);
    seats.put(number, transaction)?;
    *items = seats.into_items();
    Ok(())
}

/// A transaction is given these bytes.
fn give(items: &mut Vec<(u32, Transaction)>, number: u32, given: Octets) -> Mem<()>
    requires { AscendsFrom 0 items.old.items }
    ensures table { OnOk result (items.new.items ≡ gave number given (get number items.old.items) items.old.items) }
    ensures ascends { AscendsFrom 0 items.new.items }
{
    let Some(transaction) = find(items, number) else {
        return Ok(());
    };
    let transaction = transaction.given(given);
    put(items, number, transaction)?;
    Ok(())
}

/// The transaction of this number ends.
fn end(items: &mut Vec<(u32, Transaction)>, number: u32)
    requires { AscendsFrom 0 items.old.items }
    ensures table { items.new.items ≡ unset number items.old.items }
    ensures ascends { AscendsFrom 0 items.new.items }
{
    items.retain(|item| item.0 != number);
}

fn copy_item(alloc: Global, item: &(u32, Transaction)) -> Mem<(u32, Transaction)>
    ensures { IfOk result (λ i. i ≡ item.now) }
{
    Ok((item.0, item.1.copy(alloc)?))
}

fn copy_items(alloc: Global, items: &[(u32, Transaction)]) -> Mem<Vec<(u32, Transaction)>>
    ensures { IfOk result (λ is. is.items ≡ items.now) }
{
    let mut copies = Vec::new(alloc);
    for item in items {
        copies.push(copy_item(alloc, item)?)?;
    }
    Ok(copies)
}

impl Transactions {
    /// None, in a boot that begins.
    pub fn new(alloc: Global) -> Transactions
        ensures { result ≡ record { table = []; last = 0 } }
    {
        Transactions {
            items: Vec::new(alloc),
            last: 0,
        }
    }

    /// The transactions with their numbers, which ascend.
    pub fn as_slice(&self) -> &[(u32, Transaction)]
        ensures { result.now ≡ self.now.table }
    {
        &self.items
    }

    /// The last number of a transaction.
    pub fn last(&self) -> u32
        ensures { result ≡ self.now.last }
    {
        self.last
    }

    /// The transaction of this number, where its volume is of this family.
    pub fn found(&self, family: u32, number: u32) -> Option<&Transaction>
        ensures { option_copied result ≡ found family number self.now.table }
    {
        match find(&self.items, number) {
            Some(transaction) if transaction.family == family => Some(transaction),
            _ => None,
        }
    }

    /// Whether another transaction than this one holds the volume.
    pub fn is_held_by_other(&self, number: u32, volume: u32) -> bool
        ensures { result ≡ is_held_by_other number volume self.now.table }
    {
        self.items
            .iter()
            .any(|item| item.1.volume == volume && item.0 != number)
    }

    /// The same transactions. Bytes are shared.
    pub fn copy(&self, alloc: Global) -> Mem<Transactions>
        ensures { IfOk result (λ t. t ≡ self.now) }
    {
        Ok(Transactions {
            items: copy_items(alloc, &self.items)?,
            last: self.last,
        })
    }

    /// Those of the family end.
    pub fn end_family(&mut self, family: u32)
        ensures { self.new ≡ record self.old { table = without_family family self.old.table } }
    {
        self.items.retain(|item| item.1.family != family);
    }

    /// One begins on a volume.
    fn begin(&mut self, volume: u32, family: u32, flags: u32, stamp: u32) -> Mem<()>
        ensures { OnOk result (self.new ≡ record { table = set (self.old.last + 1) (record { volume = volume; family = family; flags = flags; stamp = stamp; given = [] }) self.old.table; last = self.old.last + 1 }) }
    {
        let alloc = *self.items.allocator();
        let number = next_number(self.last)?;
        let transaction = Transaction {
            volume,
            family,
            flags,
            stamp,
            given: Octets::new(alloc),
        };
        put(&mut self.items, number, transaction)?;
        self.last = number;
        Ok(())
    }

    /// What a call does to them is done.
    pub fn change(&mut self, after: After) -> Mem<()>
        ensures table { OnOk result (self.new.table ≡ transactions_after self.old.last (after_of after) self.old.table) }
        ensures last { OnOk result (self.new.last ≡ last_after self.old.last (after_of after)) }
    {
        match after {
            After::Stays => {}
            After::Begins {
                volume,
                family,
                flags,
                stamp,
            } => self.begin(volume, family, flags, stamp)?,
            After::Ends { number } => end(&mut self.items, number),
            After::Gives { number, given } => give(&mut self.items, number, given)?,
        }
        Ok(())
    }
}
