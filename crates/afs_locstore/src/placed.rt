//! Entries that are to be put.

ghost use Rattle.std.specs.Prelude.{◌≡◌, IfOk};
ghost use Rattle.spec_records.specs.LocRecords.{listed_form};
ghost use Rattle.afs_locstore.specs.Listings.{CanBePut};

use afs_locrecord::types::Listed;
use afs_num::sequences::Octets;
use afs_num::types::Mem;
use std::alloc::Global;

/// An entry that is to be put, and its name once more, for the index.
#[derive(Drop)]
pub struct Placed {
    pub listed: Listed,
    pub name: Octets,
}

impl Placed {
    /// This entry, to be put.
    pub fn of(alloc: Global, listed: Listed) -> Mem<Placed>
        requires { listed_form.Fits listed }
        ensures listed { IfOk result (λ p. p.listed ≡ listed) }
        ensures can { IfOk result (λ p. CanBePut p) }
    {
        let name = listed.entry.name.copy(alloc)?;
        Ok(Placed { listed, name })
    }
}
