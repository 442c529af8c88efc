//! The cache as it will be once a reply's entry is put.

ghost use Rattle.std.specs.Prelude.{◌≡◌, IfSome, IsSome};
ghost use Rattle.std.specs.Option.{option_copied, option_map};
ghost use Rattle.spec_rows.specs.ClientRow.{find_cached};
ghost use Rattle.afs_entries.specs.Cached.{entry_at, HasBody, in_sight};

use crate::cache::{Cache, Entry, Fresh};
use afs_num::types::Fid;

/// A cache, and what comes into it; that has a body.
#[derive(Clone, Copy)]
pub struct Sight<'a> {
    pub cache: &'a Cache,
    pub fresh: Option<&'a Fresh>,
}

/// The entry of a fid in a cache that an entry is put into.
fn find_beside<'a>(cache: &'a Cache, fresh: &'a Fresh, fid: &Fid) -> Option<&'a Entry>
    requires { IsSome fresh.now.entry.body }
    ensures { option_map (entry_at fid.now) (option_copied result) ≡ find_cached fid.now (in_sight cache.entry.now (Some fresh.entry.now)) }
{
    let is_out = cache.evicts(&fresh.fid, fid);
    if fresh.fid == *fid {
        return Some(&fresh.entry);
    }
    if is_out {
        return None;
    }
    cache.find(fid)
}

impl<'a> Sight<'a> {
    /// The entry of a fid.
    pub fn find(self, fid: &Fid) -> Option<&'a Entry>
        requires { HasBody (option_copied self.fresh) }
        ensures { option_map (entry_at fid.now) (option_copied result) ≡ find_cached fid.now (in_sight self.entry.cache.now (option_copied self.entry.fresh)) }
    {
        match self.fresh {
            Some(fresh) => find_beside(self.cache, fresh, fid),
            None => self.cache.find(fid),
        }
    }
}
