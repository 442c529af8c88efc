ghost use Rattle.std.specs.Prelude.{◌+◌, ◌*◌, ◌++◌};
ghost use Rattle.std.specs.Hash as fed;
ghost use Rattle.std.specs.Cmp.Rules.{hashing};
ghost use Rattle.std.proofs.Common.{rules};

use spec_breaks::types::Promise;
use std::hash::{Hash, Hasher};

/// A promise, and its place in the order of granting.
#[derive(Clone, Copy, Debug)]
pub struct Grant {
    pub order: u64,
    pub promise: Promise,
}

/// A client and a fid, as the key of a map: the kind and the number of the client, and the numbers of the fid.
#[derive(Clone, Copy, Debug, PartialEq, Eq)]
pub struct Holding {
    pub kind: u8,
    pub number: u8,
    pub volume: u32,
    pub vnode: u32,
    pub unique: u32,
}

// Two words in place of the five that a derive writes: a promise is looked for at every call.
impl Hash for Holding {
    ghost hash_input = { λ h. fed.u64 (h.unique * 4294967296 + h.vnode) ++ fed.u64 (h.volume * 65536 + (h.kind * 256 + h.number)) };

    ghost respects_eq = { Prim.search (hashing, rules) };

    fn hash<H: Hasher>(&self, state: &mut H) {
        let client = u64::from(self.kind) * 256 + u64::from(self.number);
        state.write_u64(u64::from(self.unique) * 4_294_967_296 + u64::from(self.vnode));
        state.write_u64(u64::from(self.volume) * 65_536 + client);
    }
}
