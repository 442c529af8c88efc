//! Access lists.

use crate::sequences::{Octets, Sequence};

/// What an access list says of one user: the sum of read 1, write 2, insert 4, lookup 8, delete 16, lock 32 and
/// administer 64 (AFS-3 Programmer's Reference, File Server/Cache Manager Interface, access lists).
#[derive(Drop)]
pub struct AclEntry {
    pub name: Octets,
    pub rights: u32,
}

pub type AclEntries = Sequence<AclEntry>;

/// The entries that give rights, and those that take rights away.
#[derive(Drop)]
pub struct AccessList {
    pub positive: AclEntries,
    pub negative: AclEntries,
}
