//! Who makes a step over a store, and the numbers of the node's own calls that it draws.

ghost use Rattle.std.specs.Prelude.{◌≡◌, ◌≤◌};
ghost use Rattle.afs_sharing.specs.Stores.{stand_of};

use afs_disk::Disk;
use afs_server_parts::turns::Stand;
use afs_volstore::VolStore;

/// Who makes a step over this store, which has drawn its own calls up to this number.
pub fn stand_at<D: Disk>(store: &VolStore<D>, last: u32) -> Stand
    ensures { result ≡ record (stand_of store.now) { last = last } }
{
    Stand {
        node: store.node(),
        boot: store.boot_number(),
        last,
    }
}

/// Who makes a step over this store.
pub fn stand<D: Disk>(store: &VolStore<D>) -> Stand
    ensures { result ≡ stand_of store.now }
{
    stand_at(store, store.last_number())
}

/// Draws numbers of the node's own calls, up to this one.
pub fn draw<D: Disk>(store: &mut VolStore<D>, last: u32)
    requires { store.old.drawn ≤ last }
    ensures { store.new ≡ record store.old { drawn = last } }
{
    let more = last - store.last_number();
    for _ in 0..more {
        store.next_number();
    }
}
