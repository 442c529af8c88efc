//! The volumes that transactions hold, as the store keeps them beside its volumes.

ghost use Rattle.std.specs.Prelude.{◌≡◌, ◌≤◌, ◌<◌, ◌+◌, [], length};
ghost use Rattle.spec_ideal.specs.Tables.{set};
ghost use Rattle.spec_volrows.specs.VolRow.{holds_of};
ghost use Rattle.afs_volanswers.specs.Flagged.{AreAlone, AreFlagged, IsHoldFlag};

use afs_disk::Disk;
use afs_voldecisions::transactions::{Transaction, Transactions};
use afs_volstore::VolStore;

/// A volume is held for which there is room. It takes no memory.
fn hold<D: Disk>(store: &mut VolStore<D>, id: u32, flags: u32)
    requires flags { IsHoldFlag flags }
    requires room { 0 < store.old.holds.room }
    ensures holds { store.new.holds.table ≡ set id flags store.old.holds.table }
    ensures room { store.old.holds.room ≤ store.new.holds.room + 1 }
    ensures rest { store.new ≡ record store.old { holds = store.new.holds } }
{
    match store.hold(id, flags) {
        Ok(()) => {}
        Err(_) => unreachable!(),
    }
}

/// The volumes of these transactions are held no more, and there is room for each of them. It takes no memory.
fn free_all<D: Disk>(store: &mut VolStore<D>, former: &[(u32, Transaction)])
    requires holds { store.old.holds.table ≡ holds_of former.now }
    requires alone { AreAlone former.now }
    ensures holds { store.new.holds.table ≡ [] }
    ensures room { store.old.holds.room + length former.now ≤ store.new.holds.room }
    ensures rest { store.new ≡ record store.old { holds = store.new.holds } }
{
    for item in former {
        store.free(item.1.volume);
    }
}

/// The volumes of these transactions are held, those of the last first. It takes no memory.
fn hold_all<D: Disk>(store: &mut VolStore<D>, later: &[(u32, Transaction)])
    requires holds { store.old.holds.table ≡ [] }
    requires flagged { AreFlagged later.now }
    requires room { length later.now ≤ store.old.holds.room }
    ensures holds { store.new.holds.table ≡ holds_of later.now }
    ensures rest { store.new ≡ record store.old { holds = store.new.holds } }
{
    for behind in 0..later.len() {
        let item = &later[later.len() - 1 - behind];
        hold(store, item.1.volume, item.1.flags);
    }
}

/// The volumes of the former transactions are held no more, and those of the later ones are. There is at most one more of these, for which
/// there is room. It takes no memory.
pub(crate) fn hold_instead<D: Disk>(
    store: &mut VolStore<D>,
    former: &Transactions,
    later: &Transactions,
)
    requires holds { store.old.holds.table ≡ holds_of former.now.table }
    requires alone { AreAlone former.now.table }
    requires flagged { AreFlagged later.now.table }
    requires few { length later.now.table ≤ length former.now.table + 1 }
    requires room { 0 < store.old.holds.room }
    ensures holds { store.new.holds.table ≡ holds_of later.now.table }
    ensures rest { store.new ≡ record store.old { holds = store.new.holds } }
{
    free_all(store, former.as_slice());
    hold_all(store, later.as_slice());
}
