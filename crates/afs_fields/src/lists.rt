//! Lists of items: a count, and the items.

ghost use Rattle.std.specs.Prelude.{◌≡◌, ◌++◌, ◌≤◌, ◌<◌, ◌^◌, length, OnOk, OnErr};
ghost use Rattle.std.specs.List.{flat_map, AllByRecursion};
ghost use Rattle.afs_xdr.specs.Reading.{KeepsEnd};
ghost use Rattle.spec_shape.specs.Spelling.{list, Extends};
ghost use Rattle.spec_shape.specs.Items.{list_at, items_at};
ghost use Rattle.spec_shape.specs.Reading.{ReadsField};

use crate::items::Item;
use afs_num::sequences::Sequence;
use afs_num::types::Mem;
use afs_xdr::faults::XdrFault;
use afs_xdr::reading::Reader;
use afs_xdr::writing::Writer;
use spec_shape::faults::FieldFault;
use std::alloc::Global;

/// So many items, one after the other.
#[tactic(auto, unfolding(spec_shape::specs::Items::items_at))]
fn read_items<T: Item>(alloc: Global, r: &mut Reader, count: u32) -> Result<Vec<T>, FieldFault>
    ensures value { ReadsField (items_at T.item_at count) (λ v. v.items) r.old r.new result }
    ensures end { KeepsEnd r.old r.new }
{
    let mut items = Vec::with_capacity(alloc, count as usize)?;
    for _ in 0..count {
        let item = T::read(r)?;
        items.push(item)?;
    }
    Ok(items)
}

/// A list of at most `most` items. Memory is taken only once the count is known to be within `most`.
#[tactic(auto, unfolding(spec_shape::specs::Items::list_at))]
pub fn read_list<T: Item>(
    alloc: Global,
    r: &mut Reader,
    most: u32,
) -> Result<Sequence<T>, FieldFault>
    ensures value { ReadsField (list_at T.item_at most) (λ s. s) r.old r.new result }
    ensures end { KeepsEnd r.old r.new }
{
    let count = r.word()?;
    if most < count {
        return Err(FieldFault::Xdr(XdrFault::TooLong));
    }
    let items = read_items(alloc, r, count)?;
    Ok(Sequence::from_vec(items))
}

/// Appends items, one after the other.
fn write_items<T: Item>(items: &[T], w: &mut Writer) -> Mem<()>
    ensures ok { OnOk result (w.new ≡ w.old ++ flat_map T.item items.now) }
    ensures fits { OnOk result (AllByRecursion T.InRange items.now) }
    ensures err { OnErr result (Extends w.old w.new) }
{
    for item in items {
        item.write(w)?;
    }
    Ok(())
}

/// Appends a list. After want of memory bytes of it may stand behind those from before.
pub fn write_list<T: Item>(items: &Sequence<T>, w: &mut Writer) -> Mem<()>
    requires { length items.now < 2 ^ 32 }
    ensures ok { OnOk result (w.new ≡ w.old ++ list T.item items.now) }
    ensures fits { OnOk result (AllByRecursion T.InRange items.now) }
    ensures err { OnErr result (Extends w.old w.new) }
{
    w.word(items.len() as u32)?;
    write_items(items.as_slice(), w)
}
