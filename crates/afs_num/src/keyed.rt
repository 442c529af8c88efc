//! Lists with one item a key.

ghost use Rattle.std.specs.Prelude.{◌≡◌, ◌≤◌, ◌-◌, length};
ghost use Rattle.std.specs.Option.{option_copied};
ghost use Rattle.std.specs.Vec.{vec_capacity};
ghost use Rattle.afs_num.specs.Keyed.{keyed, other_keyed, put_last, put_first, HasRoom, KeepsRoom, Frees};

/// What has a key.
pub trait Keyed: Drop {
    ghost use Rattle.std.specs.Prelude.{Bool};

    type Key: Copy;

    ghost key: { Self → Self.Key };

    ghost same: { Self.Key → Self.Key → Bool };

    /// The item's key.
    fn key(&self) -> Self::Key
        ensures { result ≡ key self.now };

    /// Whether this is the item's key.
    fn is_under(&self, other: &Self::Key) -> bool
        ensures { result ≡ same (key self.now) other.now };
}

/// The item under this key.
pub fn find_keyed<'a, T: Keyed>(items: &'a [T], key: &T::Key) -> Option<&'a T>
    ensures { option_copied result ≡ keyed T.key T.same key.now items.entry.now }
{
    items.iter().find(|item| item.is_under(key))
}

/// Drops what is under this key.
fn drop_keyed<T: Keyed>(items: &mut Vec<T>, key: &T::Key)
    ensures items { items.new.items ≡ other_keyed T.key T.same key.now items.old.items }
    ensures fewer { Frees (keyed T.key T.same key.now items.old.items) (length items.new.items) (length items.old.items) }
    ensures room { vec_capacity items.old ≤ vec_capacity items.new }
{
    items.retain(|item| !item.is_under(key));
}

/// The item takes the place of the one with its key, and stands last. It takes no memory.
pub fn put_last<T: Keyed>(items: &mut Vec<T>, item: T)
    requires { HasRoom (keyed T.key T.same (T.key item) items.old.items) (vec_capacity items.old - length items.old.items) }
    ensures items { items.new.items ≡ put_last T.key T.same item items.old.items }
    ensures room { KeepsRoom (keyed T.key T.same (T.key item) items.old.items) (vec_capacity items.old - length items.old.items) (vec_capacity items.new - length items.new.items) }
{
    drop_keyed(items, &item.key());
    match items.push(item) {
        Ok(()) => {}
        Err(_) => unreachable!(),
    }
}

/// The item takes the place of the one with its key, and stands first. It takes no memory.
pub fn put_first<T: Keyed>(items: &mut Vec<T>, item: T)
    requires { HasRoom (keyed T.key T.same (T.key item) items.old.items) (vec_capacity items.old - length items.old.items) }
    ensures items { items.new.items ≡ put_first T.key T.same item items.old.items }
    ensures room { KeepsRoom (keyed T.key T.same (T.key item) items.old.items) (vec_capacity items.old - length items.old.items) (vec_capacity items.new - length items.new.items) }
{
    drop_keyed(items, &item.key());
    match items.insert(0, item) {
        Ok(()) => {}
        Err(_) => unreachable!(),
    }
}
