//! Lists that mostly have one item.

ghost use Rattle.std.specs.Prelude.{◌≡◌, ◌∷◌, [], IfSome};

use crate::callees::Copies;
use afs_num::sequences::Sequence;
use afs_num::types::Mem;
use std::alloc::Global;
use std::marker::Model;

/// One item, or any number of them.
#[derive(Drop)]
pub enum OneOrAll<T> {
    One([T; 1]),
    All(Sequence<T>),
}

/// A list that mostly has one item: that item lies in the value, and takes no memory.
#[derive(Drop)]
pub struct Few<T> {
    kept: OneOrAll<T>,
}

impl<T> Model for Few<T> {
    ghost use Rattle.std.specs.Prelude.{List};
    ghost use Rattle.afs_callees.specs.Few.{items_in};

    ghost Value = { List T };

    ghost view = { λ f. items_in f.kept };
}

/// The item, where there is but one.
fn only<T: Copy>(items: &[T]) -> Option<T>
    ensures { IfSome result (λ x. items.now ≡ x ∷ []) }
{
    match items {
        [item] => Some(*item),
        _ => None,
    }
}

impl<T> Few<T> {
    /// No item. It takes no memory.
    pub fn none(alloc: Global) -> Self
        ensures { result ≡ [] }
    {
        Few {
            kept: OneOrAll::All(Sequence::new(alloc)),
        }
    }

    /// This item alone. It takes no memory.
    pub fn one(item: T) -> Self
        ensures { result ≡ item ∷ [] }
    {
        Few {
            kept: OneOrAll::One([item]),
        }
    }

    /// The items. It takes no memory.
    pub fn as_slice(&self) -> &[T]
        ensures { result.now ≡ self.now }
    {
        match &self.kept {
            OneOrAll::One(item) => item.as_slice(),
            OneOrAll::All(items) => items.as_slice(),
        }
    }
}

impl<T: Copy> Few<T> {
    /// These items. It takes no memory.
    pub fn of(items: Sequence<T>) -> Self
        ensures { result ≡ items }
    {
        match only(items.as_slice()) {
            Some(item) => Few::one(item),
            None => Few {
                kept: OneOrAll::All(items),
            },
        }
    }
}

impl<T: Copy> Copies for Few<T> {
    fn copy(&self, alloc: Global) -> Mem<Few<T>> {
        match &self.kept {
            OneOrAll::One([item]) => Ok(Few::one(*item)),
            OneOrAll::All(items) => {
                let copy = Vec::from_slice(alloc, items.as_slice())?;
                Ok(Few {
                    kept: OneOrAll::All(Sequence::from_vec(copy)),
                })
            }
        }
    }
}
