//! A growable list, which contracts see as a list.
ghost use Rattle.std.specs.Prelude.{◌≡◌, [], ◌∷◌, ◌++◌, IfOk, OnOk, OnErr};

use df1_base::NoMemory;
use std::alloc::Global;
use std::marker::Model;

/// Bytes, as of a message or a payload.
pub type Bytes = Items<u8>;

/// A list of items, in memory of the allocator that it was made with.
#[derive(Drop)]
pub struct Items<T> {
    items: Vec<T>,
}

impl<T> Model for Items<T> {
    ghost use Rattle.std.specs.Prelude.{List};

    ghost Value = { List T };

    ghost view = { λ i. i.items.items };
}

impl<T> Items<T> {
    /// Returns an empty list.
    pub fn new(alloc: Global) -> Self
        ensures { result ≡ [] }
    {
        Items {
            items: Vec::new(alloc),
        }
    }

    /// Returns the items of a vector as a list.
    pub fn from_vec(items: Vec<T>) -> Self
        ensures { result ≡ items.items }
    {
        Items { items }
    }

    /// Returns a list with a copy of these items.
    pub fn copy_of(alloc: Global, items: &[T]) -> Result<Self, NoMemory>
    where
        T: Copy,
        ensures { IfOk result (λ copy. copy ≡ items.now) }
    {
        let mut copy = Vec::new(alloc);
        copy.extend_from_slice(items)?;
        Ok(Items { items: copy })
    }

    /// Appends an item. Without memory for it, the list is unchanged.
    pub fn push(&mut self, item: T) -> Result<(), NoMemory>
    where
        T: Drop,
        ensures ok { OnOk result (self.new ≡ self.old ++ item ∷ []) }
        ensures err { OnErr result (self.new ≡ self.old) }
    {
        match self.items.push(item) {
            Ok(()) => Ok(()),
            Err(refused) => Err(refused.into()),
        }
    }

    /// Appends copies of these items. Without memory for them, the list is unchanged.
    pub fn extend(&mut self, items: &[T]) -> Result<(), NoMemory>
    where
        T: Copy,
        ensures ok { OnOk result (self.new ≡ self.old ++ items.now) }
        ensures err { OnErr result (self.new ≡ self.old) }
    {
        Ok(self.items.extend_from_slice(items)?)
    }

    /// Drops all items, and keeps the memory for as many.
    pub fn clear(&mut self)
    where
        T: Drop,
        ensures { self.new ≡ [] }
    {
        self.items.clear();
    }

    /// Returns the items, the first one first.
    pub fn as_slice(&self) -> &[T]
        ensures { result.now ≡ self.now }
    {
        &self.items
    }
}
