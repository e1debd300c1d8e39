//! The list type of public data, which contracts see as a list.
ghost use Rattle.std.specs.Prelude.{◌≡◌, ◌<◌, [], ◌∷◌, ◌++◌, length, List, slice_set, OnOk, OnErr, IfOk};

use std::alloc::{AllocError, Global};
use std::marker::Model;

/// A list. It is made from a `Vec`, and gives it back, without taking memory.
#[derive(Drop)]
pub struct Items<T> {
    items: Vec<T>,
}

impl<T> Model for Items<T> {
    ghost use Rattle.std.specs.Prelude.{List};

    ghost Value = { List T };

    ghost view = { λ s. s.items.items };
}

/// Bytes.
pub type ByteList = Items<u8>;

impl<T> Items<T> {
    /// No items.
    pub fn new(alloc: Global) -> Self
        ensures { result ≡ [] }
    {
        Items {
            items: Vec::new(alloc),
        }
    }

    /// The items of a `Vec`.
    pub fn of(items: Vec<T>) -> Self
        ensures { result ≡ items.items }
    {
        Items { items }
    }

    pub fn as_slice(&self) -> &[T]
        ensures { result.now ≡ self.now }
    {
        self.items.as_slice()
    }

    pub fn into_vec(self) -> Vec<T>
        ensures { result.items ≡ self }
    {
        self.items
    }
}

impl<T: Copy> Items<T> {
    /// A copy of a slice.
    pub fn from_slice(alloc: Global, items: &[T]) -> Result<Self, AllocError>
        ensures { IfOk result (λ s. s ≡ items.now) }
    {
        let items = Vec::from_slice(alloc, items)?;
        Ok(Items { items })
    }
}

impl<T: Drop> Items<T> {
    /// Adds an item at the end.
    pub fn push(&mut self, item: T) -> Result<(), AllocError>
        ensures ok { OnOk result (self.new ≡ self.old ++ item ∷ []) }
        ensures err { OnErr result (self.new ≡ self.old) }
    {
        self.items.push(item)?;
        Ok(())
    }

    /// Replaces the item at a place.
    pub fn set(&mut self, at: usize, item: T)
        requires { at < length self.old }
        ensures { self.new ≡ slice_set self.old at item }
    {
        self.items[at] = item;
    }
}

/// Data of which an equal copy can be made in new memory.
pub trait DeepCopy: Sized {
    fn deep_copy(&self, alloc: Global) -> Result<Self, AllocError>
        ensures { IfOk result (λ t. t ≡ self.now) };
}

/// A copy of each item.
pub fn copy_all<T: DeepCopy + Drop>(alloc: Global, items: &[T]) -> Result<Items<T>, AllocError>
    ensures { IfOk result (λ s. s ≡ items.now) }
{
    let mut copies = Items::new(alloc);
    for item in items {
        copies.push(item.deep_copy(alloc)?)?;
    }
    Ok(copies)
}

impl<T: DeepCopy + Drop> DeepCopy for Items<T> {
    fn deep_copy(&self, alloc: Global) -> Result<Items<T>, AllocError> {
        copy_all(alloc, self.items.as_slice())
    }
}

impl<T: DeepCopy> DeepCopy for Option<T> {
    fn deep_copy(&self, alloc: Global) -> Result<Option<T>, AllocError> {
        match self {
            Some(x) => Ok(Some(x.deep_copy(alloc)?)),
            None => Ok(None),
        }
    }
}
