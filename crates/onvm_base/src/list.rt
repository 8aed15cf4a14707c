//! Lists over a `Vec`, which contracts see as lists.
ghost use Rattle.std.specs.Borrow.{sem};
ghost use Rattle.std.specs.List.Sorted.{IsPermutation, IsSortedByKeyClosure, IsStableByKeyClosure};
ghost use Rattle.std.specs.Prelude.{◌≡◌, ◌<◌, [], ◌∷◌, ◌++◌, length, slice_get, option_copied, option_to_list, IsTrue, ◌↔◌, IfNone, IfOk, OnOk, OnErr};
ghost use Rattle.onvm_base.specs.Lending.{lends_items};

use crate::refusal::NoMemory;
use std::alloc::Global;
use std::marker::Model;

/// A list of items in order.
#[derive(Debug, Drop)]
pub struct ListOf<T> {
    items: Vec<T>,
}

/// A name that a file gives to something.
pub type Name = ListOf<u8>;

/// Bytes of a text.
pub type Text = ListOf<u8>;

impl<T> Model for ListOf<T> {
    ghost use Rattle.std.specs.Prelude.{List};
    ghost use Rattle.std.specs.Coded.{coded_list};

    ghost Value = { List T };

    ghost coded = { coded_list T.code };

    ghost view = { λ l. l.items.items };
}

impl<T> ListOf<T> {
    /// No item. It takes no memory.
    pub fn make(alloc: Global) -> Self
        ensures { result ≡ [] }
    {
        ListOf {
            items: Vec::new(alloc),
        }
    }

    /// The items of a `Vec`. It takes no memory.
    pub fn from_vec(items: Vec<T>) -> Self
        ensures { result ≡ items.items }
    {
        ListOf { items }
    }

    pub fn len(&self) -> usize
        ensures { result ≡ length self.now }
    {
        self.items.len()
    }

    pub fn is_empty(&self) -> bool
        ensures { IsTrue result ↔ (length self.now ≡ 0) }
    {
        self.items.is_empty()
    }

    /// The item at a place, from 0.
    pub fn get(&self, at: usize) -> Option<&T>
        ensures { option_copied result ≡ slice_get self.now at }
    {
        self.items.get(at)
    }

    pub fn as_slice(&self) -> &[T]
        ensures { result.now ≡ self.now }
    {
        self.items.as_slice()
    }

    /// Takes the last item out. It takes no memory.
    pub fn pop(&mut self) -> Option<T>
        ensures taken { self.old ≡ self.new ++ option_to_list result }
        ensures none { IfNone result (length self.old ≡ 0) }
    {
        self.items.pop()
    }

    /// The items in a `Vec` of their own. It takes no memory.
    pub fn into_vec(self) -> Vec<T>
        ensures { result.items ≡ self }
    {
        self.items
    }

    /// The items, to be changed in place.
    pub fn as_mut_slice(&mut self) -> &mut [T]
        ensures* writes_back { sem 𝓛 (lends_items T.row self.entry result) }
        ensures value { result.now ≡ self.old }
    {
        self.items.as_mut_slice()
    }

    /// Puts the items in the order of their keys; those of one key keep their order. It takes memory
    /// for more than 20 items, and a refused one leaves the list as it was.
    pub fn sort_by_key<K: Ord, F: FnMut(&T) -> K>(&mut self, key: F) -> Result<(), NoMemory>
    where
        K: Drop,
        requires { F.IsAlwaysCallable key }
        ensures permutation { IsPermutation self.old self.new }
        ensures sorted { OnOk result (IsSortedByKeyClosure F.FnMut K.cmp key self.new) }
        ensures stable { IsStableByKeyClosure F.FnMut K.cmp key self.old self.new }
        ensures err { OnErr result (self.new ≡ self.old) }
    {
        self.items.sort_by_key(key)?;
        Ok(())
    }
}

impl<T: Copy> ListOf<T> {
    /// A copy of these items.
    pub fn from_slice(alloc: Global, items: &[T]) -> Result<Self, NoMemory>
        ensures { IfOk result (λ list. list ≡ items.now) }
    {
        Ok(ListOf {
            items: Vec::from_slice(alloc, items)?,
        })
    }
}

impl<T: Drop> ListOf<T> {
    /// Appends an item. A refused one is dropped, and the list stays as it was.
    pub fn push(&mut self, item: T) -> Result<(), NoMemory>
        ensures ok { OnOk result (self.new ≡ self.old ++ item ∷ []) }
        ensures err { OnErr result (self.new ≡ self.old) }
    {
        self.items.push(item)?;
        Ok(())
    }
}
