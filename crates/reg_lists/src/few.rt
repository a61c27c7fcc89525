//! A list of a fixed room, which takes no memory.

ghost use Rattle.std.specs.Prelude.{◌≡◌, ◌==◌, ◌<◌, ◌≤◌, ◌↔◌, [], ◌∷◌, ◌++◌, length, slice_get, slice_set, IsTrue, MatchBool};
ghost use Rattle.std.specs.Option.{option_copied};

use std::marker::Model;

/// At most `N` items, in order. Contracts see it as the list of them.
#[derive(Debug, Drop)]
pub struct Few<T: Copy, const N: usize> {
    items: [T; N],
    count: usize,
}

impl<T: Copy, const N: usize> Model for Few<T, N> {
    ghost use Rattle.std.specs.Prelude.{List, take, ◌≤◌};

    ghost Value = { List T };

    ghost view = { λ f. take f.count f.items };

    ghost invariant = { λ f. f.count ≤ N };
}

impl<T: Copy, const N: usize> Few<T, N> {
    /// Empty. The filler stands in the places that hold no item.
    pub fn new(filler: T) -> Self
        ensures empty { result ≡ [] }
    {
        Few {
            items: [filler; N],
            count: 0,
        }
    }

    /// Appends the item, or answers false and changes nothing exactly where there is no room.
    pub fn push(&mut self, item: T) -> bool
        ensures room { IsTrue result ↔ (length self.old < N) }
        ensures pushed { MatchBool result (self.new ≡ self.old ++ item ∷ []) (self.new ≡ self.old) }
    {
        if self.count == N {
            return false;
        }
        self.items[self.count] = item;
        self.count += 1;
        true
    }

    /// How many there are.
    pub fn len(&self) -> usize
        ensures len { result ≡ length self.now }
        ensures few { result ≤ N }
    {
        self.as_slice().len()
    }

    /// Whether there is none.
    pub fn is_empty(&self) -> bool
        ensures empty { result ≡ (length self.now == 0) }
    {
        self.as_slice().is_empty()
    }

    /// The item at place `k`, counted from 0, or `None` past the end.
    pub fn get(&self, k: usize) -> Option<&T>
        ensures item { option_copied result ≡ slice_get self.now k }
    {
        self.as_slice().get(k)
    }

    /// All of them.
    pub fn as_slice(&self) -> &[T]
        ensures items { result.now ≡ self.now }
        ensures few { length result.now ≤ N }
    {
        &self.items[..self.count]
    }

    /// The same items once more.
    pub fn same(&self) -> Self
        ensures same { result ≡ self.now }
    {
        Few {
            items: self.items,
            count: self.count,
        }
    }

    /// Puts the item in the place of the one at place `k`, counted from 0. Past the end nothing
    /// changes.
    pub fn set(&mut self, k: usize, item: T)
        requires within { k < N }
        ensures set { self.new ≡ slice_set self.old k item }
    {
        self.items[k] = item;
    }
}
