//! A list that grows.

ghost use Rattle.std.specs.Prelude.{◌≡◌, ◌==◌, ◌<◌, ◌+◌, [], ◌∷◌, ◌++◌, Some, drop, length, slice_get, take, IfOk, OnOk, OnErr};
ghost use Rattle.std.specs.Borrow.{Array, Lends, sem};
ghost use Rattle.std.specs.Option.{option_copied};
ghost use Rattle.reg_lists.specs.contracts.seq.Seq.{the_row};

use crate::errors::OutOfMemory;
use std::alloc::Global;
use std::marker::Model;

/// A list that grows. Contracts see it as the list of its items.
#[derive(Debug, Drop)]
pub struct Seq<T: Drop> {
    items: Vec<T>,
}

impl<T: Drop> Model for Seq<T> {
    ghost use Rattle.std.specs.Prelude.{List};

    ghost Value = { List T };

    ghost view = { λ s. s.items.items };
}

impl<T: Drop> Seq<T> {
    /// Empty. It takes no memory until the first item comes.
    pub fn new(alloc: Global) -> Self
        ensures empty { result ≡ [] }
    {
        Seq {
            items: Vec::new(alloc),
        }
    }

    /// Empty, with room for so many items.
    pub fn with_capacity(alloc: Global, room: usize) -> Result<Self, OutOfMemory>
        ensures empty { IfOk result (λ s. s ≡ []) }
    {
        Ok(Seq {
            items: Vec::with_capacity(alloc, room)?,
        })
    }

    /// Where it takes memory from.
    pub fn allocator(&self) -> Global {
        *self.items.allocator()
    }

    /// Appends the item. `OutOfMemory` changes nothing.
    pub fn push(&mut self, item: T) -> Result<(), OutOfMemory>
        ensures ok { OnOk result (self.new ≡ self.old ++ item ∷ []) }
        ensures err { OnErr result (self.new ≡ self.old) }
    {
        self.items.push(item)?;
        Ok(())
    }

    /// Takes out the item at place `k`, counted from 0. Those behind it move up by one, in their order.
    pub fn remove(&mut self, k: usize) -> T
        requires within { k < length self.old }
        ensures rest { self.new ≡ take k self.old ++ drop (k + 1) self.old }
        ensures item { Some result ≡ slice_get self.old k }
    {
        self.items.remove(k)
    }

    /// Drops all items, and keeps their room.
    pub fn clear(&mut self)
        ensures empty { self.new ≡ [] }
    {
        self.items.clear();
    }

    /// How many there are.
    pub fn len(&self) -> usize
        ensures len { result ≡ length self.now }
    {
        self.items.len()
    }

    /// Whether there is none.
    pub fn is_empty(&self) -> bool
        ensures empty { result ≡ (length self.now == 0) }
    {
        self.items.is_empty()
    }

    /// The item at place `k`, counted from 0, or `None` past the end.
    pub fn get(&self, k: usize) -> Option<&T>
        ensures item { option_copied result ≡ slice_get self.now k }
    {
        self.items.get(k)
    }

    /// All of them, to be changed in place.
    pub fn as_mut_slice(&mut self) -> &mut [T]
        ensures* writes_back { sem 𝓛 (Lends (the_row T.row) (Array T.row 0) self.entry result (λ w. take (length self.old) (w ++ drop (length w) self.old))) }
        ensures items { result.now ≡ self.old }
    {
        self.items.as_mut_slice()
    }

    /// All of them.
    pub fn as_slice(&self) -> &[T]
        ensures items { result.now ≡ self.now }
    {
        self.items.as_slice()
    }
}

impl<T: Copy + Drop> Seq<T> {
    /// Appends all items of the piece. `OutOfMemory` changes nothing.
    pub fn append(&mut self, piece: &[T]) -> Result<(), OutOfMemory>
        ensures ok { OnOk result (self.new ≡ self.old ++ piece.now) }
        ensures err { OnErr result (self.new ≡ self.old) }
    {
        self.items.extend_from_slice(piece)?;
        Ok(())
    }
}
