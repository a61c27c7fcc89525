//! A board for one thread.
ghost use Rattle.std.specs.Prelude.{◌≡◌};

use crate::board::Board;
use crate::numbered::Numbered;
use reg_lists::OutOfMemory;
use std::alloc::Global;
use std::marker::Model;

/// A board that keeps the one value. Contracts see it as that value.
#[derive(Drop)]
pub struct PlainBoard<V: Numbered + Drop> {
    value: V,
}

impl<V: Numbered + Drop> Model for PlainBoard<V> {
    ghost Value = { V };

    ghost view = { λ b. b.value };
}

impl<V: Numbered + Drop> PlainBoard<V> {
    /// A board that shows the value.
    pub fn new(first: V) -> PlainBoard<V>
        ensures first { result ≡ first }
    {
        PlainBoard { value: first }
    }
}

impl<V: Numbered + Drop> Board<V> for PlainBoard<V> {
    ghost shows = { λ b. b };

    fn publish(self, _alloc: Global, value: V) -> (PlainBoard<V>, Result<(), OutOfMemory>) {
        (PlainBoard { value }, Ok(()))
    }

    fn shown_number(&self) -> u64 {
        self.value.number()
    }
}
