//! The readers of a board, before they are handed out.
ghost use Rattle.std.specs.Prelude.{◌≡◌, ◌==◌, ◌∷◌, [], ◌++◌, length, OnOk, MatchOption};
ghost use Rattle.rule_publish.specs.Shown.{lookers_of};

use crate::look::Looker;
use crate::numbered::Numbered;
use reg_lists::OutOfMemory;
use std::alloc::Global;

/// Readers, which are taken out one by one.
#[derive(Drop)]
pub struct LookerList<V: Numbered + Drop> {
    items: Vec<Looker<V>>,
}

impl<V: Numbered + Drop> LookerList<V> {
    pub(crate) fn new(alloc: Global) -> LookerList<V>
        ensures empty { lookers_of result ≡ [] }
    {
        LookerList {
            items: Vec::new(alloc),
        }
    }

    pub(crate) fn push(&mut self, looker: Looker<V>) -> Result<(), OutOfMemory>
        ensures pushed { OnOk result (lookers_of self.new ≡ lookers_of self.old ++ looker ∷ []) }
    {
        self.items.push(looker)?;
        Ok(())
    }

    /// How many there are.
    pub fn len(&self) -> usize
        ensures len { result ≡ length (lookers_of self.now) }
    {
        self.items.len()
    }

    /// Whether there is none.
    pub fn is_empty(&self) -> bool
        ensures empty { result ≡ (length (lookers_of self.now) == 0) }
    {
        self.items.is_empty()
    }

    /// Takes out the last one. None exactly where there is none.
    pub fn take(&mut self) -> Option<Looker<V>>
        ensures last { MatchOption result ((lookers_of self.old ≡ []) × (lookers_of self.new ≡ [])) (λ l. lookers_of self.old ≡ lookers_of self.new ++ l ∷ []) }
    {
        self.items.pop()
    }
}
