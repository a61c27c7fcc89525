//! What comes of a request to operations and checks other than its own.

ghost use Rattle.std.specs.Prelude.{◌≡◌, ◌==◌, ◌<◌, ◌↔◌, [], ◌∷◌, ◌++◌, length, slice_get, IsTrue, MatchBool};
ghost use Rattle.std.specs.Option.{option_copied};

use radio_drv::Name;
use reg_lists::Few;
use std::marker::Model;

/// What came to an interface.
#[derive(Clone, Copy, Debug, PartialEq, Eq)]
pub enum Effect {
    /// Its operation was stopped.
    Stopped(Name),
    /// Its check was dropped.
    Dropped(Name),
    /// Its operation goes on with this power, in mBm.
    Power(Name, u16),
}

/// The most effects of a reply: one for each of eight interfaces on each of eight radios.
pub const MOST_EFFECTS: usize = 64;

/// At most 64 effects, in order.
#[derive(Debug, Drop)]
pub struct Effects {
    items: Few<Effect, MOST_EFFECTS>,
}

impl Model for Effects {
    ghost use Rattle.std.specs.Prelude.{List};
    ghost use Rattle.reg_journal.specs.declared.effects.Effect.{Effect};

    ghost Value = { List Effect };

    ghost view = { λ e. e.items };
}

/// Stands in the places that hold no effect.
fn filler() -> Effect {
    match Name::new(b"-") {
        Some(name) => Effect::Stopped(name),
        None => unreachable!(),
    }
}

impl Effects {
    /// No effects.
    pub fn new() -> Effects
        ensures empty { result ≡ [] }
    {
        Effects {
            items: Few::new(filler()),
        }
    }

    /// Appends the effect, or answers false and changes nothing exactly where there are 64.
    pub fn push(&mut self, item: Effect) -> bool
        ensures full { IsTrue result ↔ (length self.old < MOST_EFFECTS) }
        ensures pushed { MatchBool result (self.new ≡ self.old ++ item ∷ []) (self.new ≡ self.old) }
    {
        self.items.push(item)
    }

    /// How many there are.
    pub fn len(&self) -> usize
        ensures len { result ≡ length self.now }
    {
        self.items.len()
    }

    /// Whether there is none.
    pub fn is_empty(&self) -> bool
        ensures empty { result ≡ (length self.now == 0) }
    {
        self.items.is_empty()
    }

    /// The effect at place `k`, counted from 0, or `None` past the end.
    pub fn get(&self, k: usize) -> Option<&Effect>
        ensures item { option_copied result ≡ slice_get self.now k }
    {
        self.items.get(k)
    }

    /// All of them.
    pub fn as_slice(&self) -> &[Effect]
        ensures items { result.now ≡ self.now }
    {
        self.items.as_slice()
    }
}
