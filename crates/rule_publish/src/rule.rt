//! The rule of a board, which each of its four kinds of step keeps: publish, look, tell and learn.
ghost use Rattle.std.specs.Arc.{arc_value};
ghost use Rattle.rule_publish.specs.inner.Views.{fresh, EachSuits, Sees, later};

use crate::numbered::Numbered;
use crate::sheet::Sheet;
use atomic_table::{Join, Split};
use crossbeam_utils::rule::{Outcome, Protocol};

/// What a seat at the board knows: the number of a value that was shown, and its name. The writer, each reader and each
/// note has a seat. No value of it is made.
pub struct View<N> {
    pub number: u64,
    pub name: Option<N>,
}

/// No seat knows of a later number than the one that is shown, nor of another name.
pub struct Rises;

impl<V: Numbered + Drop> Protocol<Sheet<V>, View<V::Name>> for Rises {
    ghost holds = { λ s. EachSuits (V.number (arc_value s.value)) (V.name (arc_value s.value)) };

    ghost first = { fresh };
}

/// A look, or a publish: the seat then knows the value that is shown.
pub(crate) struct Looks;

impl<V: Numbered + Drop> Outcome<Sheet<V>, View<V::Name>> for Looks {
    ghost then = { λ v x y w. Sees (V.number (arc_value x.value)) (V.name (arc_value x.value)) (V.number (arc_value y.value)) (V.name (arc_value y.value)) v w };
}

/// A tell: the note's seat knows what the writer's knows.
pub(crate) struct Told;

impl<N> Split<View<N>> for Told {
    ghost left = { λ v. v };

    ghost right = { λ v. v };
}

/// A learn: the seat knows the later of what it knew and of what the note's knew, which then knows nothing.
pub(crate) struct Learnt;

impl<N> Join<View<N>> for Learnt {
    ghost both = { later };

    ghost spent = { fresh };
}
