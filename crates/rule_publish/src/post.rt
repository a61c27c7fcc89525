//! Where a Looker, a Look or a Note stands.
ghost use Rattle.std.specs.Prelude.{◌≡◌, ◌≤◌};
ghost use Rattle.rule_publish.specs.inner.Kept.{kept_by};

use crate::numbered::Numbered;
use crate::rule::Rises;
use crate::seat::{Seat, moved_on};
use std::alloc::Global;
use std::sync::Arc;

/// At a seat of the board, or without one: then it shows what it keeps.
#[derive(Drop)]
pub(crate) enum Post<V: Numbered + Drop> {
    Seated(Seat<V, Rises>),
    Standing(Arc<V, Global>),
}

impl<V: Numbered + Drop> Post<V> {
    /// The value that it keeps.
    pub(crate) fn kept(&self) -> &V
        ensures kept { result.now ≡ kept_by self.now }
    {
        match self {
            Post::Seated(seat) => &seat.kept,
            Post::Standing(kept) => kept,
        }
    }

    /// The post after a look at the board.
    pub(crate) fn looking(self) -> Post<V>
        ensures number { V.number (kept_by self) ≤ V.number (kept_by result) }
        ensures name { V.name (kept_by result) ≡ V.name (kept_by self) }
    {
        match self {
            Post::Seated(seat) => Post::Seated(moved_on(seat)),
            Post::Standing(kept) => Post::Standing(kept),
        }
    }
}
