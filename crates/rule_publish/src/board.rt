//! Boards.
ghost use Rattle.std.specs.Prelude.{◌≡◌, ◌≤◌, MatchResult};

use crate::numbered::Numbered;
use reg_lists::OutOfMemory;
use std::alloc::Global;

/// What shows one value, the one that was published last.
pub trait Board<V: Numbered> {
    ghost shows: { Self → V };

    /// Shows the value in place of the one that was shown, and hands the board back. After `OutOfMemory` it shows
    /// what it showed, and the value is dropped, at once or by the next publish.
    fn publish(self, alloc: Global, value: V) -> (Self, Result<(), OutOfMemory>)
    where
        Self: Sized,
        requires number { V.number (shows self) ≤ V.number value }
        requires name { V.name value ≡ V.name (shows self) }
        ensures shown { MatchResult result.1 (λ _. shows result.0 ≡ value) (λ _. shows result.0 ≡ shows self) };

    /// The number of the value that is shown.
    fn shown_number(&self) -> u64
        ensures number { result ≡ V.number (shows self.now) };
}
