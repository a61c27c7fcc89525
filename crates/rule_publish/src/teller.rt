//! The writer's end of a board that threads share.
ghost use Rattle.std.specs.Prelude.{◌≡◌};
ghost use Rattle.rule_publish.specs.Shown.{shown_by, told_by};

use crate::board::Board;
use crate::note::Note;
use crate::numbered::Numbered;
use crate::pen::Pen;
use crate::rule::Rises;
use crate::sheet::Sheet;
use crate::showing::show;
use crate::telling::noted;
use left_right::Absorb;
use reg_lists::OutOfMemory;
use std::alloc::Global;
use std::sync::{Arc, Wait};

/// The one writer of a board that threads share. It waits by its `rt` for readers that are inside while it swaps.
pub struct Teller<V: Numbered + Drop, R: Wait + Drop>
where
    Sheet<V>: Absorb<Arc<V, Global>>,
{
    pub(crate) pen: Pen<V, Rises>,
    pub(crate) rt: R,
}

impl<V: Numbered + Drop, R: Wait + Drop> Teller<V, R> {
    /// Tells what is shown now, for a `Looker` to learn. It takes no memory.
    pub fn tell(self) -> (Teller<V, R>, Note<V>)
        ensures shown { shown_by result.0 ≡ shown_by self }
        ensures told { told_by result.1 ≡ shown_by self }
    {
        let Teller { mut pen, rt } = self;
        let note = noted(&rt, &mut pen);
        (Teller { pen, rt }, note)
    }

    /// Ends the board: readers then show what they keep. It takes no memory, and waits for readers that are inside.
    pub fn close(self) {
        let Teller { pen, rt } = self;
        let Pen { writer } = pen;
        drop(writer.take(&rt));
    }
}

impl<V: Numbered + Drop, R: Wait + Drop> Board<V> for Teller<V, R> {
    ghost shows = { shown_by };

    /// Memory is found, or not, before anything is swapped. It may wait for readers that are inside.
    fn publish(self, alloc: Global, value: V) -> (Teller<V, R>, Result<(), OutOfMemory>) {
        let Teller { pen, rt } = self;
        let (pen, done) = show(&rt, pen, alloc, value);
        (Teller { pen, rt }, done)
    }

    fn shown_number(&self) -> u64 {
        self.pen.writer.published().value.number()
    }
}

impl<V: Numbered + Drop, R: Wait + Drop> Drop for Teller<V, R> {
    fn drop(self) {
        self.close();
    }
}
