//! How notes are made.
ghost use Rattle.std.specs.Prelude.{◌≡◌, IfOk};
ghost use Rattle.rule_publish.specs.inner.Kept.{kept_by};
ghost use Rattle.rule_publish.specs.inner.Written.{written_by};

use crate::note::Note;
use crate::numbered::Numbered;
use crate::pen::Pen;
use crate::post::Post;
use crate::rule::{Learnt, Rises, Told};
use crate::seat::Seat;
use std::alloc::AllocError;
use std::sync::{Arc, Wait};

/// A note of the value that is shown. Its seat has learnt already what the writer knows; where no place is free, it has none.
/// Fails where the value has as many owners as can be counted.
pub(crate) fn note_of<V: Numbered + Drop>(pen: &mut Pen<V, Rises>) -> Result<Note<V>, AllocError>
    ensures shown { written_by pen.new ≡ written_by pen.old }
    ensures note { IfOk result (λ n. kept_by n.post ≡ written_by pen.old) }
{
    let kept = Arc::try_clone(&pen.writer.published().value)?;
    match pen.writer.factory().reader() {
        Ok(mut reader) => {
            reader.learn::<Learnt>(pen.writer.tell::<Told>());
            let seat = Seat { reader, kept };
            Ok(Note {
                post: Post::Seated(seat),
            })
        }
        Err(_) => Ok(Note {
            post: Post::Standing(kept),
        }),
    }
}

/// A note of the value that is shown, however often it has to be tried.
pub(crate) fn noted<V: Numbered + Drop, R: Wait>(rt: &R, pen: &mut Pen<V, Rises>) -> Note<V>
    ensures shown { written_by pen.new ≡ written_by pen.old }
    ensures note { kept_by result.post ≡ written_by pen.old }
{
    for _ in rt.forever() {
        if let Ok(note) = note_of(pen) {
            return note;
        }
    }
    unreachable!()
}
