//! How a board that threads share begins.
ghost use Rattle.std.specs.Prelude.{◌≡◌, ◌≤◌, [], drop, length, All, IfOk};
ghost use Rattle.std.specs.Arc.{arc_value};
ghost use Rattle.left_right.specs.Sides.{view};
ghost use Rattle.rule_publish.specs.Shown.{shown_by, seen_by, lookers_of};
ghost use Rattle.rule_publish.specs.inner.Views.{fresh};
ghost use Rattle.rule_publish.specs.inner.Written.{written_by};

use crate::list::LookerList;
use crate::look::Looker;
use crate::numbered::Numbered;
use crate::pen::Pen;
use crate::rule::{Rises, View};
use crate::sheet::Sheet;
use crate::showing::turned;
use crate::teller::Teller;
use crate::telling::note_of;
use left_right::writer::Writer;
use reg_lists::OutOfMemory;
use std::alloc::Global;
use std::sync::{Arc, Wait};

/// A board of two copies that are swapped at each publish, for one writer and readers on threads of their own.
pub struct SwapBoard;

impl SwapBoard {
    /// Opens a board for 1 to 8 readers, which shows the first value. The Teller keeps `rt`, and waits by it.
    pub fn open<V: Numbered + Drop, R: Wait + Drop>(
        rt: R,
        alloc: Global,
        first: V,
        readers: u8,
    ) -> Result<(Teller<V, R>, LookerList<V>), OutOfMemory>
        requires readers { (1 ≤ readers) × (readers ≤ 8) }
        ensures shown { IfOk result (λ t. shown_by t.0 ≡ first) }
        ensures readers { IfOk result (λ t. length (lookers_of t.1) ≡ readers) }
        ensures seen { IfOk result (λ t. All (λ l. seen_by l ≡ first) (lookers_of t.1)) }
    {
        let writer = blank(alloc, first, readers)?;
        let mut pen = begun(&rt, writer)?;
        match seated(alloc, &mut pen, readers) {
            Ok(lookers) => Ok((Teller { pen, rt }, lookers)),
            Err(e) => {
                Teller { pen, rt }.close();
                Err(e)
            }
        }
    }
}

/// A writer that shows the value, and knows nothing yet. Each reader has a place, and so has a note for each.
fn blank<V: Numbered + Drop>(
    alloc: Global,
    first: V,
    readers: u8,
) -> Result<Writer<Sheet<V>, Arc<V, Global>, View<V::Name>, Rises>, OutOfMemory>
    ensures shown { IfOk result (λ w. arc_value w.desk.shown.value.value ≡ first) }
    ensures pending { IfOk result (λ w. drop w.behind w.log.items ≡ []) }
    ensures view { IfOk result (λ w. view w.desk.place ≡ fresh) }
{
    let value = Arc::new(alloc, first)?;
    let spare = Sheet {
        value: Arc::try_clone(&value)?,
    };
    let places = 2 * readers as usize + 1;
    Ok(Writer::new(alloc, Sheet { value }, spare, places)?)
}

/// Publishes the value that is shown once more: so the writer learns its number and its name.
fn begun<V: Numbered + Drop, R: Wait>(
    rt: &R,
    writer: Writer<Sheet<V>, Arc<V, Global>, View<V::Name>, Rises>,
) -> Result<Pen<V, Rises>, OutOfMemory>
    requires pending { drop writer.behind writer.log.items ≡ [] }
    ensures shown { IfOk result (λ p. written_by p ≡ arc_value writer.desk.shown.value.value) }
{
    let mut writer = writer;
    let again = match Arc::try_clone(&writer.published().value) {
        Ok(again) => again,
        Err(_) => {
            drop(writer.take(rt));
            return Err(OutOfMemory);
        }
    };
    match writer.append(again) {
        Ok(()) => {}
        Err(_) => {
            drop(writer.take(rt));
            return Err(OutOfMemory);
        }
    }
    let (writer, turn) = turned(rt, writer);
    match turn {
        Ok(()) => Ok(Pen { writer }),
        Err(_) => {
            drop(writer.take(rt));
            Err(OutOfMemory)
        }
    }
}

/// So many readers, each told what is shown.
fn seated<V: Numbered + Drop>(
    alloc: Global,
    pen: &mut Pen<V, Rises>,
    readers: u8,
) -> Result<LookerList<V>, OutOfMemory>
    ensures shown { written_by pen.new ≡ written_by pen.old }
    ensures readers { IfOk result (λ l. length (lookers_of l) ≡ readers) }
    ensures seen { IfOk result (λ l. All (λ k. seen_by k ≡ written_by pen.old) (lookers_of l)) }
{
    let mut lookers = LookerList::new(alloc);
    for _seat in 0..readers {
        let note = note_of(pen)?;
        lookers.push(Looker { post: note.post })?;
    }
    Ok(lookers)
}
