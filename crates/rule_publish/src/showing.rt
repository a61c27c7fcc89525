//! How a value comes to be shown.
ghost use Rattle.std.specs.Prelude.{◌≡◌, ◌≤◌, drop, MatchResult};
ghost use Rattle.std.specs.Arc.{arc_value};
ghost use Rattle.left_right.specs.Sides.{view};
ghost use Rattle.rule_publish.specs.inner.Views.{known};
ghost use Rattle.rule_publish.specs.inner.Written.{written_by, latest};

use crate::numbered::Numbered;
use crate::pen::Pen;
use crate::rule::{Looks, Rises, View};
use crate::sheet::Sheet;
use left_right::writer::Writer;
use reg_lists::OutOfMemory;
use std::alloc::{AllocError, Global};
use std::sync::{Arc, Wait};

/// Shows what is pending, and waits for the readers of the copy that it changes. At `Err` nothing has changed.
pub(crate) fn turned<V: Numbered + Drop, R: Wait>(
    rt: &R,
    writer: Writer<Sheet<V>, Arc<V, Global>, View<V::Name>, Rises>,
) -> (
    Writer<Sheet<V>, Arc<V, Global>, View<V::Name>, Rises>,
    Result<(), AllocError>,
)
    requires number { V.number (arc_value writer.desk.shown.value.value) ≤ V.number (latest (arc_value writer.desk.shown.value.value) (drop writer.behind writer.log.items)) }
    requires name { V.name (latest (arc_value writer.desk.shown.value.value) (drop writer.behind writer.log.items)) ≡ V.name (arc_value writer.desk.shown.value.value) }
    ensures shown { MatchResult result.1 (λ _. arc_value result.0.desk.shown.value.value ≡ latest (arc_value writer.desk.shown.value.value) (drop writer.behind writer.log.items)) (λ _. arc_value result.0.desk.shown.value.value ≡ arc_value writer.desk.shown.value.value) }
    ensures view { MatchResult result.1 (λ _. view result.0.desk.place ≡ known (V.number (arc_value result.0.desk.shown.value.value)) (V.name (arc_value result.0.desk.shown.value.value))) (λ _. view result.0.desk.place ≡ view writer.desk.place) }
{
    writer.publish_as::<Looks, R>(rt)
}

/// Shows the value in place of the one that was shown. Memory is found, or not, before anything is swapped.
pub(crate) fn show<V: Numbered + Drop, R: Wait>(
    rt: &R,
    pen: Pen<V, Rises>,
    alloc: Global,
    value: V,
) -> (Pen<V, Rises>, Result<(), OutOfMemory>)
    requires number { V.number (written_by pen) ≤ V.number value }
    requires name { V.name value ≡ V.name (written_by pen) }
    ensures shown { MatchResult result.1 (λ _. written_by result.0 ≡ value) (λ _. written_by result.0 ≡ written_by pen) }
{
    let Pen { mut writer } = pen;
    let next = match Arc::new(alloc, value) {
        Ok(next) => next,
        Err(_) => return (Pen { writer }, Err(OutOfMemory)),
    };
    match writer.append(next) {
        Ok(()) => {}
        Err(_) => return (Pen { writer }, Err(OutOfMemory)),
    }
    let (writer, turn) = turned(rt, writer);
    match turn {
        Ok(()) => (Pen { writer }, Ok(())),
        Err(_) => (Pen { writer }, Err(OutOfMemory)),
    }
}
