//! A reader's seat at the board.
ghost use Rattle.std.specs.Prelude.{◌≡◌, ◌≤◌, Some, MatchOption};
ghost use Rattle.std.specs.Arc.{arc_value};
ghost use Rattle.left_right.specs.Sides.{view};
ghost use Rattle.rule_publish.specs.inner.Views.{known, Suits, ViewRose};

use crate::numbered::Numbered;
use crate::rule::{Looks, Rises, View};
use crate::sheet::Sheet;
use crossbeam_utils::rule::Protocol;
use left_right::reader::Reader;
use std::alloc::Global;
use std::sync::Arc;

/// A reader, and the latest value that it saw or was told of.
#[derive(Drop)]
pub(crate) struct Seat<V: Numbered + Drop, P: Protocol<Sheet<V>, View<V::Name>>> {
    pub reader: Reader<Sheet<V>, View<V::Name>, P>,
    pub kept: Arc<V, Global>,
    ghost low: { V.number (arc_value kept) ≤ (view reader.place).number },
    ghost named: { ∥ (view reader.place).name ≡ Some (V.name (arc_value kept)) ∥₁ },
}

/// Looks at the board for a moment, and takes the value that it shows; none where the writer is gone, or the value has as
/// many owners as can be counted.
fn glance<V: Numbered + Drop>(
    reader: Reader<Sheet<V>, View<V::Name>, Rises>,
) -> (
    Reader<Sheet<V>, View<V::Name>, Rises>,
    Option<Arc<V, Global>>,
)
    ensures seen { MatchOption result.1 (ViewRose (view reader.place) (view result.0.place)) (λ a. Suits (V.number (arc_value a)) (V.name (arc_value a)) (view reader.place) × (view result.0.place ≡ known (V.number (arc_value a)) (V.name (arc_value a)))) }
{
    match reader.enter_as::<Looks>() {
        Ok(reading) => {
            let seen = Arc::try_clone(&reading.get().value).ok();
            (reading.leave(), seen)
        }
        Err(reader) => (reader, None),
    }
}

/// The seat after a look. It keeps what it kept where nothing was seen.
pub(crate) fn moved_on<V: Numbered + Drop>(seat: Seat<V, Rises>) -> Seat<V, Rises>
    ensures number { V.number (arc_value seat.kept) ≤ V.number (arc_value result.kept) }
    ensures name { V.name (arc_value result.kept) ≡ V.name (arc_value seat.kept) }
{
    let Seat { reader, kept } = seat;
    let (reader, seen) = glance(reader);
    if let Some(later) = seen {
        return Seat {
            reader,
            kept: later,
        };
    }
    Seat { reader, kept }
}
