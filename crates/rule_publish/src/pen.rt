//! What a Teller writes with.
ghost use Rattle.std.specs.Prelude.{◌≡◌};
ghost use Rattle.std.specs.Arc.{arc_value};
ghost use Rattle.left_right.specs.Sides.{view};
ghost use Rattle.rule_publish.specs.inner.Views.{known};

use crate::numbered::Numbered;
use crate::rule::View;
use crate::sheet::Sheet;
use crossbeam_utils::rule::Protocol;
use left_right::Absorb;
use left_right::writer::Writer;
use std::alloc::Global;
use std::sync::Arc;

/// A writer that knows the value that it shows: its view has that value's number, and its name.
pub(crate) struct Pen<V: Numbered + Drop, P: Protocol<Sheet<V>, View<V::Name>>>
where
    Sheet<V>: Absorb<Arc<V, Global>>,
{
    pub writer: Writer<Sheet<V>, Arc<V, Global>, View<V::Name>, P>,
    ghost knows: { ∥ view writer.desk.place ≡ known (V.number (arc_value writer.desk.shown.value.value)) (V.name (arc_value writer.desk.shown.value.value)) ∥₁ },
}
