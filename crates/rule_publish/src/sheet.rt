//! What the two copies of a board hold.
ghost use Rattle.std.specs.Arc.{arc_value};

use crate::numbered::Numbered;
use left_right::Absorb;
use std::alloc::{AllocError, Global};
use std::sync::Arc;

/// One of the two copies: the value behind an `Arc`, so that a copy takes it over without copying any table.
#[derive(Drop)]
pub struct Sheet<V: Numbered + Drop> {
    pub value: Arc<V, Global>,
}

impl<V: Numbered + Drop> Absorb<Arc<V, Global>> for Sheet<V> {
    type State = V;

    ghost state = { λ s. arc_value s.value };

    ghost applied = { λ _ next. arc_value next };

    fn absorb_first(&mut self, next: &Arc<V, Global>, _other: &Sheet<V>) -> Result<(), AllocError> {
        self.value = Arc::try_clone(next)?;
        Ok(())
    }
}
