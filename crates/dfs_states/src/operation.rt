//! Operations of the slots' interfaces.

ghost use Rattle.std.specs.Prelude.{◌↔◌, IsTrue, Any};
ghost use Rattle.dfs_states.specs.inner.Steps.{OperatesOn};

use chan_def::{ChanDef, covers};

/// Whether the operation covers the channel of this centre, in kHz.
fn operates_on(khz: u32, operation: &Option<ChanDef>) -> bool
    ensures { IsTrue result ↔ OperatesOn khz operation.now }
{
    match operation {
        Some(chan) => covers(chan, khz),
        None => false,
    }
}

/// Whether some operation covers the channel of this centre, in kHz.
pub(crate) fn some_operates_on(khz: u32, operations: &[Option<ChanDef>]) -> bool
    ensures { IsTrue result ↔ Any (OperatesOn khz) operations.now }
{
    operations
        .iter()
        .any(|operation| operates_on(khz, operation))
}
