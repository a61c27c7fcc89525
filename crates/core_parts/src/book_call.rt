//! What a radio's book is told.

use chan_def::ChanDef;
use dfs_states::IfSlot;

/// What a radio's book is told.
#[derive(Clone, Copy, Debug)]
pub enum BookCall {
    /// There is radar on the channel.
    Radar(ChanDef),
    /// A check of the channel begins in the slot, and takes so many ms.
    Begin(IfSlot, ChanDef, u32),
    /// The check that runs in the slot is dropped.
    DropCheck(IfSlot),
    /// The interface of the slot operates on this channel from now on.
    Operate(IfSlot, ChanDef),
    /// The interface of the slot operates no more.
    Rest(IfSlot),
}
