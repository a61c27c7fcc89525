//! What a driver is told.

use crate::iface::IfIndex;
use chan_def::ChanDef;

/// An interface that sends, on which channel and how strongly.
#[derive(Clone, Copy, Debug, PartialEq, Eq)]
pub struct OnAir {
    pub iface: IfIndex,
    pub chan: ChanDef,
    /// In mBm, hundredths of a dBm.
    pub power_mbm: u16,
}

/// A check (CAC, channel availability check) that an interface was told to begin.
#[derive(Clone, Copy, Debug, PartialEq, Eq)]
pub struct CheckTold {
    pub iface: IfIndex,
    pub chan: ChanDef,
    /// How long it takes, in ms.
    pub length_ms: u32,
}
