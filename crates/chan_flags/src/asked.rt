//! What is asked of a radio, and what may stand against it.

use crate::profile::Profile;
use crate::verdict::PowerSetting;
use chan_def::{ChanDef, Kind};

/// A channel that is asked of a radio.
#[derive(Clone, Copy)]
pub struct Asked {
    /// What the radio can do.
    pub profile: Profile,
    pub chan: ChanDef,
    /// The kind of the interface that asks.
    pub kind: Kind,
    /// Whether the radio is indoors.
    pub indoor: bool,
    /// The power that the interface asks for.
    pub setting: PowerSetting,
}

/// What may bar a subchannel, in the order in which it is asked.
#[derive(Clone, Copy)]
pub enum Obstacle {
    /// The radio has no such channel.
    Missing,
    /// Some domain has no rule that holds it.
    Unruled,
    /// Some rule's width is below that of the whole channel.
    Narrow,
    /// Some rule has NO-OFDM, and the whole channel is wider than 20 MHz.
    OfdmBarred,
    /// Some rule has NO-IR, and the interface sends first.
    IrBarred,
    /// Some rule has NO-OUTDOOR, and the interface sends first and outdoors.
    OutdoorBarred,
}
