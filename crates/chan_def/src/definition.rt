//! Where a channel lies.

ghost use Rattle.std.specs.Prelude.{◌≡◌, ◌/◌, ◌≤◌, ◌↔◌, IsTrue, MatchOption};
ghost use Rattle.chan_def.specs.Covered.{width_khz, IsCovered, IsInside, IsSubchannel, IsValidDef};
ghost use Rattle.chan_def.specs.Same.{is_same_channel};

use crate::width::Width;
use freq_range::{Band, khz_channel};

/// The most subchannels of 20 MHz that a channel covers: those of 320 MHz.
pub const MOST_SUBCHANNELS: u8 = 16;

/// A channel: where it lies, and its control channel (`struct cfg80211_chan_def`).
#[derive(Clone, Copy, Debug, PartialEq, Eq)]
pub struct ChanDef {
    /// The centre, in kHz, of the control channel: the one of 20 MHz in which beacons are sent.
    pub control_khz: u32,
    pub width: Width,
    /// The centre, in kHz, of the whole channel.
    pub centre_khz: u32,
}

impl ChanDef {
    /// Whether the control channel is one of the channel table and one of the subchannels, and lies
    /// in the 6 GHz band where the channel is wider than 160 MHz (`cfg80211_chandef_valid`).
    pub fn valid(&self) -> bool
        ensures valid { IsTrue result ↔ IsValidDef self.now }
    {
        match khz_channel(self.control_khz) {
            Some((band, _)) => {
                (band == Band::Ghz6 || self.width != Width::W320)
                    && is_inside(self.width.khz(), self.centre_khz, self.control_khz)
            }
            None => false,
        }
    }

    /// Whether both are the same definition.
    pub fn is_same(&self, other: &ChanDef) -> bool
        ensures same { IsTrue result ↔ (self.now ≡ other.now) }
        ensures told { result ≡ is_same_channel self.now other.now }
    {
        self.control_khz == other.control_khz
            && self.width == other.width
            && self.centre_khz == other.centre_khz
    }
}

/// The centre, in kHz, of the subchannel at place `i`, counted from 0 at the lower end. `None`
/// exactly where `i` isn't below the number of subchannels.
pub fn subchannels(c: &ChanDef, i: u8) -> Option<u32>
    requires { IsValidDef c.now }
    ensures subchannel { MatchOption result (width_khz c.now.width / 20000 ≤ i)
        (λ khz. IsSubchannel (width_khz c.now.width) c.now.centre_khz i khz) }
{
    let width_khz = c.width.khz();
    let i = u32::from(i);
    if i < width_khz / 20_000 {
        Some(c.centre_khz + 10_000 + 20_000 * i - width_khz / 2)
    } else {
        None
    }
}

/// Whether one of the subchannels has this centre, in kHz.
pub fn covers(c: &ChanDef, khz: u32) -> bool
    ensures covered { IsTrue result ↔ IsCovered c.now khz }
{
    is_inside(c.width.khz(), c.centre_khz, khz)
}

/// Whether a channel of this width round this centre has a subchannel with the centre `khz`, all in
/// kHz. How far `khz` is above the lowest one tells.
pub fn is_inside(width_khz: u32, centre_khz: u32, khz: u32) -> bool
    ensures { IsTrue result ↔ IsInside width_khz centre_khz khz }
{
    let first = u64::from(centre_khz) + 10_000;
    let here = u64::from(khz) + u64::from(width_khz / 2);
    if here < first {
        return false;
    }
    let above = here - first;
    above % 20_000 == 0 && above / 20_000 < u64::from(width_khz / 20_000)
}
