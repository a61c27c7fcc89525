//! The arguments of the calls, drawn by a generator of numbers.

ghost use Rattle.std.specs.Prelude.{◌<◌};

use chan_def::{ChanDef, Width};

/// How many channels there are.
pub(crate) const CHANNELS: usize = 100;

/// The centre of the lowest one, in kHz.
pub(crate) const LOWEST_KHZ: u32 = 5_180_000;

/// The centre of the channel at place `k`, in kHz.
pub(crate) fn centre_khz(k: usize) -> u32
    requires { k < 100 }
{
    LOWEST_KHZ + 20_000 * k as u32
}

/// A linear congruential generator.
#[derive(Clone, Copy, Debug)]
pub(crate) struct Draws {
    state: u64,
}

impl Draws {
    /// The generator that these bytes choose.
    pub(crate) fn new(bytes: &[u8]) -> Draws {
        let mut state = 1u64;
        for byte in bytes {
            state = state.wrapping_mul(257).wrapping_add(u64::from(*byte));
        }
        Draws { state }
    }

    /// A number below the limit.
    pub(crate) fn below(&mut self, limit: u64) -> u64
        requires { 0 < limit }
        ensures { result < limit }
    {
        self.state = self
            .state
            .wrapping_mul(6_364_136_223_846_793_005)
            .wrapping_add(1_442_695_040_888_963_407);
        (self.state >> 33) % limit
    }

    /// The centre of one of the channels, in kHz.
    pub(crate) fn khz(&mut self) -> u32 {
        LOWEST_KHZ + 20_000 * self.below(CHANNELS as u64) as u32
    }

    /// A channel whose lowest subchannel is one of the channels, and is its control channel.
    pub(crate) fn chan(&mut self) -> ChanDef {
        let control_khz = self.khz();
        let (width, above_khz) = match self.below(4) {
            0 => (Width::W20, 0),
            1 => (Width::W40, 10_000),
            2 => (Width::W80, 30_000),
            _ => (Width::W160, 70_000),
        };
        ChanDef {
            control_khz,
            width,
            centre_khz: control_khz.saturating_add(above_khz),
        }
    }
}
