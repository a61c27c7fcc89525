//! How wide a channel is.

ghost use Rattle.std.specs.Prelude.{◌≡◌, ◌*◌, ◌/◌, MatchOption};
ghost use Rattle.chan_def.specs.declared.width.Width.{Width};

/// How wide a channel is (`enum nl80211_chan_width`).
#[derive(Clone, Copy, Debug, PartialEq, Eq)]
pub enum Width {
    /// 20 MHz, without the modes of 802.11n and later.
    Noht,
    /// 20 MHz.
    W20,
    /// 40 MHz.
    W40,
    /// 80 MHz.
    W80,
    /// 160 MHz.
    W160,
    /// 320 MHz, in the 6 GHz band alone.
    W320,
}

impl Width {
    ghost use Rattle.chan_def.specs.Covered.{width_khz, width_number};

    /// The width in kHz.
    pub fn khz(self) -> u32
        ensures khz { result ≡ width_khz self }
    {
        match self {
            Width::Noht | Width::W20 => 20_000,
            Width::W40 => 40_000,
            Width::W80 => 80_000,
            Width::W160 => 160_000,
            Width::W320 => 320_000,
        }
    }

    /// The width in MHz, which is whole.
    pub fn mhz(self) -> u16
        ensures mhz { result ≡ width_khz self / 1000 }
        ensures whole { result * 1000 ≡ width_khz self }
    {
        match self {
            Width::Noht | Width::W20 => 20,
            Width::W40 => 40,
            Width::W80 => 80,
            Width::W160 => 160,
            Width::W320 => 320,
        }
    }

    /// The width's number in messages (`enum nl80211_chan_width`).
    pub fn number(self) -> u32
        ensures number { result ≡ width_number self }
    {
        match self {
            Width::Noht => 0,
            Width::W20 => 1,
            Width::W40 => 2,
            Width::W80 => 3,
            Width::W160 => 5,
            Width::W320 => 13,
        }
    }

    /// The width of this number in messages. `None` exactly where no width has it.
    pub fn numbered(number: u32) -> Option<Width>
        ensures numbered { MatchOption result ((width : Width) → width_number width ≡ number → ⊥)
            (λ width. width_number width ≡ number) }
    {
        match number {
            0 => Some(Width::Noht),
            1 => Some(Width::W20),
            2 => Some(Width::W40),
            3 => Some(Width::W80),
            5 => Some(Width::W160),
            13 => Some(Width::W320),
            _ => None,
        }
    }
}
