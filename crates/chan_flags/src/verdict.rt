//! Whether the rules allow a channel, and why they don't.

/// What power an interface asks for (`enum nl80211_tx_power_setting`).
#[derive(Clone, Copy, Debug, PartialEq, Eq)]
pub enum PowerSetting {
    /// As much as is allowed.
    Auto,
    /// As much as is allowed, and at most so many mBm.
    Limit(u16),
    /// So many mBm and no less.
    Fixed(u16),
}

/// Why a channel isn't allowed.
#[derive(Clone, Copy, Debug, PartialEq, Eq)]
pub enum ChanRefusal {
    /// The radio has no channel with this centre, in kHz.
    LacksChannel(u32),
    /// The radio can't be on a channel that is so many MHz wide.
    LacksWidth(u16),
    /// Some domain has no rule that holds the subchannel with this centre, in kHz.
    NoRule(u32),
    /// Some rule of the subchannel with this centre, in kHz, allows less width.
    TooNarrow(u32),
    /// Some rule of the subchannel with this centre, in kHz, has NO-OFDM.
    NoOfdm(u32),
    /// Some rule of the subchannel with this centre, in kHz, has NO-IR.
    NoIr(u32),
    /// Some rule of the subchannel with this centre, in kHz, has NO-OUTDOOR.
    NoOutdoor(u32),
    /// The fixed power is above this limit, in mBm.
    AboveLimit(u16),
}

/// Whether the rules allow a channel.
#[derive(Clone, Copy, Debug, PartialEq, Eq)]
pub enum Verdict {
    /// They allow it.
    Fits {
        /// With this power, in mBm (EIRP).
        power_mbm: u16,
        /// After a check for radar (CAC) of this length, in ms, or 0 where no subchannel asks for one.
        check_ms: u32,
    },
    /// They don't.
    Refused(ChanRefusal),
}
