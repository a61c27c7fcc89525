//! What the rules allow on a channel.

use freq_range::RuleFlags;

/// What the rules allow on a channel of 20 MHz (`struct ieee80211_channel`).
#[derive(Clone, Copy, Debug, PartialEq, Eq)]
pub struct Fit {
    /// The flags of all rules but AUTO-BW, which the width has in it.
    pub flags: RuleFlags,
    /// The greatest power, in mBm (EIRP).
    pub limit_mbm: u16,
    /// How long the channel is checked for radar (CAC, channel availability check), in ms, or 0 where
    /// no rule has DFS.
    pub check_ms: u32,
    /// The greatest width, in kHz, of a channel that has this one in it.
    pub width_khz: u32,
}

/// A channel of 20 MHz of a radio, and what the rules allow there.
#[derive(Clone, Copy, Debug, PartialEq, Eq)]
pub struct Chan {
    /// Its centre, in kHz.
    pub khz: u32,
    /// `None` where some domain has no rule that holds the channel.
    pub fit: Option<Fit>,
}
