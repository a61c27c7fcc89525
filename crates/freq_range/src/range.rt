//! A range of frequencies.

ghost use Rattle.std.specs.Prelude.{◌↔◌, IsTrue};
ghost use Rattle.freq_range.specs.Channels.{Holds};

/// A range of frequencies (`struct ieee80211_freq_range`).
#[derive(Clone, Copy, Debug, PartialEq, Eq)]
pub struct Range {
    /// Where it begins, in kHz.
    pub start_khz: u32,
    /// Where it ends, in kHz.
    pub end_khz: u32,
}

impl Range {
    /// Whether a channel of 20 MHz round this centre, in kHz, lies in the range
    /// (`reg_does_bw_fit`).
    pub fn holds(&self, centre_khz: u32) -> bool
        ensures { IsTrue result ↔ Holds self.now.start_khz self.now.end_khz centre_khz }
    {
        let centre = u64::from(centre_khz);
        u64::from(self.start_khz) + 10_000 <= centre && centre + 10_000 <= u64::from(self.end_khz)
    }
}
