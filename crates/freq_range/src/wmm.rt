//! How long stations and access points wait before they send (WMM).

ghost use Rattle.std.specs.Prelude.{◌≡◌, ◌↔◌, IsTrue};

/// What holds for one access category of one side (`struct ieee80211_wmm_ac`).
#[derive(Clone, Copy, Debug, PartialEq, Eq)]
pub struct WmmEntry {
    /// The least contention window is 2 to this power, less 1.
    pub min_exp: u8,
    /// The greatest contention window is 2 to this power, less 1.
    pub max_exp: u8,
    /// How many slots are waited for (AIFSN).
    pub aifsn: u8,
    /// How long the channel may be kept, in ms (COT).
    pub cot_ms: u16,
}

impl WmmEntry {
    ghost use Rattle.freq_range.specs.Valid.{IsValidEntry};

    /// Whether the least window is below the greatest, that is at most 2^15 - 1, and at least one
    /// slot is waited for.
    pub fn check(&self) -> bool
        ensures { IsTrue result ↔ IsValidEntry self.now }
    {
        let entry = *self;
        let _cot_ms = entry.cot_ms;
        entry.min_exp < entry.max_exp && entry.max_exp <= 15 && entry.aifsn >= 1
    }

    /// Whether both say the same.
    pub fn is_same(&self, other: &WmmEntry) -> bool
        ensures { IsTrue result ↔ (self.now ≡ other.now) }
    {
        self.min_exp == other.min_exp
            && self.max_exp == other.max_exp
            && self.aifsn == other.aifsn
            && self.cot_ms == other.cot_ms
    }
}

/// What holds for the access categories voice, video, best effort and background, of clients and of
/// access points (`struct ieee80211_wmm_rule`; a WMM record of `regulatory.db`).
#[derive(Clone, Copy, Debug, PartialEq, Eq)]
pub struct Wmm {
    pub vo_c: WmmEntry,
    pub vi_c: WmmEntry,
    pub be_c: WmmEntry,
    pub bk_c: WmmEntry,
    pub vo_ap: WmmEntry,
    pub vi_ap: WmmEntry,
    pub be_ap: WmmEntry,
    pub bk_ap: WmmEntry,
}

impl Wmm {
    ghost use Rattle.freq_range.specs.Valid.{IsValidWmm};

    /// Whether each entry passes its check.
    pub fn is_valid(&self) -> bool
        ensures { IsTrue result ↔ IsValidWmm self.now }
    {
        self.vo_c.check()
            && self.vi_c.check()
            && self.be_c.check()
            && self.bk_c.check()
            && self.vo_ap.check()
            && self.vi_ap.check()
            && self.be_ap.check()
            && self.bk_ap.check()
    }

    /// Whether both say the same.
    pub fn is_same(&self, other: &Wmm) -> bool
        ensures { IsTrue result ↔ (self.now ≡ other.now) }
    {
        self.vo_c.is_same(&other.vo_c)
            && self.vi_c.is_same(&other.vi_c)
            && self.be_c.is_same(&other.be_c)
            && self.bk_c.is_same(&other.bk_c)
            && self.vo_ap.is_same(&other.vo_ap)
            && self.vi_ap.is_same(&other.vi_ap)
            && self.be_ap.is_same(&other.be_ap)
            && self.bk_ap.is_same(&other.bk_ap)
    }
}
