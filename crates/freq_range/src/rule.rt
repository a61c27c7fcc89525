//! A rule.

ghost use Rattle.std.specs.Prelude.{◌≡◌, ◌↔◌, IfSome, IsTrue};
ghost use Rattle.freq_range.specs.Valid.{IsValidWmm};

use crate::flags::RuleFlags;
use crate::wmm::Wmm;

/// What one range of frequencies allows (`struct ieee80211_reg_rule`; a rule record of
/// `regulatory.db`).
#[derive(Clone, Copy, Debug, PartialEq, Eq)]
pub struct Rule {
    /// Where the range begins, in kHz.
    pub start_khz: u32,
    /// Where the range ends, in kHz.
    pub end_khz: u32,
    /// The greatest width of a channel, in kHz.
    pub max_bw_khz: u32,
    pub flags: RuleFlags,
    /// The greatest power, in mBm (EIRP).
    pub eirp_mbm: u16,
    /// How long a channel is checked for radar, in seconds, or 0 where the rule doesn't say.
    pub cac_s: u16,
    pub wmm: Option<Wmm>,
}

/// Whether a WMM rule, if there is one, is valid.
fn is_valid_wmm(wmm: &Option<Wmm>) -> bool
    ensures { IsTrue result ↔ IfSome wmm.now IsValidWmm }
{
    match wmm {
        Some(wmm) => wmm.is_valid(),
        None => true,
    }
}

/// Whether both are the same WMM rule, or neither is one.
fn is_same_wmm(one: &Option<Wmm>, other: &Option<Wmm>) -> bool
    ensures { IsTrue result ↔ (one.now ≡ other.now) }
{
    match (one, other) {
        (Some(one), Some(other)) => one.is_same(other),
        (None, None) => true,
        _ => false,
    }
}

impl Rule {
    ghost use Rattle.freq_range.specs.Valid.{IsValidRule};

    /// Whether the range isn't empty, begins above 0 and holds the width, and the WMM rule, if there
    /// is one, is valid.
    pub fn is_valid(&self) -> bool
        ensures { IsTrue result ↔ IsValidRule self.now }
    {
        let (start_khz, end_khz) = (self.start_khz, self.end_khz);
        let (_eirp_mbm, _cac_s) = (self.eirp_mbm, self.cac_s);
        0 < start_khz
            && start_khz < end_khz
            && self.max_bw_khz <= end_khz - start_khz
            && is_valid_wmm(&self.wmm)
    }

    /// Whether both are the same rule.
    pub fn is_same(&self, other: &Rule) -> bool
        ensures { IsTrue result ↔ (self.now ≡ other.now) }
    {
        self.start_khz == other.start_khz
            && self.end_khz == other.end_khz
            && self.max_bw_khz == other.max_bw_khz
            && self.flags.is_same(&other.flags)
            && self.eirp_mbm == other.eirp_mbm
            && self.cac_s == other.cac_s
            && is_same_wmm(&self.wmm, &other.wmm)
    }
}
