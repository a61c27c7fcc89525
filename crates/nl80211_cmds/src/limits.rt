//! What a rule or a row allows.

ghost use Rattle.std.specs.Prelude.{◌≡◌};
ghost use Rattle.nl80211_cmds.specs.Rules.{limits_of};

use freq_range::{Rule, RuleFlags};

/// What a rule or a row allows, as messages tell it.
#[derive(Clone, Copy, Debug, PartialEq, Eq)]
pub struct Limits {
    pub flags: RuleFlags,
    /// Where it begins, in kHz.
    pub start_khz: u32,
    /// Where it ends, in kHz.
    pub end_khz: u32,
    /// The greatest width, in kHz.
    pub width_khz: u32,
    /// The greatest power, in mBm.
    pub eirp_mbm: u16,
    /// The check time (CAC) that it says, in ms, or 0.
    pub cac_ms: u32,
}

/// What a rule of a request allows: it has no check time.
pub fn limits_of(rule: &Rule) -> Limits
    ensures { result ≡ limits_of rule.now }
{
    Limits {
        flags: rule.flags,
        start_khz: rule.start_khz,
        end_khz: rule.end_khz,
        width_khz: rule.max_bw_khz,
        eirp_mbm: rule.eirp_mbm,
        cac_ms: 0,
    }
}
