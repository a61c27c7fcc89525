//! A row: what several domains allow together in one range.

ghost use Rattle.std.specs.Prelude.{◌≡◌, ℕ, ◌∷◌, []};
ghost use Rattle.rule_intersect.specs.Joining.{meets, meets_rule, join};
ghost use Rattle.rule_intersect.specs.Tuples.{check_ms, row_of};

use freq_range::{Range, Rule, RuleFlags};

/// How long a channel is checked for radar under a rule that says no time, in ms: its CAC, the
/// channel availability check (`IEEE80211_DFS_MIN_CAC_TIME_MS`).
pub const LEAST_CHECK_MS: u32 = 60_000;

/// What one rule of each domain of a list allows together (`reg_rules_intersect`).
#[derive(Clone, Copy, Debug, PartialEq, Eq)]
pub struct Row {
    /// Where the common range begins, in kHz.
    pub start_khz: u32,
    /// Where the common range ends, in kHz.
    pub end_khz: u32,
    /// The greatest width of a channel, in kHz, which may be more than the range has.
    pub width_khz: u32,
    /// All flags of the rules but AUTO-BW, which the width has in it.
    pub flags: RuleFlags,
    /// The greatest power, in mBm (EIRP).
    pub eirp_mbm: u16,
    /// The longest check time that a rule says, in ms, or 0 where none says one.
    pub cac_ms: u32,
    /// How long a channel is checked for radar, in ms, or 0 where no rule has DFS.
    pub check_ms: u32,
}

/// How long a channel is checked for radar under the rule, in ms: not at all without DFS.
fn check_length_ms(rule: &Rule) -> u32
    ensures { result ≡ check_ms rule.now }
{
    if !rule.flags.dfs {
        0
    } else if rule.cac_s == 0 {
        LEAST_CHECK_MS
    } else {
        u32::from(rule.cac_s) * 1000
    }
}

impl Row {
    /// The row of a rule alone, which allows this width, in kHz.
    pub fn of_rule(rule: &Rule, width_khz: u32) -> Row
        ensures row { (number : ℕ) → result ≡ row_of (record { number = number; rule = rule.now; width_khz = width_khz } ∷ []) }
    {
        Row {
            start_khz: rule.start_khz,
            end_khz: rule.end_khz,
            width_khz,
            flags: rule.flags.joined(&RuleFlags::NONE),
            eirp_mbm: rule.eirp_mbm,
            cac_ms: u32::from(rule.cac_s) * 1000,
            check_ms: check_length_ms(rule),
        }
    }

    /// Where it applies.
    pub fn range(&self) -> Range
        ensures start { result.start_khz ≡ self.now.start_khz }
        ensures end { result.end_khz ≡ self.now.end_khz }
    {
        Range {
            start_khz: self.start_khz,
            end_khz: self.end_khz,
        }
    }

    /// Whether the row and the rule have a common range.
    pub fn meets_rule(&self, rule: &Rule) -> bool
        ensures meets { result ≡ meets_rule self.now rule.now }
    {
        self.start_khz.max(rule.start_khz) < self.end_khz.min(rule.end_khz)
    }

    /// Whether both rows have a common range.
    pub fn meets(&self, other: &Row) -> bool
        ensures meets { result ≡ meets self.now other.now }
    {
        self.start_khz.max(other.start_khz) < self.end_khz.min(other.end_khz)
    }

    /// What both allow, in their common range.
    pub fn joined(&self, other: &Row) -> Row
        ensures joined { result ≡ join self.now other.now }
    {
        Row {
            start_khz: self.start_khz.max(other.start_khz),
            end_khz: self.end_khz.min(other.end_khz),
            width_khz: self.width_khz.min(other.width_khz),
            flags: self.flags.joined(&other.flags),
            eirp_mbm: self.eirp_mbm.min(other.eirp_mbm),
            cac_ms: self.cac_ms.max(other.cac_ms),
            check_ms: self.check_ms.max(other.check_ms),
        }
    }
}
