//! The flags of a rule.

ghost use Rattle.std.specs.Prelude.{◌≡◌, ◌↔◌, IsTrue};
ghost use Rattle.freq_range.specs.Flags.{joined_flags};

/// What a rule forbids, asks for or allows besides its limits (`NL80211_RRF_*`).
#[derive(Clone, Copy, Debug, PartialEq, Eq)]
pub struct RuleFlags {
    /// OFDM isn't allowed (`NO_OFDM`).
    pub no_ofdm: bool,
    /// Operation outdoors isn't allowed (`NO_OUTDOOR`).
    pub no_outdoor: bool,
    /// Radar detection is asked for (`DFS`).
    pub dfs: bool,
    /// Nobody may initiate radiation (`NO_IR`).
    pub no_ir: bool,
    /// The allowed width is that of the run of touching rules (`AUTO_BW`).
    pub auto_bw: bool,
}

impl RuleFlags {
    /// No flag.
    pub const NONE: RuleFlags = RuleFlags {
        no_ofdm: false,
        no_outdoor: false,
        dfs: false,
        no_ir: false,
        auto_bw: false,
    };

    /// Whether both have the same flags.
    pub fn is_same(&self, other: &RuleFlags) -> bool
        ensures { IsTrue result ↔ (self.now ≡ other.now) }
    {
        self.no_ofdm == other.no_ofdm
            && self.no_outdoor == other.no_outdoor
            && self.dfs == other.dfs
            && self.no_ir == other.no_ir
            && self.auto_bw == other.auto_bw
    }

    /// All flags of both but AUTO-BW, which the allowed width has in it (`reg_rules_intersect`).
    pub fn joined(&self, other: &RuleFlags) -> RuleFlags
        ensures joined { result ≡ joined_flags self.now other.now }
    {
        RuleFlags {
            no_ofdm: self.no_ofdm || other.no_ofdm,
            no_outdoor: self.no_outdoor || other.no_outdoor,
            dfs: self.dfs || other.dfs,
            no_ir: self.no_ir || other.no_ir,
            auto_bw: false,
        }
    }
}
