//! Rules in a file.

ghost use Rattle.std.specs.Prelude.{◌≡◌, ◌+◌, ◌^◌, ◌<◌, ◌≤◌, IfSome, MatchOption, MatchResult, if◌then◌else◌, length, nat_le};
ghost use Rattle.freq_range.specs.Valid.{IsValidRule, IsValidWmm};
ghost use Rattle.rule_tables.specs.FileFormat.{NamesWmm, RuleAt, flags_in, u8_at, u16_at};
ghost use Rattle.rule_tables.specs.FileFaults.{IsRuleAt, NamesBadWmm};
ghost use Rattle.db_reader.specs.inner.Parts.{BareRuleAt, IsRuleStop};
ghost use Rattle.db_reader.specs.declared.rule_record.RuleStop.TheVariants.{NoWmm};

use crate::numbers::{is_within, target_at, u8_at, u16_at, u32_at};
use crate::wmm_record::read_wmm;
use freq_range::{Rule, RuleFlags, Wmm};

/// What is wrong with a rule in a file.
#[derive(Clone, Copy, Debug, PartialEq, Eq)]
pub enum RuleStop {
    /// There is no rule.
    NoRule,
    /// It names a WMM rule, and there is none.
    NoWmm,
}

/// The flags that are set in a byte.
fn flags_in(byte: u8) -> RuleFlags
    ensures { result ≡ flags_in byte }
{
    RuleFlags {
        no_ofdm: byte % 2 == 1,
        no_outdoor: byte / 2 % 2 == 1,
        dfs: byte / 4 % 2 == 1,
        no_ir: byte / 8 % 2 == 1,
        auto_bw: byte / 16 % 2 == 1,
    }
}

/// The check time of the rule at that place, in seconds, or 0 where it has none.
fn check_time_at(bytes: &[u8], place: usize) -> u16
    requires { place + u8_at bytes.now place ≤ length bytes.now }
    ensures { result ≡ (if nat_le 18 (u8_at bytes.now place) then u16_at bytes.now (place + 16) else 0) }
{
    if u8_at(bytes, place) >= 18 {
        u16_at(bytes, place + 16)
    } else {
        0
    }
}

/// What the record at that place says, but for the WMM rule that it names.
fn bare_rule_at(bytes: &[u8], place: usize) -> Rule
    requires long { 16 ≤ u8_at bytes.now place }
    requires in_file { place + u8_at bytes.now place ≤ length bytes.now }
    ensures bare { BareRuleAt bytes.now place result }
    ensures end_fits { result.end_khz < 2 ^ 32 }
    ensures power_fits { result.eirp_mbm < 2 ^ 16 }
    ensures check_fits { result.cac_s < 2 ^ 16 }
{
    Rule {
        start_khz: u32_at(bytes, place + 4),
        end_khz: u32_at(bytes, place + 8),
        max_bw_khz: u32_at(bytes, place + 12),
        flags: flags_in(u8_at(bytes, place + 1)),
        eirp_mbm: u16_at(bytes, place + 2),
        cac_s: check_time_at(bytes, place),
        wmm: None,
    }
}

/// The rule at that place without its WMM rule, or `None` where there is no rule.
fn read_bare_rule(bytes: &[u8], place: usize) -> Option<Rule>
    ensures { MatchOption result (IsRuleAt bytes.now place → ⊥) (λ r. BareRuleAt bytes.now place r × IsValidRule r × IsRuleAt bytes.now place) }
{
    let length = u8_at(bytes, place);
    if length < 16 || !is_within(bytes, place, usize::from(length)) {
        return None;
    }
    let rule = bare_rule_at(bytes, place);
    if !rule.is_valid() {
        return None;
    }
    Some(rule)
}

/// The WMM rule that the rule at that place names, if it names one.
fn read_named_wmm(bytes: &[u8], place: usize) -> Result<Option<Wmm>, RuleStop>
    requires { place + u8_at bytes.now place ≤ length bytes.now }
    ensures { MatchResult result
        (λ wmm. NamesWmm bytes.now place wmm × IfSome wmm IsValidWmm)
        (λ stop. (stop ≡ NoWmm) × NamesBadWmm bytes.now place) }
{
    if u8_at(bytes, place) < 20 {
        return Ok(None);
    }
    match read_wmm(bytes, target_at(bytes, place + 18)) {
        Some(wmm) => Ok(Some(wmm)),
        None => Err(RuleStop::NoWmm),
    }
}

/// The rule at that place.
pub fn read_rule(bytes: &[u8], place: usize) -> Result<Rule, RuleStop>
    ensures { MatchResult result (RuleAt bytes.now place) (IsRuleStop bytes.now place) }
{
    match read_bare_rule(bytes, place) {
        Some(bare) => {
            let wmm = read_named_wmm(bytes, place)?;
            Ok(Rule { wmm, ..bare })
        }
        None => Err(RuleStop::NoRule),
    }
}
