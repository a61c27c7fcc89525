//! Reads lists of rules.

ghost use Rattle.std.specs.Prelude.{◌≡◌, ℕ, ◌≤◌, length, MatchBool, MatchOption, MatchResult, Some};
ghost use Rattle.std.specs.Option.{option_copied};
ghost use Rattle.freq_range.specs.declared.flags.RuleFlags.{RuleFlags};
ghost use Rattle.freq_range.specs.declared.rule.Rule.{Rule};
ghost use Rattle.nl80211_cmds.specs.Rules.{flag_bits, TellsNaught, TellsRule};
ghost use Rattle.nl80211_cmds.specs.Values.{payload_of};
ghost use Rattle.nl80211_cmds.specs.inner.RuleReading.{IsNestedRuleFault, IsRuleListFault};
ghost use Rattle.nl80211_cmds.specs.Rules.{TellsNested, TellsRules};

use crate::attribute::{
    RULE_CAC_TIME, RULE_END, RULE_FLAGS, RULE_MAX_ANT_GAIN, RULE_MAX_BW, RULE_MAX_EIRP, RULE_START,
};
use crate::fault::FieldFault;
use crate::profile_reader::number_of;
use crate::values::payload_of;
use freq_range::{Rule, RuleFlags, RuleList};
use nl_attrs::{Attr, AttrsFault, Walk, attrs_of};
use std::alloc::Global;

/// The most rules of a list.
const MOST_RULES: usize = 32;

/// The bits of a rule's flags (`enum nl80211_reg_rule_flags`).
pub fn flag_bits(flags: RuleFlags) -> u32
    ensures { result ≡ flag_bits flags }
{
    u32::from(flags.no_ofdm)
        + 8 * u32::from(flags.no_outdoor)
        + 16 * u32::from(flags.dfs)
        + 128 * u32::from(flags.no_ir)
        + 2_048 * u32::from(flags.auto_bw)
}

/// The only flags that can have these bits.
fn candidate(bits: u32) -> RuleFlags
    ensures { (f : RuleFlags) → flag_bits f ≡ bits → f ≡ result }
{
    RuleFlags {
        no_ofdm: bits % 2 == 1,
        no_outdoor: bits / 8 % 2 == 1,
        dfs: bits / 16 % 2 == 1,
        no_ir: bits / 128 % 2 == 1,
        auto_bw: bits / 2_048 % 2 == 1,
    }
}

/// The flags with these bits. `None` where another bit is set.
fn flags_with(bits: u32) -> Option<RuleFlags>
    ensures { MatchOption result ((f : RuleFlags) → flag_bits f ≡ bits → ⊥) (λ f. flag_bits f ≡ bits) }
{
    let flags = candidate(bits);
    if flag_bits(flags) == bits {
        Some(flags)
    } else {
        None
    }
}

/// Whether the number under this kind is 0 or isn't there.
fn is_naught(attrs: &[Attr], kind: u16) -> bool
    ensures { MatchBool result (TellsNaught (payload_of kind attrs.now)) (TellsNaught (payload_of kind attrs.now) → ⊥) }
{
    match payload_of(attrs, kind) {
        Some(payload) => payload == [0, 0, 0, 0].as_slice(),
        None => true,
    }
}

/// The rule that the attributes say.
fn rule_in(attrs: &[Attr]) -> Option<Rule>
    ensures { MatchOption result ((rule : Rule) → TellsRule attrs.now rule → ⊥) (λ rule. TellsRule attrs.now rule) }
{
    let flags = flags_with(number_of(attrs, RULE_FLAGS, u32::MAX)?)?;
    let start_khz = number_of(attrs, RULE_START, u32::MAX)?;
    let end_khz = number_of(attrs, RULE_END, u32::MAX)?;
    let max_bw_khz = number_of(attrs, RULE_MAX_BW, u32::MAX)?;
    let eirp_mbm = number_of(attrs, RULE_MAX_EIRP, 65_535)? as u16;
    if !is_naught(attrs, RULE_MAX_ANT_GAIN) {
        return None;
    }
    if !is_naught(attrs, RULE_CAC_TIME) {
        return None;
    }
    let rule = Rule {
        start_khz,
        end_khz,
        max_bw_khz,
        flags,
        eirp_mbm,
        cac_s: 0,
        wmm: None,
    };
    if rule.is_valid() { Some(rule) } else { None }
}

/// The rule whose attributes the payload is.
fn nested_rule(alloc: Global, payload: &[u8]) -> Result<Rule, FieldFault>
    ensures { MatchResult result (λ rule. TellsNested payload.now rule) (λ fault. IsNestedRuleFault payload.now fault) }
{
    match attrs_of(alloc, payload) {
        Ok(attrs) => match rule_in(attrs.as_slice()) {
            Some(rule) => Ok(rule),
            None => Err(FieldFault::Malformed),
        },
        Err(AttrsFault::BadAttr(_)) => Err(FieldFault::Malformed),
        Err(AttrsFault::OutOfMemory) => Err(FieldFault::OutOfMemory),
    }
}

/// The rules of the list that the payload is, 1 to 32.
fn rules_within(alloc: Global, payload: &[u8]) -> Result<RuleList, FieldFault>
    ensures { MatchResult result (λ rules. TellsRules (Some payload.now) rules) (λ fault. IsRuleListFault (Some payload.now) fault) }
{
    let mut rules = RuleList::new(alloc);
    let mut walk = Walk::new(payload);
    'rules: while let Some(attr) = walk.next()? {
        if rules.len() == MOST_RULES {
            return Err(FieldFault::Malformed);
        }
        let rule = nested_rule(alloc, attr.payload)?;
        rules.push(rule)?;
    }
    if rules.is_empty() {
        return Err(FieldFault::Malformed);
    }
    Ok(rules)
}

/// The rules of a list, 1 to 32.
pub fn rules_in(alloc: Global, payload: Option<&[u8]>) -> Result<RuleList, FieldFault>
    ensures { MatchResult result (λ rules. TellsRules (option_copied payload.entry) rules)
        (λ fault. IsRuleListFault (option_copied payload.entry) fault) }
{
    match payload {
        Some(payload) => rules_within(alloc, payload),
        None => Err(FieldFault::Malformed),
    }
}
