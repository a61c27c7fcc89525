//! Writes lists of rules.

ghost use Rattle.std.specs.Prelude.{◌≡◌, ◌+◌, ◌<◌, ◌≤◌, ◌++◌, ◌∷◌, [], length, OnOk, IfOk};
ghost use Rattle.nl_attrs.specs.Attributes.{attr_bytes, attrs_bytes};
ghost use Rattle.nl_attrs.specs.Nesting.{nested_with};
ghost use Rattle.nl80211_cmds.specs.Rules.{limit_attrs, nested_rules};
ghost use Rattle.nl80211_cmds.specs.Values.{number_attr};

use crate::attribute::{
    RULE_CAC_TIME, RULE_END, RULE_FLAGS, RULE_MAX_ANT_GAIN, RULE_MAX_BW, RULE_MAX_EIRP, RULE_START,
};
use crate::limits::{Limits, limits_of};
use crate::rule_reader::flag_bits;
use freq_range::Rule;
use nl_attrs::{EncodeFault, Payload, begin_nested, end_nested, put_plain};
use reg_base::Bytes;
use reg_lists::OutOfMemory;
use std::alloc::Global;

/// Writes a number behind what the buffer holds.
fn put_number(out: &mut Bytes, kind: u16, number: u32) -> Result<(), OutOfMemory>
    requires { kind < 16384 }
    ensures { OnOk result (out.new ≡ out.old ++ attr_bytes (number_attr kind number)) }
{
    match put_plain(out, kind, Payload::U32(number)) {
        Ok(()) => Ok(()),
        Err(EncodeFault::OutOfMemory) => Err(OutOfMemory),
        Err(EncodeFault::Overlong(_)) => unreachable!(),
    }
}

/// Writes the attributes of what a rule or a row allows behind what the buffer holds.
fn put_seven(out: &mut Bytes, limits: &Limits) -> Result<(), OutOfMemory>
    ensures { OnOk result (out.new ≡ out.old ++ attrs_bytes (limit_attrs limits.now)) }
{
    put_number(out, RULE_FLAGS, flag_bits(limits.flags))?;
    put_number(out, RULE_START, limits.start_khz)?;
    put_number(out, RULE_END, limits.end_khz)?;
    put_number(out, RULE_MAX_BW, limits.width_khz)?;
    put_number(out, RULE_MAX_ANT_GAIN, 0)?;
    put_number(out, RULE_MAX_EIRP, u32::from(limits.eirp_mbm))?;
    put_number(out, RULE_CAC_TIME, limits.cac_ms)
}

/// Writes what a rule or a row allows as a nested attribute of this kind behind what the buffer holds.
/// After `OutOfMemory` a part of it may be there.
pub fn put_limits(out: &mut Bytes, kind: u16, limits: &Limits) -> Result<(), OutOfMemory>
    requires kind { kind < 16384 }
    ensures put { OnOk result (out.new ≡ out.old ++ attr_bytes (nested_with kind (attrs_bytes (limit_attrs limits.now)))) }
{
    let nested = begin_nested(out, kind)?;
    put_seven(out, limits)?;
    match end_nested(out, nested) {
        Ok(()) => Ok(()),
        Err(EncodeFault::OutOfMemory) => Err(OutOfMemory),
        Err(EncodeFault::Overlong(_)) => unreachable!(),
    }
}

/// The bytes of a list of rules, at most 32.
pub fn rules_bytes(alloc: Global, rules: &[Rule]) -> Result<Bytes, OutOfMemory>
    requires { length rules.now ≤ 32 }
    ensures { IfOk result (λ bytes. bytes ≡ attrs_bytes (nested_rules 0 rules.now)) }
{
    let mut bytes = Bytes::new(alloc);
    for (place, rule) in rules.iter().enumerate() {
        put_limits(&mut bytes, place as u16, &limits_of(rule))?;
    }
    Ok(bytes)
}
