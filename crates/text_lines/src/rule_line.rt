//! Reads one rule that stands for itself.

ghost use Rattle.std.specs.Prelude.{◌≡◌, IfOk, MatchResult, None};
ghost use Rattle.freq_range.specs.Valid.{IsValidRule};
ghost use Rattle.text_lines.specs.LineFaults.{IsParseRuleFault, IsTextOfRule};
ghost use Rattle.text_lines.specs.inner.Reading.{IsBareKind, IsBareRule};

use crate::fault::{RuleTextFault, TextKind};
use crate::known_powers::KnownPowers;
use crate::lines::{readable, squeeze};
use crate::rule_reader::spelled_rule_of;
use crate::scanner::begins_with;
use freq_range::Rule;
use std::alloc::Global;

/// The rule that the squeezed line says, without `wmmrule=`, or what is wrong with it.
fn bare_rule_of(line: &[u8]) -> Result<Rule, TextKind>
    ensures { MatchResult result (IsBareRule line.now) (IsBareKind line.now) }
{
    if !begins_with(line, b"(") {
        return Err(TextKind::BadLine);
    }
    let mut known = KnownPowers::new();
    let spelled = spelled_rule_of(line, &mut known)?;
    if spelled.name.is_some() {
        return Err(TextKind::BadFlag);
    }
    if !spelled.is_kept {
        return Err(TextKind::FlagNotInVersion);
    }
    Ok(spelled.rule)
}

/// The rule that a line of a rule text (`db.txt` of wireless-regdb) says, without `wmmrule=`. A
/// comment and blanks are dropped. The rule is valid, and has no check time and no WMM rule.
///
/// Otherwise the fault is the first of these kinds: `LineTooLong`, `NotUtf8`, `BadLine` where the line
/// isn't a rule's, `BadBand`, `BadPower`, `BadFlag`, also for `wmmrule=`, and `FlagNotInVersion`. Behind
/// the first two it may be out of memory.
pub fn parse_rule(alloc: Global, text: &[u8]) -> Result<Rule, RuleTextFault>
    ensures rule { MatchResult result (λ rule. IsTextOfRule text.now rule) (IsParseRuleFault text.now) }
    ensures valid { IfOk result IsValidRule }
    ensures no_time { IfOk result (λ rule. rule.cac_s ≡ 0) }
    ensures no_wmm { IfOk result (λ rule. rule.wmm ≡ None) }
{
    readable(text)?;
    let mut buffer = Vec::new(alloc);
    squeeze(text, &mut buffer)?;
    let rule = bare_rule_of(buffer.as_slice())?;
    Ok(rule)
}
