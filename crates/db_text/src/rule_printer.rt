//! Prints rules.

ghost use Rattle.std.specs.Prelude.{◌≡◌, ◌≤◌, [], ◌++◌, if◌then◌else◌, All, None, IfOk, OnOk, length};
ghost use Rattle.freq_range.specs.Valid.{IsValidRule};
ghost use Rattle.text_lines.specs.LineFaults.{IsTextOfRule};
ghost use Rattle.db_text.specs.PrintedRules.{IsShownByte, flags_part, printed_rule, rule_part};

use crate::number_printer::{put_dbm, put_mhz};
use freq_range::{Rule, RuleFlags};
use reg_base::Bytes;
use reg_lists::OutOfMemory;
use std::alloc::Global;

/// Appends the word of a flag where it is set.
fn put_word(out: &mut Bytes, set: bool, word: &[u8]) -> Result<(), OutOfMemory>
    ensures { OnOk result (out.new ≡ out.old ++ (if set then word.now else [])) }
{
    if set {
        out.append(word)?;
    }
    Ok(())
}

/// Appends the flags that are set, as the line of a rule has them: each behind a comma and a blank.
#[tactic(auto, unfolding(crate::specs::PrintedRules::flags_part))]
pub fn put_flags(out: &mut Bytes, flags: &RuleFlags) -> Result<(), OutOfMemory>
    ensures flags { OnOk result (out.new ≡ out.old ++ flags_part flags.now) }
{
    put_word(out, flags.no_ofdm, b", NO-OFDM")?;
    put_word(out, flags.no_outdoor, b", NO-OUTDOOR")?;
    put_word(out, flags.dfs, b", DFS")?;
    put_word(out, flags.auto_bw, b", AUTO-BW")?;
    put_word(out, flags.no_ir, b", NO-IR")?;
    Ok(())
}

/// Appends a rule, without its WMM rule.
#[tactic(auto, unfolding(crate::specs::PrintedRules::rule_part))]
pub fn put_rule_part(out: &mut Bytes, rule: &Rule) -> Result<(), OutOfMemory>
    ensures { OnOk result (out.new ≡ out.old ++ rule_part rule.now) }
{
    out.push(b'(')?;
    put_mhz(out, rule.start_khz)?;
    out.append(b" - ")?;
    put_mhz(out, rule.end_khz)?;
    out.append(b" @ ")?;
    put_mhz(out, rule.max_bw_khz)?;
    out.append(b"), (")?;
    put_dbm(out, rule.eirp_mbm)?;
    out.push(b')')?;
    put_flags(out, &rule.flags)?;
    Ok(())
}

/// The line of a rule without a check time and without a WMM rule, as a rule text (`db.txt` of
/// wireless-regdb) has it, without a newline. It has at most 93 bytes, all of them blanks or bytes of
/// ASCII that show, and none `;` or `#`. `parse_rule` reads it as this rule where the rule is valid.
pub fn print_rule(alloc: Global, rule: &Rule) -> Result<Bytes, OutOfMemory>
    requires no_time { rule.now.cac_s ≡ 0 }
    requires no_wmm { rule.now.wmm ≡ None }
    ensures text { IfOk result (λ text. text ≡ printed_rule rule.now None) }
    ensures reads { IfOk result (λ text. IsValidRule rule.now → IsTextOfRule text rule.now) }
    ensures bytes { IfOk result (λ text. All IsShownByte text) }
    ensures short { IfOk result (λ text. length text ≤ 93) }
{
    let (_start_khz, _end_khz) = (rule.start_khz, rule.end_khz);
    let (_max_bw_khz, _eirp_mbm) = (rule.max_bw_khz, rule.eirp_mbm);
    let mut out = Bytes::new(alloc);
    put_rule_part(&mut out, rule)?;
    Ok(out)
}
