//! Reads the line of a rule.

ghost use Rattle.std.specs.Prelude.{◌≡◌, MatchResult, option_map};
ghost use Rattle.text_lines.specs.LineFaults.{IsRuleKind};
ghost use Rattle.text_lines.specs.inner.Reading.{IsPartKind, IsSpelledAs, rule_from};
ghost use Rattle.text_lines.specs.Spelling.{IsRuleLine};

use crate::band_reader::{Band, band_at};
use crate::fault::TextKind;
use crate::known_powers::KnownPowers;
use crate::power_reader::power_at;
use crate::rule_words::words_at;
use freq_range::{Rule, RuleFlags};

/// What the line of a rule says.
#[derive(Clone, Copy)]
pub struct SpelledRule<'a> {
    pub rule: Rule,
    /// The name of its WMM rule.
    pub name: Option<&'a [u8]>,
    /// Whether a file of version 20 has a bit for each flag.
    pub is_kept: bool,
}

/// The rule of a band, a power and flags.
fn rule_from(band: Band, eirp_mbm: u16, flags: RuleFlags) -> Rule
    ensures { result ≡ rule_from band eirp_mbm flags }
{
    Rule {
        start_khz: band.start_khz,
        end_khz: band.end_khz,
        max_bw_khz: band.width_khz,
        flags,
        eirp_mbm,
        cac_s: 0,
        wmm: None,
    }
}

/// What the line says, whether or not its flags are kept, or its first part that isn't of its form.
pub fn spelled_rule_of<'a>(
    line: &'a [u8],
    known: &mut KnownPowers,
) -> Result<SpelledRule<'a>, TextKind>
    ensures { MatchResult result (λ x. IsSpelledAs line.now x.rule (option_map (λ name. name.now) x.name) x.is_kept) (IsPartKind line.now) }
{
    let Some((band, rest)) = band_at(line) else {
        return Err(TextKind::BadBand);
    };
    let Some((power, rest)) = power_at(rest, known) else {
        return Err(TextKind::BadPower);
    };
    let Some(words) = words_at(rest) else {
        return Err(TextKind::BadFlag);
    };
    let rule = rule_from(band, power, words.flags);
    Ok(SpelledRule {
        rule,
        name: words.name,
        is_kept: words.is_kept,
    })
}

/// The rule and the name of its WMM rule, if it has one, or what is wrong with the line.
pub fn rule_of<'a>(
    line: &'a [u8],
    known: &mut KnownPowers,
) -> Result<(Rule, Option<&'a [u8]>), TextKind>
    ensures rule { MatchResult result (λ x. IsRuleLine line.now x.0 (option_map (λ name. name.now) x.1)) (IsRuleKind line.now) }
{
    let spelled = spelled_rule_of(line, known)?;
    if !spelled.is_kept {
        return Err(TextKind::FlagNotInVersion);
    }
    Ok((spelled.rule, spelled.name))
}
