//! What is wrong with headers that the lines of a text leave short.

ghost use Rattle.std.specs.Prelude.{◌≡◌, ◌+◌, ◌<◌, ℕ, List, [], All, MatchOption, length, min};
ghost use Rattle.std.specs.Option.{option_map_or};
ghost use Rattle.freq_range.specs.Valid.{IsValidWmm};
ghost use Rattle.rule_text.specs.Forms.{Form};
ghost use Rattle.rule_text.specs.inner.State.{AreAllBlocks, AreAllCountries, AreSound, IsFirstShortOf, IsLeastLine};
ghost use Rattle.rule_text.specs.TextOf.{IsShortAt};
ghost use Rattle.text_lines.specs.declared.fault.TextKind.{TextKind};

use crate::countries::Country;
use crate::fault::TextFault;
use crate::wmm_rules::WmmBlock;
use text_lines::TextKind;

/// The lesser of a line and the least so far.
fn lesser(least: Option<u64>, line: u64) -> u64
    ensures { result ≡ option_map_or (λ other. min other line) least line }
{
    match least {
        Some(other) => other.min(line),
        None => line,
    }
}

/// The line of the first WMM rule without all its items.
fn first_short(blocks: &[WmmBlock]) -> Option<u64>
    ensures { MatchOption result (All (λ b. IsValidWmm b.wmm) blocks.now)
        (IsLeastLine (λ b. IsValidWmm b.wmm → ⊥) (λ b. b.line) blocks.now) }
{
    let mut least = None;
    for block in blocks {
        if block.wmm.is_valid() {
            continue;
        }
        least = Some(lesser(least, block.line));
    }
    least
}

/// The line of the first country without rules.
fn first_empty(countries: &[Country]) -> Option<u64>
    ensures { MatchOption result (All (λ c. 0 < length c.rules) countries.now)
        (IsLeastLine (λ c. c.rules ≡ []) (λ c. c.line) countries.now) }
{
    let mut least = None;
    for country in countries {
        if !country.rules.is_empty() {
            continue;
        }
        least = Some(lesser(least, country.line));
    }
    least
}

/// The fault of the first header that is left short, if one is.
pub fn late_fault(blocks: &[WmmBlock], countries: &[Country]) -> Option<TextFault>
    ensures first { (forms : List Form) → AreSound forms → AreAllBlocks forms blocks.now → AreAllCountries forms countries.now
        → MatchOption result ((k : ℕ) (kind : TextKind) → IsShortAt forms k kind → ⊥) (IsFirstShortOf forms) }
    ensures none { MatchOption result (All (λ c. 0 < length c.rules) countries.now) (λ fault. Unit {0}) }
{
    match (first_short(blocks), first_empty(countries)) {
        (None, None) => None,
        (Some(line), None) => Some(TextFault {
            line,
            kind: TextKind::WmmShort,
        }),
        (None, Some(line)) => Some(TextFault {
            line,
            kind: TextKind::NoRules,
        }),
        (Some(short), Some(empty)) => Some(if short < empty {
            TextFault {
                line: short,
                kind: TextKind::WmmShort,
            }
        } else {
            TextFault {
                line: empty,
                kind: TextKind::NoRules,
            }
        }),
    }
}
