//! Which rule governs a channel of 20 MHz.

ghost use Rattle.std.specs.Prelude.{MatchOption};
ghost use Rattle.rule_tables.specs.Governing.{Governs, NoneGoverns};

use crate::domain::Domain;
use freq_range::{Range, Rule};

/// The first rule of the list whose range holds the channel round this centre, in kHz.
fn first_holding(rules: &[Rule], centre_khz: u32) -> Option<usize>
    ensures { MatchOption result (NoneGoverns rules.now centre_khz) (Governs rules.now centre_khz) }
{
    for (k, rule) in rules.iter().enumerate() {
        let range = Range {
            start_khz: rule.start_khz,
            end_khz: rule.end_khz,
        };
        if range.holds(centre_khz) {
            return Some(k);
        }
    }
    None
}

/// The rule, counted from 0, that governs the channel of 20 MHz round this centre, in kHz: the first
/// whose range holds it whole (`freq_reg_info_regd`). `None` exactly where no rule does.
pub fn governing(d: &Domain, centre_khz: u32) -> Option<usize>
    ensures { MatchOption result (NoneGoverns d.now.rules centre_khz) (Governs d.now.rules centre_khz) }
{
    first_holding(d.rules.as_slice(), centre_khz)
}
