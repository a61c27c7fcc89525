//! The least channel of a kind.

ghost use Rattle.std.specs.Prelude.{IfOk};
ghost use Rattle.freq_range.specs.Ascending.{AreAllAscending};
ghost use Rattle.freq_range.specs.Channels.{IsCentre};
ghost use Rattle.rule_tables.specs.Governing.{RuleHolds};
ghost use Rattle.db_lint.specs.Notes.{IsLeastChannel};
ghost use Rattle.db_lint.specs.inner.Leasts.{AreLeasts};

use freq_range::{Range, Rule};
use reg_lists::OutOfMemory;
use rule_tables::{Domain, governing};
use std::alloc::Global;

/// The least of all channels that each rule of the domain governs. Each channel is asked once.
pub fn leasts_governed(
    alloc: Global,
    domain: &Domain,
    channels: &[u32],
) -> Result<Vec<Option<u32>>, OutOfMemory>
    requires channels { AreAllAscending IsCentre channels.now }
    ensures leasts { IfOk result (λ leasts. AreLeasts domain.now.rules leasts.items) }
{
    let mut leasts = vec![in alloc; None; domain.rules.len()]?;
    for khz in channels {
        if let Some(k) = governing(domain, *khz) {
            leasts[k] = leasts[k].or(Some(*khz));
        }
    }
    Ok(leasts)
}

/// The least of all channels that the rule's range holds.
pub fn least_held(rule: &Rule, channels: &[u32]) -> Option<u32>
    requires channels { AreAllAscending IsCentre channels.now }
    ensures least { IsLeastChannel (λ khz. RuleHolds khz rule.now) result }
{
    let range = Range {
        start_khz: rule.start_khz,
        end_khz: rule.end_khz,
    };
    for khz in channels {
        if range.holds(*khz) {
            return Some(*khz);
        }
    }
    None
}
