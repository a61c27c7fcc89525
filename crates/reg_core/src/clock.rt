//! Moments that pass.

ghost use Rattle.std.specs.Prelude.{◌≡◌, ◌≤◌, ◌^◌, List, MatchOption, MatchResult};
ghost use Rattle.rule_tables.specs.declared.domain.Domain.{Domain};
ghost use Rattle.reg_journal.specs.Causes.{IsFree};
ghost use Rattle.reg_journal.specs.Facts.{Journal, moment_is};
ghost use Rattle.reg_journal.specs.Present.{now_of};
ghost use Rattle.reg_journal.specs.Refusals.{MomentCauses};
ghost use Rattle.reg_core.specs.inner.Deciding.{TakesFact};
ghost use Rattle.reg_core.specs.Kept.{Keeps};

use crate::core_state::Core;
use core_parts::advance_all;
use reg_journal::Refusal;

/// The last moment, in ms.
const LAST_MOMENT: u64 = 1_000_000_000_000_000;

/// Why it can't be `now`, in ms, where it is `clock`.
fn moment_refusal(clock: u64, now: u64) -> Option<Refusal>
    ensures first { (J : Journal) → clock ≡ now_of J → MatchOption result (IsFree (MomentCauses J now)) (MomentCauses J now) }
    ensures due { MatchOption result ((clock ≤ now) × (now ≤ 10 ^ 15)) (λ _. Unit {0}) }
{
    if now > LAST_MOMENT {
        return Some(Refusal::MomentTooLarge(now));
    }
    if now < clock {
        return Some(Refusal::MomentBack(clock));
    }
    None
}

impl Core {
    /// The clock goes on to `now`, in ms.
    pub(crate) fn advance_to(&mut self, now: u64) -> Result<(), Refusal>
        ensures taken { (db : List Domain) (J : Journal) → Keeps db self.old J → MatchResult result
            (λ _. TakesFact db J (MomentCauses J now) (moment_is now) self.new)
            (λ e. MomentCauses J now e × (self.new ≡ self.old)) }
    {
        if let Some(refusal) = moment_refusal(self.clock, now) {
            return Err(refusal);
        }
        advance_all(&mut self.radios, now);
        self.clock = now;
        Ok(())
    }
}
