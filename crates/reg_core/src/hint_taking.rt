//! Hints that are taken, and what they end.

ghost use Rattle.std.specs.Prelude.{◌≡◌, List, MatchResult, OnErr, length};
ghost use Rattle.rule_tables.specs.declared.domain.Domain.{Domain};
ghost use Rattle.reg_hints.specs.Table.{Treated, hinted_code};
ghost use Rattle.reg_journal.specs.Due.{FitsItsRadio};
ghost use Rattle.reg_journal.specs.Facts.{Journal};
ghost use Rattle.reg_journal.specs.Refusals.{HintCauses};
ghost use Rattle.reg_core.specs.Kept.{StandsFor};
ghost use Rattle.reg_core.specs.inner.Deciding.{IsReason};
ghost use Rattle.reg_core.specs.inner.HintsTaken.{MayHint, TakesHint};

use crate::core_state::Core;
use crate::declined::Declined;
use crate::drivers::DriverRow;
use core_parts::moved_by;
use reg_hints::{Hint, Treatment};
use reg_journal::Effects;
use rule_tables::Alpha2;

impl Core {
    /// The hint for this code comes (`regulatory_hint_user` and its like), is treated so, and ends what can't
    /// go on. All memory is taken before the first change.
    pub(crate) fn take_hint<D: DriverRow>(
        &mut self,
        alpha2: Alpha2,
        hint: &Hint,
        drivers: &mut D,
    ) -> Result<(Treatment, Effects), Declined>
        requires core { MayHint self.old (Treated hint.now) }
        requires eight { length (D.seen drivers.old) ≡ 8 }
        requires code { alpha2 ≡ hinted_code hint.now }
        ensures taken { (db : List Domain) (J : Journal) → StandsFor db self.old J → FitsItsRadio J (Treated hint.now) → MatchResult result
            (λ p. TakesHint db J hint.now p.0 self.new (D.seen drivers.old) (D.seen drivers.new) p.1)
            (IsReason (HintCauses db J (Treated hint.now))) }
        ensures core_stays { OnErr result (self.new ≡ self.old) }
        ensures drivers_stay { OnErr result (D.seen drivers.new ≡ D.seen drivers.old) }
    {
        let outcome = match self.hint_outcome(alpha2, hint) {
            Ok(outcome) => outcome,
            Err(declined) => return Err(declined),
        };
        let treatment = outcome.treatment;
        let moved = moved_by(
            &self.radios,
            &self.domains,
            &self.hints,
            &outcome.hints,
            hint,
        );
        self.follow(hint, outcome);
        let effects = self.settle(&moved, &None, drivers);
        Ok((treatment, effects))
    }
}
