//! Country elements that radios receive.

ghost use Rattle.std.specs.Prelude.{◌≡◌, ℕ, List, MatchResult, OnErr, length};
ghost use Rattle.rule_tables.specs.declared.domain.Domain.{Domain};
ghost use Rattle.reg_hints.specs.Element.{IsElementFault};
ghost use Rattle.reg_journal.specs.Causes.{◌before◌};
ghost use Rattle.reg_journal.specs.Facts.{Journal};
ghost use Rattle.reg_journal.specs.Refusals.{ElementCauses, LacksRadio};
ghost use Rattle.reg_core.specs.Kept.{Keeps, StandsFor};
ghost use Rattle.reg_core.specs.inner.Deciding.{IsCore, IsReason};
ghost use Rattle.reg_core.specs.inner.Elements.{BarsElement, HasHint, HearsElement};

use crate::core_state::Core;
use crate::declined::Declined;
use crate::drivers::DriverRow;
use core_parts::radio_at;
use reg_hints::{ElementFault, Hint, RadioNo, Treatment, read_country_element};
use reg_journal::{Effects, Refusal};
use rule_tables::Alpha2;

/// The refusal of an element with this fault.
fn element_refusal(fault: ElementFault) -> Refusal
    ensures { (body : List ℕ) → IsElementFault body fault → ElementCauses body result }
{
    match fault {
        ElementFault::Short(bytes) => Refusal::ElementShort(bytes),
        ElementFault::Odd(bytes) => Refusal::ElementOdd(bytes),
        ElementFault::NotLetters => Refusal::ElementNotLetters,
    }
}

impl Core {
    /// The code that the radio's country element with this body says, and the hint that it is.
    fn element_hint(&self, radio: RadioNo, body: &[u8]) -> Result<(Alpha2, Hint), Refusal>
        ensures { (db : List Domain) (J : Journal) → Keeps db self.now J → MatchResult result
            (λ p. HasHint J radio body.now p.0 p.1) ((LacksRadio J radio before ElementCauses body.now)) }
    {
        let Some(kept) = radio_at(&self.radios, radio) else {
            return Err(Refusal::NoRadio(radio));
        };
        let alpha2 = match read_country_element(body) {
            Ok(element) => element.alpha2,
            Err(fault) => return Err(element_refusal(fault)),
        };
        let profile = kept.chans.profile();
        let deaf = profile.deaf() || profile.self_managed();
        Ok((
            alpha2,
            Hint::Element {
                radio,
                alpha2,
                deaf,
            },
        ))
    }

    /// The radio received a country element with this body (`regulatory_hint_country_ie`).
    pub(crate) fn hear_element<D: DriverRow>(
        &mut self,
        radio: RadioNo,
        body: &[u8],
        drivers: &mut D,
    ) -> Result<(Treatment, Effects), Declined>
        requires core { IsCore self.old }
        requires eight { length (D.seen drivers.old) ≡ 8 }
        ensures taken { (db : List Domain) (J : Journal) → StandsFor db self.old J → MatchResult result
            (λ p. HearsElement db J radio body.now p.0 self.new (D.seen drivers.old) (D.seen drivers.new) p.1)
            (IsReason (BarsElement db J radio body.now)) }
        ensures core_stays { OnErr result (self.new ≡ self.old) }
        ensures drivers_stay { OnErr result (D.seen drivers.new ≡ D.seen drivers.old) }
    {
        match self.element_hint(radio, body) {
            Ok((alpha2, hint)) => self.take_hint(alpha2, &hint, drivers),
            Err(refusal) => Err(Declined::Refused(refusal)),
        }
    }
}
