//! Hints of drivers: on a radio that manages itself they give the radio a domain of its own, and else they
//! are treated as others' are.

ghost use Rattle.std.specs.Prelude.{◌≡◌, ◌∷◌, List, ℕ, false, IsSome, MatchResult, OnErr, length, slice_index_or};
ghost use Rattle.rule_tables.specs.declared.domain.Domain.{Domain};
ghost use Rattle.reg_hints.specs.Table.{Own};
ghost use Rattle.reg_journal.specs.Applicable.{applies, hints_of, is_self_managed};
ghost use Rattle.reg_journal.specs.Causes.{◌before◌};
ghost use Rattle.reg_journal.specs.Due.{FitsItsRadio};
ghost use Rattle.reg_journal.specs.Facts.{Journal, hinted};
ghost use Rattle.reg_journal.specs.Present.{profile_of};
ghost use Rattle.reg_journal.specs.Refusals.{HintCauses, LacksRadio};
ghost use Rattle.reg_journal.specs.Replies.{driver_hint};
ghost use Rattle.reg_core.specs.Kept.{Keeps, StandsFor};
ghost use Rattle.core_parts.specs.Kept.{KeepsPlace, KeepsRadio, KeepsRadios};
ghost use Rattle.reg_core.specs.inner.Deciding.{IsCore, IsReason};
ghost use Rattle.reg_core.specs.inner.DriverHints.{HearsDriver, IsTuning, TakesOwn, Tunes};
ghost use Rattle.reg_core.specs.inner.HintsTaken.{MayHint};
ghost use Rattle.core_parts.specs.Making.{IsMadeFault};

use crate::core_state::Core;
use crate::declined::Declined;
use crate::drivers::DriverRow;
use crate::hint_outcomes::declined;
use crate::indoors::nowhere;
use core_parts::{
    Domains, Radio, RadioPlace, checks_last, is_moved, radio_at, radio_table, region_of,
};
use reg_hints::{Hint, Hints, RadioNo};
use reg_journal::{Effects, HintAnswer, Refusal};
use rule_intersect::{ResolveFault, Table};
use rule_tables::Alpha2;
use std::alloc::Global;

/// What a driver's hint gives to its radio, which manages itself.
#[derive(Drop)]
pub(crate) struct Tuning {
    /// The rows of the list that then applies to the radio.
    pub(crate) table: Table,
    /// Whether the radio's region is another.
    pub(crate) moved: bool,
    /// Whether checks last on the radio from then on.
    pub(crate) lasts: bool,
}

/// What the hint of its driver for this code gives to the radio, which manages itself.
fn tuning_of(
    alloc: Global,
    domains: &Domains,
    hints: &Hints,
    kept: &Radio,
    alpha2: Alpha2,
) -> Result<Tuning, ResolveFault>
    ensures { (J : Journal) (r : ℕ) → KeepsRadio domains.now J r kept.now → hints_of J ≡ hints.now → MatchResult result
        (Tunes domains.now J r alpha2) (IsMadeFault (applies domains.now (hinted (Own r alpha2) ∷ J) r)) }
{
    let self_managed = kept.chans.profile().self_managed();
    let table = radio_table(
        alloc,
        domains,
        hints,
        self_managed,
        kept.custom.as_ref(),
        Some(alpha2),
    )?;
    let was = region_of(domains, hints, self_managed, kept.driver);
    let is = region_of(domains, hints, self_managed, Some(alpha2));
    Ok(Tuning {
        table,
        moved: is_moved(was, is),
        lasts: checks_last(is),
    })
}

/// The hint gives this to the radio of the place.
fn tune_place(place: &mut RadioPlace, alpha2: Alpha2, tuning: Tuning)
    ensures kept { (db : List Domain) (J : Journal) (r : ℕ) → KeepsPlace db J r place.old → Tunes db J r alpha2 tuning
        → KeepsPlace db (hinted (Own r alpha2) ∷ J) r place.new }
{
    if let RadioPlace::There(radio) = place {
        radio.retune(Some(alpha2), tuning.table, tuning.moved, tuning.lasts);
    }
}

/// The hint gives this to the radio.
fn tune_at(radios: &mut [RadioPlace], radio: RadioNo, alpha2: Alpha2, tuning: Tuning)
    requires eight { length radios.old ≡ 8 }
    ensures kept { (db : List Domain) (J : Journal) → KeepsRadios db J radios.old → Tunes db J radio alpha2 tuning
        → KeepsRadios db (hinted (Own radio alpha2) ∷ J) radios.new }
{
    let place = &mut radios[radio.get() as usize];
    tune_place(place, alpha2, tuning);
}

/// The radio's region changed or not, and no other's did.
fn moved_alone(radio: RadioNo, moved: bool) -> [bool; 8]
    ensures here { slice_index_or result radio false ≡ moved }
    ensures others { (r : ℕ) → (r ≡ radio → ⊥) → slice_index_or result r false ≡ false }
{
    let mut flags = nowhere();
    flags[radio.get() as usize] = moved;
    flags
}

impl Core {
    /// What the hint gives to the radio, which manages itself, with all the memory that it takes, or why
    /// it can't come.
    fn own_tuning(&self, radio: RadioNo, alpha2: Alpha2) -> Result<Tuning, Declined>
        ensures { (db : List Domain) (J : Journal) → Keeps db self.now J → IsSome (profile_of J radio) → MatchResult result
            (IsTuning db J radio alpha2) (IsReason (HintCauses db J (Own radio alpha2))) }
    {
        if self.domains.find(alpha2).is_none() {
            return Err(Declined::Refused(Refusal::NoCountry(alpha2)));
        }
        let Some(kept) = radio_at(&self.radios, radio) else {
            return Err(Declined::Refused(Refusal::NoRadio(radio)));
        };
        let alloc = self.interfaces.allocator();
        match tuning_of(alloc, &self.domains, &self.hints, kept, alpha2) {
            Ok(tuning) => Ok(tuning),
            Err(fault) => Err(declined(fault)),
        }
    }

    /// The hint of its driver comes to the radio, which manages itself, and ends what can't go on. All
    /// memory is taken before the first change.
    fn take_own_hint<D: DriverRow>(
        &mut self,
        radio: RadioNo,
        alpha2: Alpha2,
        drivers: &mut D,
    ) -> Result<Effects, Declined>
        requires core { MayHint self.old (Own radio alpha2) }
        requires eight { length (D.seen drivers.old) ≡ 8 }
        ensures taken { (db : List Domain) (J : Journal) → StandsFor db self.old J → FitsItsRadio J (Own radio alpha2) → MatchResult result
            (TakesOwn db J radio alpha2 self.new (D.seen drivers.old) (D.seen drivers.new))
            (IsReason (HintCauses db J (Own radio alpha2))) }
        ensures core_stays { OnErr result (self.new ≡ self.old) }
        ensures drivers_stay { OnErr result (D.seen drivers.new ≡ D.seen drivers.old) }
    {
        let tuning = match self.own_tuning(radio, alpha2) {
            Ok(tuning) => tuning,
            Err(declined) => return Err(declined),
        };
        let moved = moved_alone(radio, tuning.moved);
        tune_at(&mut self.radios, radio, alpha2, tuning);
        Ok(self.settle(&moved, &None, drivers))
    }

    /// Whether the radio manages itself.
    fn manages_itself(&self, radio: RadioNo) -> Result<bool, Refusal>
        ensures { (db : List Domain) (J : Journal) → Keeps db self.now J → MatchResult result
            (λ own. IsSome (profile_of J radio) × (is_self_managed J radio ≡ own)) (LacksRadio J radio) }
    {
        match radio_at(&self.radios, radio) {
            Some(kept) => Ok(kept.chans.profile().self_managed()),
            None => Err(Refusal::NoRadio(radio)),
        }
    }

    /// The radio's driver says where it is (`regulatory_hint`).
    pub(crate) fn hear_driver<D: DriverRow>(
        &mut self,
        radio: RadioNo,
        alpha2: Alpha2,
        drivers: &mut D,
    ) -> Result<(HintAnswer, Effects), Declined>
        requires core { IsCore self.old }
        requires eight { length (D.seen drivers.old) ≡ 8 }
        ensures taken { (db : List Domain) (J : Journal) → StandsFor db self.old J → MatchResult result
            (λ p. HearsDriver db J radio alpha2 p.0 self.new (D.seen drivers.old) (D.seen drivers.new) p.1)
            (IsReason (LacksRadio J radio before HintCauses db J (driver_hint J radio alpha2))) }
        ensures core_stays { OnErr result (self.new ≡ self.old) }
        ensures drivers_stay { OnErr result (D.seen drivers.new ≡ D.seen drivers.old) }
    {
        match self.manages_itself(radio) {
            Ok(true) => match self.take_own_hint(radio, alpha2, drivers) {
                Ok(effects) => Ok((HintAnswer::Own, effects)),
                Err(declined) => Err(declined),
            },
            Ok(false) => match self.take_hint(alpha2, &Hint::Driver { radio, alpha2 }, drivers) {
                Ok((treatment, effects)) => Ok((HintAnswer::Treated(treatment), effects)),
                Err(declined) => Err(declined),
            },
            Err(refusal) => Err(Declined::Refused(refusal)),
        }
    }
}
