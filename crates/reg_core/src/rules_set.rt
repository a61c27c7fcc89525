//! Custom rules of radios.

ghost use Rattle.std.specs.Prelude.{◌≡◌, ◌∷◌, List, ℕ, All, MatchOption, MatchResult, OnErr, length};
ghost use Rattle.freq_range.specs.First.{IsFirst};
ghost use Rattle.freq_range.specs.Valid.{IsValidRule};
ghost use Rattle.freq_range.specs.declared.rule.Rule.{Rule};
ghost use Rattle.rule_tables.specs.Domains.{IsInvalidAt};
ghost use Rattle.rule_intersect.specs.Tables.{IsTableOf};
ghost use Rattle.rule_tables.specs.World.{custom_domain};
ghost use Rattle.rule_tables.specs.declared.domain.Domain.{Domain};
ghost use Rattle.reg_journal.specs.Applicable.{applies};
ghost use Rattle.reg_journal.specs.Facts.{Journal, rules_are};
ghost use Rattle.reg_journal.specs.Refusals.{RulesCauses};
ghost use Rattle.reg_journal.specs.Requests.{IsAskable};
ghost use Rattle.reg_journal.specs.declared.request.Request.TheVariants.{RadioRules};
ghost use Rattle.reg_core.specs.Kept.{Keeps, StandsFor};
ghost use Rattle.core_parts.specs.Kept.{KeepsPlace, KeepsRadios};
ghost use Rattle.reg_core.specs.inner.Deciding.{IsCore, IsReason};
ghost use Rattle.reg_core.specs.inner.RulesSet.{AreCustomRules, IsRuling, RuleListCauses, SetsRules};

use crate::core_state::Core;
use crate::declined::Declined;
use crate::drivers::DriverRow;
use crate::hint_outcomes::declined;
use crate::indoors::nowhere;
use core_parts::{CustomRules, RadioPlace, radio_at, radio_table};
use freq_range::{Rule, RuleList};
use reg_hints::RadioNo;
use reg_journal::{Effects, Refusal};
use rule_intersect::Table;
use std::alloc::Global;

/// The most custom rules of a radio.
const MOST_RULES: usize = 32;

/// What a radio's custom rules lead to.
#[derive(Drop)]
pub(crate) struct Ruling {
    pub(crate) custom: CustomRules,
    /// The rows of the list that then applies to the radio.
    pub(crate) table: Table,
}

/// The place of the first rule that isn't valid.
fn first_invalid(rules: &[Rule]) -> Option<usize>
    ensures { MatchOption result (All IsValidRule rules.now) (IsFirst (IsInvalidAt rules.now)) }
{
    for (k, rule) in rules.iter().enumerate() {
        if !rule.is_valid() {
            return Some(k);
        }
    }
    None
}

/// Why these can't be custom rules.
fn rules_refusal(rules: &[Rule]) -> Option<Refusal>
    ensures { MatchOption result (AreCustomRules rules.now) (RuleListCauses rules.now) }
{
    if rules.len() > MOST_RULES {
        return Some(Refusal::TooManyRules(rules.len()));
    }
    if rules.is_empty() {
        return Some(Refusal::NoRules);
    }
    match first_invalid(rules) {
        Some(k) => Some(Refusal::BadRule(k)),
        None => None,
    }
}

/// The rules as custom rules, or why they can't be. They are judged before memory is taken for them.
fn custom_rules(alloc: Global, rules: &RuleList) -> Result<CustomRules, Declined>
    ensures { MatchResult result (λ custom. AreCustomRules rules.now × (custom ≡ custom_domain rules.now))
        (IsReason (RuleListCauses rules.now)) }
{
    if let Some(refusal) = rules_refusal(rules.as_slice()) {
        return Err(Declined::Refused(refusal));
    }
    let mut copy = RuleList::new(alloc);
    copy.append(rules.as_slice())?;
    Ok(CustomRules::new(copy))
}

/// The radio of the place has these custom rules from now on.
fn rule_place(place: &mut RadioPlace, ruling: Ruling)
    ensures kept { (db : List Domain) (J : Journal) (r : ℕ) (rules : List Rule) → KeepsPlace db J r place.old → ruling.custom ≡ custom_domain rules
        → IsTableOf (applies db (rules_are r rules ∷ J) r) ruling.table → KeepsPlace db (rules_are r rules ∷ J) r place.new }
{
    if let RadioPlace::There(radio) = place {
        radio.rule(ruling.custom, ruling.table);
    }
}

/// The radio has these custom rules from now on.
fn rule_at(radios: &mut [RadioPlace], radio: RadioNo, ruling: Ruling)
    requires eight { length radios.old ≡ 8 }
    ensures kept { (db : List Domain) (J : Journal) (rules : List Rule) → KeepsRadios db J radios.old → ruling.custom ≡ custom_domain rules
        → IsTableOf (applies db (rules_are radio rules ∷ J) radio) ruling.table → KeepsRadios db (rules_are radio rules ∷ J) radios.new }
{
    let place = &mut radios[radio.get() as usize];
    rule_place(place, ruling);
}

impl Core {
    /// What the radio's custom rules lead to, with all the memory that it takes, or why they can't come.
    fn rules_outcome(&self, radio: RadioNo, rules: &RuleList) -> Result<Ruling, Declined>
        ensures { (db : List Domain) (J : Journal) → Keeps db self.now J → MatchResult result (IsRuling db J radio rules.now)
            (IsReason (RulesCauses db J radio rules.now)) }
    {
        let Some(kept) = radio_at(&self.radios, radio) else {
            return Err(Declined::Refused(Refusal::NoRadio(radio)));
        };
        let alloc = self.interfaces.allocator();
        let custom = match custom_rules(alloc, rules) {
            Ok(custom) => custom,
            Err(declined) => return Err(declined),
        };
        let self_managed = kept.chans.profile().self_managed();
        match radio_table(
            alloc,
            &self.domains,
            &self.hints,
            self_managed,
            Some(&custom),
            kept.driver,
        ) {
            Ok(table) => Ok(Ruling { custom, table }),
            Err(fault) => Err(declined(fault)),
        }
    }

    /// The radio has these custom rules from now on (`wiphy_apply_custom_regulatory`), and what can't go
    /// on there ends. All memory is taken before the first change.
    pub(crate) fn set_rules<D: DriverRow>(
        &mut self,
        radio: RadioNo,
        rules: &RuleList,
        drivers: &mut D,
    ) -> Result<Effects, Declined>
        requires core { IsCore self.old }
        requires eight { length (D.seen drivers.old) ≡ 8 }
        requires askable { IsAskable (RadioRules radio rules.now) }
        ensures set { (db : List Domain) (J : Journal) → StandsFor db self.old J → MatchResult result
            (λ effects. SetsRules db J radio rules.now self.new (D.seen drivers.old) (D.seen drivers.new) effects)
            (IsReason (RulesCauses db J radio rules.now)) }
        ensures core_stays { OnErr result (self.new ≡ self.old) }
        ensures drivers_stay { OnErr result (D.seen drivers.new ≡ D.seen drivers.old) }
    {
        let ruling = match self.rules_outcome(radio, rules) {
            Ok(ruling) => ruling,
            Err(declined) => return Err(declined),
        };
        rule_at(&mut self.radios, radio, ruling);
        Ok(self.settle(&nowhere(), &Some(radio), drivers))
    }
}
