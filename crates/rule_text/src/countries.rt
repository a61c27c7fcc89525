//! The countries of a text, as far as its lines were read.

ghost use Rattle.std.specs.Prelude.{◌≡◌, ℕ, ◌+◌, List, ◌∷◌, length, All, MatchResult, Option};
ghost use Rattle.freq_range.specs.declared.rule.Rule.{Rule};
ghost use Rattle.rule_tables.specs.Code.{IsCode};
ghost use Rattle.rule_text.specs.Forms as forms;
ghost use Rattle.rule_text.specs.Forms.{Form, block_of, with_named};
ghost use Rattle.rule_text.specs.Forms.Block.{OfCountries};
ghost use Rattle.rule_text.specs.inner.State.{AddsRule, AddsTo, AreCountries, IsAddAllStop, IsAddStop, IsAddToStop, IsOpenAllStop, IsOpenStop, OpensCountry};

use freq_range::{Rule, RuleList, contains_rule};
use rule_tables::{Alpha2, Region};
use std::alloc::Global;
use std::collections::BTreeMap;
use text_lines::{LineStop, TextKind};

/// The most rules that a country may have.
const MOST_RULES: usize = 128;

/// A country's rules, as far as they were read.
#[derive(Debug, Drop)]
pub struct Country {
    pub alpha2: Alpha2,
    pub region: Region,
    /// The line of its first header, counted from 1.
    pub line: u64,
    pub rules: RuleList,
}

impl Country {
    /// Adds a rule that it doesn't have yet. It is refused where it would be the 129th.
    fn add(&mut self, rule: &Rule) -> Result<(), LineStop>
        ensures { MatchResult result (λ _. AddsRule rule.now self.old self.new) (IsAddStop rule.now self.old) }
    {
        if contains_rule(self.rules.as_slice(), rule) {
            return Ok(());
        }
        if self.rules.len() >= MOST_RULES {
            return Err(LineStop::Kind(TextKind::TooManyRules));
        }
        self.rules.push(*rule)?;
        Ok(())
    }
}

/// Opens a country at the header on this line. One that was opened before has to have the region.
pub fn open_country(
    alloc: Global,
    countries: &mut BTreeMap<u16, Country>,
    alpha2: Alpha2,
    region: Region,
    line: u64,
) -> Result<(), LineStop>
    ensures { MatchResult result
        (λ _. OpensCountry alpha2 region line countries.old countries.new)
        (IsOpenStop alpha2 region countries.old) }
{
    if let Some(country) = countries.get(&alpha2.key()) {
        if country.region.is_same(region) {
            return Ok(());
        }
        return Err(LineStop::Kind(TextKind::RegionDiffers));
    }
    let country = Country {
        alpha2,
        region,
        line,
        rules: RuleList::new(alloc),
    };
    countries.insert(alpha2.key(), country)?;
    Ok(())
}

/// Adds a rule to the country of the code.
pub fn add_rule(
    countries: &mut BTreeMap<u16, Country>,
    alpha2: Alpha2,
    rule: &Rule,
) -> Result<(), LineStop>
    ensures { MatchResult result
        (λ _. AddsTo alpha2 rule.now countries.old countries.new)
        (IsAddToStop alpha2 rule.now countries.old) }
{
    match countries.get_mut(&alpha2.key()) {
        Some(country) => country.add(rule),
        None => Ok(()),
    }
}

/// Opens the countries of a header on this line.
pub fn open_countries(
    alloc: Global,
    countries: &mut BTreeMap<u16, Country>,
    codes: &[Alpha2],
    region: Region,
    line: u64,
) -> Result<(), LineStop>
    ensures { (above : List Form) → line ≡ length above + 1 → All IsCode codes.now → AreCountries above countries.old
        → MatchResult result
        (λ _. AreCountries (Form.Country codes.now region ∷ above) countries.new)
        (IsOpenAllStop above codes.now region) }
{
    for code in codes {
        open_country(alloc, countries, *code, region, line)?;
    }
    Ok(())
}

/// Adds a rule to each country of a header.
pub fn add_rules(
    countries: &mut BTreeMap<u16, Country>,
    codes: &[Alpha2],
    rule: &Rule,
) -> Result<(), LineStop>
    ensures { (above : List Form) (bare : Rule) (name : Option (List ℕ)) → rule.now ≡ with_named above bare name → block_of above ≡ OfCountries codes.now
        → All IsCode codes.now → AreCountries above countries.old → MatchResult result
        (λ _. AreCountries (Form.RuleLine bare name ∷ above) countries.new)
        (IsAddAllStop (Form.RuleLine bare name ∷ above) codes.now) }
{
    for code in codes {
        add_rule(countries, *code, rule)?;
    }
    Ok(())
}
