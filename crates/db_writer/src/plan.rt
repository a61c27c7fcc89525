//! What the writer knows of a file before it writes it: the sections, and where they begin.

ghost use Rattle.std.specs.Prelude.{◌≡◌, ◌+◌, ◌*◌, ◌^◌, ◌≤◌, All, IfOk, List, length, sum_by};
ghost use Rattle.rule_tables.specs.Databases.{IsDb, IsDomain};
ghost use Rattle.rule_tables.specs.declared.domain.Domain.{Domain};
ghost use Rattle.db_writer.specs.Order.{IsFileSection};
ghost use Rattle.db_writer.specs.Records.{rule_key, rule_words, collection_key, collection_words};
ghost use Rattle.db_writer.specs.LaidOut.{UsesWmm, UsesRule, UsesCollection, wmm_place, first_wmm, last_collection};
ghost use Rattle.db_writer.specs.inner.Gathered.{HasWmmAmong};
ghost use Rattle.db_writer.specs.inner.Filed.{rule_at_in, AreFiled};
ghost use Rattle.db_writer.specs.inner.Planned.{IsPlanOf, IsSmall, sections_in};

use crate::gather::{RuleSections, collections_of, rules_of, wmm_rules_of};
use crate::records::{CollectionRecord, RuleRecord, WmmRecord};
use crate::section::{Section, section_of, words_of};
use reg_lists::OutOfMemory;
use rule_tables::Domain;
use std::alloc::Global;

/// The sections of records of a file.
#[derive(Drop)]
pub struct Plan {
    pub rules: RuleSections,
    pub collections: Section<CollectionRecord>,
}

/// The section of WMM rules.
fn wmm_section(alloc: Global, domains: &[Domain]) -> Result<Section<WmmRecord>, OutOfMemory>
    requires valid { All IsDomain domains.now }
    requires few { length domains.now ≤ 65536 }
    ensures first { IfOk result (λ s. s.first ≡ first_wmm domains.now) }
    ensures section { IfOk result (λ s. IsFileSection (λ bytes. bytes) (UsesWmm domains.now) s.records.items) }
    ensures few { IfOk result (λ s. length s.records.items ≤ 2 ^ 23) }
{
    let records = wmm_rules_of(alloc, domains)?;
    let section = section_of(alloc, records, 3 + domains.len() as u64)?;
    Ok(section)
}

/// The section of rules, which begins at `first`.
fn rule_section(
    alloc: Global,
    domains: &[Domain],
    wmm_rules: &Section<WmmRecord>,
    first: u64,
) -> Result<Section<RuleRecord>, OutOfMemory>
    requires valid { All IsDomain domains.now }
    requires few { length domains.now ≤ 65536 }
    requires there { All (λ d. All (HasWmmAmong wmm_rules.now.records.items) d.rules) domains.now }
    requires low { first ≤ 2 ^ 32 }
    ensures first { IfOk result (λ s. s.first ≡ first) }
    ensures section { IfOk result (λ s. IsFileSection rule_key (UsesRule (wmm_place wmm_rules.now.first wmm_rules.now.records.items) domains.now) s.records.items) }
    ensures few { IfOk result (λ s. length s.records.items ≤ 2 ^ 23) }
{
    let records = rules_of(alloc, domains, wmm_rules)?;
    let section = section_of(alloc, records, first)?;
    Ok(section)
}

/// The section of collections, which begins at `first`.
fn collection_section(
    alloc: Global,
    domains: &[Domain],
    rules: &RuleSections,
    first: u64,
) -> Result<Section<CollectionRecord>, OutOfMemory>
    requires valid { All IsDomain domains.now }
    requires few { length domains.now ≤ 65536 }
    requires there { All (AreFiled rules.now) domains.now }
    requires low { first ≤ 2 ^ 32 }
    ensures first { IfOk result (λ s. s.first ≡ first) }
    ensures section { IfOk result (λ s. IsFileSection collection_key (UsesCollection (rule_at_in rules.now) domains.now) s.records.items) }
    ensures few { IfOk result (λ s. length s.records.items ≤ 2 ^ 23) }
    ensures short { IfOk result (λ s. All (λ c. collection_words c ≤ 65) s.records.items) }
{
    let records = collections_of(alloc, domains, rules)?;
    let section = section_of(alloc, records, first)?;
    Ok(section)
}

/// The place behind the WMM rules, in words.
fn end_of_wmm(section: &Section<WmmRecord>) -> u64
    requires first { section.now.first ≤ 2 ^ 24 }
    requires few { length section.now.records.items ≤ 2 ^ 23 }
    ensures end { result ≡ section.now.first + 8 * length section.now.records.items }
    ensures small { result ≤ 2 ^ 28 }
{
    section.first + 8 * section.records.len() as u64
}

/// The place behind the rules, in words.
fn end_of_rules(section: &Section<RuleRecord>) -> u64
    requires first { section.now.first ≤ 2 ^ 28 }
    requires few { length section.now.records.items ≤ 2 ^ 23 }
    ensures end { result ≡ section.now.first + sum_by rule_words section.now.records.items }
    ensures small { result ≤ 2 ^ 31 }
{
    section.first + words_of(section.records.as_slice())
}

/// The sections of the file of these domains.
pub fn plan_of(alloc: Global, domains: &[Domain]) -> Result<Plan, OutOfMemory>
    requires { IsDb domains.now }
    ensures plan { IfOk result (IsPlanOf domains.now) }
    ensures small { IfOk result IsSmall }
{
    let wmm_rules = wmm_section(alloc, domains)?;
    let rules = rule_section(alloc, domains, &wmm_rules, end_of_wmm(&wmm_rules))?;
    let first = end_of_rules(&rules);
    let rules = RuleSections { wmm_rules, rules };
    let collections = collection_section(alloc, domains, &rules, first)?;
    Ok(Plan { rules, collections })
}

/// The place of the last collection, in words.
pub fn last_collection(plan: &Plan) -> u64
    requires { IsSmall plan.now }
    ensures { (ds : List Domain) → IsPlanOf ds plan.now → result ≡ last_collection ds (sections_in plan.now) }
{
    let collections = plan.collections.records.as_slice();
    let before_last = &collections[..collections.len().saturating_sub(1)];
    plan.collections.first + words_of(before_last)
}
