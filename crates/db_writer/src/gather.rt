//! The records that a database needs.

ghost use Rattle.std.specs.Prelude.{◌≡◌, ℕ, ◌≤◌, ◌++◌, All, IfOk, IfSome, OnOk, Contains, flat_map, length, map, option_map};
ghost use Rattle.freq_range.specs.Valid.{IsValidEntry, IsValidWmm, IsValidRule};
ghost use Rattle.rule_tables.specs.Databases.{IsDomain};
ghost use Rattle.rule_tables.specs.Regions.{region_number};
ghost use Rattle.db_writer.specs.Records.{wmm_entry_bytes, wmm_bytes, bit, flags_byte};
ghost use Rattle.db_writer.specs.LaidOut.{wmm_place, rule_record, collection_record};
ghost use Rattle.db_writer.specs.inner.Gathered.{wmm_rules_of_rule, wmm_of_domain, records_of_domain, HasWmmAmong};
ghost use Rattle.db_writer.specs.inner.Filed.{rule_at_in, IsFiled, AreFiled};

use crate::records::{CollectionRecord, Places, RuleRecord, WmmRecord};
use crate::section::{Section, place_of};
use byteorder::{BigEndian, ByteOrder};
use freq_range::{Rule, RuleFlags, Wmm, WmmEntry};
use reg_lists::OutOfMemory;
use rule_tables::{Domain, Region};
use std::alloc::Global;

/// The sections in which rules are looked up.
#[derive(Drop)]
pub struct RuleSections {
    pub wmm_rules: Section<WmmRecord>,
    pub rules: Section<RuleRecord>,
}

/// The bytes of an entry of a WMM rule.
#[tactic(auto, unfolding(crate::specs::Records::wmm_entry_bytes, crate::specs::Records::be16))]
fn entry_bytes(entry: &WmmEntry) -> [u8; 4]
    requires { IsValidEntry entry.now }
    ensures { result ≡ wmm_entry_bytes entry.now }
{
    let mut cot = [0u8; 2];
    BigEndian::write_u16(&mut cot, entry.cot_ms);
    [
        entry.min_exp * 16 + entry.max_exp,
        entry.aifsn,
        cot[0],
        cot[1],
    ]
}

/// The bytes of all eight entries.
fn joined(entries: &[WmmEntry; 8]) -> WmmRecord
    requires { All IsValidEntry entries.now }
    ensures { result ≡ flat_map wmm_entry_bytes entries.now }
{
    let mut record = [0u8; 32];
    for (k, entry) in entries.iter().enumerate() {
        record[4 * k..4 * k + 4].copy_from_slice(&entry_bytes(entry));
    }
    record
}

/// The record of a WMM rule.
#[tactic(auto, unfolding(crate::specs::Records::wmm_bytes))]
fn wmm_record(wmm: &Wmm) -> WmmRecord
    requires { IsValidWmm wmm.now }
    ensures { result ≡ wmm_bytes wmm.now }
{
    joined(&[
        wmm.vo_c, wmm.vi_c, wmm.be_c, wmm.bk_c, wmm.vo_ap, wmm.vi_ap, wmm.be_ap, wmm.bk_ap,
    ])
}

/// Adds the WMM rule of the rule, if there is one.
fn add_wmm_rule(records: &mut Vec<WmmRecord>, rule: &Rule) -> Result<(), OutOfMemory>
    requires { IsValidRule rule.now }
    ensures { OnOk result (records.new.items ≡ records.old.items ++ wmm_rules_of_rule rule.now) }
{
    if let Some(wmm) = &rule.wmm {
        records.push(wmm_record(wmm))?;
    }
    Ok(())
}

/// Adds the WMM rules of the rules.
fn add_wmm_rules(records: &mut Vec<WmmRecord>, rules: &[Rule]) -> Result<(), OutOfMemory>
    requires { All IsValidRule rules.now }
    ensures { OnOk result (records.new.items ≡ records.old.items ++ flat_map wmm_rules_of_rule rules.now) }
{
    for rule in rules {
        add_wmm_rule(records, rule)?;
    }
    Ok(())
}

/// The WMM rules of the rules of all domains.
pub fn wmm_rules_of(alloc: Global, domains: &[Domain]) -> Result<Vec<WmmRecord>, OutOfMemory>
    requires { All IsDomain domains.now }
    ensures { IfOk result (λ records. records.items ≡ flat_map wmm_of_domain domains.now) }
{
    let mut records = Vec::new(alloc);
    for domain in domains {
        add_wmm_rules(&mut records, domain.rules.as_slice())?;
    }
    Ok(records)
}

/// The place of the WMM rule, if there is one.
#[tactic(auto, unfolding(crate::specs::LaidOut::wmm_place))]
fn wmm_place(wmm: &Option<Wmm>, wmm_rules: &Section<WmmRecord>) -> Option<u64>
    requires valid { IfSome wmm.now IsValidWmm }
    requires there { IfSome wmm.now (λ w. Contains wmm_rules.now.records.items (wmm_bytes w)) }
    ensures { result ≡ option_map (wmm_place wmm_rules.now.first wmm_rules.now.records.items) wmm.now }
{
    match wmm {
        Some(wmm) => Some(place_of(wmm_rules, &wmm_record(wmm))),
        None => None,
    }
}

/// 1 where the flag is set.
fn bit(flag: bool) -> u8
    ensures value { result ≡ bit flag }
    ensures small { result ≤ 1 }
{
    u8::from(flag)
}

/// All flags in one byte.
#[tactic(auto, unfolding(crate::specs::Records::flags_byte))]
fn flags_byte(flags: &RuleFlags) -> u8
    ensures { result ≡ flags_byte flags.now }
{
    bit(flags.no_ofdm)
        + 2 * bit(flags.no_outdoor)
        + 4 * bit(flags.dfs)
        + 8 * bit(flags.no_ir)
        + 16 * bit(flags.auto_bw)
}

/// The record of a rule.
#[tactic(auto, unfolding(crate::specs::LaidOut::rule_record))]
fn rule_record(rule: &Rule, wmm_rules: &Section<WmmRecord>) -> RuleRecord
    requires valid { IsValidRule rule.now }
    requires there { HasWmmAmong wmm_rules.now.records.items rule.now }
    ensures { result ≡ rule_record (wmm_place wmm_rules.now.first wmm_rules.now.records.items) rule.now }
{
    RuleRecord {
        start_khz: rule.start_khz,
        end_khz: rule.end_khz,
        max_bw_khz: rule.max_bw_khz,
        flags: flags_byte(&rule.flags),
        eirp_mbm: rule.eirp_mbm,
        cac_s: rule.cac_s,
        wmm: wmm_place(&rule.wmm, wmm_rules),
    }
}

/// Adds the records of the rules.
fn add_rules(
    records: &mut Vec<RuleRecord>,
    rules: &[Rule],
    wmm_rules: &Section<WmmRecord>,
) -> Result<(), OutOfMemory>
    requires valid { All IsValidRule rules.now }
    requires there { All (HasWmmAmong wmm_rules.now.records.items) rules.now }
    ensures { OnOk result (records.new.items ≡ records.old.items ++ map (rule_record (wmm_place wmm_rules.now.first wmm_rules.now.records.items)) rules.now) }
{
    for rule in rules {
        records.push(rule_record(rule, wmm_rules))?;
    }
    Ok(())
}

/// The records of the rules of all domains.
pub fn rules_of(
    alloc: Global,
    domains: &[Domain],
    wmm_rules: &Section<WmmRecord>,
) -> Result<Vec<RuleRecord>, OutOfMemory>
    requires valid { All IsDomain domains.now }
    requires there { All (λ d. All (HasWmmAmong wmm_rules.now.records.items) d.rules) domains.now }
    ensures { IfOk result (λ records. records.items ≡ flat_map (records_of_domain (wmm_place wmm_rules.now.first wmm_rules.now.records.items)) domains.now) }
{
    let mut records = Vec::new(alloc);
    for domain in domains {
        add_rules(&mut records, domain.rules.as_slice(), wmm_rules)?;
    }
    Ok(records)
}

/// The place of a rule.
#[tactic(auto, unfolding(crate::specs::LaidOut::place_of_rule))]
fn rule_place(rule: &Rule, sections: &RuleSections) -> u64
    requires valid { IsValidRule rule.now }
    requires there { IsFiled sections.now rule.now }
    ensures { result ≡ rule_at_in sections.now rule.now }
{
    place_of(&sections.rules, &rule_record(rule, &sections.wmm_rules))
}

/// The places of the rules.
fn places_of_rules(
    alloc: Global,
    rules: &[Rule],
    sections: &RuleSections,
) -> Result<Places, OutOfMemory>
    requires valid { All IsValidRule rules.now }
    requires there { All (IsFiled sections.now) rules.now }
    ensures { IfOk result (λ places. places ≡ map (rule_at_in sections.now) rules.now) }
{
    let mut places = Places::new(alloc);
    for rule in rules {
        places.push(rule_place(rule, sections))?;
    }
    Ok(places)
}

/// The number that stands for a region.
fn region_number(region: Region) -> u8
    ensures { result ≡ region_number region }
{
    match region {
        Region::Unset => 0,
        Region::Fcc => 1,
        Region::Etsi => 2,
        Region::Jp => 3,
    }
}

/// The record of the collection of a domain.
#[tactic(auto, unfolding(crate::specs::LaidOut::collection_record))]
pub fn collection_record(
    alloc: Global,
    domain: &Domain,
    sections: &RuleSections,
) -> Result<CollectionRecord, OutOfMemory>
    requires valid { All IsValidRule domain.now.rules }
    requires there { AreFiled sections.now domain.now }
    ensures { IfOk result (λ c. c ≡ collection_record (rule_at_in sections.now) domain.now) }
{
    let region = region_number(domain.region);
    let rules = places_of_rules(alloc, domain.rules.as_slice(), sections)?;
    Ok(CollectionRecord { region, rules })
}

/// The records of the collections of all domains.
pub fn collections_of(
    alloc: Global,
    domains: &[Domain],
    sections: &RuleSections,
) -> Result<Vec<CollectionRecord>, OutOfMemory>
    requires valid { All IsDomain domains.now }
    requires there { All (AreFiled sections.now) domains.now }
    ensures { IfOk result (λ records. records.items ≡ map (collection_record (rule_at_in sections.now)) domains.now) }
{
    let mut records = Vec::new(alloc);
    for domain in domains {
        records.push(collection_record(alloc, domain, sections)?)?;
    }
    Ok(records)
}
