//! Collections of rules in a file.

ghost use Rattle.std.specs.Prelude.{◌≡◌, ◌<◌, ◌≤◌, ◌↔◌, IsTrue, MatchOption, MatchResult};
ghost use Rattle.rule_tables.specs.Regions.{region_number};
ghost use Rattle.rule_tables.specs.FileFormat.{CollectionAt, pointers_of};
ghost use Rattle.rule_tables.specs.FileFaults.{HasCollection};
ghost use Rattle.db_reader.specs.inner.Parts.{AreRulesOf, IsCollectionStop, IsRulesStop, rule_fault};

use crate::fault::ReadFault;
use crate::numbers::{is_within, target_at, u8_at};
use crate::rule_record::{RuleStop, read_rule};
use freq_range::RuleList;
use rule_tables::{Alpha2, DbFault, DistinctRules, Domain, Region};
use std::alloc::Global;

/// The place of the first pointer of the collection at that place.
fn pointers_of(bytes: &[u8], place: usize) -> usize
    requires { place ≤ 262140 }
    ensures pointers { result ≡ pointers_of bytes.now place }
    ensures small { result ≤ 262400 }
{
    place + (usize::from(u8_at(bytes, place)) + 1) / 2 * 2
}

/// Whether there is a collection at that place, whatever its region and its rules are.
fn has_collection(bytes: &[u8], place: usize) -> bool
    requires { place ≤ 262140 }
    ensures { IsTrue result ↔ HasCollection bytes.now place }
{
    let length = usize::from(u8_at(bytes, place));
    let count = usize::from(u8_at(bytes, place + 1));
    length >= 3
        && is_within(bytes, place, length)
        && count >= 1
        && count <= 128
        && is_within(bytes, pointers_of(bytes, place), 2 * count)
}

/// The region of that number, or `None` above 3.
fn region_of(number: u8) -> Option<Region>
    ensures { MatchOption result (3 < number) (λ region. number ≡ region_number region) }
{
    match number {
        0 => Some(Region::Unset),
        1 => Some(Region::Fcc),
        2 => Some(Region::Etsi),
        3 => Some(Region::Jp),
        _ => None,
    }
}

/// The fault of a file whose collection of that code has a rule of that number with this stop.
fn rule_fault(alpha2: Alpha2, k: usize, stop: RuleStop) -> DbFault
    ensures { result ≡ rule_fault alpha2 k stop }
{
    match stop {
        RuleStop::NoRule => DbFault::BadRule(alpha2, k),
        RuleStop::NoWmm => DbFault::BadWmm(alpha2, k),
    }
}

/// The rules that the pointers of the collection at that place name, those that stand earlier too
/// dropped.
fn read_rules(
    alloc: Global,
    bytes: &[u8],
    place: usize,
    alpha2: Alpha2,
) -> Result<RuleList, ReadFault>
    requires small { place ≤ 262140 }
    requires collection { HasCollection bytes.now place }
    ensures { MatchResult result (AreRulesOf bytes.now place) (IsRulesStop bytes.now place alpha2) }
{
    let pointers = pointers_of(bytes, place);
    let count = usize::from(u8_at(bytes, place + 1));
    let mut rules = DistinctRules::with_capacity(alloc, count)?;
    for k in 0..count {
        match read_rule(bytes, target_at(bytes, pointers + 2 * k)) {
            Ok(rule) => rules.push_new(rule)?,
            Err(stop) => return Err(ReadFault::Bad(rule_fault(alpha2, k, stop))),
        }
    }
    Ok(rules.into_list())
}

/// The domain of that code whose collection stands at that place.
pub fn read_collection(
    alloc: Global,
    bytes: &[u8],
    place: usize,
    alpha2: Alpha2,
) -> Result<Domain, ReadFault>
    requires { place ≤ 262140 }
    ensures { MatchResult result
        (λ d. (d.alpha2 ≡ alpha2) × CollectionAt bytes.now place d.region d.rules)
        (IsCollectionStop bytes.now place alpha2) }
{
    if !has_collection(bytes, place) {
        return Err(ReadFault::Bad(DbFault::BadCollection(alpha2)));
    }
    let number = u8_at(bytes, place + 2);
    match region_of(number) {
        Some(region) => {
            let rules = read_rules(alloc, bytes, place, alpha2)?;
            Ok(Domain {
                alpha2,
                region,
                rules,
            })
        }
        None => Err(ReadFault::Bad(DbFault::BadRegion(alpha2, number))),
    }
}
