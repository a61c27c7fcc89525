//! The tables of the lists of domains that apply.

ghost use Rattle.std.specs.Prelude.{◌≡◌, ◌+◌, ◌<◌, ◌≤◌, ◌∷◌, ◌++◌, [], List, ℕ, IfOk, IfSome, length, option_and_then};
ghost use Rattle.std.specs.Option.{option_copied, option_to_list};
ghost use Rattle.rule_tables.specs.declared.domain.Domain.{Domain};
ghost use Rattle.reg_hints.specs.Table.{no_hints};
ghost use Rattle.rule_intersect.specs.Tables.{IsTableOf};
ghost use Rattle.reg_journal.specs.Applicable.{find_domain, or_nothing};
ghost use Rattle.reg_books.specs.Lists.{applies_by, global_by, shared_by};
ghost use Rattle.core_parts.specs.Making.{HasTable, IsMade, IsMadeSoFar, IsTableSoFar, joined_count};
ghost use Rattle.core_parts.specs.TableRules.{AreTableRules};

use crate::domains::{CustomRules, Domains};
use reg_hints::Hints;
use reg_lists::OutOfMemory;
use rule_intersect::{ResolveFault, Table};
use rule_tables::{Alpha2, Domain};
use std::alloc::Global;

/// The table of the domains so far, and of one more.
fn joined(alloc: Global, so_far: Option<Table>, domain: &Domain) -> Result<Table, ResolveFault>
    requires rules { AreTableRules domain.now.rules }
    requires room { joined_count so_far < 8 }
    ensures made { (ds : List Domain) → IsTableSoFar ds so_far → IsMade (ds ++ domain.now ∷ []) result }
    ensures count { IfOk result (λ table. table.domains ≡ joined_count so_far + 1) }
{
    match so_far {
        Some(table) => table.next(domain),
        None => Table::first(alloc, domain),
    }
}

/// The table of the domains so far, and of one more where there is one.
fn also(
    alloc: Global,
    so_far: Option<Table>,
    domain: Option<&Domain>,
) -> Result<Option<Table>, ResolveFault>
    requires rules { IfSome domain (λ d. AreTableRules d.now.rules) }
    requires room { joined_count so_far < 8 }
    ensures made { (ds : List Domain) → IsTableSoFar ds so_far → IsMadeSoFar (ds ++ option_to_list (option_copied domain.entry)) result }
    ensures count { IfOk result (λ table. joined_count table ≤ joined_count so_far + 1) }
{
    match domain {
        Some(domain) => Ok(Some(joined(alloc, so_far, domain)?)),
        None => Ok(so_far),
    }
}

/// The table of the global list, or of nothing where it is for a radio that manages itself.
fn shared_table(
    alloc: Global,
    domains: &Domains,
    hints: &Hints,
    self_managed: bool,
) -> Result<Option<Table>, ResolveFault>
    ensures made { IsMadeSoFar (shared_by domains.now hints.now self_managed) result }
    ensures count { IfOk result (λ table. joined_count table ≤ 4) }
{
    let mut so_far = None;
    if self_managed {
        return Ok(so_far);
    }
    let mut k = 0;
    'codes: while let Some(alpha2) = hints.global(k) {
        so_far = also(alloc, so_far, domains.find(alpha2))?;
        k += 1;
    }
    Ok(so_far)
}

/// The table of the domains, or of the empty domain where there are none.
fn or_nothing(
    alloc: Global,
    so_far: Option<Table>,
    domains: &Domains,
) -> Result<Table, ResolveFault>
    ensures made { (ds : List Domain) → IsTableSoFar ds so_far → IsMade (or_nothing ds) result }
{
    match so_far {
        Some(table) => Ok(table),
        None => Table::first(alloc, domains.nothing()),
    }
}

/// The table of the global list, which has a domain.
pub fn global_table(alloc: Global, domains: &Domains, hints: &Hints) -> Result<Table, ResolveFault>
    requires some { 0 < length (global_by domains.now hints.now) }
    ensures made { IsMade (global_by domains.now hints.now) result }
{
    let shared = shared_table(alloc, domains, hints, false)?;
    or_nothing(alloc, shared, domains)
}

/// The table of the global list before the first hint: that of the world's domain.
pub fn initial_table(alloc: Global, domains: &Domains) -> Result<Table, OutOfMemory>
    ensures made { IfOk result (IsTableOf (global_by domains.now no_hints)) }
{
    match Table::first(alloc, domains.world()) {
        Ok(table) => Ok(table),
        Err(_no_memory) => Err(OutOfMemory),
    }
}

/// The domain of a radio's custom rules, where it has some.
pub fn custom_of(custom: Option<&CustomRules>) -> Option<&Domain>
    ensures domain { option_copied result ≡ option_copied custom.entry }
    ensures rules { IfSome result (λ d. AreTableRules d.now.rules) }
{
    Some(custom?.domain())
}

/// The domain of the code of a driver's hint, where it has given one.
pub fn driver_of(domains: &Domains, driver: Option<Alpha2>) -> Option<&Domain>
    ensures domain { option_copied result ≡ option_and_then (find_domain domains.now) driver }
    ensures rules { IfSome result (λ d. AreTableRules d.now.rules) }
{
    domains.find(driver?)
}

/// The table of the list that applies to a radio, which may manage itself, with its custom rules and the
/// code of its driver's last hint.
pub fn radio_table(
    alloc: Global,
    domains: &Domains,
    hints: &Hints,
    self_managed: bool,
    custom: Option<&CustomRules>,
    driver: Option<Alpha2>,
) -> Result<Table, ResolveFault>
    ensures made { IsMade (applies_by domains.now hints.now self_managed (option_to_list (option_copied custom.entry)) driver) result }
{
    let shared = shared_table(alloc, domains, hints, self_managed)?;
    let with_custom = also(alloc, shared, custom_of(custom))?;
    let with_driver = also(alloc, with_custom, driver_of(domains, driver))?;
    or_nothing(alloc, with_driver, domains)
}

/// The table of the list that applies to a radio that has neither custom rules nor a driver's
/// hint. It is that of the global list, which has one, or of the empty domain.
pub(crate) fn new_radio_table(
    alloc: Global,
    domains: &Domains,
    hints: &Hints,
    self_managed: bool,
) -> Result<Table, OutOfMemory>
    requires { HasTable (global_by domains.now hints.now) }
    ensures { IfOk result (IsTableOf (applies_by domains.now hints.now self_managed [] None)) }
{
    match radio_table(alloc, domains, hints, self_managed, None, None) {
        Ok(table) => Ok(table),
        Err(ResolveFault::OutOfMemory) => Err(OutOfMemory),
        Err(ResolveFault::TooManyRows { .. }) => unreachable!(),
    }
}
