//! The sections: the global list, and those of the radios with a list of their own.

ghost use Rattle.std.specs.Prelude.{◌≡◌, ◌<◌, ℕ, [], ◌∷◌, ◌++◌, IfOk, List, None, Some, OnOk, map, slice_get};
ghost use Rattle.std.specs.List.{AllZip};
ghost use Rattle.std.specs.Option.{option_copied, option_to_list};
ghost use Rattle.rule_tables.specs.declared.domain.Domain.{Domain};
ghost use Rattle.rule_tables.specs.declared.code.Region.{Region};
ghost use Rattle.rule_intersect.specs.Tables.{IsTableOf};
ghost use Rattle.reg_journal.specs.Applicable.{global_domains, hints_of};
ghost use Rattle.reg_journal.specs.Dumps.{AreSections, AreShown, IsGlobalSection, IsRadioSection, IsSection, code_of_list, has_own_list, row_as_is, row_shown};
ghost use Rattle.reg_journal.specs.Facts.{Journal};
ghost use Rattle.reg_books.specs.Lists.{applies_by, shared_by};
ghost use Rattle.core_parts.specs.Reading.{with_own_list};
ghost use Rattle.core_parts.specs.Kept.{KeepsRadio, KeepsRadios};

use core_parts::{
    CustomRules, Domains, Radio, RadioPlace, custom_of, driver_of, radio_at, region_of,
};
use freq_range::Rule;
use reg_hints::{Hints, RadioNo};
use reg_journal::{RowList, Section, SectionList};
use reg_lists::OutOfMemory;
use rule_intersect::{Row, Table};
use rule_tables::{Alpha2, Domain, Region};
use std::alloc::Global;

// ---- rows

/// The rule as it is: its own width, and all its flags.
fn row_as_is(rule: &Rule) -> Row
    ensures { result ≡ row_as_is rule.now }
{
    Row {
        start_khz: rule.start_khz,
        end_khz: rule.end_khz,
        width_khz: rule.max_bw_khz,
        flags: rule.flags,
        eirp_mbm: rule.eirp_mbm,
        cac_ms: u32::from(rule.cac_s) * 1000,
        check_ms: 0,
    }
}

/// The rules as they are.
fn rules_shown(alloc: Global, rules: &[Rule]) -> Result<RowList, OutOfMemory>
    ensures { IfOk result (λ rows. rows ≡ map row_as_is rules.now) }
{
    let mut rows = RowList::new(alloc);
    for rule in rules {
        rows.push(row_as_is(rule))?;
    }
    Ok(rows)
}

/// The row without the length of its check.
fn row_shown(row: Row) -> Row
    ensures { result ≡ row_shown row }
{
    Row { check_ms: 0, ..row }
}

/// The rows of the table.
fn rows_shown(alloc: Global, table: &Table) -> Result<RowList, OutOfMemory>
    ensures { IfOk result (λ rows. rows ≡ map row_shown table.now.rows) }
{
    let mut rows = RowList::new(alloc);
    for k in 0..table.len() {
        let Some(row) = table.row(k) else {
            return Ok(rows);
        };
        rows.push(row_shown(row))?;
    }
    Ok(rows)
}

// ---- the list of a table, by its first domain

/// What is shown of the list of the table, whose first domain this is: its rules as they are where it is
/// alone, or the rows of all.
fn list_rows(alloc: Global, table: &Table, first: &Domain) -> Result<RowList, OutOfMemory>
    ensures { IfOk result (λ rows. (ds : List Domain) → IsTableOf ds table.now → slice_get ds 0 ≡ Some first.now → AreShown ds rows) }
{
    if table.domains() == 1 {
        rules_shown(alloc, first.rules.as_slice())
    } else {
        rows_shown(alloc, table)
    }
}

/// The code that is shown of it: the domain's, or `98` for several.
fn list_code(table: &Table, first: &Domain) -> Alpha2
    ensures { (ds : List Domain) → IsTableOf ds table.now → slice_get ds 0 ≡ Some first.now → result ≡ code_of_list ds }
{
    if table.domains() == 1 {
        first.alpha2
    } else {
        Alpha2::JOINED
    }
}

/// The section of the list of the table, whose first domain this is.
fn list_section(
    alloc: Global,
    radio: Option<RadioNo>,
    table: &Table,
    first: &Domain,
    region: Region,
) -> Result<Section, OutOfMemory>
    ensures { IfOk result (λ section. (ds : List Domain) → IsTableOf ds table.now → slice_get ds 0 ≡ Some first.now
        → IsSection radio ds region section) }
{
    Ok(Section {
        radio,
        alpha2: list_code(table, first),
        region,
        rows: list_rows(alloc, table, first)?,
    })
}

// ---- first domains

/// The first domain of the global list, or none for a radio that manages itself.
fn first_shared<'a>(domains: &'a Domains, hints: &Hints, self_managed: bool) -> Option<&'a Domain>
    ensures { option_copied result ≡ slice_get (shared_by domains.now hints.now self_managed) 0 }
{
    if self_managed {
        return None;
    }
    let mut k = 0;
    'codes: while let Some(alpha2) = hints.global(k) {
        if let Some(domain) = domains.find(alpha2) {
            return Some(domain);
        }
        k += 1;
    }
    None
}

/// The first domain of the list that applies to a radio, which may manage itself, with its custom rules
/// and the code of its driver's last hint.
fn first_domain<'a>(
    domains: &'a Domains,
    hints: &Hints,
    self_managed: bool,
    custom: Option<&'a CustomRules>,
    driver: Option<Alpha2>,
) -> &'a Domain
    ensures { slice_get (applies_by domains.now hints.now self_managed (option_to_list (option_copied custom.entry)) driver) 0 ≡ Some result.now }
{
    if let Some(domain) = first_shared(domains, hints, self_managed) {
        return domain;
    }
    if let Some(domain) = custom_of(custom) {
        return domain;
    }
    match driver_of(domains, driver) {
        Some(domain) => domain,
        None => domains.nothing(),
    }
}

// ---- sections

/// The section of the global list, whose table this is.
fn global_section(
    alloc: Global,
    domains: &Domains,
    hints: &Hints,
    table: &Table,
) -> Result<Section, OutOfMemory>
    ensures { IfOk result (λ section. (J : Journal) → hints_of J ≡ hints.now → IsTableOf (global_domains domains.now J) table.now
        → IsGlobalSection domains.now J section) }
{
    let first = first_domain(domains, hints, false, None, None);
    let region = region_of(domains, hints, false, None);
    list_section(alloc, None, table, first, region)
}

/// The section of the list that applies to the radio of this number.
fn radio_section(
    alloc: Global,
    domains: &Domains,
    hints: &Hints,
    number: RadioNo,
    radio: &Radio,
) -> Result<Section, OutOfMemory>
    ensures { IfOk result (λ section. (J : Journal) → hints_of J ≡ hints.now → KeepsRadio domains.now J number radio.now
        → IsRadioSection domains.now J number section) }
{
    let self_managed = radio.chans.profile().self_managed();
    let first = first_domain(
        domains,
        hints,
        self_managed,
        radio.custom.as_ref(),
        radio.driver,
    );
    let region = region_of(domains, hints, self_managed, radio.driver);
    list_section(alloc, Some(number), &radio.table, first, region)
}

/// Whether the radio has a list of its own: custom rules or its driver's hint, or it manages itself.
fn has_own_list(radio: &Radio) -> bool
    ensures { (db : List Domain) (J : Journal) (r : ℕ) → KeepsRadio db J r radio.now → result ≡ has_own_list J r }
{
    if radio.custom.is_some() || radio.driver.is_some() {
        return true;
    }
    radio.chans.profile().self_managed()
}

/// The section of the radio of this number, where it is there and has a list of its own.
fn own_section(
    alloc: Global,
    domains: &Domains,
    hints: &Hints,
    radios: &[RadioPlace],
    number: RadioNo,
) -> Result<Option<Section>, OutOfMemory>
    ensures { IfOk result (λ section. (J : Journal) → hints_of J ≡ hints.now → KeepsRadios domains.now J radios.now
        → AllZip (IsRadioSection domains.now J) (with_own_list J (number ∷ [])) (option_to_list section)) }
{
    let Some(radio) = radio_at(radios, number) else {
        return Ok(None);
    };
    if !has_own_list(radio) {
        return Ok(None);
    }
    Ok(Some(radio_section(alloc, domains, hints, number, radio)?))
}

/// Appends the section, where there is one.
fn push_some(sections: &mut SectionList, section: Option<Section>) -> Result<(), OutOfMemory>
    ensures { OnOk result (sections.new ≡ sections.old ++ option_to_list section) }
{
    if let Some(section) = section {
        sections.push(section)?;
    }
    Ok(())
}

/// The radio of this number.
fn radio_no(number: u32) -> RadioNo
    requires { number < 8 }
    ensures { result ≡ number }
{
    match RadioNo::new(number) {
        Some(radio) => radio,
        None => unreachable!(),
    }
}

/// All sections: that of the global list, whose table this is, then one for each radio with a list of its
/// own, by number.
pub(crate) fn all_sections(
    alloc: Global,
    domains: &Domains,
    hints: &Hints,
    global: &Table,
    radios: &[RadioPlace],
) -> Result<SectionList, OutOfMemory>
    ensures { IfOk result (λ sections. (J : Journal) → hints_of J ≡ hints.now → IsTableOf (global_domains domains.now J) global.now
        → KeepsRadios domains.now J radios.now → AreSections domains.now J sections) }
{
    let mut sections = SectionList::new(alloc);
    sections.push(global_section(alloc, domains, hints, global)?)?;
    for number in 0..8 {
        let own = own_section(alloc, domains, hints, radios, radio_no(number))?;
        push_some(&mut sections, own)?;
    }
    Ok(sections)
}
