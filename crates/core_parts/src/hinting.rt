//! What a hint that the table of hints treats gives to the radios: first the new tables, which may be
//! refused, and then, where all are there, the change.

ghost use Rattle.std.specs.Prelude.{◌≡◌, ◌∷◌, ◌<◌, ℕ, false, IfErr, IfOk, MatchResult, length, slice_index_or};
ghost use Rattle.reg_hints.specs.Table.{Treated};
ghost use Rattle.reg_journal.specs.Applicable.{hints_of};
ghost use Rattle.reg_journal.specs.Facts.{Journal, hinted};
ghost use Rattle.core_parts.specs.Hinting.{AreNewTables, IsNewTable, IsNewTableFault, IsRowsFault, driver_after, lists_after, place_moved};
ghost use Rattle.core_parts.specs.Kept.{KeepsRadios, KeepsPlace};
ghost use Rattle.core_parts.specs.declared.radio.RadioPlace.TheVariants.{Free};

use crate::domains::Domains;
use crate::leaving::leaves_list;
use crate::radio::RadioPlace;
use crate::regions::{checks_last, is_moved, region_of};
use crate::tables::radio_table;
use reg_hints::{Hint, Hints};
use rule_intersect::{ResolveFault, Table};
use rule_tables::Alpha2;
use std::alloc::Global;

/// The code of the last hint of a radio's driver, where it was this one before.
fn driver_after(hint: &Hint, number: usize, driver: Option<Alpha2>) -> Option<Alpha2>
    ensures { result ≡ driver_after hint.now number driver }
{
    match hint {
        Hint::Driver { radio, alpha2 } if number == radio.get() as usize => Some(*alpha2),
        Hint::User(_) | Hint::Driver { .. } | Hint::Element { .. } => driver,
    }
}

/// The new table of one place.
fn new_table(
    alloc: Global,
    domains: &Domains,
    after: &Hints,
    hint: &Hint,
    number: usize,
    place: &RadioPlace,
) -> Result<Option<Table>, ResolveFault>
    ensures { MatchResult result (IsNewTable domains.now after.now hint.now number place.now) (IsNewTableFault domains.now after.now hint.now number place.now) }
{
    let RadioPlace::There(radio) = place else {
        return Ok(None);
    };
    let self_managed = radio.chans.profile().self_managed();
    let driver = driver_after(hint, number, radio.driver);
    let table = radio_table(
        alloc,
        domains,
        after,
        self_managed,
        radio.custom.as_ref(),
        driver,
    )?;
    Ok(Some(table))
}

/// The tables of the lists that apply to the radios after the hint, which led to the hints `after`, by
/// their numbers. The first list that has too many rows tells how many.
pub fn new_tables(
    alloc: Global,
    domains: &Domains,
    after: &Hints,
    hint: &Hint,
    radios: &[RadioPlace],
) -> Result<Vec<Option<Table>>, ResolveFault>
    ensures tables { IfOk result (λ tables. AreNewTables domains.now after.now hint.now radios.now tables.items) }
    ensures fault { IfErr result (IsRowsFault (lists_after domains.now after.now hint.now 0 radios.now)) }
{
    let mut tables = Vec::with_capacity(alloc, radios.len())?;
    for (number, place) in radios.iter().enumerate() {
        tables.push(new_table(alloc, domains, after, hint, number, place)?)?;
    }
    Ok(tables)
}

/// Whether the hint, which led from the hints `before` to the hints `after`, changes the region of the
/// place's radio.
fn is_place_moved(
    place: &RadioPlace,
    number: usize,
    domains: &Domains,
    before: &Hints,
    after: &Hints,
    hint: &Hint,
) -> bool
    ensures { result ≡ place_moved domains.now before.now after.now hint.now number place.now }
{
    let RadioPlace::There(radio) = place else {
        return false;
    };
    let self_managed = radio.chans.profile().self_managed();
    let driver = driver_after(hint, number, radio.driver);
    if leaves_list(before, after, radio.driver, driver) {
        return false;
    }
    let was = region_of(domains, before, self_managed, radio.driver);
    let is = region_of(domains, after, self_managed, driver);
    is_moved(was, is)
}

/// Of which radios, by number, the hint changes the region.
pub fn moved_by(
    radios: &[RadioPlace],
    domains: &Domains,
    before: &Hints,
    after: &Hints,
    hint: &Hint,
) -> [bool; 8]
    requires eight { length radios.now ≡ 8 }
    ensures { (r : ℕ) → r < 8 → slice_index_or result r false ≡ place_moved domains.now before.now after.now hint.now r (slice_index_or radios.now r Free) }
{
    let mut moved = [false; 8];
    for (number, place) in radios.iter().enumerate() {
        moved[number] = is_place_moved(place, number, domains, before, after, hint);
    }
    moved
}

/// The hint came, and leaves the place with this table.
fn retune_place(
    place: &mut RadioPlace,
    number: usize,
    table: Option<Table>,
    domains: &Domains,
    before: &Hints,
    after: &Hints,
    hint: &Hint,
)
    requires table { IsNewTable domains.now after.now hint.now number place.old table }
    ensures kept { (J : Journal) → KeepsPlace domains.now J number place.old → hints_of J ≡ before.now → hints_of (hinted (Treated hint.now) ∷ J) ≡ after.now
        → KeepsPlace domains.now (hinted (Treated hint.now) ∷ J) number place.new }
{
    let RadioPlace::There(radio) = place else {
        return;
    };
    let Some(table) = table else {
        return;
    };
    let driver = driver_after(hint, number, radio.driver);
    if leaves_list(before, after, radio.driver, driver) {
        return;
    }
    let self_managed = radio.chans.profile().self_managed();
    let was = region_of(domains, before, self_managed, radio.driver);
    let is = region_of(domains, after, self_managed, driver);
    radio.retune(driver, table, is_moved(was, is), checks_last(is));
}

/// The hint came, which led from the hints `before` to the hints `after`, and leaves the radios with
/// their new tables.
pub fn retune_all(
    radios: &mut [RadioPlace],
    tables: Vec<Option<Table>>,
    domains: &Domains,
    before: &Hints,
    after: &Hints,
    hint: &Hint,
)
    requires tables { AreNewTables domains.now after.now hint.now radios.old tables.items }
    ensures kept { (J : Journal) → KeepsRadios domains.now J radios.old → hints_of J ≡ before.now → hints_of (hinted (Treated hint.now) ∷ J) ≡ after.now
        → KeepsRadios domains.now (hinted (Treated hint.now) ∷ J) radios.new }
{
    let mut tables = tables;
    'places: while let Some(table) = tables.pop() {
        let number = tables.len();
        retune_place(
            &mut radios[number],
            number,
            table,
            domains,
            before,
            after,
            hint,
        );
    }
}
