//! What a hint leads to: first all that takes memory or may be refused, and then the change.

ghost use Rattle.std.specs.Prelude.{◌≡◌, ◌<◌, ◌∷◌, List, IfErr, IfOk, MatchResult, length};
ghost use Rattle.rule_tables.specs.declared.domain.Domain.{Domain};
ghost use Rattle.reg_hints.specs.Table.{Treated, hinted_code};
ghost use Rattle.reg_journal.specs.Applicable.{hints_of};
ghost use Rattle.reg_journal.specs.Facts.{Journal, hinted};
ghost use Rattle.reg_journal.specs.Refusals.{HintCauses, RowCauses};
ghost use Rattle.rule_intersect.specs.declared.fault.ResolveFault.TheVariants.{OutOfMemory};
ghost use Rattle.reg_core.specs.inner.Deciding.{IsCore, IsReason};
ghost use Rattle.reg_core.specs.declared.declined.Declined.TheVariants.{OutOfMemory as NoMemory};
ghost use Rattle.core_parts.specs.Hinting.{AreNewTables, IsRowsFault, lists_after};
ghost use Rattle.reg_core.specs.Kept.{Keeps};
ghost use Rattle.core_parts.specs.Kept.{KeepsRadios};
ghost use Rattle.reg_books.specs.Lists.{global_by};
ghost use Rattle.reg_core.specs.inner.Outcomes.{AreHintTables, IsOutcome};

use crate::core_state::Core;
use crate::declined::Declined;
use core_parts::{Domains, RadioPlace, global_table, new_tables, retune_all};
use reg_hints::{Hint, Hints, Treatment};
use reg_journal::Refusal;
use rule_intersect::{ResolveFault, Table};
use rule_tables::Alpha2;
use std::alloc::Global;

/// The tables of all lists that apply.
#[derive(Drop)]
pub(crate) struct HintTables {
    /// Of the global list.
    pub(crate) global: Table,
    /// Of the radios that are there, by number.
    pub(crate) radios: Vec<Option<Table>>,
}

/// What a hint leads to.
#[derive(Drop)]
pub(crate) struct HintOutcome {
    pub(crate) treatment: Treatment,
    pub(crate) hints: Hints,
    pub(crate) tables: HintTables,
}

/// The tables after the hint, which led to the hints `after`. The first list that has too many rows, the
/// global one before those of the radios, tells how many.
fn hint_tables(
    alloc: Global,
    domains: &Domains,
    after: &Hints,
    hint: &Hint,
    radios: &[RadioPlace],
) -> Result<HintTables, ResolveFault>
    requires some { 0 < length (global_by domains.now after.now) }
    ensures tables { IfOk result (AreHintTables domains.now after.now hint.now radios.now) }
    ensures fault { IfErr result (IsRowsFault (global_by domains.now after.now ∷ lists_after domains.now after.now hint.now 0 radios.now)) }
{
    let global = global_table(alloc, domains, after)?;
    let radios = new_tables(alloc, domains, after, hint, radios)?;
    Ok(HintTables { global, radios })
}

/// Why nothing changes where a list has no table.
pub(crate) fn declined(fault: ResolveFault) -> Declined
    ensures rows { (lists : List (List Domain)) → IsRowsFault lists fault → IsReason (RowCauses lists) result }
    ensures memory { result ≡ NoMemory → fault ≡ OutOfMemory }
{
    match fault {
        ResolveFault::TooManyRows { rows, .. } => Declined::Refused(Refusal::TooManyRows(rows)),
        ResolveFault::OutOfMemory => Declined::OutOfMemory,
    }
}

impl Core {
    /// What the hint for this code leads to, with all the memory that it takes, or why it can't come.
    pub(crate) fn hint_outcome(&self, alpha2: Alpha2, hint: &Hint) -> Result<HintOutcome, Declined>
        requires core { IsCore self.now }
        requires code { alpha2 ≡ hinted_code hint.now }
        ensures { (db : List Domain) (J : Journal) → Keeps db self.now J → MatchResult result
            (IsOutcome db J hint.now self.now.radios)
            (IsReason (HintCauses db J (Treated hint.now))) }
    {
        if self.domains.find(alpha2).is_none() {
            return Err(Declined::Refused(Refusal::NoCountry(alpha2)));
        }
        let mut hints = self.hints.same();
        let Ok(treatment) = hints.apply(hint) else {
            return Err(Declined::Refused(Refusal::TooManyDomains));
        };
        let alloc = self.interfaces.allocator();
        match hint_tables(alloc, &self.domains, &hints, hint, &self.radios) {
            Ok(tables) => Ok(HintOutcome {
                treatment,
                hints,
                tables,
            }),
            Err(fault) => Err(declined(fault)),
        }
    }

    /// The hint came, and leads to this.
    pub(crate) fn follow(&mut self, hint: &Hint, outcome: HintOutcome)
        requires tables { AreNewTables self.old.domains outcome.hints hint.now self.old.radios outcome.tables.radios.items }
        ensures core { self.new ≡ record self.old { hints = outcome.hints; global = outcome.tables.global; radios = self.new.radios } }
        ensures radios { (J : Journal) → KeepsRadios self.old.domains J self.old.radios → hints_of J ≡ self.old.hints
            → hints_of (hinted (Treated hint.now) ∷ J) ≡ outcome.hints → KeepsRadios self.old.domains (hinted (Treated hint.now) ∷ J) self.new.radios }
    {
        let HintOutcome { hints, tables, .. } = outcome;
        retune_all(
            &mut self.radios,
            tables.radios,
            &self.domains,
            &self.hints,
            &hints,
            hint,
        );
        self.hints = hints;
        self.global = tables.global;
    }
}
