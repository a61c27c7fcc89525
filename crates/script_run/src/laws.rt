//! Laws over all scripts.

ghost use Rattle.std.specs.Prelude.{List, ℕ};
ghost use Rattle.rule_tables.specs.declared.domain.Domain.{Domain};
ghost use Rattle.reg_journal.specs.Facts.{Journal};
ghost use Rattle.script_run.specs.Granting.{StartsWhereGranted};
ghost use Rattle.script_run.specs.Output.{LineGives};

/// A line that asks for a start, on an interface that is free for it, is answered with a power exactly
/// where the start is granted with that power and its driver doesn't fail.
pub fn starts_where_granted()
    ensures { (db : List Domain) (journal : Journal) (line text failed : List ℕ) (next : Journal)
        → LineGives db journal line text failed next → StartsWhereGranted db journal line text failed }
{}
