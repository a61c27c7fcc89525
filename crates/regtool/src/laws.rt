//! Laws over all scripts.

ghost use Rattle.std.specs.Prelude.{◌≡◌, ℕ, List};
ghost use Rattle.rule_tables.specs.declared.domain.Domain.{Domain};
ghost use Rattle.script_run.specs.Output.{IsOutput};

/// Over a database a script has at most one output where no driver fails.
pub fn one_output()
    ensures { (db : List Domain) (script text other : List ℕ)
        → IsOutput db script text → IsOutput db script other → text ≡ other }
{}
