//! Laws over all lines.

ghost use Rattle.std.specs.Prelude.{◌≡◌, ℕ, List, Option, Result};
ghost use Rattle.reg_journal.specs.declared.request.Request.{Request};
ghost use Rattle.line_forms.specs.Forms.{Spells};
ghost use Rattle.line_forms.specs.Lines.{Says};
ghost use Rattle.line_forms.specs.declared.fault.LineFault.{LineFault};

/// Words spell at most one request, and a line says one thing.
pub fn one_meaning()
    ensures request { (words : List (List ℕ)) (q other : Request) → Spells words q → Spells words other → q ≡ other }
    ensures meaning { (line : List ℕ) (one other : Result (Option Request) LineFault)
        → Says line one → Says line other → one ≡ other }
{}
