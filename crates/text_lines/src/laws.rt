//! The law over all lines of rules.

ghost use Rattle.std.specs.Prelude.{◌≡◌, ℕ, ◌⊎◌, List};
ghost use Rattle.freq_range.specs.declared.rule.Rule.{Rule};
ghost use Rattle.text_lines.specs.LineFaults.{IsRuleTextFault, IsTextOfRule};
ghost use Rattle.text_lines.specs.declared.fault.TextKind.{TextKind};

/// A text that ought to be the line of one rule has exactly one of a rule and a kind of fault.
pub fn one_rule()
    ensures total { (text : List ℕ) → ((rule : Rule) × IsTextOfRule text rule) ⊎ ((kind : TextKind) × IsRuleTextFault text kind) }
    ensures rule { (text : List ℕ) (one other : Rule) → IsTextOfRule text one → IsTextOfRule text other → one ≡ other }
    ensures kind { (text : List ℕ) (one other : TextKind) → IsRuleTextFault text one → IsRuleTextFault text other → one ≡ other }
    ensures never_both { (text : List ℕ) (rule : Rule) (kind : TextKind) → IsTextOfRule text rule → IsRuleTextFault text kind → ⊥ }
{}
