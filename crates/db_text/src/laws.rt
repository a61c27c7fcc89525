//! Laws over all texts.

ghost use Rattle.std.specs.Prelude.{◌≡◌, ℕ, ◌⊎◌, List, None};
ghost use Rattle.freq_range.specs.Valid.{IsValidRule};
ghost use Rattle.freq_range.specs.declared.rule.Rule.{Rule};
ghost use Rattle.rule_tables.specs.Databases.{IsDb};
ghost use Rattle.rule_tables.specs.declared.domain.Domain.{Domain};
ghost use Rattle.rule_text.specs.declared.fault.TextFault.{TextFault};
ghost use Rattle.text_lines.specs.LineFaults.{IsTextOfRule};
ghost use Rattle.db_text.specs.Printed.{LackTimes, printed};
ghost use Rattle.db_text.specs.PrintedRules.{printed_rule};
ghost use Rattle.rule_text.specs.TextOf.{IsTextFault, TextOf};

/// The printed text of a database without check times stands for that database, and the printed line
/// of a valid rule without a check time and without a WMM rule is the line of that rule.
pub fn printed_text_reads_back()
    ensures database { (ds : List Domain) → IsDb ds → LackTimes ds → TextOf (printed ds) ds }
    ensures rule { (rule : Rule) → IsValidRule rule → rule.cac_s ≡ 0 → rule.wmm ≡ None → IsTextOfRule (printed_rule rule None) rule }
{}
