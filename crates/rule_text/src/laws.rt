//! The law over all texts.

ghost use Rattle.std.specs.Prelude.{◌≡◌, ℕ, ◌⊎◌, List};
ghost use Rattle.rule_tables.specs.declared.domain.Domain.{Domain};
ghost use Rattle.rule_text.specs.declared.fault.TextFault.{TextFault};
ghost use Rattle.rule_text.specs.TextOf.{IsTextFault, TextOf};

/// Each text has exactly one of a database and a fault.
pub fn one_answer()
    ensures total { (text : List ℕ) → ((ds : List Domain) × TextOf text ds) ⊎ ((fault : TextFault) × IsTextFault text fault) }
    ensures database { (text : List ℕ) (ds es : List Domain) → TextOf text ds → TextOf text es → ds ≡ es }
    ensures fault { (text : List ℕ) (f g : TextFault) → IsTextFault text f → IsTextFault text g → f ≡ g }
    ensures never_both { (text : List ℕ) (ds : List Domain) (f : TextFault) → TextOf text ds → IsTextFault text f → ⊥ }
{}
