//! Laws over all files.

ghost use Rattle.std.specs.Prelude.{◌≡◌, ℕ, ◌<◌, ◌⊎◌, All, List};
ghost use Rattle.rule_tables.specs.FileFaults.{IsDbFault};
ghost use Rattle.rule_tables.specs.FileFormat.{ReadsAs};
ghost use Rattle.rule_tables.specs.declared.domain.Domain.{Domain};
ghost use Rattle.rule_tables.specs.declared.file_fault.DbFault.{DbFault};

/// Each list of bytes has exactly one of a database and a fault.
pub fn one_answer()
    ensures total { (bytes : List ℕ) → All (λ byte. byte < 256) bytes → ((ds : List Domain) × ReadsAs bytes ds) ⊎ ((fault : DbFault) × IsDbFault bytes fault) }
    ensures database { (bytes : List ℕ) (ds es : List Domain) → ReadsAs bytes ds → ReadsAs bytes es → ds ≡ es }
    ensures fault { (bytes : List ℕ) (f g : DbFault) → IsDbFault bytes f → IsDbFault bytes g → f ≡ g }
    ensures never_both { (bytes : List ℕ) (ds : List Domain) (f : DbFault) → ReadsAs bytes ds → IsDbFault bytes f → ⊥ }
{}
