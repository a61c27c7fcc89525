//! Laws over all databases.

ghost use Rattle.std.specs.Prelude.{◌≡◌, ℕ, List};
ghost use Rattle.rule_tables.specs.Databases.{IsDb};
ghost use Rattle.rule_tables.specs.FileFormat.{ReadsAs};
ghost use Rattle.rule_tables.specs.declared.domain.Domain.{Domain};
ghost use Rattle.db_writer.specs.LaidOut.{LaidOut, EndsIn, IsWithinReach};

/// The file of a database says that database, where a pointer can name each record.
pub fn file_says_its_database()
    ensures reads { (ds : List Domain) (bytes : List ℕ) → IsDb ds → LaidOut ds bytes → IsWithinReach ds → ReadsAs bytes ds }
{}

/// Each database has one file and one place of its last collection, so it can't have both a file
/// within reach and a last collection above it.
pub fn one_file()
    ensures some { (ds : List Domain) → (bytes : List ℕ) × LaidOut ds bytes }
    ensures one { (ds : List Domain) (b c : List ℕ) → LaidOut ds b → LaidOut ds c → b ≡ c }
    ensures some_end { (ds : List Domain) → (words : ℕ) × EndsIn ds words }
    ensures one_end { (ds : List Domain) (m n : ℕ) → EndsIn ds m → EndsIn ds n → m ≡ n }
{}
