//! What the program tells of itself.

ghost use Rattle.std.specs.Prelude.{◌≡◌, [], ◌∷◌, ◌⊎◌, IfSome, codes, map, string_bytes};

use db_commands::are_only;

/// The commands and the statuses.
const HELP: &str = "regtool: the regulatory core of Linux wireless

usage: regtool COMMAND < INPUT > OUTPUT

  compile     a rule text to its database (regulatory.db, version 20)
  decompile   a database to its rule text
  check       a database to the numbers of its countries and rules
  lint        a database to notes on its rules
  common A2 B2
              a database to what the countries A2 and B2 allow together
  run DB      a script to the replies to its lines, over the database file DB
  pack        a script to its requests as messages
  wire DB     messages of requests to the messages of their replies, over the
              database file DB
  make N      no input to the counts of the replies to N drawn requests, N
              from 1 to 1000000
  --help      this text
  --version   the name and the version

status:

  0  all output was written
  1  the words are none of these commands
  2  the rule text, the database, a line of the script of pack or a message
     is not accepted, or has no output
  3  the input or the database file could not be read
  4  the output could not be written
  5  out of memory
  6  the input or the database file has more than 16777216 bytes, or the
     script or the messages more than 4294967295

A status other than 0 has a line on standard error.

example: regtool compile < db.txt > regulatory.db
";

/// The name and the version.
const VERSION: &str = "regtool 0.1.0\n";

/// The text that the words ask for, or `None` where they ask for none: they are no form of a command.
pub fn text_for(words: &[String]) -> Option<&'static str>
    ensures { IfSome result (λ _. (map string_bytes words.now ≡ codes "--help" ∷ []) ⊎ (map string_bytes words.now ≡ codes "--version" ∷ [])) }
{
    if are_only(words, "--help") {
        Some(HELP)
    } else if are_only(words, "--version") {
        Some(VERSION)
    } else {
        None
    }
}
