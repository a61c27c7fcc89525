//! The words behind the program's name.

ghost use Rattle.std.specs.Prelude.{◌≡◌, ◌↔◌, [], ◌∷◌, IsTrue, MatchOption, map, string_bytes};
ghost use Rattle.rule_tables.specs.Code.{IsCode};
ghost use Rattle.rule_tables.specs.declared.code.Alpha2.{Alpha2};
ghost use Rattle.db_commands.specs.Conversions.{NamesConversion};
ghost use Rattle.db_commands.specs.declared.conversion.Conversion.TheVariants.{Common};

use rule_tables::Alpha2;

/// Whether the words are this one alone.
pub fn are_only(words: &[String], name: &str) -> bool
    ensures { IsTrue result ↔ (map string_bytes words.now ≡ name.now ∷ []) }
{
    match words {
        [word] => word.as_str() == name,
        _ => false,
    }
}

/// The code that the word is: two capital letters, or `00`.
fn code_of(word: &[u8]) -> Option<Alpha2>
    ensures { MatchOption result
        ((code : Alpha2) → word.now ≡ code.a ∷ code.b ∷ [] → IsCode code → ⊥)
        (λ code. (word.now ≡ code.a ∷ code.b ∷ []) × IsCode code) }
{
    let [a, b] = word else { return None };
    let code = Alpha2 { a: *a, b: *b };
    if code.is_code() { Some(code) } else { None }
}

/// The two codes behind the word `common`, or `None` where the words are anything else.
pub fn codes_named(words: &[String]) -> Option<(Alpha2, Alpha2)>
    ensures { MatchOption result
        ((one : Alpha2) (other : Alpha2) → NamesConversion words.now (Common one other) → ⊥)
        (λ codes. NamesConversion words.now (Common codes.0 codes.1)) }
{
    match words {
        [command, one, other] if command.as_str() == "common" => {
            let one = code_of(one.as_bytes())?;
            let other = code_of(other.as_bytes())?;
            Some((one, other))
        }
        _ => None,
    }
}
