//! The words of the command.

ghost use Rattle.std.specs.Prelude.{◌≤◌, ℕ, IfSome, MatchOption};
ghost use Rattle.make_command.specs.Make.{NamesMake};

use line_forms::number_within;

/// The most requests that may be wanted.
const MOST_REQUESTS: u64 = 1_000_000;

/// The number of requests behind `make`, or `None` where the words aren't of that form.
pub fn number_named(words: &[String]) -> Option<u32>
    ensures named { MatchOption result ((n : ℕ) → NamesMake words.now n → ⊥) (NamesMake words.now) }
    ensures some { IfSome result (λ n. 1 ≤ n) }
    ensures few { IfSome result (λ n. n ≤ 1000000) }
{
    match words {
        [command, word] if command.as_str() == "make" => {
            let number = number_within(word.as_bytes(), 1, MOST_REQUESTS)?;
            Some(number as u32)
        }
        _ => None,
    }
}
