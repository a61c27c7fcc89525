//! The lines of a script.

ghost use Rattle.std.specs.Prelude.{◌≡◌, [], ◌∷◌, length, MatchOption};
ghost use Rattle.iw_commands.specs.Scripts.{script_lines};

use memchr::memchr;
use std::marker::Model;

/// The first line, and what is behind its newline.
#[tactic(auto, using(crate::proofs::Cuts::line_steps))]
fn cut_line(script: &[u8]) -> Option<(&[u8], &[u8])>
    ensures { MatchOption result (script_lines script.now ≡ []) (λ x. script_lines script.now ≡ x.0.now ∷ script_lines x.1.now) }
{
    if script.is_empty() {
        return None;
    }
    match memchr(b'\n', script) {
        Some(place) => Some((&script[..place], &script[place + 1..])),
        None => Some((script, &[])),
    }
}

/// The lines of a script that are left.
#[derive(Drop)]
pub struct Lines<'a> {
    rest: &'a [u8],
}

impl<'a> Model for Lines<'a> {
    ghost use Rattle.std.specs.Prelude.{ℕ, List};
    ghost use Rattle.iw_commands.specs.Scripts.{script_lines};

    ghost Value = { List (List ℕ) };

    ghost view = { λ l. script_lines l.rest.now };
}

impl<'a> Lines<'a> {
    /// All lines of the script: its parts round newline bytes, without an empty one at the end.
    pub fn new(script: &'a [u8]) -> Lines<'a>
        ensures lines { result ≡ script_lines script.now }
    {
        Lines { rest: script }
    }

    /// Takes the first line that is left, without its newline. `None` exactly where none is left.
    pub fn next_line(&mut self) -> Option<&'a [u8]>
        ensures line { MatchOption result (self.old ≡ []) (λ line. self.old ≡ line.now ∷ self.new) }
    {
        let (line, rest) = cut_line(self.rest)?;
        self.rest = rest;
        Some(line)
    }
}
