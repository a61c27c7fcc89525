//! Reads the words of a line from left to right.

ghost use Rattle.std.specs.Prelude.{◌≡◌, ◌==◌, ◌<◌, ◌≤◌, ◌+◌, ◌-◌, ◌*◌, ◌^◌, ⊤, IfSome, MatchOption, drop, length, true};
ghost use Rattle.std.specs.Char.{is_ascii_digit};
ghost use Rattle.line_forms.specs.Words.{is_line_blank, words_of};
ghost use Rattle.line_forms.specs.Spelling.{begins_number, number_of_word};
ghost use Rattle.reg_base.specs.Texts.{same_bytes};
ghost use Rattle.line_forms.specs.inner.Cursor.{AreFirst, next_word};

use std::marker::Model;

/// The words of a line that are left.
#[derive(Drop)]
pub struct Words<'a> {
    rest: &'a [u8],
}

impl<'a> Model for Words<'a> {
    ghost use Rattle.std.specs.Prelude.{ℕ, List};
    ghost use Rattle.line_forms.specs.Words.{words_of};

    ghost Value = { List (List ℕ) };

    ghost view = { λ w. words_of w.rest.now };
}

/// Whether the byte is a space or a tab.
fn is_blank(byte: u8) -> bool
    ensures { result ≡ is_line_blank byte }
{
    byte == b' ' || byte == b'\t'
}

/// Whether the word is this one.
pub fn is_word(word: &[u8], text: &[u8]) -> bool
    ensures { result ≡ same_bytes word.now text.now }
{
    word == text
}

/// How many bytes stand first that are all blanks, or all none.
fn leading(line: &[u8], blank: bool) -> usize
    ensures { AreFirst blank line.now result }
{
    for (i, byte) in line.iter().enumerate() {
        if is_blank(*byte) != blank {
            return i;
        }
    }
    line.len()
}

/// The first word, and what is behind it.
pub fn cut_word(line: &[u8]) -> Option<(&[u8], &[u8])>
    ensures { MatchOption result (next_word (words_of line.now) ≡ None)
        (λ x. next_word (words_of line.now) ≡ Some (x.0.now, words_of x.1.now)) }
{
    let start = leading(line, true);
    let line = &line[start..];
    if line.is_empty() {
        return None;
    }
    let end = leading(line, false);
    Some((&line[..end], &line[end..]))
}

/// Whether a digit stands first, and a 0 alone.
pub fn begins_number(word: &[u8]) -> bool
    ensures { result ≡ begins_number word.now }
{
    match word {
        [] => false,
        [first, rest @ ..] => first.is_ascii_digit() && (*first != b'0' || rest.is_empty()),
    }
}

/// The value with one more digit behind it. `None` where the byte is no digit, or the value doesn't
/// fit.
fn with_digit(value: u64, digit: u8) -> Option<u64>
    ensures next { MatchOption result (is_ascii_digit digit ≡ true → 2 ^ 64 ≤ value * 10 + (digit - 48))
        (λ next. (is_ascii_digit digit ≡ true) × (next ≡ value * 10 + (digit - 48))) }
    ensures fits { IfSome result (λ next. next < 2 ^ 64) }
{
    if !digit.is_ascii_digit() {
        return None;
    }
    let tens = value.checked_mul(10)?;
    let next = tens.checked_add(u64::from(digit - b'0'))?;
    Some(next)
}

/// The number that the word spells in decimal, without sign or leading zeros.
pub fn number_of(word: &[u8]) -> Option<u64>
    ensures { result ≡ number_of_word word.now }
{
    if !begins_number(word) {
        return None;
    }
    let mut value = 0;
    for digit in word {
        value = with_digit(value, *digit)?;
    }
    Some(value)
}

impl<'a> Words<'a> {
    /// All words of the line.
    pub fn new(line: &'a [u8]) -> Words<'a>
        ensures { result ≡ words_of line.now }
    {
        Words { rest: line }
    }

    /// Drops the next word, if there is one.
    #[tactic(auto, using(crate::proofs::WordCuts::skip_steps))]
    pub fn skip(&mut self)
        ensures { self.new ≡ drop 1 self.old }
    {
        if let Some((_word, rest)) = cut_word(self.rest) {
            self.rest = rest;
        }
    }

    /// Whether no word is left.
    #[tactic(auto, using(crate::proofs::WordCuts::skip_steps))]
    pub fn is_over(&self) -> bool
        ensures { result ≡ (length self.now == 0) }
    {
        match cut_word(self.rest) {
            Some(_) => false,
            None => true,
        }
    }

    /// Takes the next word, if there is one.
    pub fn next_word(&mut self) -> Option<&'a [u8]>
        ensures word { MatchOption result (next_word self.old ≡ None) (λ word. next_word self.old ≡ Some (word.now, self.new)) }
        ensures end { MatchOption result (self.new ≡ self.old) (λ _. ⊤) }
    {
        let (word, rest) = cut_word(self.rest)?;
        self.rest = rest;
        Some(word)
    }
}
