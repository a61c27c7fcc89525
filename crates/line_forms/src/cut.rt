//! The words of a line, cut once.

ghost use Rattle.std.specs.Prelude.{◌≡◌, map, take};
ghost use Rattle.line_forms.specs.Words.{words_of};

use crate::words::cut_word;
use reg_lists::Few;
use std::marker::Model;

/// A line whose first 16 words are cut, which are more than a form has.
#[derive(Drop)]
pub struct Cut<'a> {
    line: &'a [u8],
    words: Few<&'a [u8], 16>,
}

impl<'a> Model for Cut<'a> {
    ghost use Rattle.std.specs.Prelude.{◌≡◌, ℕ, List, map, take};
    ghost use Rattle.line_forms.specs.Words.{words_of};

    ghost Value = { List (List ℕ) };

    ghost view = { λ c. words_of c.line.now };

    ghost invariant = { λ c. map (λ w. w.now) c.words ≡ take 16 (words_of c.line.now) };
}

/// The first words of the line, at most 16.
fn first_words(line: &[u8]) -> Few<&[u8], 16>
    ensures { map (λ w. w.now) result ≡ take 16 (words_of line.now) }
{
    let mut words = Few::new(line);
    let mut rest = line;
    for i in 0..16u8 {
        let _place = i;
        let Some((word, behind)) = cut_word(rest) else {
            return words;
        };
        let _pushed = words.push(word);
        rest = behind;
    }
    words
}

impl<'a> Cut<'a> {
    /// The line with its words.
    pub fn new(line: &'a [u8]) -> Cut<'a>
        ensures { result ≡ words_of line.now }
    {
        Cut {
            line,
            words: first_words(line),
        }
    }

    /// The line.
    pub fn line(&self) -> &'a [u8]
        ensures { words_of result.now ≡ self.now }
    {
        self.line
    }

    /// Its words, at most 16.
    pub fn words(&self) -> &[&'a [u8]]
        ensures { map (λ w. w.now) result.now ≡ take 16 self.now }
    {
        self.words.as_slice()
    }
}
