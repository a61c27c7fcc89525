//! Walks the words of a line along the slots of a form.

ghost use Rattle.std.specs.Prelude.{◌≡◌, ◌≤◌, [], length};
ghost use Rattle.line_forms.specs.Slots.{looks_like};
ghost use Rattle.line_forms.specs.Told.{nothing};
ghost use Rattle.line_forms.specs.inner.Walking.{StopsAlong, blame_of};

use crate::draft::Draft;
use crate::pieces::{is_iw_word, is_numeral};
use crate::slot::{Slot, Sort, kind_of_slot};
use crate::step::step;
use crate::words::Words;

/// Why a word can't stand at a slot.
#[derive(Clone, Copy)]
pub enum Blame {
    /// Another word stands there, or none.
    NoWord,
    /// It isn't of the form of words that stand there.
    NoForm,
    /// It is no number.
    NoNumber,
    /// It is of the form, and its value isn't accepted.
    OutOfRange,
}

/// How a walk ends.
#[derive(Clone, Copy)]
pub enum End {
    /// Each slot has its word, and no word is left.
    Whole,
    /// Slots are left, and no words.
    Short,
    /// The next word can't stand there.
    Bad(Blame),
}

/// Where a walk ends.
#[derive(Clone, Copy)]
pub struct Stop {
    /// How many words stand at their slots.
    pub taken: usize,
    pub end: End,
}

/// Whether the word looks like one for the slot.
fn looks_like(slot: Slot, word: &[u8]) -> bool
    ensures { result ≡ looks_like slot word.now }
{
    match (slot, kind_of_slot(slot)) {
        (Slot::WordForm, _) => is_iw_word(word),
        (_, Sort::Number) => is_numeral(word),
        _ => false,
    }
}

/// Why the word can't stand at the slot.
fn reason(slot: Slot, word: &[u8]) -> Blame
    ensures { result ≡ blame_of slot word.now }
{
    let looks = looks_like(slot, word);
    match kind_of_slot(slot) {
        Sort::OneWord => Blame::NoWord,
        _ if looks => Blame::OutOfRange,
        Sort::Number => Blame::NoNumber,
        Sort::OtherForm => Blame::NoForm,
    }
}

/// How the words end behind all slots.
fn end_of(words: &mut Words<'_>) -> End
    ensures { StopsAlong [] nothing words.old 0 result nothing }
{
    match words.next_word() {
        Some(_) => End::Bad(Blame::NoWord),
        None => End::Whole,
    }
}

/// How far the words go along the slots, and what those that stand at their slots tell.
pub fn walk<'a>(slots: &[Slot], words: &mut Words<'a>) -> (Stop, Draft<'a>)
    ensures stops { StopsAlong slots.now nothing words.old result.0.taken result.0.end result.1 }
    ensures few { result.0.taken ≤ length slots.now }
{
    let mut draft = Draft::new();
    for (i, slot) in slots.iter().enumerate() {
        let Some(word) = words.next_word() else {
            return (stop_at(i, End::Short), draft);
        };
        match step(*slot, &draft, word) {
            Some(next) => draft = next,
            None => return (stop_at(i, End::Bad(reason(*slot, word))), draft),
        }
    }
    (stop_at(slots.len(), end_of(words)), draft)
}

/// So many words, and this end.
fn stop_at(taken: usize, end: End) -> Stop
    ensures taken { result.taken ≡ taken }
    ensures end { result.end ≡ end }
{
    Stop { taken, end }
}
