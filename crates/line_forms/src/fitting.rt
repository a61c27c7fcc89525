//! Finds the form of a line among a few.

ghost use Rattle.std.specs.Prelude.{◌≡◌, [], All, MatchBool, MatchOption, false, length, map, take, true};
ghost use Rattle.line_forms.specs.Forms.{HasForm, Leads};
ghost use Rattle.line_forms.specs.Slots.{Fills};
ghost use Rattle.line_forms.specs.Told.{Told, nothing};
ghost use Rattle.line_forms.specs.inner.Fitting.{Misfits, tells_nothing};
ghost use Rattle.line_forms.specs.inner.Walking.{HaveNoForm};

use crate::cut::Cut;
use crate::draft::Draft;
use crate::form::Form;
use crate::likely::likely;
use crate::pieces::is_ssid;
use crate::slot::{Slot, text};
use crate::step::{is_period, step};
use crate::table::{FORMS, slots};
use crate::words::is_word;

/// Whether the word can stand at a slot that tells nothing. `None` at other slots.
fn stands(slot: Slot, word: &[u8]) -> Option<bool>
    ensures fits { MatchOption result (tells_nothing slot ≡ false) (λ is. MatchBool is ((d : Told) → Fills slot d word.now d) ((d : Told) (e : Told) → Fills slot d word.now e → ⊥)) }
    ensures quiet { MatchOption result (tells_nothing slot ≡ false) (λ _. tells_nothing slot ≡ true) }
{
    match slot {
        Slot::Fixed(fixed) => Some(is_word(word, text(fixed))),
        Slot::Ssid => Some(is_ssid(word)),
        Slot::Interval => Some(is_period(word)),
        Slot::Dtim => Some(is_period(word)),
        _ => None,
    }
}

/// Tells what the word at the slot tells. False exactly where it can't stand there.
fn tell<'a>(slot: Slot, draft: &mut Draft<'a>, word: &'a [u8]) -> bool
    ensures { MatchBool result (Fills slot draft.old word.now draft.new) ((e : Told) → Fills slot draft.old word.now e → ⊥) }
{
    if let Some(is) = stands(slot, word) {
        return is;
    }
    match step(slot, draft, word) {
        Some(next) => {
            *draft = next;
            true
        }
        None => false,
    }
}

/// What the words tell, where each stands at its slot.
fn told_along<'a>(row: &[Slot], words: &[&'a [u8]]) -> Option<Draft<'a>>
    requires { length words.now ≡ length row.now }
    ensures { MatchOption result ((e : Told) → Leads (map (λ w. w.now) words.now) row.now nothing [] e → ⊥) (Leads (map (λ w. w.now) words.now) row.now nothing []) }
{
    let mut draft = Draft::new();
    for (i, slot) in row.iter().enumerate() {
        if !tell(*slot, &mut draft, words[i]) {
            return None;
        }
    }
    Some(draft)
}

/// What the words tell, where they have this form.
fn told_by<'a>(form: Form, words: &[&'a [u8]]) -> Option<Draft<'a>>
    ensures { MatchOption result (Misfits (map (λ w. w.now) words.now) form) (HasForm (map (λ w. w.now) words.now) form) }
{
    let row = slots(form);
    if words.len() != row.len() {
        return None;
    }
    told_along(row, words)
}

/// The one of these forms that the words have, and what they tell.
fn fitting<'a>(forms: &[Form], words: &[&'a [u8]]) -> Option<(Form, Draft<'a>)>
    ensures { MatchOption result (All (Misfits (map (λ w. w.now) words.now)) forms.now) (λ x. HasForm (map (λ w. w.now) words.now) x.0 x.1) }
{
    for form in forms {
        if let Some(draft) = told_by(*form, words) {
            return Some((*form, draft));
        }
    }
    None
}

/// The form that the words have, and what they tell. The likely ones are tried first.
fn fitting_any<'a>(words: &[&'a [u8]]) -> Option<(Form, Draft<'a>)>
    ensures { MatchOption result (HaveNoForm (map (λ w. w.now) words.now)) (λ x. HasForm (map (λ w. w.now) words.now) x.0 x.1) }
{
    if let Some(found) = fitting(likely(words), words) {
        return Some(found);
    }
    fitting(&FORMS, words)
}

/// The form of the line, and what its words tell.
pub fn form_of<'a>(cut: &Cut<'a>) -> Option<(Form, Draft<'a>)>
    ensures { MatchOption result (HaveNoForm cut.now) (λ x. HasForm cut.now x.0 x.1) }
{
    fitting_any(cut.words())
}
