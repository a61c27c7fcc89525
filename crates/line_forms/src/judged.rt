//! By which forms a faulty line is judged.

ghost use Rattle.std.specs.Prelude.{◌≡◌, ◌≤◌, ◌↔◌, IsTrue, drop, min};
ghost use Rattle.line_forms.specs.Faults.{IsJudgedBy, StartsPlainly, begins_iw_word, begins_wide, count_to_head, judged_by};
ghost use Rattle.line_forms.specs.Words.{words_of};

use crate::form::{Form, Freq};
use crate::pieces::is_iw_word;
use crate::slot::{Slot, Word};
use crate::walker::walk;
use crate::words::{Words, is_word};

/// By which forms a faulty line is judged.
#[derive(Clone, Copy)]
pub enum Judged {
    /// By all.
    ByAll,
    /// As an access point's start with a frequency alone.
    ByTwo,
    /// With `20` behind the frequency.
    ByThree,
    /// With a width and a centre behind it.
    ByFour,
    /// It ends too early.
    TooEarly,
}

/// The slots of the start of an access point up to the frequency.
pub const AP_FRONT: [Slot; 7] = [
    Slot::Fixed(Word::Iw),
    Slot::Fixed(Word::Dev),
    Slot::Name,
    Slot::Fixed(Word::Ap),
    Slot::Fixed(Word::Start),
    Slot::Ssid,
    Slot::Mhz,
];

/// The forms of such a start with a frequency alone.
pub const BY_TWO: [Form; 2] = [Form::ApStart(Freq::Alone), Form::ApStartHead(Freq::Alone)];

/// Those with `20` behind the frequency.
pub const BY_THREE: [Form; 2] = [Form::ApStart(Freq::Twenty), Form::ApStartHead(Freq::Twenty)];

/// Those with a width and a centre behind it.
pub const BY_FOUR: [Form; 2] = [Form::ApStart(Freq::Block), Form::ApStartHead(Freq::Block)];

/// The words of the line behind the first so many.
fn words_behind(line: &[u8], count: usize) -> Words<'_>
    ensures { result ≡ drop count (words_of line.now) }
{
    let mut words = Words::new(line);
    for i in 0..count {
        let _place = i;
        words.skip();
    }
    words
}

/// How many words stand before `head`, or 4 where there are more.
fn count_to_head(words: &mut Words<'_>) -> u8
    ensures { result ≡ min 4 (count_to_head words.old) }
{
    for count in 0..4u8 {
        let Some(word) = words.next_word() else {
            return count;
        };
        if is_word(word, b"head") {
            return count;
        }
    }
    4
}

/// Whether a word of iw for a channel stands first.
fn begins_iw_word(words: &mut Words<'_>) -> bool
    ensures { result ≡ begins_iw_word words.old }
{
    match words.next_word() {
        Some(word) => is_iw_word(word),
        None => false,
    }
}

/// Whether a width above 20 MHz stands first.
fn begins_wide(words: &mut Words<'_>) -> bool
    ensures { result ≡ begins_wide words.old }
{
    match words.next_word() {
        Some(word) => {
            is_word(word, b"40")
                || is_word(word, b"80")
                || is_word(word, b"160")
                || is_word(word, b"320")
        }
        None => false,
    }
}

/// Whether the line is the start of an access point with no word of iw behind the frequency.
fn starts_plainly(line: &[u8]) -> bool
    ensures { IsTrue result ↔ StartsPlainly (words_of line.now) }
{
    let mut words = Words::new(line);
    let (stop, _draft) = walk(&AP_FRONT, &mut words);
    if stop.taken < 7 {
        return false;
    }
    !begins_iw_word(&mut words_behind(line, 7))
}

/// By which forms so many words behind the frequency are judged.
fn judged_by(count: u8, wide: bool) -> Judged
    requires { count ≤ 4 }
    ensures { result ≡ judged_by count wide }
{
    match count {
        0 => Judged::TooEarly,
        1 => Judged::TooEarly,
        2 => Judged::ByTwo,
        3 if wide => Judged::TooEarly,
        3 => Judged::ByThree,
        _ => Judged::ByFour,
    }
}

/// By which forms the line is judged.
pub fn judge(line: &[u8]) -> Judged
    ensures { IsJudgedBy (words_of line.now) result }
{
    if !starts_plainly(line) {
        return Judged::ByAll;
    }
    let wide = begins_wide(&mut words_behind(line, 7));
    judged_by(count_to_head(&mut words_behind(line, 7)), wide)
}
