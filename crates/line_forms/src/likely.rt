//! Which forms are tried first on a line.

ghost use Rattle.std.specs.Prelude.{◌≡◌, map};
ghost use Rattle.line_forms.specs.inner.Fitting.{first_byte, fourth_letter, likely_by};

use crate::form::{Extra, Form, Freq};

/// The forms of lines whose fourth word begins with `a`, the common ones first.
pub const LIKELY_AP: [Form; 9] = [
    Form::ApStart(Freq::Alone),
    Form::ApStop,
    Form::ApStart(Freq::ByWord),
    Form::ApStart(Freq::Twenty),
    Form::ApStart(Freq::Block),
    Form::ApStartHead(Freq::Alone),
    Form::ApStartHead(Freq::ByWord),
    Form::ApStartHead(Freq::Twenty),
    Form::ApStartHead(Freq::Block),
];

/// Those whose fourth word begins with `s`.
pub const LIKELY_SET: [Form; 12] = [
    Form::SetType,
    Form::SetFreq(Freq::Alone),
    Form::SetFreq(Freq::ByWord),
    Form::SetFreq(Freq::Twenty),
    Form::SetFreq(Freq::Block),
    Form::SetChannel(Freq::Alone),
    Form::SetChannel(Freq::ByWord),
    Form::SetChannel(Freq::Twenty),
    Form::SetChannel(Freq::Block),
    Form::PowerAuto,
    Form::PowerLimit,
    Form::PowerFixed,
];

/// Those whose fourth word begins with `c`.
pub const LIKELY_CHECK: [Form; 10] = [
    Form::CheckFreq(Freq::Alone),
    Form::CheckFreq(Freq::ByWord),
    Form::CheckFreq(Freq::Twenty),
    Form::CheckFreq(Freq::Block),
    Form::CheckChannel(Freq::Alone),
    Form::CheckChannel(Freq::ByWord),
    Form::CheckChannel(Freq::Twenty),
    Form::CheckChannel(Freq::Block),
    Form::Connect,
    Form::ChannelsOf,
];

/// Those whose fourth word begins with `i`.
pub const LIKELY_IBSS: [Form; 8] = [
    Form::IfaceInfo,
    Form::RadioInfo,
    Form::IfaceAdd,
    Form::IbssJoin(Freq::Alone),
    Form::IbssJoin(Freq::ByWord),
    Form::IbssJoin(Freq::Twenty),
    Form::IbssJoin(Freq::Block),
    Form::IbssLeave,
];

/// Those whose fourth word begins with `m`.
pub const LIKELY_MESH: [Form; 5] = [
    Form::MeshJoin(Freq::Alone),
    Form::MeshJoin(Freq::ByWord),
    Form::MeshJoin(Freq::Twenty),
    Form::MeshJoin(Freq::Block),
    Form::MeshLeave,
];

/// Those whose fourth word begins with `d`.
pub const LIKELY_DEL: [Form; 2] = [Form::IfaceDel, Form::Disconnect];

/// Those of other lines.
pub const LIKELY_ELSE: [Form; 17] = [
    Form::At,
    Form::Radar(Freq::Alone),
    Form::Radar(Freq::ByWord),
    Form::Radar(Freq::Twenty),
    Form::Radar(Freq::Block),
    Form::UserHint,
    Form::GetReg,
    Form::DriverHint,
    Form::Element,
    Form::IndoorOn,
    Form::IndoorOff,
    Form::RadioDel,
    Form::RadioAdd(Extra::Neither),
    Form::RadioAdd(Extra::OnlySelf),
    Form::RadioAdd(Extra::OnlyDeaf),
    Form::RadioAdd(Extra::Both),
    Form::RadioRules,
];

/// The first byte of the word, or 0.
fn first_byte(word: &[u8]) -> u8
    ensures { result ≡ first_byte word.now }
{
    match word {
        [] => 0,
        [first, ..] => *first,
    }
}

/// The first byte of the fourth of the words, or 0.
fn fourth_letter(words: &[&[u8]]) -> u8
    ensures { result ≡ fourth_letter (map (λ w. w.now) words.now) }
{
    match words {
        [] => 0,
        [_] => 0,
        [_, _] => 0,
        [_, _, _] => 0,
        [_, _, _, word, ..] => first_byte(word),
    }
}

/// The forms to be tried first on a line whose fourth word begins so.
fn likely_by(letter: u8) -> &'static [Form]
    ensures { result.now ≡ likely_by letter }
{
    if letter == b'a' {
        &LIKELY_AP
    } else if letter == b's' {
        &LIKELY_SET
    } else if letter == b'c' {
        &LIKELY_CHECK
    } else if letter == b'i' {
        &LIKELY_IBSS
    } else if letter == b'm' {
        &LIKELY_MESH
    } else if letter == b'd' {
        &LIKELY_DEL
    } else {
        &LIKELY_ELSE
    }
}

/// The forms to be tried first on a line of these words.
pub fn likely(words: &[&[u8]]) -> &'static [Form]
    ensures { result.now ≡ likely_by (fourth_letter (map (λ w. w.now) words.now)) }
{
    likely_by(fourth_letter(words))
}
