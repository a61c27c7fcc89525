//! Reads a line.

ghost use Rattle.std.specs.Prelude.{◌≡◌, ◌↔◌, ◌<◌, ◌≤◌, ℕ, All, IfOk, IfSome, IsTrue, MatchResult, Ok, length};
ghost use Rattle.reg_journal.specs.Forms.{IsLineRequest};
ghost use Rattle.reg_journal.specs.Requests.{IsAskable};
ghost use Rattle.reg_journal.specs.declared.request.Request.{Request};
ghost use Rattle.line_forms.specs.Faults.{IsFaultBy, IsWordFault};
ghost use Rattle.line_forms.specs.Forms.{FormOf, HasForm, RulesOf};
ghost use Rattle.line_forms.specs.Lines.{AreSilent, BeginsComment, IsLineByte, IsReadLineFault, Says};
ghost use Rattle.line_forms.specs.Told.{Told};
ghost use Rattle.line_forms.specs.Words.{words_of};
ghost use Rattle.line_forms.specs.declared.form.Form.{Form};
ghost use Rattle.line_forms.specs.inner.Walking.{HaveNoForm, IsFormFault, fault_of_end};

use crate::cut::Cut;
use crate::fault::{LineFault, ReadLineFault};
use crate::fitting::form_of;
use crate::form::Form;
use crate::judged::{BY_FOUR, BY_THREE, BY_TWO, Judged, judge};
use crate::reader::read;
use crate::request::asked;
use crate::rules::rules_request;
use crate::table::FORMS;
use crate::walker::{Blame, End, Stop};
use reg_base::MOST_LINE_BYTES;
use reg_journal::Request;
use std::alloc::Global;

/// The fault of a line that stops so.
fn fault_at(stop: Stop) -> LineFault
    requires { stop.taken ≤ 15 }
    ensures { result ≡ fault_of_end stop.taken stop.end }
{
    let place = stop.taken as u64 + 1;
    match stop.end {
        End::Whole => LineFault::Missing,
        End::Short => LineFault::Missing,
        End::Bad(Blame::NoWord) => LineFault::Unknown(place),
        End::Bad(Blame::NoForm) => LineFault::BadForm(place),
        End::Bad(Blame::NoNumber) => LineFault::BadNumber(place),
        End::Bad(Blame::OutOfRange) => LineFault::BadForm(place),
    }
}

/// What is wrong with a line that has none of the forms, by these.
fn fault_by(forms: &[Form], line: &[u8]) -> LineFault
    requires some { 0 < length forms.now }
    requires unfit { HaveNoForm (words_of line.now) }
    ensures { IsFaultBy forms.now (words_of line.now) result }
{
    match read(forms, line) {
        Ok(_) => unreachable!(),
        Err(stop) => fault_at(stop),
    }
}

/// What is wrong with a line that has none of the forms.
fn fault_of(line: &[u8]) -> LineFault
    requires { HaveNoForm (words_of line.now) }
    ensures { IsWordFault (words_of line.now) result }
{
    match judge(line) {
        Judged::ByAll => fault_by(&FORMS, line),
        Judged::ByTwo => fault_by(&BY_TWO, line),
        Judged::ByThree => fault_by(&BY_THREE, line),
        Judged::ByFour => fault_by(&BY_FOUR, line),
        Judged::TooEarly => LineFault::Missing,
    }
}

/// The request of a line of one of the forms, or what is wrong with it.
fn read_form(alloc: Global, cut: &Cut<'_>) -> Result<Request, ReadLineFault>
    ensures read { MatchResult result (FormOf cut.now) (IsFormFault cut.now) }
    ensures askable { IfOk result IsAskable }
{
    match form_of(cut) {
        Some((form, draft)) => Ok(asked(alloc, form, &draft)?),
        None => Err(ReadLineFault::Line(fault_of(cut.line()))),
    }
}

/// Whether each byte is a visible one of ASCII, a space or a tab.
fn are_line_bytes(line: &[u8]) -> bool
    ensures { IsTrue result ↔ All IsLineByte line.now }
{
    let mut all = true;
    for byte in line {
        all &= is_line_byte(*byte);
    }
    all
}

/// Whether the byte is a visible one of ASCII, a space or a tab.
fn is_line_byte(byte: u8) -> bool
    ensures { IsTrue result ↔ IsLineByte byte }
{
    (0x20 <= byte) & (byte <= 0x7e) | (byte == b'\t')
}

/// Whether the line has no word, or is a comment.
fn is_silent(cut: &Cut<'_>) -> bool
    ensures { IsTrue result ↔ AreSilent cut.now }
{
    match cut.words() {
        [] => true,
        [first, ..] => begins_comment(first),
    }
}

/// Whether the word begins a comment.
fn begins_comment(word: &[u8]) -> bool
    ensures { IsTrue result ↔ BeginsComment word.now }
{
    match word {
        [] => false,
        [first, ..] => *first == b'#',
    }
}

/// What the line asks, which is a request that a line can ask: `None` for a blank line or a comment.
/// The fault is told as `LineFault` says; `TooLong` comes before `NotAscii`, and this before the faults
/// of words. Memory is asked for only by lines of rules and of country elements.
pub fn read_line(alloc: Global, line: &[u8]) -> Result<Option<Request>, ReadLineFault>
    ensures says { MatchResult result (λ asked. Says line.now (Ok asked)) (IsReadLineFault line.now) }
    ensures line { IfOk result (λ asked. IfSome asked IsLineRequest) }
    ensures askable { IfOk result (λ asked. IfSome asked IsAskable) }
{
    if line.len() > MOST_LINE_BYTES {
        return Err(ReadLineFault::Line(LineFault::TooLong));
    }
    if !are_line_bytes(line) {
        return Err(ReadLineFault::Line(LineFault::NotAscii));
    }
    let cut = Cut::new(line);
    if is_silent(&cut) {
        return Ok(None);
    }
    if let Some(request) = rules_request(alloc, line)? {
        return Ok(Some(request));
    }
    match read_form(alloc, &cut) {
        Ok(request) => Ok(Some(request)),
        Err(fault) => Err(fault),
    }
}
