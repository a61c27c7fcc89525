//! Prints lines.

ghost use Rattle.std.specs.Prelude.{◌≡◌, ◌∷◌, ◌++◌, All, IfOk, Ok, OnOk, Some};
ghost use Rattle.std.specs.List.{flat_map};
ghost use Rattle.reg_journal.specs.Forms.{IsLineRequest};
ghost use Rattle.line_forms.specs.Lines.{Says};
ghost use Rattle.line_printing.specs.Printed.{IsPlainLineRule, line_text, text_at, slot_words};

use crate::digits::digits_of;
use crate::form_choice::form_of;
use crate::slot_printer::put_slot;
use crate::told::{draft_of, rules_of};
use crate::typed::type_request;
use freq_range::Rule;
use line_forms::{Draft, Slot, slots};
use reg_base::Bytes;
use reg_journal::Request;
use reg_lists::OutOfMemory;
use std::alloc::Global;

/// Appends the words at these slots, each behind a blank.
fn put_more_words(
    out: &mut Bytes,
    slots: &[Slot],
    d: &Draft<'_>,
    rules: &[Rule],
) -> Result<(), OutOfMemory>
    requires { All IsPlainLineRule rules.now }
    ensures { OnOk result (out.new ≡ out.old ++ flat_map (λ slot. 32 ∷ text_at rules.now d.now slot) slots.now) }
{
    for slot in slots {
        out.push(b' ')?;
        put_slot(out, *slot, d, rules)?;
    }
    Ok(())
}

/// Appends the words at these slots, parted by one blank.
fn put_words(
    out: &mut Bytes,
    slots: &[Slot],
    d: &Draft<'_>,
    rules: &[Rule],
) -> Result<(), OutOfMemory>
    requires { All IsPlainLineRule rules.now }
    ensures { OnOk result (out.new ≡ out.old ++ slot_words rules.now d.now slots.now) }
{
    let [first, rest @ ..] = slots else {
        return Ok(());
    };
    put_slot(out, *first, d, rules)?;
    put_more_words(out, rest, d, rules)?;
    Ok(())
}

/// The line that asks the request, without a newline. The request is one that a line of a script can
/// ask. `read_line` reads the line as this request.
pub fn line_of(alloc: Global, request: &Request) -> Result<Bytes, OutOfMemory>
    requires line { IsLineRequest request.now }
    ensures text { IfOk result (λ line. line ≡ line_text request.now) }
    ensures reads { IfOk result (λ line. Says line (Ok (Some request.now))) }
{
    type_request(request);
    let digits = digits_of(alloc, request)?;
    let d = draft_of(request, digits.as_slice());
    let mut line = Bytes::new(alloc);
    put_words(&mut line, slots(form_of(request)), &d, rules_of(request))?;
    Ok(line)
}
