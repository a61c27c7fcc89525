//! Faults of scripts and of streams of messages, as they are told.

ghost use Rattle.std.specs.Prelude.{◌≡◌, ◌++◌, decimal, IfOk, OnOk};
ghost use Rattle.reg_base.specs.Texts.{line_of};
ghost use Rattle.db_commands.specs.Status.{line_fault_words, message_fault_name, script_fault_text};

use crate::line::line_of;
use crate::pieces::put_number;
use line_forms::LineFault;
use nl_attrs::AttrFault;
use reg_base::Bytes;
use reg_lists::OutOfMemory;
use std::alloc::Global;

/// The line that tells a faulty line of a script.
pub fn script_fault_line(
    alloc: Global,
    number: u64,
    fault: &LineFault,
) -> Result<Bytes, OutOfMemory>
    ensures { IfOk result (λ text. text ≡ line_of (script_fault_text number fault.now)) }
{
    let mut text = Bytes::new(alloc);
    put_place(&mut text, b"script line ", number)?;
    text.append(b": ")?;
    put_line_fault(&mut text, fault)?;
    line_of(alloc, text.as_slice())
}

/// Appends what is wrong with a line.
fn put_line_fault(out: &mut Bytes, fault: &LineFault) -> Result<(), OutOfMemory>
    ensures { OnOk result (out.new ≡ out.old ++ line_fault_words fault.now) }
{
    match fault {
        LineFault::TooLong => out.append(b"too long"),
        LineFault::NotAscii => out.append(b"not ascii"),
        LineFault::Unknown(place) => put_place(out, b"unknown word ", *place),
        LineFault::BadNumber(place) => put_place(out, b"bad number word ", *place),
        LineFault::BadForm(place) => put_place(out, b"bad form word ", *place),
        LineFault::Missing => out.append(b"missing word"),
    }
}

/// Appends the words and a number.
fn put_place(out: &mut Bytes, words: &[u8], place: u64) -> Result<(), OutOfMemory>
    ensures { OnOk result (out.new ≡ out.old ++ (words.now ++ decimal place)) }
{
    out.append(words)?;
    put_number(out, place)
}

/// The name of the fault, without its values.
pub fn message_fault_name(fault: &AttrFault) -> &'static str
    ensures { result.now ≡ message_fault_name fault.now }
{
    match fault {
        AttrFault::Truncated(_) => "Truncated",
        AttrFault::BadLength(_) => "BadLength",
        AttrFault::Overlong(_) => "Overlong",
        AttrFault::BadType(_) => "BadType",
        AttrFault::BadAttr(_) => "BadAttr",
    }
}
