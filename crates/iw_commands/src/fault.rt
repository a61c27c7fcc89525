//! The texts of faults of lines.

ghost use Rattle.std.specs.Prelude.{◌≡◌, ◌++◌, IfOk, OnOk};
ghost use Rattle.iw_commands.specs.Printed.{KeepsFront, fault_name, line_fault_text};

use crate::pieces_printer::{put_number, put_text};
use line_forms::LineFault;
use reg_base::Bytes;
use reg_lists::OutOfMemory;
use std::alloc::Global;

/// The line that tells the fault: `line fault: `, its name and a newline.
pub fn fault_text(alloc: Global, fault: &LineFault) -> Result<Bytes, OutOfMemory>
    ensures text { IfOk result (λ text. text ≡ line_fault_text fault.now) }
{
    let mut text = Bytes::new(alloc);
    put_fault(&mut text, fault)?;
    Ok(text)
}

/// Appends that line. After `OutOfMemory` what was there still stands first, and a part of the line
/// may stand behind it.
#[tactic(auto, using(crate::proofs::Kept::steps))]
pub fn put_fault(out: &mut Bytes, fault: &LineFault) -> Result<(), OutOfMemory>
    ensures text { OnOk result (out.new ≡ out.old ++ line_fault_text fault.now) }
    ensures kept { KeepsFront out.old out.new }
{
    put_text(out, b"line fault: ")?;
    put_name(out, fault)?;
    put_text(out, b"\n")?;
    Ok(())
}

/// Appends the name of the fault.
#[tactic(auto, using(crate::proofs::Kept::steps))]
fn put_name(out: &mut Bytes, fault: &LineFault) -> Result<(), OutOfMemory>
    ensures text { OnOk result (out.new ≡ out.old ++ fault_name fault.now) }
    ensures kept { KeepsFront out.old out.new }
{
    match fault {
        LineFault::TooLong => put_text(out, b"too long"),
        LineFault::NotAscii => put_text(out, b"not ascii"),
        LineFault::Unknown(place) => put_number(out, b"unknown word ", *place),
        LineFault::BadNumber(place) => put_number(out, b"bad number word ", *place),
        LineFault::BadForm(place) => put_number(out, b"bad form word ", *place),
        LineFault::Missing => put_text(out, b"missing word"),
    }
}
