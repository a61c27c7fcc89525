//! Prints the parts of a line.

ghost use Rattle.std.specs.Prelude.{◌≡◌, ◌++◌, decimal, OnOk};
ghost use Rattle.iw_commands.specs.Printed.{KeepsFront};
ghost use Rattle.iw_dumps.specs.Spelling.{code_text, radio_text, whole_mhz_text};

use itoa::Buffer;
use reg_base::Bytes;
use reg_hints::RadioNo;
use reg_lists::OutOfMemory;
use rule_tables::Alpha2;

/// Appends a text.
#[tactic(auto, using(crate::proofs::Kept::steps))]
pub fn put_text(out: &mut Bytes, text: &[u8]) -> Result<(), OutOfMemory>
    ensures text { OnOk result (out.new ≡ out.old ++ text.now) }
    ensures kept { KeepsFront out.old out.new }
{
    out.append(text)?;
    Ok(())
}

/// Appends a label and a text.
#[tactic(auto, using(crate::proofs::Kept::steps))]
pub fn put_labelled(out: &mut Bytes, label: &[u8], text: &[u8]) -> Result<(), OutOfMemory>
    ensures text { OnOk result (out.new ≡ out.old ++ (label.now ++ text.now)) }
    ensures kept { KeepsFront out.old out.new }
{
    put_text(out, label)?;
    put_text(out, text)?;
    Ok(())
}

/// Appends a label and a number.
#[tactic(auto, using(crate::proofs::Kept::steps))]
pub fn put_number(out: &mut Bytes, label: &[u8], number: u64) -> Result<(), OutOfMemory>
    ensures text { OnOk result (out.new ≡ out.old ++ (label.now ++ decimal number)) }
    ensures kept { KeepsFront out.old out.new }
{
    let mut buffer = Buffer::new();
    put_labelled(out, label, buffer.format(number).as_bytes())?;
    Ok(())
}

/// Appends a label and a frequency in whole MHz, rounded down.
#[tactic(auto, using(crate::proofs::Kept::steps))]
pub fn put_mhz(out: &mut Bytes, label: &[u8], khz: u32) -> Result<(), OutOfMemory>
    ensures text { OnOk result (out.new ≡ out.old ++ (label.now ++ whole_mhz_text khz)) }
    ensures kept { KeepsFront out.old out.new }
{
    put_number(out, label, u64::from(khz / 1_000))?;
    Ok(())
}

/// Appends a label and the name of a radio.
#[tactic(auto, using(crate::proofs::Kept::steps))]
pub fn put_radio(out: &mut Bytes, label: &[u8], radio: RadioNo) -> Result<(), OutOfMemory>
    ensures text { OnOk result (out.new ≡ out.old ++ (label.now ++ radio_text radio)) }
    ensures kept { KeepsFront out.old out.new }
{
    put_text(out, label)?;
    put_number(out, b"phy", u64::from(radio.get()))?;
    Ok(())
}

/// Appends a label and a code.
#[tactic(auto, using(crate::proofs::Kept::steps))]
pub fn put_code(out: &mut Bytes, label: &[u8], code: Alpha2) -> Result<(), OutOfMemory>
    ensures text { OnOk result (out.new ≡ out.old ++ (label.now ++ code_text code)) }
    ensures kept { KeepsFront out.old out.new }
{
    put_labelled(out, label, &[code.a, code.b])?;
    Ok(())
}
