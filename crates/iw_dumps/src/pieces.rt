//! Prints the parts of a line.

ghost use Rattle.std.specs.Prelude.{◌≡◌, ◌++◌, decimal, OnOk};
ghost use Rattle.iw_dumps.specs.DumpTexts.{text_if};
ghost use Rattle.iw_dumps.specs.Spelling.{channel_text, code_text, radio_text, whole_mhz_text};

use crate::words::width_text;
use chan_def::ChanDef;
use itoa::Buffer;
use reg_base::Bytes;
use reg_hints::RadioNo;
use reg_lists::OutOfMemory;
use rule_tables::Alpha2;

/// Appends the text where it is set.
pub fn put_if(out: &mut Bytes, set: bool, text: &[u8]) -> Result<(), OutOfMemory>
    ensures { OnOk result (out.new ≡ out.old ++ text_if set text.now) }
{
    if set {
        out.append(text)?;
    }
    Ok(())
}

/// Appends a number.
pub fn put_number(out: &mut Bytes, number: u64) -> Result<(), OutOfMemory>
    ensures { OnOk result (out.new ≡ out.old ++ decimal number) }
{
    let mut buffer = Buffer::new();
    out.append(buffer.format(number).as_bytes())?;
    Ok(())
}

/// Appends a label and a number.
pub fn put_labelled(out: &mut Bytes, label: &[u8], number: u64) -> Result<(), OutOfMemory>
    ensures { OnOk result (out.new ≡ out.old ++ (label.now ++ decimal number)) }
{
    out.append(label)?;
    put_number(out, number)?;
    Ok(())
}

/// Appends a number of 32 bits.
pub fn put_u32(out: &mut Bytes, number: u32) -> Result<(), OutOfMemory>
    ensures { OnOk result (out.new ≡ out.old ++ decimal number) }
{
    put_number(out, u64::from(number))?;
    Ok(())
}

/// Appends a frequency in whole MHz, rounded down.
pub fn put_mhz(out: &mut Bytes, khz: u32) -> Result<(), OutOfMemory>
    ensures { OnOk result (out.new ≡ out.old ++ whole_mhz_text khz) }
{
    put_u32(out, khz / 1_000)?;
    Ok(())
}

/// Appends a code.
pub fn put_code(out: &mut Bytes, code: Alpha2) -> Result<(), OutOfMemory>
    ensures { OnOk result (out.new ≡ out.old ++ code_text code) }
{
    out.append(&[code.a, code.b])?;
    Ok(())
}

/// Appends the name of a radio.
pub fn put_radio(out: &mut Bytes, radio: RadioNo) -> Result<(), OutOfMemory>
    ensures { OnOk result (out.new ≡ out.old ++ radio_text radio) }
{
    out.append(b"phy")?;
    put_u32(out, radio.get())?;
    Ok(())
}

/// Appends a channel: its control channel in MHz, its width, and its centre in MHz.
#[tactic(auto, unfolding(crate::specs::Spelling::channel_text))]
pub fn put_channel(out: &mut Bytes, c: &ChanDef) -> Result<(), OutOfMemory>
    ensures { OnOk result (out.new ≡ out.old ++ channel_text c.now) }
{
    put_mhz(out, c.control_khz)?;
    out.append(b" ")?;
    out.append(width_text(c.width))?;
    out.append(b" ")?;
    put_mhz(out, c.centre_khz)?;
    Ok(())
}
