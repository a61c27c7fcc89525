//! Prints numbers.

ghost use Rattle.std.specs.Prelude.{◌≡◌, ◌<◌, ◌++◌, decimal, OnOk};
ghost use Rattle.db_text.specs.PrintedNumbers.{dbm_text, decimal_mhz_text, thousandths};
ghost use Rattle.text_lines.specs.Spelling.{fraction_text};

use itoa::Buffer;
use reg_base::Bytes;
use reg_lists::OutOfMemory;

/// Appends a number.
pub fn put_number(out: &mut Bytes, number: u64) -> Result<(), OutOfMemory>
    ensures { OnOk result (out.new ≡ out.old ++ decimal number) }
{
    let mut buffer = Buffer::new();
    out.append(buffer.format(number).as_bytes())?;
    Ok(())
}

/// Appends a point and the digits of so many thousandths, without zeros at the end; nothing for 0.
fn put_thousandths(out: &mut Bytes, count: u32) -> Result<(), OutOfMemory>
    requires { count < 1000 }
    ensures { OnOk result (out.new ≡ out.old ++ fraction_text (thousandths count)) }
{
    if count == 0 {
        return Ok(());
    }
    out.push(b'.')?;
    out.push(b'0' + (count / 100) as u8)?;
    if count % 100 == 0 {
        return Ok(());
    }
    out.push(b'0' + (count / 10 % 10) as u8)?;
    if count % 10 == 0 {
        return Ok(());
    }
    out.push(b'0' + (count % 10) as u8)?;
    Ok(())
}

/// Appends kHz in MHz.
#[tactic(auto, unfolding(crate::specs::PrintedNumbers::decimal_mhz_text))]
pub fn put_mhz(out: &mut Bytes, khz: u32) -> Result<(), OutOfMemory>
    ensures { OnOk result (out.new ≡ out.old ++ decimal_mhz_text khz) }
{
    put_number(out, u64::from(khz / 1000))?;
    put_thousandths(out, khz % 1000)?;
    Ok(())
}

/// Appends mBm in dBm.
#[tactic(auto, unfolding(crate::specs::PrintedNumbers::dbm_text))]
pub fn put_dbm(out: &mut Bytes, mbm: u16) -> Result<(), OutOfMemory>
    ensures { OnOk result (out.new ≡ out.old ++ dbm_text mbm) }
{
    put_number(out, u64::from(mbm / 100))?;
    put_thousandths(out, u32::from(mbm % 100) * 10)?;
    Ok(())
}
