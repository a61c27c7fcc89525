//! Pieces of lines that are appended.

ghost use Rattle.std.specs.Prelude.{◌≡◌, ◌/◌, ◌++◌, [], decimal, if◌then◌else◌, OnOk};

use itoa::Buffer;
use reg_base::Bytes;
use reg_lists::OutOfMemory;

/// Appends a number.
pub fn put_number(out: &mut Bytes, number: u64) -> Result<(), OutOfMemory>
    ensures { OnOk result (out.new ≡ out.old ++ decimal number) }
{
    let mut buffer = Buffer::new();
    out.append(buffer.format(number).as_bytes())?;
    Ok(())
}

/// Appends kHz in whole MHz, rounded down.
pub fn put_whole_mhz(out: &mut Bytes, khz: u32) -> Result<(), OutOfMemory>
    ensures { OnOk result (out.new ≡ out.old ++ decimal (khz / 1000)) }
{
    put_number(out, u64::from(khz / 1000))?;
    Ok(())
}

/// Appends a word where it is asked for.
pub fn put_if(out: &mut Bytes, wanted: bool, word: &[u8]) -> Result<(), OutOfMemory>
    ensures { OnOk result (out.new ≡ out.old ++ (if wanted then word.now else [])) }
{
    if wanted {
        out.append(word)?;
    }
    Ok(())
}
