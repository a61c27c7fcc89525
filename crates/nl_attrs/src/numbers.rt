//! Numbers in bytes, the lowest byte first.

ghost use Rattle.std.specs.Prelude.{◌≡◌, ◌+◌, ◌≤◌, ◌++◌, length, OnOk};
ghost use Rattle.std.specs.Int.{w32, cast_signed, cast_unsigned};
ghost use Rattle.nl_attrs.specs.Endian.{le16, le32, le64, le16_at, le32_at, le64_at};

use reg_base::Bytes;
use reg_lists::OutOfMemory;

/// Writes a number in two bytes.
#[tactic(auto, unfolding(crate::specs::Endian::le16))]
pub fn put_u16(out: &mut Bytes, number: u16) -> Result<(), OutOfMemory>
    ensures { OnOk result (out.new ≡ out.old ++ le16 number) }
{
    out.append(&number.to_le_bytes())?;
    Ok(())
}

/// Writes a number in four bytes.
#[tactic(auto, unfolding(crate::specs::Endian::le32))]
pub fn put_u32(out: &mut Bytes, number: u32) -> Result<(), OutOfMemory>
    ensures { OnOk result (out.new ≡ out.old ++ le32 number) }
{
    out.append(&number.to_le_bytes())?;
    Ok(())
}

/// Writes a number in eight bytes.
#[tactic(auto, unfolding(crate::specs::Endian::le64))]
pub fn put_u64(out: &mut Bytes, number: u64) -> Result<(), OutOfMemory>
    ensures { OnOk result (out.new ≡ out.old ++ le64 number) }
{
    out.append(&number.to_le_bytes())?;
    Ok(())
}

/// Writes a signed number in four bytes.
#[tactic(auto, unfolding(crate::specs::Endian::le32))]
pub fn put_i32(out: &mut Bytes, number: i32) -> Result<(), OutOfMemory>
    ensures { OnOk result (out.new ≡ out.old ++ le32 (cast_unsigned w32 number)) }
{
    out.append(&number.to_le_bytes())?;
    Ok(())
}

/// The number in the two bytes from a place on.
#[tactic(auto, unfolding(crate::specs::Endian::le16_at))]
pub fn u16_at(bytes: &[u8], place: usize) -> u16
    requires { place + 2 ≤ length bytes.now }
    ensures { result ≡ le16_at bytes.now place }
{
    u16::from_le_bytes([bytes[place], bytes[place + 1]])
}

/// The number in the four bytes from a place on.
#[tactic(auto, unfolding(crate::specs::Endian::le32_at))]
pub fn u32_at(bytes: &[u8], place: usize) -> u32
    requires { place + 4 ≤ length bytes.now }
    ensures { result ≡ le32_at bytes.now place }
{
    u32::from_le_bytes([
        bytes[place],
        bytes[place + 1],
        bytes[place + 2],
        bytes[place + 3],
    ])
}

/// The number in the eight bytes from a place on.
#[tactic(auto, unfolding(crate::specs::Endian::le64_at))]
pub fn u64_at(bytes: &[u8], place: usize) -> u64
    requires { place + 8 ≤ length bytes.now }
    ensures { result ≡ le64_at bytes.now place }
{
    u64::from_le_bytes([
        bytes[place],
        bytes[place + 1],
        bytes[place + 2],
        bytes[place + 3],
        bytes[place + 4],
        bytes[place + 5],
        bytes[place + 6],
        bytes[place + 7],
    ])
}

/// The signed number in the four bytes from a place on.
#[tactic(auto, unfolding(crate::specs::Endian::le32_at))]
pub fn i32_at(bytes: &[u8], place: usize) -> i32
    requires { place + 4 ≤ length bytes.now }
    ensures { result ≡ cast_signed w32 (le32_at bytes.now place) }
{
    i32::from_le_bytes([
        bytes[place],
        bytes[place + 1],
        bytes[place + 2],
        bytes[place + 3],
    ])
}
