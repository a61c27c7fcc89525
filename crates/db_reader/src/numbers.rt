//! The numbers at places in a file.

ghost use Rattle.std.specs.Prelude.{◌≡◌, ◌+◌, ◌≤◌, ◌↔◌, IsTrue, length};
ghost use Rattle.rule_tables.specs.FileFormat.{target_at, u8_at, u16_at, u32_at};

use byteorder::{BigEndian, ByteOrder};

/// Whether so many bytes stand in the file from that place on.
pub fn is_within(bytes: &[u8], place: usize, count: usize) -> bool
    ensures { IsTrue result ↔ (place + count ≤ length bytes.now) }
{
    place <= bytes.len() && count <= bytes.len() - place
}

/// The byte at that place, or 0 past the end.
pub fn u8_at(bytes: &[u8], place: usize) -> u8
    ensures { result ≡ u8_at bytes.now place }
{
    bytes.get(place).copied().unwrap_or(0)
}

/// The number in the two bytes at that place, the higher first.
pub fn u16_at(bytes: &[u8], place: usize) -> u16
    requires { place + 2 ≤ length bytes.now }
    ensures { result ≡ u16_at bytes.now place }
{
    BigEndian::read_u16(&bytes[place..])
}

/// The number in the four bytes at that place, the highest first.
pub fn u32_at(bytes: &[u8], place: usize) -> u32
    requires { place + 4 ≤ length bytes.now }
    ensures { result ≡ u32_at bytes.now place }
{
    BigEndian::read_u32(&bytes[place..])
}

/// The place that the pointer at that place names.
pub fn target_at(bytes: &[u8], place: usize) -> usize
    requires { place + 2 ≤ length bytes.now }
    ensures target { result ≡ target_at bytes.now place }
    ensures small { result ≤ 262140 }
{
    4 * usize::from(u16_at(bytes, place))
}
