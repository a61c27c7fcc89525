//! One attribute of a message.

ghost use Rattle.std.specs.Prelude.{◌≡◌, ◌≤◌};
ghost use Rattle.nl_attrs.specs.Attributes.{aligned};

use reg_base::Bytes;

/// An attribute (`struct nlattr`).
#[derive(Debug, Drop)]
pub struct Attr {
    /// What the attribute is, below 16,384.
    pub kind: u16,
    /// Whether the payload is a list of attributes (`NLA_F_NESTED`).
    pub nested: bool,
    /// At most 65,531 bytes where the attribute is to be written.
    pub payload: Bytes,
}

/// An attribute whose payload stands in bytes that are read.
#[derive(Clone, Copy, Debug)]
pub struct AttrRef<'a> {
    /// What the attribute is, below 16,384.
    pub kind: u16,
    /// Whether the payload is a list of attributes (`NLA_F_NESTED`).
    pub nested: bool,
    pub payload: &'a [u8],
}

/// The bytes of an attribute's length and kind.
pub const HEADER: usize = 4;

/// The greatest payload that fits the two bytes of a length, in bytes.
pub const MOST_PAYLOAD: usize = 65_531;

/// The bit of the kind that says nested (`NLA_F_NESTED`).
pub const NESTED: u16 = 0x8000;

/// The bit of the kind that isn't used here (`NLA_F_NET_BYTEORDER`).
pub const RESERVED: u16 = 0x4000;

/// The length rounded up to a multiple of 4 (`NLA_ALIGN`).
pub fn aligned(length: usize) -> usize
    requires { length ≤ 65535 }
    ensures { result ≡ aligned length }
{
    (length + 3) / 4 * 4
}
