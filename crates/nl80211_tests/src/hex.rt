//! Bytes and messages that are written in hexadecimal.

ghost use Rattle.std.specs.Prelude.{◌≤◌, length, IfOk};
ghost use Rattle.nl_attrs.specs.Messages.{spelled};

use nl_attrs::{Decoder, Msg};
use reg_base::Bytes;
use std::alloc::Global;
use std::test::Fail;

/// The value of a lower case hexadecimal digit.
fn digit(byte: u8) -> Option<u8> {
    match byte {
        b'0'..=b'9' => Some(byte - b'0'),
        b'a'..=b'f' => Some(byte - b'a' + 10),
        _ => None,
    }
}

/// The bytes whose digits the text has; what is no digit is skipped.
pub fn bytes_of(alloc: Global, text: &[u8]) -> Result<Bytes, Fail> {
    let mut bytes = Bytes::new(alloc);
    let mut high = None;
    for byte in text {
        match (digit(*byte), high) {
            (Some(low), Some(first)) => {
                bytes.push(joined(first, low))?;
                high = None;
            }
            (Some(first), None) => high = Some(first),
            (None, _) => {}
        }
    }
    Ok(bytes)
}

/// A byte of two digits.
fn joined(high: u8, low: u8) -> u8 {
    high.wrapping_mul(16).wrapping_add(low)
}

/// The message that is spelled so.
pub fn message_of(alloc: Global, text: &[u8]) -> Result<Msg, Fail>
    ensures { IfOk result (λ m. length (spelled m) ≤ 65536) }
{
    let bytes = bytes_of(alloc, text)?;
    let mut decoder = Decoder::new(alloc);
    if bytes.len() > 65_536 {
        return Err(Fail::new("a message is no longer"));
    }
    decoder.feed(bytes.as_slice())?;
    match decoder.next()? {
        Some(message) => Ok(message),
        None => Err(Fail::new("no message is whole")),
    }
}
