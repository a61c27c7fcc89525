//! The heads of requests, which Error messages repeat.

ghost use Rattle.std.specs.Prelude.{◌≡◌, ◌<◌, ◌≤◌, ◌%◌, ◌↔◌, IsSomeAnd, IsTrue, Some};
ghost use Rattle.reply_reading.specs.inner.Compared.{IsHeadSaid, IsRequestHead};

use nl_attrs::{u16_of, u32_of};

/// Whether this is the length of a message of a family.
fn is_length(length: Option<u32>) -> bool
    ensures { IsTrue result ↔ IsSomeAnd length (λ n. (20 ≤ n) × (n ≤ 65536) × (n % 4 ≡ 0)) }
{
    match length {
        Some(length) => 20 <= length && length <= 65_536 && length % 4 == 0,
        None => false,
    }
}

/// Whether this is a family.
fn is_family(family: Option<u16>) -> bool
    ensures { IsTrue result ↔ IsSomeAnd family (λ n. (16 ≤ n) × (n < 65536)) }
{
    match family {
        Some(family) => 16 <= family,
        None => false,
    }
}

/// Whether this is the number.
fn is_number(found: Option<u32>, number: u32) -> bool
    ensures { IsTrue result ↔ (found ≡ Some number) }
{
    match found {
        Some(found) => found == number,
        None => false,
    }
}

/// Whether these numbers are those of the head of a request with this sequence number and this port.
fn is_head(
    length: Option<u32>,
    family: Option<u16>,
    numbers: (Option<u32>, Option<u32>),
    seq: u32,
    pid: u32,
) -> bool
    ensures { IsTrue result ↔ IsHeadSaid length family numbers.0 numbers.1 seq pid }
{
    is_length(length) && is_family(family) && is_number(numbers.0, seq) && is_number(numbers.1, pid)
}

/// Whether these are the first bytes of some request with this sequence number and this port.
pub fn is_request_head(head: &[u8; 16], seq: u32, pid: u32) -> bool
    ensures { IsTrue result ↔ IsRequestHead seq pid head.now }
{
    let length = u32_of(&head[..4]);
    let family = u16_of(&head[4..6]);
    let numbers = (u32_of(&head[8..12]), u32_of(&head[12..16]));
    is_head(length, family, numbers, seq, pid)
}
