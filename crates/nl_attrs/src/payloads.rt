//! What payloads say: numbers, texts, and bytes as they are.

ghost use Rattle.std.specs.Prelude.{◌≡◌, ◌≢◌, ◌<◌, ◌^◌, ◌++◌, ◌∷◌, [], ℕ, ℤ, List, length, FitsSigned, MatchOption, IfOk, IfSome, IfNone, IsSomeAnd, OnOk, Some};
ghost use Rattle.std.specs.Bool.{MatchBool};
ghost use Rattle.std.specs.Int.{w32, cast_unsigned};
ghost use Rattle.nl_attrs.specs.Endian.{AreBytes, le16, le32, le64};
ghost use Rattle.nl_attrs.specs.Payloads.{IsZeroFree, Tells, attr_with, payload_bytes};
ghost use Rattle.nl_attrs.specs.inner.Texts.{DropsZero};

use crate::attr::Attr;
use crate::numbers::{i32_at, put_i32, put_u16, put_u32, put_u64, u16_at, u32_at, u64_at};
use reg_base::Bytes;
use reg_lists::OutOfMemory;
use std::alloc::Global;

/// What an attribute says that holds no others. Numbers are little-endian.
#[derive(Clone, Copy, Debug)]
pub enum Payload<'a> {
    U8(u8),
    U16(u16),
    U32(u32),
    U64(u64),
    I32(i32),
    /// A text without a zero byte, which is written with one at its end.
    Text(&'a [u8]),
    /// Bytes as they are.
    Raw(&'a [u8]),
}

/// How many bytes there are.
pub fn byte_count(bytes: &[u8]) -> usize
    ensures count { result ≡ length bytes.now }
    ensures bytes { AreBytes bytes.now }
{
    bytes.len()
}

impl<'a> Payload<'a> {
    /// How many bytes it has.
    pub fn len(self) -> usize
        ensures len { result ≡ length (payload_bytes self.entry) }
        ensures bytes { AreBytes (payload_bytes self.entry) }
    {
        match self {
            Payload::U8(_) => 1,
            Payload::U16(_) => 2,
            Payload::U32(_) => 4,
            Payload::U64(_) => 8,
            Payload::I32(_) => 4,
            Payload::Text(text) => byte_count(text) + 1,
            Payload::Raw(bytes) => byte_count(bytes),
        }
    }
}

/// Writes a payload behind what the buffer holds. After `OutOfMemory` a part of it may stand there.
pub fn put_payload(out: &mut Bytes, payload: Payload<'_>) -> Result<(), OutOfMemory>
    ensures { OnOk result (out.new ≡ out.old ++ payload_bytes payload.entry) }
{
    match payload {
        Payload::U8(number) => out.push(number),
        Payload::U16(number) => put_u16(out, number),
        Payload::U32(number) => put_u32(out, number),
        Payload::U64(number) => put_u64(out, number),
        Payload::I32(number) => put_i32(out, number),
        Payload::Text(text) => {
            out.append(text)?;
            out.push(0)
        }
        Payload::Raw(bytes) => out.append(bytes),
    }
}

impl Attr {
    /// An attribute that holds no others. The kind is below 16,384 where it is to be written.
    pub fn new(alloc: Global, kind: u16, payload: Payload<'_>) -> Result<Attr, OutOfMemory>
        ensures made { IfOk result (λ a. a ≡ attr_with kind payload.entry) }
    {
        let mut bytes = Bytes::new(alloc);
        put_payload(&mut bytes, payload)?;
        Ok(Attr {
            kind,
            nested: false,
            payload: bytes,
        })
    }
}

/// The number of a payload of one byte.
pub fn u8_of(payload: &[u8]) -> Option<u8>
    ensures number { MatchOption result (length payload.now ≢ 1) (λ n. payload.now ≡ n ∷ []) }
    ensures inverse { (n : ℕ) → payload.now ≡ n ∷ [] → result ≡ Some n }
{
    if payload.len() == 1 {
        Some(payload[0])
    } else {
        None
    }
}

/// The number of a payload of two bytes.
pub fn u16_of(payload: &[u8]) -> Option<u16>
    ensures number { MatchOption result (length payload.now ≢ 2) (λ n. payload.now ≡ le16 n) }
    ensures inverse { (n : ℕ) → n < 2 ^ 16 → payload.now ≡ le16 n → result ≡ Some n }
{
    if payload.len() == 2 {
        Some(u16_at(payload, 0))
    } else {
        None
    }
}

/// The number of a payload of four bytes.
pub fn u32_of(payload: &[u8]) -> Option<u32>
    ensures number { MatchOption result (length payload.now ≢ 4) (λ n. payload.now ≡ le32 n) }
    ensures inverse { (n : ℕ) → n < 2 ^ 32 → payload.now ≡ le32 n → result ≡ Some n }
{
    if payload.len() == 4 {
        Some(u32_at(payload, 0))
    } else {
        None
    }
}

/// The number of a payload of eight bytes.
pub fn u64_of(payload: &[u8]) -> Option<u64>
    ensures number { MatchOption result (length payload.now ≢ 8) (λ n. payload.now ≡ le64 n) }
    ensures inverse { (n : ℕ) → n < 2 ^ 64 → payload.now ≡ le64 n → result ≡ Some n }
{
    if payload.len() == 8 {
        Some(u64_at(payload, 0))
    } else {
        None
    }
}

/// The signed number of a payload of four bytes.
pub fn i32_of(payload: &[u8]) -> Option<i32>
    ensures number { MatchOption result (length payload.now ≢ 4)
        (λ n. payload.now ≡ le32 (cast_unsigned w32 n)) }
    ensures inverse { (n : ℤ) → FitsSigned w32 n → payload.now ≡ le32 (cast_unsigned w32 n)
        → result ≡ Some n }
{
    if payload.len() == 4 {
        Some(i32_at(payload, 0))
    } else {
        None
    }
}

/// The payload without one zero byte at its end.
fn without_zero(payload: &[u8]) -> &[u8]
    ensures { DropsZero payload.now result.now }
{
    match payload {
        [text @ .., 0] => text,
        _ => payload,
    }
}

/// Whether there is no zero byte.
fn is_text(bytes: &[u8]) -> bool
    ensures { MatchBool result (IsZeroFree bytes.now) (IsZeroFree bytes.now → ⊥) }
{
    for byte in bytes {
        if *byte == 0 {
            return false;
        }
    }
    true
}

/// The text of a payload, which may end in one zero byte. `None` where another byte is zero.
pub fn text_of(payload: &[u8]) -> Option<&[u8]>
    ensures text { IfSome result (λ text. Tells payload.now text.now) }
    ensures none { IfNone result ((text : List ℕ) → Tells payload.now text → ⊥) }
    ensures inverse { (text : List ℕ) → Tells payload.now text
        → IsSomeAnd result (λ found. found.now ≡ text) }
{
    let text = without_zero(payload);
    if is_text(text) { Some(text) } else { None }
}
