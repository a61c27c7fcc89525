//! What the attributes at given places say: 0, a name or a code of its own stands for what can't be read.

ghost use Rattle.std.specs.Prelude.{◌≡◌, ◌<◌, ◌%◌, ◌^◌, ◌++◌, ◌∷◌, [], ℕ, List, All, IfOk, drop, slice_get};
ghost use Rattle.nl_attrs.specs.Attributes.{IsAttr, attrs_bytes};
ghost use Rattle.nl_attrs.specs.Endian.{le32, le64};
ghost use Rattle.nl_attrs.specs.Messages.{attrs_in};
ghost use Rattle.radio_drv.specs.Names.{IsName};
ghost use Rattle.rule_tables.specs.declared.code.Alpha2.{Alpha2};
ghost use Rattle.reply_reading.specs.inner.Reading.{Undoes, code_payload, is_plain, name_payload, payload_at};

use nl_attrs::{Attr, AttrList, AttrsFault, Msg, attrs_of, text_of, u8_of, u32_of, u64_of};
use radio_drv::Name;
use reg_hints::RadioNo;
use reg_lists::OutOfMemory;
use rule_tables::Alpha2;
use std::alloc::Global;

/// The attributes of a message.
pub fn attrs_in(msg: &Msg) -> &[Attr]
    ensures { result.now ≡ attrs_in msg.now }
{
    match msg {
        Msg::Generic { attrs, .. } => attrs.as_slice(),
        Msg::Error { .. } | Msg::Done { .. } => &[],
    }
}

/// The attributes from place `k` on.
pub fn attrs_from(attrs: &[Attr], k: usize) -> &[Attr]
    ensures { result.now ≡ drop k attrs.now }
{
    if k <= attrs.len() { &attrs[k..] } else { &[] }
}

/// The payload of the attribute at place `k`.
pub fn payload_at(attrs: &[Attr], k: usize) -> &[u8]
    ensures { result.now ≡ payload_at k attrs.now }
{
    match attrs.get(k) {
        Some(attr) => attr.payload.as_slice(),
        None => &[],
    }
}

/// Whether an attribute that holds no others stands at place `k`.
pub fn is_plain_at(attrs: &[Attr], k: usize) -> bool
    ensures { result ≡ is_plain (slice_get attrs.now k) }
{
    match attrs.get(k) {
        Some(attr) => !attr.nested,
        None => false,
    }
}

/// The number of one byte at place `k`.
pub fn byte_at(attrs: &[Attr], k: usize) -> u8
    ensures { (n : ℕ) → payload_at k attrs.now ≡ n ∷ [] → result ≡ n }
{
    match u8_of(payload_at(attrs, k)) {
        Some(number) => number,
        None => 0,
    }
}

/// The number of four bytes at place `k`.
pub fn number_at(attrs: &[Attr], k: usize) -> u32
    ensures { (n : ℕ) → n < 2 ^ 32 → payload_at k attrs.now ≡ le32 n → result ≡ n }
{
    match u32_of(payload_at(attrs, k)) {
        Some(number) => number,
        None => 0,
    }
}

/// The number of eight bytes at place `k`.
pub fn wide_at(attrs: &[Attr], k: usize) -> u64
    ensures { (n : ℕ) → n < 2 ^ 64 → payload_at k attrs.now ≡ le64 n → result ≡ n }
{
    match u64_of(payload_at(attrs, k)) {
        Some(number) => number,
        None => 0,
    }
}

/// The radio of a number, of which three bits count.
pub fn radio_of(number: u64) -> RadioNo
    ensures { result ≡ number % 8 }
{
    match RadioNo::new((number % 8) as u32) {
        Some(radio) => radio,
        None => unreachable!(),
    }
}

/// The name of this text.
fn name_of(text: &[u8]) -> Name
    ensures { IsName text.now → result ≡ text.now }
{
    if let Some(name) = Name::new(text) {
        return name;
    }
    match Name::new(b"-") {
        Some(name) => name,
        None => unreachable!(),
    }
}

/// The name at place `k`.
pub fn name_at(attrs: &[Attr], k: usize) -> Name
    ensures { (name : List ℕ) → IsName name → payload_at k attrs.now ≡ name_payload name → result ≡ name }
{
    match text_of(payload_at(attrs, k)) {
        Some(text) => name_of(text),
        None => name_of(b"-"),
    }
}

/// The code at place `k`.
pub fn code_at(attrs: &[Attr], k: usize) -> Alpha2
    ensures { (code : Alpha2) → payload_at k attrs.now ≡ code_payload code → result ≡ code }
{
    match payload_at(attrs, k) {
        [a, b, 0] => Alpha2 { a: *a, b: *b },
        _ => Alpha2 { a: b'0', b: b'0' },
    }
}

/// The attributes that the payload is: none where it isn't nothing but attributes.
pub fn held_in(alloc: Global, payload: &[u8]) -> Result<AttrList, OutOfMemory>
    ensures { IfOk result (λ held. Undoes (All IsAttr) attrs_bytes payload.now held) }
{
    match attrs_of(alloc, payload) {
        Ok(held) => Ok(held),
        Err(AttrsFault::BadAttr(_)) => Ok(AttrList::new(alloc)),
        Err(AttrsFault::OutOfMemory) => Err(OutOfMemory),
    }
}
