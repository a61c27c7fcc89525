//! Writes attributes.

ghost use Rattle.std.specs.Prelude.{◌≡◌, ◌+◌, ◌-◌, ◌<◌, ◌≤◌, ◌^◌, ◌++◌, length, min, replicate, All, IfOk, IfErr, IfNone, OnOk, OnErr, MatchOption};
ghost use Rattle.nl_attrs.specs.Endian.{le16};
ghost use Rattle.nl_attrs.specs.Attributes.{IsAttr, padding_length, kind_field, attr_bytes, attrs_bytes};
ghost use Rattle.nl_attrs.specs.Payloads.{attr_with};
ghost use Rattle.nl_attrs.specs.Overlong.{IsShort, IsFirstLong, IsListFault, IsPutFault};
ghost use Rattle.nl_attrs.specs.inner.Reading.{HasBytes};

use crate::attr::{Attr, HEADER, MOST_PAYLOAD, NESTED, aligned};
use crate::fault::EncodeFault;
use crate::lists::AttrList;
use crate::numbers::put_u16;
use crate::payloads::{Payload, byte_count, put_payload};
use reg_base::Bytes;
use reg_lists::OutOfMemory;
use std::alloc::Global;

/// The kind with its bit for nested.
fn kind_field(kind: u16, nested: bool) -> u16
    requires { kind < 16384 }
    ensures { result ≡ kind_field kind nested }
{
    if nested { kind + NESTED } else { kind }
}

/// Writes zero bytes behind so many bytes, up to a multiple of 4. `OutOfMemory` changes nothing.
pub fn put_padding(out: &mut Bytes, length: usize) -> Result<(), OutOfMemory>
    requires { length ≤ 65531 }
    ensures ok { OnOk result (out.new ≡ out.old ++ replicate (padding_length length) 0) }
    ensures err { OnErr result (out.new ≡ out.old) }
{
    let zeros = [0u8; 3];
    out.append(&zeros[..aligned(length) - length])?;
    Ok(())
}

/// Writes the header of an attribute whose payload has so many bytes.
fn put_header(out: &mut Bytes, length: usize, field: u16) -> Result<(), OutOfMemory>
    requires { length ≤ 65531 }
    ensures { OnOk result (out.new ≡ out.old ++ (le16 (4 + length) ++ le16 field)) }
{
    put_u16(out, (HEADER + length) as u16)?;
    put_u16(out, field)?;
    Ok(())
}

/// Writes an attribute that has a spelling.
#[tactic(auto, unfolding(crate::specs::Attributes::attr_bytes))]
fn put_short(out: &mut Bytes, attr: &Attr) -> Result<(), OutOfMemory>
    requires kind { attr.now.kind < 16384 }
    requires short { IsShort attr.now }
    ensures { OnOk result (out.new ≡ out.old ++ attr_bytes attr.now) }
{
    let payload = attr.payload.as_slice();
    put_header(out, payload.len(), kind_field(attr.kind, attr.nested))?;
    out.append(payload)?;
    put_padding(out, payload.len())?;
    Ok(())
}

/// Writes an attribute behind what the buffer holds. The kind is below 16,384.
/// `EncodeFault::Overlong` names the length of a payload above 65,531 bytes, and changes nothing.
/// After `OutOfMemory` a part of it may stand there.
pub fn put_attr(out: &mut Bytes, attr: &Attr) -> Result<(), EncodeFault>
    requires kind { attr.now.kind < 16384 }
    ensures ok { OnOk result (out.new ≡ out.old ++ attr_bytes attr.now) }
    ensures attr { OnOk result (IsAttr attr.now) }
    ensures fault { IfErr result (IsPutFault out.old out.new attr.now) }
{
    let length = byte_count(attr.payload.as_slice());
    if length > MOST_PAYLOAD {
        return Err(EncodeFault::Overlong(length as u64));
    }
    put_short(out, attr)?;
    Ok(())
}

/// Writes an attribute that holds no others, as `put_attr` does.
#[tactic(auto, unfolding(crate::specs::Attributes::attr_bytes))]
pub fn put_plain(out: &mut Bytes, kind: u16, payload: Payload<'_>) -> Result<(), EncodeFault>
    requires kind { kind < 16384 }
    ensures ok { OnOk result (out.new ≡ out.old ++ attr_bytes (attr_with kind payload.entry)) }
    ensures attr { OnOk result (IsAttr (attr_with kind payload.entry)) }
    ensures fault { IfErr result (IsPutFault out.old out.new (attr_with kind payload.entry)) }
{
    let length = payload.len();
    if length > MOST_PAYLOAD {
        return Err(EncodeFault::Overlong(length as u64));
    }
    put_header(out, length, kind)?;
    put_payload(out, payload)?;
    put_padding(out, length)?;
    Ok(())
}

/// Writes attributes one after another. Their kinds are below 16,384. After `OutOfMemory` a part of
/// them may stand behind what the buffer held.
pub fn put_attrs(out: &mut Bytes, attrs: &[Attr]) -> Result<(), OutOfMemory>
    requires kinds { All (λ a. a.kind < 16384) attrs.now }
    requires short { All IsShort attrs.now }
    ensures ok { OnOk result (out.new ≡ out.old ++ attrs_bytes attrs.now) }
    ensures err { OnErr result (0 < length attrs.now) }
{
    for attr in attrs {
        put_short(out, attr)?;
    }
    Ok(())
}

/// The length of the first payload that is too long.
pub fn first_long(attrs: &[Attr]) -> Option<usize>
    ensures long { MatchOption result (All IsShort attrs.now) (IsFirstLong attrs.now) }
    ensures bytes { IfNone result (All HasBytes attrs.now) }
{
    for attr in attrs {
        let length = byte_count(attr.payload.as_slice());
        if length > MOST_PAYLOAD {
            return Some(length);
        }
    }
    None
}

/// How many bytes the attributes take. No more than 2^64 - 1 are counted.
pub fn attrs_len(attrs: &[Attr]) -> u64
    requires { All IsShort attrs.now }
    ensures sum { result ≡ min (length (attrs_bytes attrs.now)) (2 ^ 64 - 1) }
    ensures bytes { All HasBytes attrs.now }
{
    let mut sum = 0u64;
    for attr in attrs {
        let length = HEADER + byte_count(attr.payload.as_slice());
        sum = sum.saturating_add(aligned(length) as u64);
    }
    sum
}

/// The bytes of the attributes, as a nested payload has them. The kinds are below 16,384.
/// `EncodeFault::Overlong` names the length of the first payload above 65,531 bytes.
pub fn attrs_bytes(alloc: Global, list: &AttrList) -> Result<Bytes, EncodeFault>
    requires { All (λ a. a.kind < 16384) list.now }
    ensures bytes { IfOk result (λ bytes. bytes ≡ attrs_bytes list.now) }
    ensures short { OnOk result (All IsAttr list.now) }
    ensures overlong { IfErr result (IsListFault list.now) }
{
    let attrs = list.as_slice();
    if let Some(length) = first_long(attrs) {
        return Err(EncodeFault::Overlong(length as u64));
    }
    let mut out = Bytes::new(alloc);
    put_attrs(&mut out, attrs)?;
    Ok(out)
}
