//! Writes messages.

ghost use Rattle.std.specs.Prelude.{◌≡◌, ◌+◌, ◌<◌, ◌≤◌, ◌++◌, ◌∷◌, [], length, All, IfOk, IfErr, OnOk, MatchOption};
ghost use Rattle.nl_attrs.specs.Attributes.{attrs_bytes};
ghost use Rattle.nl_attrs.specs.Overlong.{IsEncodeFault, IsShort};
ghost use Rattle.nl_attrs.specs.inner.Reading.{FitMessage, IsTooBig};
ghost use Rattle.nl_attrs.specs.inner.Heads.{headed_bytes};
ghost use Rattle.nl_attrs.specs.Messages.{IsInRange, IsMsg, head_bytes, spelled};
ghost use Rattle.std.specs.Int.{w32, cast_unsigned};
ghost use Rattle.nl_attrs.specs.Endian.{le32};

use crate::attr::Attr;
use crate::attr_writer::{attrs_len, first_long, put_attrs};
use crate::fault::EncodeFault;
use crate::message::{GENERIC_BYTES, Head, MOST_BYTES, Msg};
use crate::message_head::fields_of;
use crate::numbers::{put_i32, put_u16, put_u32};
use reg_base::Bytes;
use reg_lists::OutOfMemory;
use std::alloc::Global;

/// Writes the head of a message.
#[tactic(auto, unfolding(crate::specs::Messages::head_bytes))]
fn put_head(out: &mut Bytes, head: Head) -> Result<(), OutOfMemory>
    ensures { OnOk result (out.new ≡ out.old
        ++ head_bytes head.length head.kind head.flags head.seq head.pid) }
{
    put_u32(out, head.length)?;
    put_u16(out, head.kind)?;
    put_u16(out, head.flags)?;
    put_u32(out, head.seq)?;
    put_u32(out, head.pid)?;
    Ok(())
}

/// How many bytes the first payload has that is too long, or else the message, where that is too
/// long. No more than 2^64 - 1 are counted.
fn overlong(attrs: &[Attr]) -> Option<u64>
    ensures { MatchOption result (FitMessage attrs.now) (IsTooBig attrs.now) }
{
    if let Some(length) = first_long(attrs) {
        return Some(length as u64);
    }
    let length = attrs_len(attrs).saturating_add(u64::from(GENERIC_BYTES));
    if length > u64::from(MOST_BYTES) {
        return Some(length);
    }
    None
}

/// Writes a Done message with that head.
fn put_done(out: &mut Bytes, head: Head, code: i32) -> Result<(), OutOfMemory>
    ensures bytes { OnOk result (out.new ≡ out.old
        ++ headed_bytes head (le32 (cast_unsigned w32 code))) }
    ensures message { IsMsg (Msg.Done head.flags head.seq head.pid code) }
{
    put_head(out, head)?;
    put_i32(out, code)?;
    Ok(())
}

/// Writes an Error message with that head, for a request with those first bytes.
fn put_error(out: &mut Bytes, head: Head, code: i32, request: &[u8]) -> Result<(), OutOfMemory>
    requires { length request.now ≡ 16 }
    ensures bytes { OnOk result (out.new ≡ out.old
        ++ headed_bytes head (le32 (cast_unsigned w32 code) ++ request.now)) }
    ensures message { IsMsg (Msg.Error head.flags head.seq head.pid code request.now) }
{
    put_head(out, head)?;
    put_i32(out, code)?;
    out.append(request)?;
    Ok(())
}

/// Writes a message of a family with that head.
fn put_generic(
    out: &mut Bytes,
    head: Head,
    cmd: u8,
    version: u8,
    attrs: &[Attr],
) -> Result<(), OutOfMemory>
    requires family { 16 ≤ head.kind }
    requires kinds { All (λ a. a.kind < 16384) attrs.now }
    requires fit { FitMessage attrs.now }
    ensures bytes { OnOk result (out.new ≡ out.old
        ++ headed_bytes head (cmd ∷ version ∷ 0 ∷ 0 ∷ attrs_bytes attrs.now)) }
    ensures message { IsMsg (Msg.Generic head.kind head.flags head.seq head.pid cmd version attrs.now) }
{
    put_head(out, head)?;
    out.append(&[cmd, version, 0, 0])?;
    put_attrs(out, attrs)?;
    Ok(())
}

/// Writes the one spelling of a message behind what the buffer holds. The family is at least 16, and
/// the kinds of attributes are below 16,384. `EncodeFault::Overlong` names the length of the first
/// payload above 65,531 bytes, or else of the message where that is above 65,536 bytes, and changes
/// nothing. After `OutOfMemory` a part of it may stand there.
pub fn put_message(out: &mut Bytes, m: &Msg) -> Result<(), EncodeFault>
    requires { IsInRange m.now }
    ensures bytes { OnOk result (out.new ≡ out.old ++ spelled m.now) }
    ensures message { OnOk result (IsMsg m.now) }
    ensures overlong { IfErr result (IsEncodeFault m.now) }
{
    match m {
        Msg::Generic {
            cmd,
            version,
            attrs,
            ..
        } => {
            let attrs = attrs.as_slice();
            if let Some(length) = overlong(attrs) {
                return Err(EncodeFault::Overlong(length));
            }
            put_generic(out, fields_of(m), *cmd, *version, attrs)?;
        }
        Msg::Error { code, head, .. } => put_error(out, fields_of(m), *code, head)?,
        Msg::Done { code, .. } => put_done(out, fields_of(m), *code)?,
    }
    Ok(())
}

/// The one spelling of a message, as `put_message` writes it.
pub fn encode(alloc: Global, m: &Msg) -> Result<Bytes, EncodeFault>
    requires { IsInRange m.now }
    ensures bytes { IfOk result (λ bytes. bytes ≡ spelled m.now) }
    ensures message { OnOk result (IsMsg m.now) }
    ensures overlong { IfErr result (IsEncodeFault m.now) }
{
    let mut out = Bytes::new(alloc);
    put_message(&mut out, m)?;
    Ok(out)
}
