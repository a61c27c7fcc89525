//! Reads messages.

ghost use Rattle.std.specs.Prelude.{◌≡◌, ◌+◌, ◌<◌, ◌≤◌, ◌++◌, length, drop, IfOk, IfErr, MatchOption, MatchResult, None};
ghost use Rattle.nl_attrs.specs.Attributes.{attrs_bytes};
ghost use Rattle.nl_attrs.specs.Faults.{IsFault, IsUndecided, length_at, type_at, length_fault, type_fault};
ghost use Rattle.nl_attrs.specs.inner.Reading.{IsGoodHead, IsGoodSoFar, IsBodyRefusal, IsNextRefusal, IsWhole, TakesMessage};
ghost use Rattle.nl_attrs.specs.Messages.{IsMsg, head_bytes, spelled};

use crate::attr_reader::attrs_of;
use crate::fault::{AttrFault, AttrsFault, NextFault};
use crate::message::{
    DONE, DONE_BYTES, ERROR, ERROR_BYTES, GENERIC_BYTES, HEAD, Head, LEAST_FAMILY, MOST_BYTES, Msg,
};
use crate::numbers::{i32_at, u16_at, u32_at};
use std::alloc::Global;

/// The place of a family's reserved number.
const RESERVED_PLACE: u64 = 18;

/// The fault of a length.
#[tactic(auto, unfolding(crate::specs::Faults::length_fault))]
fn length_fault(length: u32) -> Option<AttrFault>
    ensures { result ≡ length_fault length }
{
    if length < GENERIC_BYTES || length % 4 != 0 {
        Some(AttrFault::BadLength(length))
    } else if length > MOST_BYTES {
        Some(AttrFault::Overlong(length))
    } else {
        None
    }
}

/// The fault of a type under a length.
#[tactic(auto, unfolding(crate::specs::Faults::type_fault))]
fn type_fault(length: u32, kind: u16) -> Option<AttrFault>
    ensures { result ≡ type_fault length kind }
{
    if (kind == ERROR && length != ERROR_BYTES) || (kind == DONE && length != DONE_BYTES) {
        Some(AttrFault::BadLength(length))
    } else if kind < ERROR || (DONE < kind && kind < LEAST_FAMILY) {
        Some(AttrFault::BadType(kind))
    } else {
        None
    }
}

/// The fault that the head shows as far as it is held.
fn early_fault(held: &[u8]) -> Option<AttrFault>
    ensures { MatchOption result (IsGoodSoFar held.now) (IsFault held.now) }
{
    if held.len() < 4 {
        return None;
    }
    let length = u32_at(held, 0);
    if let Some(fault) = length_fault(length) {
        return Some(fault);
    }
    if held.len() < 6 {
        return None;
    }
    type_fault(length, u16_at(held, 4))
}

/// The head of a message.
fn head_at(bytes: &[u8]) -> Head
    requires { 16 ≤ length bytes.now }
    ensures parts { bytes.now ≡ head_bytes result.length result.kind result.flags result.seq result.pid
        ++ drop 16 bytes.now }
    ensures length { result.length ≡ length_at bytes.now }
    ensures kind { result.kind ≡ type_at bytes.now }
{
    Head {
        length: u32_at(bytes, 0),
        kind: u16_at(bytes, 4),
        flags: u16_at(bytes, 6),
        seq: u32_at(bytes, 8),
        pid: u32_at(bytes, 12),
    }
}

/// The Done message with that head and body.
fn done_of(head: Head, body: &[u8]) -> Msg
    requires { length body.now ≡ 4 }
    ensures message { IsMsg result }
    ensures spelled { head_bytes 20 3 head.flags head.seq head.pid ++ body.now ≡ spelled result }
{
    Msg::Done {
        flags: head.flags,
        seq: head.seq,
        pid: head.pid,
        code: i32_at(body, 0),
    }
}

/// The Error message with that head and body.
fn error_of(head: Head, body: &[u8]) -> Msg
    requires { length body.now ≡ 20 }
    ensures message { IsMsg result }
    ensures spelled { head_bytes 36 2 head.flags head.seq head.pid ++ body.now ≡ spelled result }
{
    let mut request = [0u8; 16];
    request.copy_from_slice(&body[4..]);
    Msg::Error {
        flags: head.flags,
        seq: head.seq,
        pid: head.pid,
        code: i32_at(body, 0),
        head: request,
    }
}

/// The message of a family with that head and body.
fn generic_of(alloc: Global, head: Head, body: &[u8]) -> Result<Msg, NextFault>
    requires family { 16 ≤ head.kind }
    requires long { 4 ≤ length body.now }
    requires short { length body.now ≤ 65520 }
    ensures message { IfOk result IsMsg }
    ensures spelled { IfOk result (λ m.
        head_bytes (16 + length body.now) head.kind head.flags head.seq head.pid ++ body.now ≡ spelled m) }
    ensures fault { IfErr result (IsBodyRefusal head.kind body.now) }
{
    if u16_at(body, 2) != 0 {
        return Err(NextFault::Bad(AttrFault::BadAttr(RESERVED_PLACE)));
    }
    match attrs_of(alloc, &body[4..]) {
        Ok(attrs) => Ok(Msg::Generic {
            family: head.kind,
            flags: head.flags,
            seq: head.seq,
            pid: head.pid,
            cmd: body[0],
            version: body[1],
            attrs,
        }),
        Err(AttrsFault::BadAttr(place)) => {
            Err(NextFault::Bad(AttrFault::BadAttr(u64::from(GENERIC_BYTES) + place)))
        }
        Err(AttrsFault::OutOfMemory) => Err(NextFault::OutOfMemory),
    }
}

/// The message with that head, which has no fault, and that body.
fn message_of(alloc: Global, head: Head, body: &[u8]) -> Result<Msg, NextFault>
    requires length { head.length ≡ 16 + length body.now }
    requires good { IsGoodHead head.length head.kind }
    ensures message { IfOk result IsMsg }
    ensures spelled { IfOk result (λ m.
        head_bytes head.length head.kind head.flags head.seq head.pid ++ body.now ≡ spelled m) }
    ensures fault { IfErr result (IsBodyRefusal head.kind body.now) }
{
    match head.kind {
        ERROR => Ok(error_of(head, body)),
        DONE => Ok(done_of(head, body)),
        _ => {
            let message = generic_of(alloc, head, body)?;
            Ok(message)
        }
    }
}

/// The length of the message at the front, or `None` where it isn't whole.
fn whole_length(held: &[u8]) -> Result<Option<usize>, AttrFault>
    ensures { MatchResult result
        (λ found. MatchOption found (IsUndecided held.now) (IsWhole held.now))
        (IsFault held.now) }
{
    if let Some(fault) = early_fault(held) {
        return Err(fault);
    }
    if held.len() < 4 {
        return Ok(None);
    }
    let length = u32_at(held, 0) as usize;
    if held.len() < length {
        return Ok(None);
    }
    Ok(Some(length))
}

/// The message that the bytes are.
fn message_in(alloc: Global, bytes: &[u8]) -> Result<Msg, NextFault>
    requires { IsWhole bytes.now (length bytes.now) }
    ensures message { IfOk result IsMsg }
    ensures spelled { IfOk result (λ m. bytes.now ≡ spelled m) }
    ensures fault { IfErr result (IsBodyRefusal (type_at bytes.now) (drop 16 bytes.now)) }
{
    let head = head_at(bytes);
    let message = message_of(alloc, head, &bytes[HEAD..])?;
    Ok(message)
}

/// The message at the front of the bytes with its length, or `None` where it isn't whole.
pub fn message_at(alloc: Global, held: &[u8]) -> Result<Option<(Msg, usize)>, NextFault>
    ensures message { IfOk result (λ found.
        MatchOption found (IsUndecided held.now) (λ x. TakesMessage held.now x.0 x.1)) }
    ensures fault { IfErr result (IsNextRefusal held.now) }
{
    match whole_length(held) {
        Ok(Some(length)) => {
            let message = message_in(alloc, &held[..length])?;
            Ok(Some((message, length)))
        }
        Ok(None) => Ok(None),
        Err(fault) => Err(NextFault::Bad(fault)),
    }
}
