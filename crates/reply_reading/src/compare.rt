//! Compares messages with those that were written.

ghost use Rattle.std.specs.Prelude.{◌≡◌, ◌↔◌, IsTrue};
ghost use Rattle.reply_reading.specs.inner.Compared.{AreWritten, IsWritten};
ghost use Rattle.reply_reading.specs.inner.Frames.{RepeatsRequest, frame_of};
ghost use Rattle.reply_reading.specs.declared.compare.Frame.TheVariants as frames;

use crate::payloads::attrs_in;
use crate::request_head::is_request_head;
use nl_attrs::{Attr, Msg};

/// Whether two attributes are the same.
fn is_same_attr(left: &Attr, right: &Attr) -> bool
    ensures { IsTrue result ↔ (left.now ≡ right.now) }
{
    left.kind == right.kind
        && left.nested == right.nested
        && left.payload.as_slice() == right.payload.as_slice()
}

/// Whether two lists of attributes are the same.
fn are_same_attrs(left: &[Attr], right: &[Attr]) -> bool
    ensures { IsTrue result ↔ (left.now ≡ right.now) }
{
    for (k, attr) in left.iter().enumerate() {
        let Some(other) = right.get(k) else {
            return false;
        };
        if !is_same_attr(attr, other) {
            return false;
        }
    }
    left.len() == right.len()
}

/// What a message has beside attributes and a head.
#[derive(Clone, Copy, PartialEq, Eq)]
enum Frame {
    Generic {
        family: u16,
        flags: u16,
        seq: u32,
        pid: u32,
        cmd: u8,
        version: u8,
    },
    Error {
        flags: u16,
        seq: u32,
        pid: u32,
        code: i32,
    },
    Done {
        flags: u16,
        seq: u32,
        pid: u32,
        code: i32,
    },
}

/// The frame of an Error message.
fn error_frame(flags: u16, seq: u32, pid: u32, code: i32) -> Frame
    ensures { result ≡ frames.Error flags seq pid code }
{
    Frame::Error {
        flags,
        seq,
        pid,
        code,
    }
}

/// The frame of a Done message.
fn done_frame(flags: u16, seq: u32, pid: u32, code: i32) -> Frame
    ensures { result ≡ frames.Done flags seq pid code }
{
    Frame::Done {
        flags,
        seq,
        pid,
        code,
    }
}

/// The frame of a message.
fn frame_of(msg: &Msg) -> Frame
    ensures { result ≡ frame_of msg.now }
{
    match msg {
        Msg::Generic {
            family,
            flags,
            seq,
            pid,
            cmd,
            version,
            ..
        } => Frame::Generic {
            family: *family,
            flags: *flags,
            seq: *seq,
            pid: *pid,
            cmd: *cmd,
            version: *version,
        },
        Msg::Error {
            flags,
            seq,
            pid,
            code,
            ..
        } => error_frame(*flags, *seq, *pid, *code),
        Msg::Done {
            flags,
            seq,
            pid,
            code,
        } => done_frame(*flags, *seq, *pid, *code),
    }
}

/// Whether the head that an Error message repeats is that of some request.
fn repeats_request(msg: &Msg) -> bool
    ensures { IsTrue result ↔ RepeatsRequest msg.now }
{
    match msg {
        Msg::Error { seq, pid, head, .. } => is_request_head(head, *seq, *pid),
        Msg::Generic { .. } | Msg::Done { .. } => true,
    }
}

/// Whether the message is the one that was written, but for the head that an Error message repeats, which is that of
/// some request.
fn is_written(msg: &Msg, written: &Msg) -> bool
    ensures { IsTrue result ↔ IsWritten msg.now written.now }
{
    frame_of(msg) == frame_of(written)
        && are_same_attrs(attrs_in(msg), attrs_in(written))
        && repeats_request(msg)
}

/// Whether the messages are those that were written, but for heads.
pub fn are_written(msgs: &[Msg], written: &[Msg]) -> bool
    ensures { IsTrue result ↔ AreWritten msgs.now written.now }
{
    for (k, msg) in msgs.iter().enumerate() {
        let Some(other) = written.get(k) else {
            return false;
        };
        if !is_written(msg, other) {
            return false;
        }
    }
    msgs.len() == written.len()
}
