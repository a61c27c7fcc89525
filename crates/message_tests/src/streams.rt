//! Streams written out by hand from the format, read in one piece and byte by byte, and the limits.

ghost use Rattle.std.specs.Prelude.{◌≡◌, ◌+◌, ◌<◌, ◌≤◌, length, IfOk};
ghost use Rattle.nl_attrs.specs.Messages.{IsInRange};

use nl_attrs::{
    Attr, AttrFault, AttrList, Decoder, EncodeFault, Msg, MsgList, NextFault, Payload, encode,
};
use reg_base::Bytes;
use std::alloc::Global;
use std::process::Abort;
use std::test::Fail;

/// More than a stream of these tests has.
const ROOM: usize = 100_000;

/// Takes all messages that are whole, and writes them again.
fn take_all(alloc: Global, decoder: &mut Decoder, out: &mut Bytes) -> Result<(), Fail>
    ensures { decoder.new.taken + length decoder.new.held ≡ decoder.old.taken + length decoder.old.held }
{
    'taking: loop {
        match decoder.next() {
            Ok(Some(message)) => {
                let bytes = encode(alloc, &message)?;
                out.append(bytes.as_slice())?;
            }
            Ok(None) => return Ok(()),
            Err(NextFault::Bad(_fault)) => return Ok(()),
            Err(NextFault::OutOfMemory) => return Err(Fail::from(NextFault::OutOfMemory)),
        }
    }
}

/// The messages of a stream that comes in one piece, written again, how many bytes they have, and
/// how the stream ends.
fn in_one_piece(alloc: Global, stream: &[u8]) -> Result<(Bytes, u64, Result<(), AttrFault>), Fail>
    requires { length stream.now < ROOM }
{
    let mut out = Bytes::new(alloc);
    let mut decoder = Decoder::new(alloc);
    decoder.feed(stream)?;
    take_all(alloc, &mut decoder, &mut out)?;
    Ok((out, decoder.taken(), decoder.finish()))
}

/// The same of a stream that comes byte by byte.
fn byte_by_byte(alloc: Global, stream: &[u8]) -> Result<(Bytes, u64, Result<(), AttrFault>), Fail>
    requires { length stream.now < ROOM }
{
    let mut out = Bytes::new(alloc);
    let mut decoder = Decoder::new(alloc);
    for byte in stream {
        decoder.feed(&[*byte])?;
        take_all(alloc, &mut decoder, &mut out)?;
    }
    Ok((out, decoder.taken(), decoder.finish()))
}

/// The stream has so many bytes of messages, and ends so.
fn assert_stream<R: Abort>(
    rt: &R,
    alloc: Global,
    stream: &[u8],
    taken: usize,
    end: Result<(), AttrFault>,
) -> Result<(), Fail>
    requires few { length stream.now < ROOM }
    requires within { taken ≤ length stream.now }
{
    let (bytes, count, last) = in_one_piece(alloc, stream)?;
    assert!(rt; bytes.as_slice() == &stream[..taken]);
    assert!(rt; count == taken as u64);
    assert!(rt; last == end);
    let (bytes, count, last) = byte_by_byte(alloc, stream)?;
    assert!(rt; bytes.as_slice() == &stream[..taken]);
    assert!(rt; count == taken as u64);
    assert!(rt; last == end);
    Ok(())
}

/// REQ_SET_REG of country US, and GET_REG.
const REQUESTS: [u8; 48] = [
    0x1c, 0, 0, 0, 0x20, 0, 5, 0, 1, 0, 0, 0, 0, 0, 0, 0, 0x1b, 0, 0, 0, //
    7, 0, 0x21, 0, 0x55, 0x53, 0, 0, //
    0x14, 0, 0, 0, 0x20, 0, 5, 3, 2, 0, 0, 0, 0, 0, 0, 0, 0x1f, 0, 0, 0,
];

/// An Error message with code -22 and the head of REQ_SET_REG, and a Done message.
const ANSWERS: [u8; 56] = [
    0x24, 0, 0, 0, 2, 0, 0, 0, 1, 0, 0, 0, 0, 0, 0, 0, 0xea, 0xff, 0xff, 0xff, //
    0x1c, 0, 0, 0, 0x20, 0, 5, 0, 1, 0, 0, 0, 0, 0, 0, 0, //
    0x14, 0, 0, 0, 3, 0, 2, 0, 2, 0, 0, 0, 0, 0, 0, 0, 0, 0, 0, 0,
];

/// Messages of each kind are written.
fn spellings(rt: &impl Abort, alloc: Global) -> Result<(), Fail> {
    let mut attrs = AttrList::new(alloc);
    attrs.push(Attr::new(alloc, 0x21, Payload::Text(b"US"))?)?;
    let set_reg = Msg::Generic {
        family: 32,
        flags: 5,
        seq: 1,
        pid: 0,
        cmd: 27,
        version: 0,
        attrs,
    };
    assert!(rt; encode(alloc, &set_reg)?.as_slice() == &REQUESTS[..28]);
    let mut head = [0u8; 16];
    head.copy_from_slice(&REQUESTS[..16]);
    let error = Msg::Error {
        flags: 0,
        seq: 1,
        pid: 0,
        code: -22,
        head,
    };
    assert!(rt; encode(alloc, &error)?.as_slice() == &ANSWERS[..36]);
    let done = Msg::Done {
        flags: 2,
        seq: 2,
        pid: 0,
        code: 0,
    };
    assert!(rt; encode(alloc, &done)?.as_slice() == &ANSWERS[36..]);
    Ok(())
}

/// So many bytes of a stream, how many of them are whole messages, and how the stream ends.
const STREAMS: [(&[u8], usize, usize, Result<(), AttrFault>); 16] = [
    (&[], 0, 0, Ok(())),
    (&REQUESTS, 48, 48, Ok(())),
    (&REQUESTS, 47, 28, Err(AttrFault::Truncated(19))),
    (&REQUESTS, 31, 28, Err(AttrFault::Truncated(3))),
    (&ANSWERS, 56, 56, Ok(())),
    (&ANSWERS, 55, 36, Err(AttrFault::Truncated(19))),
    (&[0x12, 0, 0, 0], 4, 0, Err(AttrFault::BadLength(18))),
    (&[0x15, 0, 0, 0], 4, 0, Err(AttrFault::BadLength(21))),
    (&[4, 0, 1, 0], 4, 0, Err(AttrFault::Overlong(65_540))),
    (&[0x14, 0, 0, 0, 2, 0], 6, 0, Err(AttrFault::BadLength(20))),
    (&[0x24, 0, 0, 0, 3, 0], 6, 0, Err(AttrFault::BadLength(36))),
    (&[0x14, 0, 0, 0, 4, 0], 6, 0, Err(AttrFault::BadType(4))),
    (&[0x14, 0, 0, 0, 1, 0], 6, 0, Err(AttrFault::BadType(1))),
    (&[0x14, 0, 0, 0, 0x0f, 0], 6, 0, Err(AttrFault::BadType(15))),
    (
        &[
            0x18, 0, 0, 0, 0x20, 0, 5, 0, 1, 0, 0, 0, 0, 0, 0, 0, 0x1f, 0, 0, 0, 3, 0, 0x21, 0,
        ],
        24,
        0,
        Err(AttrFault::BadAttr(20)),
    ),
    (
        &[
            0x14, 0, 0, 0, 0x20, 0, 5, 0, 1, 0, 0, 0, 0, 0, 0, 0, 0x1f, 0, 1, 0,
        ],
        20,
        0,
        Err(AttrFault::BadAttr(18)),
    ),
];

/// Streams are taken whole and byte by byte.
fn streams_of_messages(rt: &impl Abort, alloc: Global) -> Result<(), Fail> {
    for (stream, length, taken, end) in STREAMS {
        let front = stream.get(..length).unwrap_or(stream);
        assert!(rt; front.len() < ROOM);
        assert!(rt; taken <= front.len());
        assert_stream(rt, alloc, front, taken, end)?;
    }
    Ok(())
}

/// A message of one attribute, which is to be judged once it's whole.
const BROKEN: [u8; 24] = [
    0x18, 0, 0, 0, 0x20, 0, 5, 0, 1, 0, 0, 0, 0, 0, 0, 0, 0x1f, 0, 0, 0, //
    3, 0, 0x21, 0,
];

/// A fault stays, whatever comes behind it.
fn a_fault_stays(rt: &impl Abort, alloc: Global) -> Result<(), Fail> {
    let mut decoder = Decoder::new(alloc);
    decoder.feed(&BROKEN[..23])?;
    assert!(rt; matches!(decoder.next(), Ok(None)));
    assert!(rt; decoder.finish() == Err(AttrFault::Truncated(23)));
    decoder.feed(&BROKEN[23..])?;
    let fault = AttrFault::BadAttr(20);
    assert!(rt; matches!(decoder.next(), Err(NextFault::Bad(AttrFault::BadAttr(20)))));
    decoder.feed(&REQUESTS)?;
    assert!(rt; matches!(decoder.next(), Err(NextFault::Bad(AttrFault::BadAttr(20)))));
    assert!(rt; decoder.finish() == Err(fault));
    assert!(rt; decoder.taken() == 0);
    Ok(())
}

/// A message whose one attribute has a payload of so many zero bytes.
fn long_message(alloc: Global, length: usize) -> Result<Msg, Fail>
    ensures { IfOk result IsInRange }
{
    let mut payload = Bytes::new(alloc);
    for _ in 0..length {
        payload.push(0)?;
    }
    let mut attrs = AttrList::new(alloc);
    let attr = Attr {
        kind: 1,
        nested: false,
        payload,
    };
    attrs.push(attr)?;
    Ok(Msg::Generic {
        family: 32,
        flags: 5,
        seq: 1,
        pid: 0,
        cmd: 1,
        version: 0,
        attrs,
    })
}

/// A message has at most 65536 bytes.
fn limits(rt: &impl Abort, alloc: Global) -> Result<(), Fail> {
    let bytes = encode(alloc, &long_message(alloc, 65_512)?)?;
    assert!(rt; bytes.len() == 65_536);
    assert_stream(rt, alloc, bytes.as_slice(), 65_536, Ok(()))?;
    let table = [(65_513, 65_540), (65_531, 65_556), (65_532, 65_532)];
    for (length, overlong) in table {
        let message = long_message(alloc, length)?;
        assert!(rt; encode(alloc, &message).err() == Some(EncodeFault::Overlong(overlong)));
    }
    Ok(())
}

/// Lists of messages grow.
fn lists_grow(rt: &impl Abort, alloc: Global) -> Result<(), Fail> {
    let mut messages = MsgList::new(alloc);
    assert!(rt; messages.is_empty());
    messages.push(long_message(alloc, 0)?)?;
    assert!(rt; messages.len() == 1);
    assert!(rt; messages.get(0).is_some());
    assert!(rt; messages.get(1).is_none());
    Ok(())
}

#[test]
fn messages(rt: HostRuntime) -> Result<(), Fail> {
    let alloc = rt.alloc();
    spellings(&rt, alloc)?;
    streams_of_messages(&rt, alloc)?;
    a_fault_stays(&rt, alloc)?;
    limits(&rt, alloc)?;
    lists_grow(&rt, alloc)
}
