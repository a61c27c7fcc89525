//! Streams of messages that come in pieces, are cut or faulty, and devices that fail.

use crate::calls::{NAME, ROOM, US, call, database, hex};
use db_commands::{InputFault, Status};
use nl_attrs::AttrFault;
use reg_base::{Bytes, FailingFiles, FailingSink, FailingSource, MemFiles, MemSink, StdSource};
use rule_tables::DbFault;
use std::alloc::Global;
use std::process::Abort;
use std::test::Fail;

/// What a stream holds, in hexadecimal.
#[derive(Clone, Copy)]
enum Content<'a> {
    /// These bytes.
    Hex(&'a [u8]),
    /// So many of these bytes.
    Cut(&'a [u8], usize),
    /// These bytes, and so many zeros behind them.
    Padded(&'a [u8], usize),
}

/// A stream and the most bytes of it that a read takes; which read and which write fails, counted from 1, or 0
/// for none; and the status and the output, in hexadecimal.
type Stream<'a> = (&'a str, Content<'a>, usize, [u64; 2], Status, &'a [u8]);

const HINT_AND_RULES: &[u8] =
    b"1c000000 20000500 01000000 00000000 1b000000 07002100 55530000 14000000 20000503 02000000 00000000 1f000000";

const FIRST: &[u8] =
    b"1c000000 21000000 01000000 00000000 0a010000 08001000 01000000 24000000 02000000 01000000 00000000 00000000 1c000000 20000500 01000000 00000000";

const BOTH: &[u8] =
    b"1c000000 21000000 01000000 00000000 0a010000 08001000 01000000 24000000 02000000 01000000 00000000 \
        00000000 1c000000 20000500 01000000 00000000 64000000 20000200 02000000 00000000 1f010000 07002100 \
        55530000 05009200 01000000 40002280 3c000080 08000100 00000000 08000200 009f2400 08000300 40b82500 \
        08000400 409c0000 08000500 00000000 08000600 b80b0000 08000700 00000000 14000000 03000200 02000000 \
        00000000 00000000";

const MOMENT: &[u8] = b"20000000 21000500 01000000 00000000 01000000 0c000100 00000000 00000000";

const MOMENT_TAKEN: &[u8] =
    b"1c000000 21000000 01000000 00000000 0a010000 08001000 00000000 24000000 02000000 01000000 00000000 00000000 20000000 21000500 01000000 00000000";

/// The front of the longest message there is. It asks for the rules, and has one attribute that isn't used.
const LONGEST: &[u8] = b"00000100 20000503 01000000 00000000 1f000000 ecffff3f";

/// The rules of the world of a database that has none: those that are built in.
const WORLD: &[u8] =
    b"dc000000 20000200 01000000 00000000 1f010000 07002100 30300000 05009200 00000000 b8002280 3c000080 \
        08000100 00000000 08000200 d0a62400 08000300 40b82500 08000400 409c0000 08000500 00000000 08000600 \
        d0070000 08000700 00000000 3c000180 08000100 80080000 08000200 50e34e00 08000300 d01b5000 08000400 \
        80380100 08000500 00000000 08000600 d0070000 08000700 00000000 3c000280 08000100 90080000 08000200 \
        d01b5000 08000300 50545100 08000400 80380100 08000500 00000000 08000600 d0070000 08000700 00000000 \
        14000000 03000200 01000000 00000000 00000000";

const STREAMS: [Stream<'_>; 28] = [
    (
        "a hint and the rules, whole",
        Content::Hex(HINT_AND_RULES),
        48,
        [0, 0],
        Status::Done,
        BOTH,
    ),
    (
        "in pieces of 1",
        Content::Hex(HINT_AND_RULES),
        1,
        [0, 0],
        Status::Done,
        BOTH,
    ),
    (
        "in pieces of 2",
        Content::Hex(HINT_AND_RULES),
        2,
        [0, 0],
        Status::Done,
        BOTH,
    ),
    (
        "cut to 47 bytes",
        Content::Cut(HINT_AND_RULES, 47),
        47,
        [0, 0],
        Status::Refused(InputFault::Wire {
            place: 28,
            fault: AttrFault::Truncated(19),
        }),
        FIRST,
    ),
    (
        "cut to 47 bytes, in pieces of 1",
        Content::Cut(HINT_AND_RULES, 47),
        1,
        [0, 0],
        Status::Refused(InputFault::Wire {
            place: 28,
            fault: AttrFault::Truncated(19),
        }),
        FIRST,
    ),
    (
        "cut to 29 bytes",
        Content::Cut(HINT_AND_RULES, 29),
        47,
        [0, 0],
        Status::Refused(InputFault::Wire {
            place: 28,
            fault: AttrFault::Truncated(1),
        }),
        FIRST,
    ),
    (
        "cut to 28 bytes",
        Content::Cut(HINT_AND_RULES, 28),
        47,
        [0, 0],
        Status::Done,
        FIRST,
    ),
    (
        "cut to 27 bytes",
        Content::Cut(HINT_AND_RULES, 27),
        47,
        [0, 0],
        Status::Refused(InputFault::Wire {
            place: 0,
            fault: AttrFault::Truncated(27),
        }),
        b"",
    ),
    (
        "no message",
        Content::Hex(b""),
        1,
        [0, 0],
        Status::Done,
        b"",
    ),
    (
        "a moment",
        Content::Hex(MOMENT),
        32,
        [0, 0],
        Status::Done,
        MOMENT_TAKEN,
    ),
    (
        "three bytes behind the last message",
        Content::Hex(
            b"1c000000 20000500 01000000 00000000 1b000000 07002100 55530000 14000000 20000503 02000000 00000000 1f000000 000000",
        ),
        48,
        [0, 0],
        Status::Refused(InputFault::Wire {
            place: 48,
            fault: AttrFault::Truncated(3),
        }),
        BOTH,
    ),
    (
        "a length of 18",
        Content::Hex(b"12000000"),
        4,
        [0, 0],
        Status::Refused(InputFault::Wire {
            place: 0,
            fault: AttrFault::BadLength(18),
        }),
        b"",
    ),
    (
        "a length of 65540",
        Content::Hex(b"04000100"),
        4,
        [0, 0],
        Status::Refused(InputFault::Wire {
            place: 0,
            fault: AttrFault::Overlong(65_540),
        }),
        b"",
    ),
    (
        "a type of 4",
        Content::Hex(b"14000000 0400"),
        6,
        [0, 0],
        Status::Refused(InputFault::Wire {
            place: 0,
            fault: AttrFault::BadType(4),
        }),
        b"",
    ),
    (
        "an attribute of 3 bytes",
        Content::Hex(b"18000000 20000500 01000000 00000000 1f000000 03002100"),
        24,
        [0, 0],
        Status::Refused(InputFault::Wire {
            place: 0,
            fault: AttrFault::BadAttr(20),
        }),
        b"",
    ),
    (
        "a reserved number",
        Content::Hex(b"14000000 20000500 01000000 00000000 1f000100"),
        20,
        [0, 0],
        Status::Refused(InputFault::Wire {
            place: 0,
            fault: AttrFault::BadAttr(18),
        }),
        b"",
    ),
    (
        "a faulty message between two",
        Content::Hex(
            b"1c000000 20000500 01000000 00000000 1b000000 07002100 55530000 14000000 04000000 01000000 00000000 1f000000 14000000 20000503 02000000 00000000 1f000000",
        ),
        1,
        [0, 0],
        Status::Refused(InputFault::Wire {
            place: 28,
            fault: AttrFault::BadType(4),
        }),
        FIRST,
    ),
    (
        "a message of 65536 bytes",
        Content::Padded(LONGEST, 65_512),
        4097,
        [0, 0],
        Status::Done,
        WORLD,
    ),
    (
        "no piece comes",
        Content::Hex(HINT_AND_RULES),
        28,
        [1, 0],
        Status::ReadFault,
        b"",
    ),
    (
        "one piece comes",
        Content::Hex(HINT_AND_RULES),
        28,
        [2, 0],
        Status::ReadFault,
        FIRST,
    ),
    (
        "a read fails within a message",
        Content::Hex(HINT_AND_RULES),
        30,
        [2, 0],
        Status::ReadFault,
        FIRST,
    ),
    (
        "the end doesn't come",
        Content::Hex(HINT_AND_RULES),
        28,
        [3, 0],
        Status::ReadFault,
        BOTH,
    ),
    (
        "the first write fails",
        Content::Hex(HINT_AND_RULES),
        48,
        [0, 1],
        Status::WriteFault,
        b"",
    ),
    (
        "the second write fails",
        Content::Hex(HINT_AND_RULES),
        48,
        [0, 2],
        Status::WriteFault,
        FIRST,
    ),
    (
        "a third write would fail",
        Content::Hex(HINT_AND_RULES),
        48,
        [0, 3],
        Status::Done,
        BOTH,
    ),
    (
        "a write fails before a read would",
        Content::Hex(HINT_AND_RULES),
        28,
        [2, 1],
        Status::WriteFault,
        b"",
    ),
    (
        "a read fails before a write would",
        Content::Hex(HINT_AND_RULES),
        28,
        [2, 2],
        Status::ReadFault,
        FIRST,
    ),
    (
        "a write fails before a faulty message",
        Content::Hex(b"1c000000 20000500 01000000 00000000 1b000000 07002100 55530000 12000000"),
        32,
        [0, 1],
        Status::WriteFault,
        b"",
    ),
];

/// The bytes that the stream holds.
fn held(alloc: Global, content: Content<'_>) -> Result<Bytes, Fail> {
    match content {
        Content::Hex(text) => hex(alloc, text),
        Content::Cut(text, count) => {
            let whole = hex(alloc, text)?;
            let mut cut = Bytes::new(alloc);
            let count = count.min(whole.len());
            cut.append(&whole.as_slice()[..count])?;
            Ok(cut)
        }
        Content::Padded(front, count) => {
            let mut whole = hex(alloc, front)?;
            let rest = vec![in alloc; 0u8; count]?;
            whole.append(rest.as_slice())?;
            Ok(whole)
        }
    }
}

/// The stream ends with its status, and its output is written then.
fn ends_so(rt: &impl Abort, alloc: Global, row: &Stream<'_>) -> Result<(), Fail> {
    let (name, content, piece, [read, write], status, output) = *row;
    assert!(rt; piece > 0, "{name}");
    let mut files = MemFiles::new(alloc, NAME, database(alloc, US)?)?;
    let mut input = FailingSource::new(alloc, held(alloc, content)?, piece, &[read])?;
    let mut out = FailingSink::new(alloc, ROOM, &[write])?;
    let ended = call(alloc, &[], &mut files, &mut input, &mut out)?;
    assert!(rt; ended == status, "{name}");
    assert!(rt; out.written() == hex(alloc, output)?.as_slice(), "{name}");
    Ok(())
}

#[test]
fn streams_end_with_their_status(rt: HostRuntime) -> Result<(), Fail> {
    for row in STREAMS {
        ends_so(&rt, rt.alloc(), &row)?;
    }
    Ok(())
}

/// Over this database file, of which this read fails, counted from 1, or 0 for none, the stream ends so, and nothing is
/// written.
fn refuses_file(
    rt: &impl Abort,
    alloc: Global,
    name: &str,
    file: &[u8],
    read: u64,
    status: Status,
) -> Result<(), Fail> {
    let mut bytes = Bytes::new(alloc);
    bytes.append(file)?;
    let stream = hex(alloc, HINT_AND_RULES)?;
    let mut files = FailingFiles::new(alloc, name, bytes, &[read])?;
    let mut input = StdSource::new(stream.as_slice());
    let mut out = MemSink::new(alloc, ROOM)?;
    let ended = call(alloc, &[], &mut files, &mut input, &mut out)?;
    assert!(rt; ended == status, "{name}: {file:?}");
    assert!(rt; out.written().is_empty(), "{name}: {file:?}");
    Ok(())
}

/// A file of 7 bytes.
const SHORT: &[u8] = b"RGDB\0\0\0";

#[test]
fn files_are_refused(rt: HostRuntime) -> Result<(), Fail> {
    let short = Status::Refused(InputFault::Database(DbFault::Short(7)));
    refuses_file(&rt, rt.alloc(), NAME, SHORT, 0, short)?;
    refuses_file(&rt, rt.alloc(), NAME, SHORT, 1, Status::ReadFault)?;
    refuses_file(&rt, rt.alloc(), "other.db", SHORT, 0, Status::ReadFault)?;
    Ok(())
}
