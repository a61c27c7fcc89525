//! Scripts that are packed into messages, with bytes that another program wrote by the format.

use crate::calls::{ROOM, hex};
use db_commands::{InputFault, Status};
use line_forms::LineFault;
use pack_command::pack;
use reg_base::{Bytes, FailingSink, FailingSource};
use std::alloc::Global;
use std::process::Abort;
use std::test::Fail;

/// A script and the most bytes of it that a read takes; which read and which write fails, counted from 1, or 0
/// for none; and the status and the messages, in hexadecimal.
type Pack<'a> = (&'a str, &'a [u8], usize, [u64; 2], Status, &'a [u8]);

const PACKS: [Pack<'_>; 21] = [
    (
        "a hint and the rules",
        b"iw reg set US\niw reg get\n",
        48,
        [0, 0],
        Status::Done,
        b"1c000000 20000500 01000000 00000000 1b000000 07002100 55530000 14000000 20000503 02000000 00000000 1f000000",
    ),
    (
        "no newline at the end",
        b"iw reg set US\niw reg get",
        48,
        [0, 0],
        Status::Done,
        b"1c000000 20000500 01000000 00000000 1b000000 07002100 55530000 14000000 20000503 02000000 00000000 1f000000",
    ),
    (
        "a moment",
        b"at 0\n",
        5,
        [0, 0],
        Status::Done,
        b"20000000 21000500 01000000 00000000 01000000 0c000100 00000000 00000000",
    ),
    (
        "blank lines and comments",
        b"# a comment\n\niw reg set US\n \t\n# another\niw reg get",
        4097,
        [0, 0],
        Status::Done,
        b"1c000000 20000500 01000000 00000000 1b000000 07002100 55530000 14000000 20000503 02000000 00000000 1f000000",
    ),
    (
        "in pieces of 1",
        b"# a comment\n\niw reg set US\n \t\n# another\niw reg get",
        1,
        [0, 0],
        Status::Done,
        b"1c000000 20000500 01000000 00000000 1b000000 07002100 55530000 14000000 20000503 02000000 00000000 1f000000",
    ),
    (
        "in pieces of 2",
        b"# a comment\n\niw reg set US\n \t\n# another\niw reg get",
        2,
        [0, 0],
        Status::Done,
        b"1c000000 20000500 01000000 00000000 1b000000 07002100 55530000 14000000 20000503 02000000 00000000 1f000000",
    ),
    (
        "nothing is asked",
        b"# nothing\n\n",
        5,
        [0, 0],
        Status::Done,
        b"",
    ),
    ("an empty script", b"", 5, [0, 0], Status::Done, b""),
    (
        "a faulty second line",
        b"at 0\niw reg fly\nat 1\n",
        4097,
        [0, 0],
        Status::Refused(InputFault::Line {
            number: 2,
            fault: LineFault::Unknown(3),
        }),
        b"20000000 21000500 01000000 00000000 01000000 0c000100 00000000 00000000",
    ),
    (
        "a faulty second line, in pieces of 1",
        b"at 0\niw reg fly\nat 1\n",
        1,
        [0, 0],
        Status::Refused(InputFault::Line {
            number: 2,
            fault: LineFault::Unknown(3),
        }),
        b"20000000 21000500 01000000 00000000 01000000 0c000100 00000000 00000000",
    ),
    (
        "lines that ask nothing are counted",
        b"# one\n\nat 0\nat x",
        4097,
        [0, 0],
        Status::Refused(InputFault::Line {
            number: 4,
            fault: LineFault::BadNumber(2),
        }),
        b"20000000 21000500 01000000 00000000 01000000 0c000100 00000000 00000000",
    ),
    (
        "a line that ends early",
        b"iw reg set",
        2,
        [0, 0],
        Status::Refused(InputFault::Line {
            number: 1,
            fault: LineFault::Missing,
        }),
        b"",
    ),
    (
        "a line that is not ASCII",
        b"at 0\nat 1\r\n",
        2,
        [0, 0],
        Status::Refused(InputFault::Line {
            number: 2,
            fault: LineFault::NotAscii,
        }),
        b"20000000 21000500 01000000 00000000 01000000 0c000100 00000000 00000000",
    ),
    (
        "320 MHz",
        b"radio add phy0 bands 6 width 320 radar 0 power 3000 contexts 1\niw dev ap0 ap start home 5955 320 6105 100 2\n",
        4097,
        [0, 0],
        Status::Done,
        b"4c000000 21000500 01000000 00000000 02000000 08000200 00000000 08000300 04000000 08000400 40010000 \
            08000500 00000000 08000600 b80b0000 08000700 01000000 08000800 00000000 34000000 20000500 02000000 \
            00000000 0f000000 08000400 61703000 08002600 43170000 08009f00 0d000000 0800a000 d9170000",
    ),
    (
        "no piece comes",
        b"at 0\nat 1\n",
        5,
        [1, 0],
        Status::ReadFault,
        b"",
    ),
    (
        "one line comes",
        b"at 0\nat 1\n",
        5,
        [2, 0],
        Status::ReadFault,
        b"20000000 21000500 01000000 00000000 01000000 0c000100 00000000 00000000",
    ),
    (
        "a read fails within a line",
        b"at 0\nat 1\n",
        7,
        [2, 0],
        Status::ReadFault,
        b"20000000 21000500 01000000 00000000 01000000 0c000100 00000000 00000000",
    ),
    (
        "a read fails behind a line without newline",
        b"at 0\nat 1",
        9,
        [2, 0],
        Status::ReadFault,
        b"20000000 21000500 01000000 00000000 01000000 0c000100 00000000 00000000",
    ),
    (
        "the second write fails",
        b"at 0\n\nat 1\n",
        48,
        [0, 2],
        Status::WriteFault,
        b"20000000 21000500 01000000 00000000 01000000 0c000100 00000000 00000000",
    ),
    (
        "a third write would fail",
        b"at 0\n\nat 1\n",
        48,
        [0, 3],
        Status::Done,
        b"20000000 21000500 01000000 00000000 01000000 0c000100 00000000 00000000 20000000 21000500 02000000 00000000 01000000 0c000100 01000000 00000000",
    ),
    (
        "a write fails before a faulty line",
        b"at 0\nat x\n",
        48,
        [0, 1],
        Status::WriteFault,
        b"",
    ),
];

/// A line of so many bytes behind one that asks something.
fn padded(alloc: Global, count: usize) -> Result<Bytes, Fail> {
    let mut script = Bytes::new(alloc);
    let blanks = vec![in alloc; b' '; count]?;
    script.append(b"at 0\nat 1")?;
    script.append(blanks.as_slice())?;
    Ok(script)
}

/// The script ends with its status, and its messages are written then.
fn is_packed_so(rt: &impl Abort, alloc: Global, script: Bytes, row: &Pack<'_>) -> Result<(), Fail> {
    let (name, _script, piece, [read, write], status, output) = *row;
    assert!(rt; piece > 0, "{name}");
    let mut input = FailingSource::new(alloc, script, piece, &[read])?;
    let mut out = FailingSink::new(alloc, ROOM, &[write])?;
    let ended = pack(alloc, &mut input, &mut out);
    assert!(rt; ended == status, "{name}");
    assert!(rt; out.written() == hex(alloc, output)?.as_slice(), "{name}");
    Ok(())
}

/// A line of 4,096 bytes, and one of a byte more.
const LONG_LINES: [(usize, Pack<'_>); 2] = [
    (
        4_092,
        (
            "a line of 4096 bytes",
            b"",
            4_097,
            [0, 0],
            Status::Done,
            b"20000000 21000500 01000000 00000000 01000000 0c000100 00000000 00000000 20000000 21000500 02000000 00000000 01000000 0c000100 01000000 00000000",
        ),
    ),
    (
        4_093,
        (
            "a line of 4097 bytes",
            b"",
            4_097,
            [0, 0],
            Status::Refused(InputFault::Line {
                number: 2,
                fault: LineFault::TooLong,
            }),
            b"20000000 21000500 01000000 00000000 01000000 0c000100 00000000 00000000",
        ),
    ),
];

#[test]
fn scripts_are_packed(rt: HostRuntime) -> Result<(), Fail> {
    for row in PACKS {
        let mut script = Bytes::new(rt.alloc());
        script.append(row.1)?;
        is_packed_so(&rt, rt.alloc(), script, &row)?;
    }
    for (count, row) in LONG_LINES {
        is_packed_so(&rt, rt.alloc(), padded(rt.alloc(), count)?, &row)?;
    }
    Ok(())
}
