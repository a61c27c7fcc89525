//! Scripts that come in pieces: each line is answered as its newline comes, and where a read fails nothing behind it.

use crate::calls::NAME;
use crate::failures::{Content, Run, end_so};
use db_commands::Status;
use std::alloc::Global;
use std::process::Abort;
use std::test::Fail;

/// A script that comes in pieces of at most so many bytes, over a source and a sink that fail at the listed
/// calls, with the status and the output of its run.
struct Pieces<'a> {
    name: &'a str,
    script: Content<'a>,
    piece: usize,
    failing_reads: &'a [u64],
    failing_writes: &'a [u64],
    status: Status,
    output: &'a [u8],
}

/// Lines of several kinds, the last without a newline, and their replies.
const MIXED: &[u8] = b"at 5\n\n# six\nat 6 7\nat 4\nat 1000000000000001\nat 5\r\n\tat 8";

const MIXED_REPLIES: &[u8] = b"ok
line fault: unknown word 3
refused: moment back 5
refused: moment too large 1000000000000001
line fault: not ascii
ok
";

/// What stands before the blanks of a long line, and what behind them: lines at fault, and a last one without a newline.
const LONG: Content<'_> = Content::Between(
    b"at 5\nat 6",
    4_093,
    b"\nat 7\niw reg fly\nat x\niw reg set\nat 8",
);

const LONG_REPLIES: &[u8] = b"ok
line fault: too long
ok
line fault: unknown word 3
line fault: bad number word 2
line fault: missing word
ok
";

const PIECES: [Pieces<'_>; 13] = [
    Pieces {
        name: "in pieces of 1",
        script: Content::Bytes(MIXED),
        piece: 1,
        failing_reads: &[],
        failing_writes: &[],
        status: Status::Done,
        output: MIXED_REPLIES,
    },
    Pieces {
        name: "in pieces of 2",
        script: Content::Bytes(MIXED),
        piece: 2,
        failing_reads: &[],
        failing_writes: &[],
        status: Status::Done,
        output: MIXED_REPLIES,
    },
    Pieces {
        name: "in pieces of 4097",
        script: Content::Bytes(MIXED),
        piece: 4_097,
        failing_reads: &[],
        failing_writes: &[],
        status: Status::Done,
        output: MIXED_REPLIES,
    },
    Pieces {
        name: "lines behind a long one in pieces of 1",
        script: LONG,
        piece: 1,
        failing_reads: &[],
        failing_writes: &[],
        status: Status::Done,
        output: LONG_REPLIES,
    },
    Pieces {
        name: "lines behind a long one in pieces of 2",
        script: LONG,
        piece: 2,
        failing_reads: &[],
        failing_writes: &[],
        status: Status::Done,
        output: LONG_REPLIES,
    },
    Pieces {
        name: "lines behind a long one in pieces of 4097",
        script: LONG,
        piece: 4_097,
        failing_reads: &[],
        failing_writes: &[],
        status: Status::Done,
        output: LONG_REPLIES,
    },
    Pieces {
        name: "no piece comes",
        script: Content::Bytes(b"at 5\nat 6\nat 7\n"),
        piece: 5,
        failing_reads: &[1],
        failing_writes: &[],
        status: Status::ReadFault,
        output: b"",
    },
    Pieces {
        name: "two pieces of three come",
        script: Content::Bytes(b"at 5\nat 6\nat 7\n"),
        piece: 5,
        failing_reads: &[3],
        failing_writes: &[],
        status: Status::ReadFault,
        output: b"ok\nok\n",
    },
    Pieces {
        name: "the end doesn't come",
        script: Content::Bytes(b"at 5\nat 6\nat 7\n"),
        piece: 5,
        failing_reads: &[4],
        failing_writes: &[],
        status: Status::ReadFault,
        output: b"ok\nok\nok\n",
    },
    Pieces {
        name: "a read fails within a line",
        script: Content::Bytes(b"at 5\nat 6\n"),
        piece: 7,
        failing_reads: &[2],
        failing_writes: &[],
        status: Status::ReadFault,
        output: b"ok\n",
    },
    Pieces {
        name: "a read fails behind a line without newline",
        script: Content::Bytes(b"at 5\nat 6"),
        piece: 9,
        failing_reads: &[2],
        failing_writes: &[],
        status: Status::ReadFault,
        output: b"ok\n",
    },
    Pieces {
        name: "a write fails before a read would",
        script: Content::Bytes(b"at 5\nat 6\n"),
        piece: 5,
        failing_reads: &[2],
        failing_writes: &[1],
        status: Status::WriteFault,
        output: b"",
    },
    Pieces {
        name: "a read fails before a write would",
        script: Content::Bytes(b"at 5\nat 6\n"),
        piece: 5,
        failing_reads: &[2],
        failing_writes: &[2],
        status: Status::ReadFault,
        output: b"ok\n",
    },
];

/// Each run ends so.
fn come_so(rt: &impl Abort, alloc: Global, rows: &[Pieces<'_>]) -> Result<(), Fail> {
    for row in rows {
        let run = Run {
            name: row.name,
            file_name: NAME,
            file: Content::Rules,
            script: row.script,
            piece: row.piece,
            failing_files: &[],
            failing_reads: row.failing_reads,
            failing_writes: row.failing_writes,
            status: row.status,
            output: row.output,
        };
        end_so(rt, alloc, &run)?;
    }
    Ok(())
}

#[test]
fn lines_are_answered_as_they_come(rt: HostRuntime) -> Result<(), Fail> {
    come_so(&rt, rt.alloc(), &PIECES)
}
