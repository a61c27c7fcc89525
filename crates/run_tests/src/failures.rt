//! Files, scripts and outputs that fail, are too long or stop short, and what they leave.

use crate::calls::{NAME, ROOM, RULES, bytes, call, database};
use db_commands::{InputFault, Status};
use reg_base::{Bytes, FailingFiles, FailingSink, FailingSource};
use rule_tables::DbFault;
use std::alloc::Global;
use std::process::Abort;
use std::test::Fail;

/// What a file or a script holds.
#[derive(Clone, Copy)]
pub enum Content<'a> {
    /// The database file of the usual rules.
    Rules,
    /// These bytes.
    Bytes(&'a [u8]),
    /// These bytes, and behind them one byte so often.
    Padded(&'a [u8], u8, usize),
    /// These bytes, behind them blanks so often, and then others.
    Between(&'a [u8], usize, &'a [u8]),
}

/// A run of a script over a file and over devices that fail at the listed calls, with its status and its
/// output.
#[derive(Clone, Copy)]
pub struct Run<'a> {
    pub name: &'a str,
    pub file_name: &'a str,
    pub file: Content<'a>,
    pub script: Content<'a>,
    /// How many bytes of the script a read takes at most.
    pub piece: usize,
    pub failing_files: &'a [u64],
    pub failing_reads: &'a [u64],
    pub failing_writes: &'a [u64],
    pub status: Status,
    pub output: &'a [u8],
}

const RUNS: [Run<'_>; 17] = [
    Run {
        name: "no newline at the end",
        file_name: NAME,
        file: Content::Rules,
        script: Content::Bytes(b"at 5"),
        piece: 5,
        failing_files: &[],
        failing_reads: &[],
        failing_writes: &[],
        status: Status::Done,
        output: b"ok\n",
    },
    Run {
        name: "an empty script",
        file_name: NAME,
        file: Content::Rules,
        script: Content::Bytes(b""),
        piece: 5,
        failing_files: &[],
        failing_reads: &[],
        failing_writes: &[],
        status: Status::Done,
        output: b"",
    },
    Run {
        name: "an empty line",
        file_name: NAME,
        file: Content::Rules,
        script: Content::Bytes(b"\n"),
        piece: 5,
        failing_files: &[],
        failing_reads: &[],
        failing_writes: &[],
        status: Status::Done,
        output: b"",
    },
    Run {
        name: "no newline behind two lines",
        file_name: NAME,
        file: Content::Rules,
        script: Content::Bytes(b"at 5\nat 6"),
        piece: 5,
        failing_files: &[],
        failing_reads: &[],
        failing_writes: &[],
        status: Status::Done,
        output: b"ok\nok\n",
    },
    Run {
        name: "empty lines",
        file_name: NAME,
        file: Content::Rules,
        script: Content::Bytes(b"at 5\n\nat 6\n\n"),
        piece: 5,
        failing_files: &[],
        failing_reads: &[],
        failing_writes: &[],
        status: Status::Done,
        output: b"ok\nok\n",
    },
    Run {
        name: "a last line that is none",
        file_name: NAME,
        file: Content::Rules,
        script: Content::Bytes(b"at 5\nat 6 7"),
        piece: 5,
        failing_files: &[],
        failing_reads: &[],
        failing_writes: &[],
        status: Status::Done,
        output: b"ok\nline fault: unknown word 3\n",
    },
    Run {
        name: "a line of 4096 bytes",
        file_name: NAME,
        file: Content::Rules,
        script: Content::Padded(b"at 5", b' ', 4_092),
        piece: 5,
        failing_files: &[],
        failing_reads: &[],
        failing_writes: &[],
        status: Status::Done,
        output: b"ok\n",
    },
    Run {
        name: "a line of 4097 bytes",
        file_name: NAME,
        file: Content::Rules,
        script: Content::Padded(b"at 5", b' ', 4_093),
        piece: 5,
        failing_files: &[],
        failing_reads: &[],
        failing_writes: &[],
        status: Status::Done,
        output: b"line fault: too long\n",
    },
    Run {
        name: "a script of more bytes than a file may have",
        file_name: NAME,
        file: Content::Rules,
        script: Content::Padded(b"", b'\n', 16_777_217),
        piece: 65_536,
        failing_files: &[],
        failing_reads: &[],
        failing_writes: &[],
        status: Status::Done,
        output: b"",
    },
    Run {
        name: "a file that is too short",
        file_name: NAME,
        file: Content::Bytes(b"RGDB\0\0\0"),
        script: Content::Bytes(b"at 5"),
        piece: 5,
        failing_files: &[],
        failing_reads: &[],
        failing_writes: &[],
        status: Status::Refused(InputFault::Database(DbFault::Short(7))),
        output: b"",
    },
    Run {
        name: "a file that is no database",
        file_name: NAME,
        file: Content::Bytes(b"RGDC\0\0\0\x14"),
        script: Content::Bytes(b"at 5"),
        piece: 5,
        failing_files: &[],
        failing_reads: &[],
        failing_writes: &[],
        status: Status::Refused(InputFault::Database(DbFault::BadMagic(0x5247_4443))),
        output: b"",
    },
    Run {
        name: "no such file",
        file_name: "other.db",
        file: Content::Rules,
        script: Content::Bytes(b"at 5"),
        piece: 5,
        failing_files: &[],
        failing_reads: &[],
        failing_writes: &[],
        status: Status::ReadFault,
        output: b"",
    },
    Run {
        name: "a file that fails",
        file_name: NAME,
        file: Content::Rules,
        script: Content::Bytes(b"at 5"),
        piece: 5,
        failing_files: &[1],
        failing_reads: &[],
        failing_writes: &[],
        status: Status::ReadFault,
        output: b"",
    },
    Run {
        name: "a file of 16777217 bytes",
        file_name: NAME,
        file: Content::Padded(b"", 0, 16_777_217),
        script: Content::Bytes(b"at 5"),
        piece: 5,
        failing_files: &[],
        failing_reads: &[],
        failing_writes: &[],
        status: Status::TooLong,
        output: b"",
    },
    Run {
        name: "the second read fails",
        file_name: NAME,
        file: Content::Rules,
        script: Content::Bytes(b"at 5\nat 6\n"),
        piece: 5,
        failing_files: &[],
        failing_reads: &[2],
        failing_writes: &[],
        status: Status::ReadFault,
        output: b"ok\n",
    },
    Run {
        name: "the second write fails",
        file_name: NAME,
        file: Content::Rules,
        script: Content::Bytes(b"at 5\nat 4\n"),
        piece: 5,
        failing_files: &[],
        failing_reads: &[],
        failing_writes: &[2],
        status: Status::WriteFault,
        output: b"ok\n",
    },
    // the script has two replies, and lines without one make no write
    Run {
        name: "a third write would fail",
        file_name: NAME,
        file: Content::Rules,
        script: Content::Bytes(b"at 5\n\n# 6\n\nat 7\n"),
        piece: 5,
        failing_files: &[],
        failing_reads: &[],
        failing_writes: &[3],
        status: Status::Done,
        output: b"ok\nok\n",
    },
];

/// The bytes that the file or the script holds.
fn held(alloc: Global, content: Content<'_>) -> Result<Bytes, Fail> {
    match content {
        Content::Rules => database(alloc, RULES),
        Content::Bytes(given) => bytes(alloc, given),
        Content::Padded(front, byte, count) => {
            let mut whole = bytes(alloc, front)?;
            let rest = vec![in alloc; byte; count]?;
            whole.append(rest.as_slice())?;
            Ok(whole)
        }
        Content::Between(front, count, behind) => between(alloc, front, count, behind),
    }
}

/// The front, blanks so often, and what stands behind them.
fn between(alloc: Global, front: &[u8], count: usize, behind: &[u8]) -> Result<Bytes, Fail> {
    let mut whole = bytes(alloc, front)?;
    let blanks = vec![in alloc; b' '; count]?;
    whole.append(blanks.as_slice())?;
    whole.append(behind)?;
    Ok(whole)
}

/// The run ends with its status, and its output is written then.
pub fn end_so(rt: &impl Abort, alloc: Global, run: &Run<'_>) -> Result<(), Fail> {
    assert!(rt; run.piece > 0, "{}", run.name);
    let file = held(alloc, run.file)?;
    let script = held(alloc, run.script)?;
    let mut files = FailingFiles::new(alloc, run.file_name, file, run.failing_files)?;
    let mut input = FailingSource::new(alloc, script, run.piece, run.failing_reads)?;
    let mut out = FailingSink::new(alloc, ROOM, run.failing_writes)?;
    let (status, _faults) = call(alloc, &[], &mut files, &mut input, &mut out)?;
    assert!(rt; status == run.status, "{}", run.name);
    assert!(rt; out.written() == run.output, "{}", run.name);
    Ok(())
}

/// Each run ends so.
fn all_end_so(rt: &impl Abort, alloc: Global, runs: &[Run<'_>]) -> Result<(), Fail> {
    for run in runs {
        end_so(rt, alloc, run)?;
    }
    Ok(())
}

#[test]
fn runs_end_with_their_status(rt: HostRuntime) -> Result<(), Fail> {
    all_end_so(&rt, rt.alloc(), &RUNS)
}
