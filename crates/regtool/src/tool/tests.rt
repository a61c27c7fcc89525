//! The program from its words to its output: each command, and each status.

use super::regtool;
use core_runs::add_driver;
use db_commands::{InputFault, Status};
use db_text::{TextFault, TextKind};
use line_forms::LineFault;
use radio_drv::SimDriver;
use reg_base::{
    Bytes, FailingFiles, FailingSink, FailingSource, Files, MemFiles, Sink, Source, StdSink,
    StdSource,
};
use reg_core::Drivers;
use rule_tables::DbFault;
use std::alloc::Global;
use std::process::Abort;
use std::test::Fail;

/// The name of the database file.
const NAME: &str = "regulatory.db";

/// More than an output of these tests has.
const ROOM: usize = 4096;

/// A country with one rule.
const US: &[u8] = b"country US: DFS-FCC\n\t(2400 - 2472 @ 40), (30)\n";

/// Its file, written out by hand from the format.
const US_FILE: [u8; 40] = [
    0x52, 0x47, 0x44, 0x42, 0x00, 0x00, 0x00, 0x14, //
    0x55, 0x53, 0x00, 0x08, //
    0x00, 0x00, 0x00, 0x00, //
    0x10, 0x00, 0x0b, 0xb8, 0x00, 0x24, 0x9f, 0x00, //
    0x00, 0x25, 0xb8, 0x40, 0x00, 0x00, 0x9c, 0x40, //
    0x03, 0x01, 0x01, 0x00, 0x00, 0x04, 0x00, 0x00,
];

/// A radio and an access point, which starts once US is set.
const SCRIPT: &[u8] = b"radio add phy0 bands 2 width 20 radar 0 power 2500 contexts 1
iw phy phy0 interface add ap0 type __ap
iw dev ap0 ap start home 2467 100 2
iw reg set US
iw dev ap0 ap start home 2437 100 2
";

/// Its replies over that file: the built-in world has no rule for 2467 MHz.
const REPLIES: &[u8] = b"ok\nok\nrefused: no rule 2467\nhint replaced\nstarted 2500\n";

/// A copy of the bytes.
fn bytes(alloc: Global, given: &[u8]) -> Result<Bytes, Fail> {
    let mut bytes = Bytes::new(alloc);
    bytes.append(given)?;
    Ok(bytes)
}

/// The words that stand in a line, parted by blanks.
fn words(alloc: Global, line: &str) -> Result<Vec<String>, Fail> {
    let mut words = Vec::new(alloc);
    for word in line.split_whitespace() {
        words.push(String::from_str(alloc, word)?)?;
    }
    Ok(words)
}

/// What the program ends with on the words of the line, over eight drivers.
fn call<F: Files, S: Source, K: Sink>(
    alloc: Global,
    line: &str,
    files: &mut F,
    input: &mut S,
    out: &mut K,
) -> Result<Status, Fail> {
    let words = words(alloc, line)?;
    let mut drivers: Drivers = Vec::new(alloc);
    add_driver(&mut drivers, Box::new(alloc, SimDriver::new())?)?;
    add_driver(&mut drivers, Box::new(alloc, SimDriver::new())?)?;
    add_driver(&mut drivers, Box::new(alloc, SimDriver::new())?)?;
    add_driver(&mut drivers, Box::new(alloc, SimDriver::new())?)?;
    add_driver(&mut drivers, Box::new(alloc, SimDriver::new())?)?;
    add_driver(&mut drivers, Box::new(alloc, SimDriver::new())?)?;
    add_driver(&mut drivers, Box::new(alloc, SimDriver::new())?)?;
    add_driver(&mut drivers, Box::new(alloc, SimDriver::new())?)?;
    let words = words.as_slice();
    let status = regtool(alloc, words, files, input, out, &mut drivers);
    Ok(status)
}

/// What the program reads.
#[derive(Clone, Copy)]
enum Input<'a> {
    Bytes(&'a [u8]),
    Newlines(usize),
}

/// A call of the program: the words of its line, a database file and an input; which read of the file, read of
/// the input and write fails, counted from 1, or 0 for none; and what the call ends with and has written then.
type Call<'a> = (&'a str, &'a [u8], Input<'a>, [u64; 3], Status, &'a [u8]);

/// The first bytes of a file, which are none of a database.
const SHORT: &[u8] = b"RGDB\0\0\0";

const CALLS: [Call<'_>; 44] = [
    (
        "compile",
        &US_FILE,
        Input::Bytes(US),
        [0, 0, 0],
        Status::Done,
        &US_FILE,
    ),
    (
        "decompile",
        &US_FILE,
        Input::Bytes(&US_FILE),
        [0, 0, 0],
        Status::Done,
        US,
    ),
    (
        "check",
        &US_FILE,
        Input::Bytes(&US_FILE),
        [0, 0, 0],
        Status::Done,
        b"1 countries, 1 rules\n",
    ),
    (
        "lint",
        &US_FILE,
        Input::Bytes(&US_FILE),
        [0, 0, 0],
        Status::Done,
        b"US rule 0: governs 2412 MHz\n1 countries, 1 rules, 0 without a channel\n",
    ),
    (
        "run regulatory.db",
        &US_FILE,
        Input::Bytes(SCRIPT),
        [0, 0, 0],
        Status::Done,
        REPLIES,
    ),
    (
        "pack",
        &US_FILE,
        Input::Bytes(b"# a country, and what holds then\niw reg set US\n\niw reg get"),
        [0, 0, 0],
        Status::Done,
        b"\x1c\0\0\0\x20\0\x05\0\x01\0\0\0\0\0\0\0\x1b\0\0\0\x07\0\x21\0US\0\0\x14\0\0\0\x20\0\x05\x03\x02\0\0\0\0\0\0\0\x1f\0\0\0",
    ),
    (
        "pack",
        &US_FILE,
        Input::Bytes(b"at 0\niw reg fly\nat 1\n"),
        [0, 0, 0],
        Status::Refused(InputFault::Line {
            number: 2,
            fault: LineFault::Unknown(3),
        }),
        b"\x20\0\0\0\x21\0\x05\0\x01\0\0\0\0\0\0\0\x01\0\0\0\x0c\0\x01\0\0\0\0\0\0\0\0\0",
    ),
    (
        "pack",
        &US_FILE,
        Input::Bytes(b"at 0\n"),
        [0, 0, 1],
        Status::WriteFault,
        b"",
    ),
    (
        "pack",
        &US_FILE,
        Input::Bytes(b"at 0\n"),
        [0, 1, 0],
        Status::ReadFault,
        b"",
    ),
    (
        "pack regulatory.db",
        &US_FILE,
        Input::Bytes(b"at 0\n"),
        [0, 0, 0],
        Status::Usage,
        b"",
    ),
    (
        "wire regulatory.db",
        &US_FILE,
        Input::Bytes(
            b"\x20\0\0\0\x21\0\x05\0\x01\0\0\0\0\0\0\0\x01\0\0\0\x0c\0\x01\0\0\0\0\0\0\0\0\0",
        ),
        [0, 0, 0],
        Status::Done,
        b"\x1c\0\0\0\x21\0\0\0\x01\0\0\0\0\0\0\0\x0a\x01\0\0\x08\0\x10\0\0\0\0\0\x24\0\0\0\x02\0\0\0\x01\0\0\0\0\0\0\0\0\0\0\0\x20\0\0\0\x21\0\x05\0\x01\0\0\0\0\0\0\0",
    ),
    (
        "wire regulatory.db",
        SHORT,
        Input::Bytes(US),
        [0, 0, 0],
        Status::Refused(InputFault::Database(DbFault::Short(7))),
        b"",
    ),
    (
        "wire",
        &US_FILE,
        Input::Bytes(US),
        [0, 0, 0],
        Status::Usage,
        b"",
    ),
    (
        "make 1",
        &US_FILE,
        Input::Bytes(US),
        [0, 0, 0],
        Status::Done,
        b"requests 25 started 0 refused 0 checks 0 hints 1 effects 0\n",
    ),
    (
        "make 1000",
        &US_FILE,
        Input::Bytes(US),
        [0, 0, 0],
        Status::Done,
        b"requests 1024 started 15 refused 355 checks 28 hints 202 effects 19\n",
    ),
    // other words
    (
        "",
        &US_FILE,
        Input::Bytes(US),
        [0, 0, 0],
        Status::Usage,
        b"",
    ),
    (
        "compile x",
        &US_FILE,
        Input::Bytes(US),
        [0, 0, 0],
        Status::Usage,
        b"",
    ),
    (
        "compile check",
        &US_FILE,
        Input::Bytes(US),
        [0, 0, 0],
        Status::Usage,
        b"",
    ),
    (
        "check check",
        &US_FILE,
        Input::Bytes(US),
        [0, 0, 0],
        Status::Usage,
        b"",
    ),
    (
        "CHECK",
        &US_FILE,
        Input::Bytes(US),
        [0, 0, 0],
        Status::Usage,
        b"",
    ),
    (
        "checks",
        &US_FILE,
        Input::Bytes(US),
        [0, 0, 0],
        Status::Usage,
        b"",
    ),
    (
        "run",
        &US_FILE,
        Input::Bytes(US),
        [0, 0, 0],
        Status::Usage,
        b"",
    ),
    (
        "run regulatory.db script",
        &US_FILE,
        Input::Bytes(US),
        [0, 0, 0],
        Status::Usage,
        b"",
    ),
    (
        "RUN regulatory.db",
        &US_FILE,
        Input::Bytes(US),
        [0, 0, 0],
        Status::Usage,
        b"",
    ),
    (
        "runs regulatory.db",
        &US_FILE,
        Input::Bytes(US),
        [0, 0, 0],
        Status::Usage,
        b"",
    ),
    (
        "regulatory.db run",
        &US_FILE,
        Input::Bytes(US),
        [0, 0, 0],
        Status::Usage,
        b"",
    ),
    (
        "make",
        &US_FILE,
        Input::Bytes(US),
        [0, 0, 0],
        Status::Usage,
        b"",
    ),
    (
        "make 0",
        &US_FILE,
        Input::Bytes(US),
        [0, 0, 0],
        Status::Usage,
        b"",
    ),
    (
        "make 01",
        &US_FILE,
        Input::Bytes(US),
        [0, 0, 0],
        Status::Usage,
        b"",
    ),
    (
        "make 1000001",
        &US_FILE,
        Input::Bytes(US),
        [0, 0, 0],
        Status::Usage,
        b"",
    ),
    (
        "make 1 2",
        &US_FILE,
        Input::Bytes(US),
        [0, 0, 0],
        Status::Usage,
        b"",
    ),
    // what is not accepted
    (
        "compile",
        &US_FILE,
        Input::Bytes(b"country US: DFS-FCC\n(2400 - 2472 @ 40), (30), LOUD\n"),
        [0, 0, 0],
        Status::Refused(InputFault::Text(TextFault {
            line: 2,
            kind: TextKind::BadFlag,
        })),
        b"",
    ),
    (
        "decompile",
        &US_FILE,
        Input::Bytes(SHORT),
        [0, 0, 0],
        Status::Refused(InputFault::Database(DbFault::Short(7))),
        b"",
    ),
    (
        "check",
        &US_FILE,
        Input::Bytes(SHORT),
        [0, 0, 0],
        Status::Refused(InputFault::Database(DbFault::Short(7))),
        b"",
    ),
    (
        "run regulatory.db",
        SHORT,
        Input::Bytes(SCRIPT),
        [0, 0, 0],
        Status::Refused(InputFault::Database(DbFault::Short(7))),
        b"",
    ),
    // a read that fails, and a file that is not read
    (
        "compile",
        &US_FILE,
        Input::Bytes(US),
        [0, 2, 0],
        Status::ReadFault,
        b"",
    ),
    (
        "run regulatory.db",
        &US_FILE,
        Input::Bytes(SCRIPT),
        [0, 5, 0],
        Status::ReadFault,
        b"ok\n",
    ),
    (
        "run regulatory.db",
        &US_FILE,
        Input::Bytes(SCRIPT),
        [1, 0, 0],
        Status::ReadFault,
        b"",
    ),
    (
        "run other.db",
        &US_FILE,
        Input::Bytes(SCRIPT),
        [0, 0, 0],
        Status::ReadFault,
        b"",
    ),
    // a write that fails: a conversion and `make` write once, and the second write is that of a script's second reply
    (
        "compile",
        &US_FILE,
        Input::Bytes(US),
        [0, 0, 1],
        Status::WriteFault,
        b"",
    ),
    (
        "run regulatory.db",
        &US_FILE,
        Input::Bytes(SCRIPT),
        [0, 0, 2],
        Status::WriteFault,
        b"ok\n",
    ),
    (
        "make 1",
        &US_FILE,
        Input::Bytes(US),
        [0, 0, 1],
        Status::WriteFault,
        b"",
    ),
    // 16777217 bytes are more than a rule text may have, and few for a script
    (
        "compile",
        &US_FILE,
        Input::Newlines(16_777_217),
        [0, 0, 0],
        Status::TooLong,
        b"",
    ),
    (
        "run regulatory.db",
        &US_FILE,
        Input::Newlines(16_777_217),
        [0, 0, 0],
        Status::Done,
        b"",
    ),
];

/// The bytes of the input.
fn read(alloc: Global, input: Input<'_>) -> Result<Bytes, Fail> {
    match input {
        Input::Bytes(given) => bytes(alloc, given),
        Input::Newlines(count) => {
            let lines = vec![in alloc; b'\n'; count]?;
            bytes(alloc, lines.as_slice())
        }
    }
}

/// Each call ends with its status and has written its output.
fn end_so(rt: &impl Abort, alloc: Global, calls: &[Call<'_>]) -> Result<(), Fail> {
    for (row, (line, file, input, failing, wanted, output)) in calls.iter().enumerate() {
        let [of_files, of_reads, of_writes] = *failing;
        let file = bytes(alloc, file)?;
        let read = read(alloc, *input)?;
        let mut files = FailingFiles::new(alloc, NAME, file, &[of_files])?;
        let mut input = FailingSource::new(alloc, read, 20, &[of_reads])?;
        let mut out = FailingSink::new(alloc, ROOM, &[of_writes])?;
        let status = call(alloc, line, &mut files, &mut input, &mut out)?;
        assert!(rt; status == *wanted, "row {row}");
        assert!(rt; out.written() == *output, "row {row}");
    }
    Ok(())
}

#[test]
fn each_call_has_its_status_and_its_output(rt: HostRuntime) -> Result<(), Fail> {
    end_so(&rt, rt.alloc(), &CALLS)
}

#[test]
fn readers_and_writers_of_std_are_streams(rt: HostRuntime) -> Result<(), Fail> {
    let mut files = MemFiles::new(rt.alloc(), NAME, bytes(rt.alloc(), &US_FILE)?)?;
    let mut written = Vec::new(rt.alloc());
    let mut input = StdSource::new(SCRIPT);
    let mut out = StdSink::new(&mut written);
    let status = call(
        rt.alloc(),
        "run regulatory.db",
        &mut files,
        &mut input,
        &mut out,
    )?;
    assert!(rt; status == Status::Done);
    assert!(rt; written.as_slice() == REPLIES);
    Ok(())
}
