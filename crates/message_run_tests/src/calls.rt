//! Runs of `wire` over a database file, and the answers that each message has to have.

ghost use Rattle.std.specs.Prelude.{◌≡◌, ◌<◌};

use core_runs::add_driver;
use db_commands::Status;
use db_text::parse;
use db_writer::layout;
use radio_drv::{FailingDriver, SimDriver};
use reg_base::{Bytes, Files, MemFiles, MemSink, MemSource, Sink, Source};
use reg_core::Drivers;
use std::alloc::Global;
use std::process::Abort;
use std::test::Fail;
use wire_run::wire;

/// The name of the database file.
pub const NAME: &str = "regulatory.db";

/// More than the answers of these tests have.
pub const ROOM: usize = 8192;

/// A country with one rule.
pub const US: &[u8] = b"country US: DFS-FCC\n\t(2400 - 2472 @ 40), (30)\n";

/// The world, and a country with radar channels.
pub const RULES: &[u8] = b"country 00:
\t(2402 - 2472 @ 40), (20)
\t(5170 - 5250 @ 80), (20), NO-IR, AUTO-BW
\t(5250 - 5330 @ 80), (20), NO-IR, DFS, AUTO-BW
country US: DFS-FCC
\t(2400 - 2472 @ 40), (30)
\t(5150 - 5250 @ 80), (23), AUTO-BW
\t(5250 - 5350 @ 80), (24), DFS, AUTO-BW
";

/// A message and its answer, in hexadecimal: what they show, and both.
pub type Row<'a> = (&'a str, &'a [u8], &'a [u8]);

/// A stream of messages over the database of a text.
#[derive(Drop)]
pub struct Case<'a> {
    /// What it shows.
    pub name: &'a str,
    /// The rule text.
    pub text: &'a [u8],
    /// The calls at which the first driver fails.
    pub failing: &'a [u64],
    /// The messages and their answers.
    pub rows: &'a [Row<'a>],
}

/// The value of a lower case hexadecimal digit.
fn digit(byte: u8) -> Option<u8> {
    match byte {
        b'0'..=b'9' => Some(byte - b'0'),
        b'a'..=b'f' => Some(byte - b'a' + 10),
        _ => None,
    }
}

/// Appends the bytes whose digits the text has; what is no digit is skipped.
pub fn put_hex(bytes: &mut Bytes, text: &[u8]) -> Result<(), Fail> {
    let mut high = None;
    for byte in text {
        match (digit(*byte), high) {
            (Some(low), Some(first)) => {
                bytes.push(joined(first, low))?;
                high = None;
            }
            (Some(first), None) => high = Some(first),
            (None, _) => {}
        }
    }
    Ok(())
}

/// A byte of two digits.
fn joined(high: u8, low: u8) -> u8 {
    high.wrapping_mul(16).wrapping_add(low)
}

/// The bytes whose digits the text has.
pub fn hex(alloc: Global, text: &[u8]) -> Result<Bytes, Fail> {
    let mut bytes = Bytes::new(alloc);
    put_hex(&mut bytes, text)?;
    Ok(bytes)
}

/// The file of the database that the text stands for.
pub fn database(alloc: Global, text: &[u8]) -> Result<Bytes, Fail> {
    let db = parse(alloc, text)?;
    let file = layout(alloc, &db)?;
    Ok(file)
}

/// What `wire` ends with over eight drivers, of which the first fails at the listed calls.
pub fn call<F: Files, S: Source, K: Sink>(
    alloc: Global,
    failing: &[u64],
    files: &mut F,
    input: &mut S,
    out: &mut K,
) -> Result<Status, Fail> {
    let mut drivers: Drivers = Vec::new(alloc);
    let first = FailingDriver::new(alloc, failing)?;
    add_driver(&mut drivers, Box::new(alloc, first)?)?;
    add_driver(&mut drivers, Box::new(alloc, SimDriver::new())?)?;
    add_driver(&mut drivers, Box::new(alloc, SimDriver::new())?)?;
    add_driver(&mut drivers, Box::new(alloc, SimDriver::new())?)?;
    add_driver(&mut drivers, Box::new(alloc, SimDriver::new())?)?;
    add_driver(&mut drivers, Box::new(alloc, SimDriver::new())?)?;
    add_driver(&mut drivers, Box::new(alloc, SimDriver::new())?)?;
    add_driver(&mut drivers, Box::new(alloc, SimDriver::new())?)?;
    let status = wire(alloc, NAME, files, input, out, &mut drivers);
    Ok(status)
}

/// Each stream is answered message by message, where it comes at once and where it comes byte by byte.
pub fn answers(rt: &impl Abort, alloc: Global, cases: &[Case<'_>]) -> Result<(), Fail> {
    for case in cases {
        is_answered_so(rt, alloc, case, ROOM)?;
        is_answered_so(rt, alloc, case, 1)?;
    }
    Ok(())
}

/// The messages of the case, one behind the other.
fn stream_of(alloc: Global, case: &Case<'_>) -> Result<Bytes, Fail> {
    let mut stream = Bytes::new(alloc);
    for (_name, message, _answer) in case.rows {
        put_hex(&mut stream, message)?;
    }
    Ok(stream)
}

/// The stream of the case is answered message by message, where each read gives at most so many bytes.
fn is_answered_so(rt: &impl Abort, alloc: Global, case: &Case<'_>, piece: usize) -> Result<(), Fail>
    requires { 0 < piece }
{
    let mut files = MemFiles::new(alloc, NAME, database(alloc, case.text)?)?;
    let mut input = MemSource::new(stream_of(alloc, case)?, piece);
    let mut out = MemSink::new(alloc, ROOM)?;
    let status = call(alloc, case.failing, &mut files, &mut input, &mut out)?;
    assert!(rt; status == Status::Done, "{}", case.name);
    stand_in_order(rt, alloc, case, out.written())
}

/// The bytes are the answers of the case, one behind the other.
fn stand_in_order(
    rt: &impl Abort,
    alloc: Global,
    case: &Case<'_>,
    written: &[u8],
) -> Result<(), Fail> {
    let mut left = written;
    for (name, _message, answer) in case.rows {
        let rest = left.strip_prefix(hex(alloc, answer)?.as_slice());
        assert!(rt; rest.is_some(), "{}: {name}", case.name);
        left = rest.unwrap_or(b"");
    }
    assert!(rt; left.is_empty(), "{}: behind the last message", case.name);
    Ok(())
}
