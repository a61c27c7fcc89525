//! Runs of scripts over a database file, and the replies that each line has to have.

ghost use Rattle.std.specs.Prelude.{◌≡◌, ◌<◌};

use core_runs::add_driver;
use db_commands::Status;
use db_text::parse;
use db_writer::layout;
use radio_drv::{FailingDriver, SimDriver};
use reg_base::{Bytes, Files, MemFiles, MemSink, Sink, Source, StdSource};
use reg_core::Drivers;
use script_run::run;
use std::alloc::Global;
use std::process::Abort;
use std::str::from_utf8;
use std::test::Fail;

/// The name of the database file.
pub const NAME: &str = "regulatory.db";

/// More than the replies of these tests have.
pub const ROOM: usize = 4096;

/// The world, and a country with radar channels.
pub const RULES: &[u8] = b"country 00:
\t(2402 - 2472 @ 40), (20)
\t(5170 - 5250 @ 80), (20), NO-IR, AUTO-BW
\t(5250 - 5330 @ 80), (20), NO-IR, DFS, AUTO-BW
country US: DFS-FCC
\t(2400 - 2472 @ 40), (30)
\t(5150 - 5250 @ 80), (23), AUTO-BW
\t(5250 - 5350 @ 80), (24), DFS, AUTO-BW
";

/// A script over the database of a text.
pub struct Case<'a> {
    /// What it shows.
    pub name: &'a str,
    /// The rule text.
    pub text: &'a [u8],
    /// The calls at which the first driver fails.
    pub failing: &'a [u64],
    /// How often it failed by the end, and `None` where its radio was removed.
    pub faults: Option<u64>,
    /// A line of the script behind `> `, and the lines of its reply below it.
    pub transcript: &'a [u8],
}

/// A copy of the bytes.
pub fn bytes(alloc: Global, given: &[u8]) -> Result<Bytes, Fail> {
    let mut bytes = Bytes::new(alloc);
    bytes.append(given)?;
    Ok(bytes)
}

/// The file of the database that the text stands for.
pub fn database(alloc: Global, text: &[u8]) -> Result<Bytes, Fail> {
    let db = parse(alloc, text)?;
    let file = layout(alloc, &db)?;
    Ok(file)
}

/// What `run` ends with over eight drivers, of which the first fails at the listed calls; and how often
/// that one failed, where it is still there.
pub fn call<F: Files, S: Source, K: Sink>(
    alloc: Global,
    failing: &[u64],
    files: &mut F,
    input: &mut S,
    out: &mut K,
) -> Result<(Status, Option<u64>), Fail> {
    let mut drivers: Drivers = Vec::new(alloc);
    let first = FailingDriver::new(alloc, failing)?;
    add_driver(&mut drivers, Box::new(alloc, first)?)?;
    add_driver(&mut drivers, Box::new(alloc, SimDriver::new())?)?;
    add_driver(&mut drivers, Box::new(alloc, SimDriver::new())?)?;
    add_driver(&mut drivers, Box::new(alloc, SimDriver::new())?)?;
    add_driver(&mut drivers, Box::new(alloc, SimDriver::new())?)?;
    add_driver(&mut drivers, Box::new(alloc, SimDriver::new())?)?;
    add_driver(&mut drivers, Box::new(alloc, SimDriver::new())?)?;
    add_driver(&mut drivers, Box::new(alloc, SimDriver::new())?)?;
    let status = run(alloc, NAME, files, input, out, &mut drivers);
    let faults = match drivers.as_slice() {
        [Some(driver), ..] => Some(driver.faults()),
        _ => None,
    };
    Ok((status, faults))
}

/// The script of a transcript.
fn script_of(alloc: Global, transcript: &[u8]) -> Result<Bytes, Fail> {
    let mut script = Bytes::new(alloc);
    for line in transcript.split(|byte| *byte == b'\n') {
        if let Some(asked) = line.strip_prefix(b"> ") {
            script.append(asked)?;
            script.push(b'\n')?;
        }
    }
    Ok(script)
}

/// Each script is answered line by line.
pub fn replies(rt: &impl Abort, alloc: Global, cases: &[Case<'_>]) -> Result<(), Fail> {
    for case in cases {
        let mut files = MemFiles::new(alloc, NAME, database(alloc, case.text)?)?;
        let script = script_of(alloc, case.transcript)?;
        let mut input = StdSource::new(script.as_slice());
        let mut out = MemSink::new(alloc, ROOM)?;
        let (status, faults) = call(alloc, case.failing, &mut files, &mut input, &mut out)?;
        assert!(rt; status == Status::Done, "{}", case.name);
        assert!(rt; faults == case.faults, "{}", case.name);
        stand_in_order(rt, case.name, out.written(), case.transcript);
    }
    Ok(())
}

/// The bytes are the replies of the transcript, one behind the other.
fn stand_in_order(rt: &impl Abort, name: &str, written: &[u8], transcript: &[u8]) {
    let mut asked: &[u8] = b"";
    let mut left = written;
    for line in transcript.split(|byte| *byte == b'\n') {
        if line.is_empty() || line.starts_with(b"> ") {
            asked = line;
            continue;
        }
        let rest = after_line(left, line);
        assert!(rt; rest.is_some(), "{name}: {}", shown(asked));
        left = rest.unwrap_or(b"");
    }
    assert!(rt; left.is_empty(), "{name}: behind the last line");
}

/// The line as text.
fn shown(line: &[u8]) -> &str {
    from_utf8(line).unwrap_or("")
}

/// What stands behind this line, where it stands first.
fn after_line<'a>(bytes: &'a [u8], line: &[u8]) -> Option<&'a [u8]> {
    bytes.strip_prefix(line)?.strip_prefix(b"\n")
}
