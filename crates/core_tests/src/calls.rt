//! A core over the rules of a text, eight drivers in memory, and transcripts of requests that are made of it.

ghost use Rattle.std.specs.Prelude.{◌≡◌, IfOk, false};
ghost use Rattle.core_runs.specs.Driven.{AreIdle};
ghost use Rattle.reg_core.specs.Stepping.{IsReady};
ghost use Rattle.reg_journal.specs.Requests.{IsAskable};

use crate::stops::CountsStops;
use core_runs::add_driver;
use db_text::parse;
use iw_commands::{Cut, LineCutter, ReadLineFault, put_reply, read_line};
use radio_drv::{FailingDriver, SimDriver};
use reg_base::Bytes;
use reg_core::{Core, DriverRow, Drivers};
use reg_journal::{Answer, Effects, Refusal, Reply, Request};
use reg_lists::OutOfMemory;
use std::alloc::Global;
use std::process::Abort;
use std::test::Fail;

/// The world, and two countries whose regions differ.
pub const RULES: &[u8] = b"country 00:
\t(2402 - 2472 @ 40), (20)
\t(5170 - 5250 @ 80), (20), NO-IR, AUTO-BW
\t(5250 - 5330 @ 80), (20), NO-IR, DFS, AUTO-BW
country US: DFS-FCC
\t(2400 - 2472 @ 40), (30)
\t(5150 - 5250 @ 80), (23), AUTO-BW
\t(5250 - 5350 @ 80), (24), DFS, AUTO-BW
country GB: DFS-ETSI
\t(2400 - 2483.5 @ 40), (100 mW)
\t(5150 - 5250 @ 80), (200 mW), NO-OUTDOOR, AUTO-BW
\t(5250 - 5350 @ 80), (100 mW), NO-OUTDOOR, DFS, AUTO-BW
";

/// Requests that are made in turn, and their replies.
#[derive(Drop)]
pub struct Case<'a> {
    /// What they show.
    pub name: &'a str,
    /// The calls at which the first driver fails.
    pub failing: &'a [u64],
    /// A transcript of what came before, and one of what is shown. A line behind `> ` makes a request, and its reply
    /// stands below it.
    pub before: &'a [u8],
    pub transcript: &'a [u8],
}

/// How requests are made.
#[derive(Clone, Copy)]
pub enum Way {
    /// All by `Core::step`.
    Step,
    /// Each by the call that decides it without memory, where there is one.
    Calls,
}

/// Eight drivers, of which the first fails at the listed calls and the second counts its stops.
fn idle_drivers(alloc: Global, failing: &[u64]) -> Result<Drivers, Fail>
    ensures idle { IfOk result (λ row. AreIdle 8 (⟦<Drivers as DriverRow>⟧.seen row)) }
{
    let mut drivers: Drivers = Vec::new(alloc);
    let first = FailingDriver::new(alloc, failing)?;
    add_driver(&mut drivers, Box::new(alloc, first)?)?;
    add_driver(&mut drivers, Box::new(alloc, CountsStops::new())?)?;
    add_driver(&mut drivers, Box::new(alloc, SimDriver::new())?)?;
    add_driver(&mut drivers, Box::new(alloc, SimDriver::new())?)?;
    add_driver(&mut drivers, Box::new(alloc, SimDriver::new())?)?;
    add_driver(&mut drivers, Box::new(alloc, SimDriver::new())?)?;
    add_driver(&mut drivers, Box::new(alloc, SimDriver::new())?)?;
    add_driver(&mut drivers, Box::new(alloc, SimDriver::new())?)?;
    Ok(drivers)
}

/// A core over the rules of the text, with eight drivers, of which the first fails at the listed calls and the
/// second counts its stops.
pub fn opened(alloc: Global, text: &[u8], failing: &[u64]) -> Result<(Core, Drivers), Fail>
    ensures ready { IfOk result (λ p. IsReady p.0 (⟦<Drivers as DriverRow>⟧.seen p.1)) }
{
    let db = parse(alloc, text)?;
    let core = Core::new(alloc, db)?;
    let drivers = idle_drivers(alloc, failing)?;
    Ok((core, drivers))
}

/// The reply to what was answered so, with these effects, or refused.
fn plain(answer: Result<Answer, Refusal>, effects: Effects) -> Reply {
    let answer = match answer {
        Ok(answer) => answer,
        Err(refusal) => Answer::Refused(refusal),
    };
    Reply::Plain { answer, effects }
}

/// The reply to what was done or refused.
fn done(answer: Result<(), Refusal>) -> Reply {
    match answer {
        Ok(()) => plain(Ok(Answer::Ok), Effects::new()),
        Err(refusal) => plain(Err(refusal), Effects::new()),
    }
}

/// The reply to what had effects or was refused.
fn swept(answer: Result<Effects, Refusal>) -> Reply {
    match answer {
        Ok(effects) => plain(Ok(Answer::Ok), effects),
        Err(refusal) => plain(Err(refusal), Effects::new()),
    }
}

/// The reply to a start, which tells the power in mBm, or was refused.
fn started(answer: Result<u16, Refusal>) -> Reply {
    match answer {
        Ok(power_mbm) => plain(Ok(Answer::Started(power_mbm)), Effects::new()),
        Err(refusal) => plain(Err(refusal), Effects::new()),
    }
}

/// The reply to a check, which tells its length in ms, or was refused.
fn checking(answer: Result<u32, Refusal>) -> Reply {
    match answer {
        Ok(length_ms) => plain(Ok(Answer::Checking(length_ms)), Effects::new()),
        Err(refusal) => plain(Err(refusal), Effects::new()),
    }
}

/// The reply to the request, by the call that decides such requests without memory.
fn by_call<D: DriverRow>(
    core: &mut Core,
    request: &Request,
    drivers: &mut D,
) -> Result<Reply, OutOfMemory>
    requires ready { IsReady core.old (D.seen drivers.old) }
    requires askable { IsAskable request.now }
    ensures ready { IsReady core.new (D.seen drivers.new) }
{
    match request {
        Request::At(now) => Ok(done(core.at(*now))),
        Request::Radar { radio, chan } => Ok(swept(core.radar(*radio, chan, drivers))),
        Request::Start { name, kind, chan } => Ok(started(core.start(name, *kind, chan, drivers))),
        Request::Stop { name, kind } => Ok(done(core.stop(name, *kind, drivers))),
        Request::Check { name, chan } => Ok(checking(core.begin_check(name, chan, drivers))),
        Request::SetPower { name, setting } => Ok(swept(core.set_power(name, *setting, drivers))),
        _ => core.step(request, drivers),
    }
}

/// The reply to the request that is made in this way.
fn reply<D: DriverRow>(
    way: Way,
    core: &mut Core,
    request: &Request,
    drivers: &mut D,
) -> Result<Reply, OutOfMemory>
    requires ready { IsReady core.old (D.seen drivers.old) }
    requires askable { IsAskable request.now }
    ensures ready { IsReady core.new (D.seen drivers.new) }
{
    match way {
        Way::Step => core.step(request, drivers),
        Way::Calls => by_call(core, request, drivers),
    }
}

/// Puts the text of the reply to the line's request, and nothing where it asks none.
fn answer<D: DriverRow>(
    way: Way,
    core: &mut Core,
    line: &[u8],
    said: &mut Bytes,
    drivers: &mut D,
) -> Result<(), OutOfMemory>
    requires ready { IsReady core.old (D.seen drivers.old) }
    ensures ready { IsReady core.new (D.seen drivers.new) }
{
    match read_line(said.allocator(), line) {
        Ok(Some(request)) => match reply(way, core, &request, drivers) {
            Ok(reply) => put_reply(said, &reply),
            Err(_no_memory) => Err(OutOfMemory),
        },
        Ok(None) => Ok(()),
        Err(ReadLineFault::Line(_fault)) => Ok(()),
        Err(ReadLineFault::OutOfMemory) => Err(OutOfMemory),
    }
}

/// Puts the line and the reply to its request, where it makes one.
fn follow_line<D: DriverRow>(
    way: Way,
    core: &mut Core,
    line: Cut<'_>,
    said: &mut Bytes,
    drivers: &mut D,
) -> Result<(), OutOfMemory>
    requires ready { IsReady core.old (D.seen drivers.old) }
    ensures ready { IsReady core.new (D.seen drivers.new) }
{
    let Cut::Whole(line) = line else {
        return Ok(());
    };
    let Some(asked) = line.strip_prefix(b"> ") else {
        return Ok(());
    };
    said.append(line)?;
    said.push(b'\n')?;
    answer(way, core, asked, said, drivers)
}

/// Takes the next byte of a transcript, and follows the line that a newline ends.
fn follow_byte<D: DriverRow>(
    way: Way,
    core: &mut Core,
    byte: u8,
    cutter: &mut LineCutter,
    said: &mut Bytes,
    drivers: &mut D,
) -> Result<(), OutOfMemory>
    requires ready { IsReady core.old (D.seen drivers.old) }
    requires unended { cutter.old.ended ≡ false }
    ensures ready { IsReady core.new (D.seen drivers.new) }
    ensures unended { cutter.new.ended ≡ false }
{
    if !cutter.push(byte) {
        return Ok(());
    }
    let followed = follow_line(way, core, cutter.line(), said, drivers);
    cutter.clear();
    followed
}

/// Whether the requests of the transcript have the replies that it shows.
pub fn follow<D: DriverRow>(
    alloc: Global,
    way: Way,
    core: &mut Core,
    transcript: &[u8],
    drivers: &mut D,
) -> Result<bool, OutOfMemory>
    requires ready { IsReady core.old (D.seen drivers.old) }
    ensures ready { IsReady core.new (D.seen drivers.new) }
{
    let mut said = Bytes::new(alloc);
    let mut cutter = LineCutter::new(alloc)?;
    for byte in transcript {
        follow_byte(way, core, *byte, &mut cutter, &mut said, drivers)?;
    }
    Ok(said.as_slice() == transcript)
}

/// Each case has its replies, whose requests are made in this way.
pub fn hold(rt: &impl Abort, alloc: Global, way: Way, cases: &[Case<'_>]) -> Result<(), Fail> {
    for case in cases {
        let (mut core, mut drivers) = opened(alloc, RULES, case.failing)?;
        let before = follow(alloc, way, &mut core, case.before, &mut drivers)?;
        let then = follow(alloc, way, &mut core, case.transcript, &mut drivers)?;
        assert!(rt; before && then, "{}", case.name);
    }
    Ok(())
}
