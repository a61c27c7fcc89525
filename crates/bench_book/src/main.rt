//! Makes a million mixed calls to a book of 100 channels, so that they can be timed, or the same calls
//! to plain arrays beside it.
#![tactic(auto)]

mod calls;
mod count;
mod draws;
mod keeper;
mod plain;
mod stop;

use crate::calls::make_calls;
use crate::count::Count;
use crate::draws::{CHANNELS, Draws, centre_khz};
use crate::plain::Plain;
use crate::stop::Stop;
use dfs_states::DfsBook;
use std::env;
use std::io::Read;
use std::process::ExitCode;

/// What is timed.
#[derive(Clone, Copy)]
enum Task {
    Book,
    Plain,
}

/// The task that the one word behind the program's name says.
fn named_task(rt: &HostRuntime) -> Result<Task, Stop> {
    let mut words = env::args(rt)?.skip(1);
    let word = words.next().ok_or(Stop)?;
    match word.as_str() {
        "book" => Ok(Task::Book),
        "plain" => Ok(Task::Plain),
        _ => Err(Stop),
    }
}

/// The generator of calls that the bytes on standard input choose.
fn drawn(rt: &HostRuntime) -> Result<Draws, Stop> {
    let mut bytes = Vec::new(rt.alloc());
    rt.stdin().read_to_end(&mut bytes)?;
    Ok(Draws::new(bytes.as_slice()))
}

/// The book of the channels, in a region where checks last, as the plain arrays keep them.
fn book(rt: &HostRuntime) -> Result<DfsBook, Stop> {
    let mut centres = [0u32; CHANNELS];
    for (k, khz) in centres.iter_mut().enumerate() {
        *khz = centre_khz(k);
    }
    Ok(DfsBook::new(rt.alloc(), &centres, true)?)
}

/// What the task has found.
fn run(rt: &HostRuntime) -> Result<Count, Stop> {
    let task = named_task(rt)?;
    let mut draws = drawn(rt)?;
    match task {
        Task::Book => Ok(make_calls(&mut book(rt)?, &mut draws)),
        Task::Plain => Ok(make_calls(&mut Plain::new(), &mut draws)),
    }
}

fn main(rt: HostRuntime) -> ExitCode {
    let told = match run(&rt) {
        Ok(count) => println!(rt;
            "{} calls: {} checks, {} answers usable, {} available, {} unavailable",
            count.calls, count.begun, count.usable, count.available, count.unavailable
        ),
        Err(_stop) => return ExitCode::from(1),
    };
    ExitCode::from(u8::from(told.is_err()))
}
