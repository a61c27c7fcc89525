//! Joins the domains of a rule text many times, so that it can be timed, or does a plain loop over
//! their rules beside it.
#![tactic(auto)]

mod count;
mod joined;
mod plain;
mod stop;

use crate::count::Count;
use crate::joined::join_often;
use crate::plain::compare_often;
use crate::stop::Stop;
use db_text::parse;
use rule_tables::Db;
use std::env;
use std::io::Read;
use std::process::ExitCode;

/// What is timed.
#[derive(Clone, Copy)]
enum Task {
    Joined,
    Plain,
}

/// The task that the one word behind the program's name says.
fn named_task(rt: &HostRuntime) -> Result<Task, Stop> {
    let mut words = env::args(rt)?.skip(1);
    let word = words.next().ok_or(Stop)?;
    match word.as_str() {
        "joined" => Ok(Task::Joined),
        "plain" => Ok(Task::Plain),
        _ => Err(Stop),
    }
}

/// The database of the text on standard input.
fn database(rt: &HostRuntime) -> Result<Db, Stop> {
    let mut text = Vec::new(rt.alloc());
    rt.stdin().read_to_end(&mut text)?;
    Ok(parse(rt.alloc(), text.as_slice())?)
}

/// What the task has done.
fn run(rt: &HostRuntime) -> Result<Count, Stop> {
    let task = named_task(rt)?;
    let db = database(rt)?;
    match task {
        Task::Joined => join_often(rt.alloc(), db.as_slice()),
        Task::Plain => Ok(compare_often(db.as_slice())),
    }
}

fn main(rt: HostRuntime) -> ExitCode {
    let told = match run(&rt) {
        Ok(count) => println!(rt; "{} pairs, {} in common", count.pairs, count.found),
        Err(_stop) => return ExitCode::from(1),
    };
    ExitCode::from(u8::from(told.is_err()))
}
