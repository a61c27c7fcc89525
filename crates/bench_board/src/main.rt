//! Readers on threads of their own look at a table, while the main thread publishes new ones for as long as they look,
//! so that both can be timed: over a board whose readers never wait, or over a lock beside it.
#![tactic(auto)]

ghost use Rattle.std.specs.Prelude.{◌≤◌, IfOk};

mod locked;
mod race;
mod stop;
mod swapped;
mod table;

use crate::race::Count;
use crate::stop::Stop;
use std::alloc::Global;
use std::env;
use std::process::ExitCode;
use std::rt::Clock;
use std::sync::Wait;
use std::thread::Threads;
use std::time::Instant;

/// What the readers look at.
#[derive(Clone, Copy)]
enum Task {
    Swap,
    Lock,
}

/// What the three words behind the program's name say: the task, how many readers, and how many looks each takes.
fn named_task(rt: &HostRuntime) -> Result<(Task, u8, u32), Stop>
    ensures readers { IfOk result (λ t. (1 ≤ t.1) × (t.1 ≤ 8)) }
{
    let mut words = env::args(rt)?.skip(1);
    let task = match words.next().ok_or(Stop)?.as_str() {
        "swap" => Task::Swap,
        "lock" => Task::Lock,
        _ => return Err(Stop),
    };
    let readers = words.next().ok_or(Stop)?.parse::<u8>()?;
    let looks = words.next().ok_or(Stop)?.parse::<u32>()?;
    if readers == 0 || readers > 8 {
        return Err(Stop);
    }
    Ok((task, readers, looks))
}

/// Runs the task. What it found goes to standard output, and how many publishes it made in how long to standard error.
fn run<R: Clock + Print + Eprint + Threads + Wait + Sync>(
    rt: &R,
    alloc: Global,
    task: Task,
    readers: u8,
    looks: u32,
) -> Result<(), Stop>
    requires { (1 ≤ readers) × (readers ≤ 8) }
{
    let start = Instant::now(rt)?;
    let Count { back, publishes } = match task {
        Task::Swap => swapped::run(rt, alloc, readers, looks)?,
        Task::Lock => locked::run(rt, alloc, readers, looks)?,
    };
    let micros = start.elapsed(rt)?.as_micros();
    println!(rt; "{readers} readers, {looks} looks each: {back} went back or were torn")?;
    eprintln!(rt; "{publishes} publishes in {micros} us")?;
    Ok(())
}

fn main(rt: HostRuntime) -> ExitCode {
    let done = match named_task(&rt) {
        Ok((task, readers, looks)) => run(&rt, rt.alloc(), task, readers, looks),
        Err(stop) => Err(stop),
    };
    ExitCode::from(u8::from(done.is_err()))
}
