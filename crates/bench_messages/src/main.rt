//! Takes the messages of a stream that comes in pieces, so that it can be timed.
#![tactic(auto)]

mod pieces;

use crate::pieces::{Stop, take_stream};
use reg_base::StdSource;
use std::env;
use std::process::ExitCode;

/// How many bytes each piece has: the one word behind the program's name.
fn piece_size(rt: &HostRuntime) -> Option<usize> {
    let mut words = env::args(rt).ok()?.skip(1);
    words.next()?.as_str().parse::<usize>().ok()
}

/// Takes the messages of standard input in pieces of that size. The answer is how many bytes they
/// have.
fn run(rt: &HostRuntime) -> Result<u64, Stop> {
    let size = piece_size(rt).ok_or(Stop::Usage)?;
    take_stream(rt.alloc(), &mut StdSource::new(rt.stdin()), size)
}

fn main(rt: HostRuntime) -> ExitCode {
    let told = match run(&rt) {
        Ok(taken) => println!(rt; "{taken} bytes of messages"),
        Err(_stop) => return ExitCode::from(1),
    };
    ExitCode::from(u8::from(told.is_err()))
}
