//! Reads a stream of messages in pieces, and has them answered.

ghost use Rattle.std.specs.Prelude.{◌≡◌, [], ◌≤◌, List, None};
ghost use Rattle.rule_tables.specs.declared.domain.Domain.{Domain};
ghost use Rattle.nl_attrs.specs.Streams.{Decoding};
ghost use Rattle.reg_core.specs.Kept.{StandsFor};
ghost use Rattle.core_runs.specs.Driven.{AreIdle};
ghost use Rattle.db_commands.specs.Devices.{around, driven};
ghost use Rattle.wire_run.specs.Streaming.{IsWiring};
ghost use Rattle.wire_run.specs.inner.Steps.{IsEndStatus, IsReached, status_of_message_halt, status_of_stream_stop};

use crate::answering::Halt;
use crate::stream::{Stop, answer_held};
use db_commands::{InputFault, Status};
use nl_attrs::Decoder;
use reg_base::{Bytes, Sink, Source};
use reg_core::{Core, DriverRow};
use std::alloc::Global;

/// How many bytes a stream of messages may have.
const STREAM_LIMIT: usize = 4_294_967_295;

/// How many bytes are asked for at once.
const BUFFER: usize = 16_384;

/// Reads the stream in pieces to its end, and answers each message as it is whole.
pub fn answer_stream<S: Source, K: Sink, D: DriverRow>(
    alloc: Global,
    core: &mut Core,
    input: &mut S,
    out: &mut K,
    drivers: &mut D,
) -> Status
    requires ready { IsReached core.old (D.seen drivers.old) }
    requires idle { AreIdle 8 (D.seen drivers.old) }
    ensures wiring { (db : List Domain) → StandsFor db core.old [] → IsWiring db
        (around (S.left input.old) (S.left input.new) (S.count input.old) (S.count input.new))
        (around (K.held out.old) (K.held out.new) (K.count out.old) (K.count out.new))
        (driven (D.seen drivers.old) (D.seen drivers.new)) result }
    ensures input_faults { S.count input.old ≤ S.count input.new }
    ensures output_faults { K.count out.old ≤ K.count out.new }
{
    let mut decoder = Decoder::new(alloc);
    let mut text = Bytes::new(alloc);
    let mut buffer = [0u8; BUFFER];
    let mut left = STREAM_LIMIT;
    'reading: loop {
        let Ok(count) = input.read(&mut buffer) else {
            return Status::ReadFault;
        };
        if count == 0 {
            return status_at_end(&decoder);
        }
        if decoder.feed(&buffer[..count.min(left)]).is_err() {
            return Status::NoMemory;
        }
        if let Err(stop) = answer_held(core, &mut decoder, &mut text, out, drivers) {
            return status_of(stop);
        }
        if count > left {
            return Status::TooLong;
        }
        left -= count;
    }
}

/// What the command ends with where the stream ends.
fn status_at_end(decoder: &Decoder) -> Status
    requires sound { decoder.now.fault ≡ None }
    ensures { IsEndStatus decoder.now result }
{
    match decoder.finish() {
        Ok(()) => Status::Done,
        Err(fault) => Status::Refused(InputFault::Wire {
            place: decoder.taken(),
            fault,
        }),
    }
}

/// What the command ends with where the answering stops.
fn status_of(stop: Stop) -> Status
    ensures { result ≡ status_of_stream_stop stop }
{
    match stop {
        Stop::Halted(halt) => status_of_message_halt(halt),
        Stop::Faulty { place, fault } => Status::Refused(InputFault::Wire { place, fault }),
    }
}

/// What the command ends with where the answering of a message halts.
fn status_of_message_halt(halt: Halt) -> Status
    ensures { result ≡ status_of_message_halt halt }
{
    match halt {
        Halt::NoMemory => Status::NoMemory,
        Halt::WriteFault => Status::WriteFault,
    }
}
