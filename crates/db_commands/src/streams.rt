//! Carries a conversion out, from a source to a sink.

ghost use Rattle.std.specs.Prelude.{◌≤◌};
ghost use Rattle.db_commands.specs.Converted.{IsConverted};
ghost use Rattle.db_commands.specs.Devices.{around};

use crate::conversion::{Conversion, Refusal};
use crate::status::Status;
use reg_base::{FileFault, Sink, Source, read_to_end};
use std::alloc::Global;

/// How many bytes a rule text or a database may have.
const INPUT_LIMIT: usize = 16_777_216;

/// Reads the input to its end, and writes what the command gives for it once all of it is
/// accepted.
pub fn convert<S: Source, K: Sink>(
    command: Conversion,
    alloc: Global,
    input: &mut S,
    out: &mut K,
) -> Status
    ensures input_faults { S.count input.old ≤ S.count input.new }
    ensures output_faults { K.count out.old ≤ K.count out.new }
    ensures converted { IsConverted command
        (around (S.left input.old) (S.left input.new) (S.count input.old) (S.count input.new))
        (around (K.held out.old) (K.held out.new) (K.count out.old) (K.count out.new)) result }
{
    let given = match read_to_end(alloc, input, INPUT_LIMIT) {
        Ok(given) => given,
        Err(FileFault::Failed) => return Status::ReadFault,
        Err(FileFault::TooLong) => return Status::TooLong,
        Err(FileFault::OutOfMemory) => return Status::NoMemory,
    };
    let bytes = match command.output_for(alloc, given.as_slice()) {
        Ok(bytes) => bytes,
        Err(Refusal::Fault(fault)) => return Status::Refused(fault),
        Err(Refusal::OutOfMemory) => return Status::NoMemory,
    };
    match out.write_all(bytes.as_slice()) {
        Ok(()) => Status::Done,
        Err(_failed) => Status::WriteFault,
    }
}
