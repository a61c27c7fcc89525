//! The command `make`: sums up what a core replies to made requests.

ghost use Rattle.std.specs.Prelude.{◌≤◌};
ghost use Rattle.core_runs.specs.Driven.{AreIdle};
ghost use Rattle.db_commands.specs.Devices.{around, driven};
ghost use Rattle.make_command.specs.Make.{IsMakeStatus};

use crate::answering::answer_made;
use db_commands::Status;
use reg_base::Sink;
use reg_core::DriverRow;
use std::alloc::Global;

/// Asks a core the made requests of this number: those of eight radios, and so many drawn ones. Then it
/// writes one line that sums the replies up: `Done`, `WriteFault`, or `NoMemory` with nothing written.
pub fn make<K: Sink, D: DriverRow>(
    alloc: Global,
    number: u32,
    out: &mut K,
    drivers: &mut D,
) -> Status
    requires some { 1 ≤ number }
    requires few { number ≤ 1000000 }
    requires idle { AreIdle 8 (D.seen drivers.old) }
    ensures made { IsMakeStatus number
        (around (K.held out.old) (K.held out.new) (K.count out.old) (K.count out.new))
        (driven (D.seen drivers.old) (D.seen drivers.new)) result }
    ensures output_faults { K.count out.old ≤ K.count out.new }
{
    let counts = match answer_made(alloc, number, drivers) {
        Ok(counts) => counts,
        Err(_no_memory) => return Status::NoMemory,
    };
    let line = match counts.line(alloc) {
        Ok(line) => line,
        Err(_no_memory) => return Status::NoMemory,
    };
    match out.write_all(line.as_bytes()) {
        Ok(()) => Status::Done,
        Err(_failed) => Status::WriteFault,
    }
}
