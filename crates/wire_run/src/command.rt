//! The command `wire`: answers a stream of messages over a database.

ghost use Rattle.std.specs.Prelude.{◌≤◌, List, ℕ, MatchOption};
ghost use Rattle.core_runs.specs.Driven.{AreIdle};
ghost use Rattle.db_commands.specs.Devices.{around, devices, driven, stored};
ghost use Rattle.wire_run.specs.Wire.{IsWireStatus, NamesWire};

use crate::reading::answer_stream;
use db_commands::Status;
use reg_base::{Files, Sink, Source};
use reg_core::{Core, DriverRow};
use script_run::read_database;
use std::alloc::Global;

/// The name of the database file behind `wire`, or `None` where the words aren't of that form.
pub fn database_named(words: &[String]) -> Option<&str>
    ensures { MatchOption result ((name : List ℕ) → NamesWire words.now name → ⊥) (λ name. NamesWire words.now name.now) }
{
    match words {
        [command, name] if command.as_str() == "wire" => Some(name.as_str()),
        _ => None,
    }
}

/// Reads the database file of that name and then a stream of messages in pieces. Each message is answered
/// as it is whole: by the messages of the reply to the request that it asks, or else by an errno. The first
/// thing that fails gives the status: the file, its database, and then what fails first in time. The first
/// fault of the stream ends it, and so do bytes behind the last message. Before `ReadFault` of the stream,
/// and before `TooLong` where it has more than 4,294,967,295 bytes, the messages were answered that were
/// taken whole within that limit.
pub fn wire<F: Files, S: Source, K: Sink, D: DriverRow>(
    alloc: Global,
    name: &str,
    files: &mut F,
    input: &mut S,
    out: &mut K,
    drivers: &mut D,
) -> Status
    requires idle { AreIdle 8 (D.seen drivers.old) }
    ensures file_faults { F.count files.old ≤ F.count files.new }
    ensures input_faults { S.count input.old ≤ S.count input.new }
    ensures output_faults { K.count out.old ≤ K.count out.new }
    ensures wire { IsWireStatus (devices
        (stored (F.holds files.old) (F.holds files.new) (F.count files.old) (F.count files.new))
        (around (S.left input.old) (S.left input.new) (S.count input.old) (S.count input.new))
        (around (K.held out.old) (K.held out.new) (K.count out.old) (K.count out.new))
        (driven (D.seen drivers.old) (D.seen drivers.new))) name.now result }
{
    let db = match read_database(alloc, name, files) {
        Ok(db) => db,
        Err(status) => return status,
    };
    match Core::new(alloc, db) {
        Ok(mut core) => answer_stream(alloc, &mut core, input, out, drivers),
        Err(_no_memory) => Status::NoMemory,
    }
}
