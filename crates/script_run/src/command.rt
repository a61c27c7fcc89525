//! The command `run`: answers a script over a database.

ghost use Rattle.std.specs.Prelude.{◌≡◌, ◌≤◌, List, ℕ, MatchOption, MatchResult};
ghost use Rattle.rule_tables.specs.FileFormat.{ReadsAs};
ghost use Rattle.db_commands.specs.Devices.{AreGood, around, devices, driven, input_limit, stored};
ghost use Rattle.core_runs.specs.Driven.{AreIdle};
ghost use Rattle.script_run.specs.Run.{IsNoDatabase, IsRunStatus, NamesRun};

use crate::reading::answer_script;
use db_commands::{InputFault, Status};
use db_reader::{ReadFault, read_db};
use reg_base::{FileFault, Files, Sink, Source};
use reg_core::{Core, DriverRow};
use rule_tables::Db;
use std::alloc::Global;

/// How many bytes a database file may have.
const FILE_LIMIT: u64 = 16_777_216;

/// The name of the database file behind `run`, or `None` where the words aren't of that form.
pub fn database_named(words: &[String]) -> Option<&str>
    ensures { MatchOption result ((name : List ℕ) → NamesRun words.now name → ⊥) (λ name. NamesRun words.now name.now) }
{
    match words {
        [command, name] if command.as_str() == "run" => Some(name.as_str()),
        _ => None,
    }
}

/// Reads the database file of that name and then the script in pieces. Each line is answered as its
/// newline comes, and a last line without newline at the script's end. The first thing that fails gives
/// the status: the file, its database, and then what fails first in time. Before `ReadFault` of the
/// script, and before `TooLong` where it has more than 4,294,967,295 bytes, the lines were answered whose
/// newlines were taken within that limit.
pub fn run<F: Files, S: Source, K: Sink, D: DriverRow>(
    alloc: Global,
    name: &str,
    files: &mut F,
    input: &mut S,
    out: &mut K,
    drivers: &mut D,
) -> Status
    requires idle { AreIdle 8 (D.seen drivers.old) }
    ensures file_faults { F.count files.old ≤ F.count files.new }
    ensures input_faults { S.count input.old ≤ S.count input.new }
    ensures output_faults { K.count out.old ≤ K.count out.new }
    ensures run { IsRunStatus (devices
        (stored (F.holds files.old) (F.holds files.new) (F.count files.old) (F.count files.new))
        (around (S.left input.old) (S.left input.new) (S.count input.old) (S.count input.new))
        (around (K.held out.old) (K.held out.new) (K.count out.old) (K.count out.new))
        (driven (D.seen drivers.old) (D.seen drivers.new))) name.now result }
{
    let db = match read_database(alloc, name, files) {
        Ok(db) => db,
        Err(status) => return status,
    };
    match Core::new(alloc, db) {
        Ok(mut core) => answer_script(alloc, &mut core, input, out, drivers),
        Err(_no_memory) => Status::NoMemory,
    }
}

/// The database in the file of that name, or the status that tells why there is none.
pub fn read_database<F: Files>(alloc: Global, name: &str, files: &mut F) -> Result<Db, Status>
    ensures faults { F.count files.old ≤ F.count files.new }
    ensures database { MatchResult result
        (λ db. AreGood input_limit (F.holds files.old name.now) (λ bytes. ReadsAs bytes db))
        (IsNoDatabase (F.holds files.old name.now) (F.count files.old) (F.count files.new)) }
{
    let bytes = match files.read_file(alloc, name, FILE_LIMIT) {
        Ok(bytes) => bytes,
        Err(FileFault::Failed) => return Err(Status::ReadFault),
        Err(FileFault::TooLong) => return Err(Status::TooLong),
        Err(FileFault::OutOfMemory) => return Err(Status::NoMemory),
    };
    match read_db(alloc, bytes.as_slice()) {
        Ok(db) => Ok(db),
        Err(ReadFault::Bad(fault)) => Err(Status::Refused(InputFault::Database(fault))),
        Err(ReadFault::OutOfMemory) => Err(Status::NoMemory),
    }
}
