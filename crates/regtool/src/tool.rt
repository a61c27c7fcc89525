//! The program as a function of its words and of what it is lent.

ghost use Rattle.std.specs.Prelude.{◌≤◌, ℕ};
ghost use Rattle.regtool.specs.Answer.{IsStatusOf, IsComplete, TellsFault, TellsLength};
ghost use Rattle.db_commands.specs.Conversions.{IsConversion};
ghost use Rattle.make_command.specs.Make.{NamesMake};
ghost use Rattle.pack_command.specs.Pack.{NamesPack};
ghost use Rattle.db_commands.specs.Devices.{around, devices, driven, stored};
ghost use Rattle.core_runs.specs.Driven.{AreIdle};

#[cfg(test)]
mod tests;

use db_commands::{Conversion, Status, are_only, convert};
use make_command::{make, number_named};
use pack_command::pack;
use reg_base::{Files, Sink, Source};
use reg_core::DriverRow;
use script_run::{database_named, run};
use std::alloc::Global;
use wire_run::wire;

/// Runs the program on the words behind its name, with eight drivers of radios that were told nothing
/// yet. `compile` reads a rule text and writes its database, `decompile` reads a database and writes
/// its text, `check` reads one and writes how many countries and rules it has, `lint` reads one and
/// writes notes on its rules, and `common A2 B2` reads one and writes what two countries allow
/// together. `run DB` reads the database file DB and a script, and writes the replies to the script's
/// lines; `pack` writes the requests of a script as messages, and `wire DB` answers messages by
/// messages, over a database file. `make N` asks a core as many drawn requests and writes one line that
/// sums the replies up; other words are `Usage`. The first thing that fails gives the status, in the
/// order words, file, its database, input, the input's fault, writing.
pub fn regtool<F: Files, S: Source, K: Sink, D: DriverRow>(
    alloc: Global,
    words: &[String],
    files: &mut F,
    input: &mut S,
    out: &mut K,
    drivers: &mut D,
) -> Status
    requires idle { AreIdle 8 (D.seen drivers.old) }
    // What each status says of what was read and written, and told to the drivers.
    ensures answer { IsStatusOf words.now (devices
        (stored (F.holds files.old) (F.holds files.new) (F.count files.old) (F.count files.new))
        (around (S.left input.old) (S.left input.new) (S.count input.old) (S.count input.new))
        (around (K.held out.old) (K.held out.new) (K.count out.old) (K.count out.new))
        (driven (D.seen drivers.old) (D.seen drivers.new))) result }
    // That what is accepted gives its output.
    ensures complete { IsComplete words.now (devices
        (stored (F.holds files.old) (F.holds files.new) (F.count files.old) (F.count files.new))
        (around (S.left input.old) (S.left input.new) (S.count input.old) (S.count input.new))
        (around (K.held out.old) (K.held out.new) (K.count out.old) (K.count out.new))
        (driven (D.seen drivers.old) (D.seen drivers.new))) result }
    // That what has a fault is refused by that fault.
    ensures fault { TellsFault words.now (devices
        (stored (F.holds files.old) (F.holds files.new) (F.count files.old) (F.count files.new))
        (around (S.left input.old) (S.left input.new) (S.count input.old) (S.count input.new))
        (around (K.held out.old) (K.held out.new) (K.count out.old) (K.count out.new))
        (driven (D.seen drivers.old) (D.seen drivers.new))) result }
    // That what is above the limit is too long.
    ensures length { TellsLength words.now (devices
        (stored (F.holds files.old) (F.holds files.new) (F.count files.old) (F.count files.new))
        (around (S.left input.old) (S.left input.new) (S.count input.old) (S.count input.new))
        (around (K.held out.old) (K.held out.new) (K.count out.old) (K.count out.new))
        (driven (D.seen drivers.old) (D.seen drivers.new))) result }
    ensures file_faults { F.count files.old ≤ F.count files.new }
    ensures input_faults { S.count input.old ≤ S.count input.new }
    ensures output_faults { K.count out.old ≤ K.count out.new }
{
    dispatch(alloc, words, files, input, out, drivers)
}

/// Does what the words say.
fn dispatch<F: Files, S: Source, K: Sink, D: DriverRow>(
    alloc: Global,
    words: &[String],
    files: &mut F,
    input: &mut S,
    out: &mut K,
    drivers: &mut D,
) -> Status
    requires idle { AreIdle 8 (D.seen drivers.old) }
    ensures file_faults { F.count files.old ≤ F.count files.new }
    ensures input_faults { S.count input.old ≤ S.count input.new }
    ensures output_faults { K.count out.old ≤ K.count out.new }
    ensures answer { IsStatusOf words.now (devices
        (stored (F.holds files.old) (F.holds files.new) (F.count files.old) (F.count files.new))
        (around (S.left input.old) (S.left input.new) (S.count input.old) (S.count input.new))
        (around (K.held out.old) (K.held out.new) (K.count out.old) (K.count out.new))
        (driven (D.seen drivers.old) (D.seen drivers.new))) result }
{
    if are_only(words, "pack") {
        return pack(alloc, input, out);
    }
    match Conversion::named(words) {
        Some(command) => convert(command, alloc, input, out),
        None => match number_named(words) {
            Some(number) => make(alloc, number, out, drivers),
            None => dispatch_over_database(alloc, words, files, input, out, drivers),
        },
    }
}

/// Does what the words say of a database file.
fn dispatch_over_database<F: Files, S: Source, K: Sink, D: DriverRow>(
    alloc: Global,
    words: &[String],
    files: &mut F,
    input: &mut S,
    out: &mut K,
    drivers: &mut D,
) -> Status
    requires idle { AreIdle 8 (D.seen drivers.old) }
    requires no_conversion { IsConversion words.now → ⊥ }
    requires no_make { (n : ℕ) → NamesMake words.now n → ⊥ }
    requires no_pack { NamesPack words.now → ⊥ }
    ensures file_faults { F.count files.old ≤ F.count files.new }
    ensures input_faults { S.count input.old ≤ S.count input.new }
    ensures output_faults { K.count out.old ≤ K.count out.new }
    ensures answer { IsStatusOf words.now (devices
        (stored (F.holds files.old) (F.holds files.new) (F.count files.old) (F.count files.new))
        (around (S.left input.old) (S.left input.new) (S.count input.old) (S.count input.new))
        (around (K.held out.old) (K.held out.new) (K.count out.old) (K.count out.new))
        (driven (D.seen drivers.old) (D.seen drivers.new))) result }
{
    match database_named(words) {
        Some(name) => run(alloc, name, files, input, out, drivers),
        None => match wire_run::database_named(words) {
            Some(name) => wire(alloc, name, files, input, out, drivers),
            None => Status::Usage,
        },
    }
}
