//! The commands that read a whole input, judge it, and write what it says in another form.

ghost use Rattle.std.specs.Prelude.{IfErr, IfOk, MatchOption};
ghost use Rattle.rule_tables.specs.FileFormat.{ReadsAs};
ghost use Rattle.rule_tables.specs.declared.code.Alpha2.{Alpha2};
ghost use Rattle.db_commands.specs.Conversions.{GivesOutput, IsConversion, IsConversionRefusal, NamesConversion};

use crate::common_report::common_report;
use crate::count_report::count_line;
use crate::lint_report::lint_report;
use crate::status::InputFault;
use crate::words::{are_only, codes_named};
use db_reader::{ReadFault, read_db};
use db_text::{ParseFault, PrintFault, parse, print};
use db_writer::{WriteFault, layout};
use reg_base::Bytes;
use reg_lists::OutOfMemory;
use rule_tables::{Alpha2, Db};
use std::alloc::Global;

/// A command that reads a whole input, and writes what it says in another form. Its only form is
/// its name alone, and behind that of `common` two codes.
#[derive(Clone, Copy, Debug, PartialEq, Eq)]
pub enum Conversion {
    /// From a rule text to the file of its database.
    Compile,
    /// From a database file to its text.
    Decompile,
    /// From a database file to how many countries and rules it has.
    Check,
    /// From a database file to notes on its rules.
    Lint,
    /// From a database file to what the countries of these codes allow together.
    Common { one: Alpha2, other: Alpha2 },
}

/// Why an input gives no output.
#[derive(Clone, Copy, Debug, PartialEq, Eq)]
pub enum Refusal {
    /// It isn't accepted.
    Fault(InputFault),
    /// No memory was found.
    OutOfMemory,
}

impl Conversion {
    /// The command whose form the words are, or `None` where they are the form of none.
    pub fn named(words: &[String]) -> Option<Conversion>
        ensures { MatchOption result (IsConversion words.now → ⊥) (NamesConversion words.now) }
    {
        if are_only(words, "compile") {
            Some(Conversion::Compile)
        } else if are_only(words, "decompile") {
            Some(Conversion::Decompile)
        } else if are_only(words, "check") {
            Some(Conversion::Check)
        } else if are_only(words, "lint") {
            Some(Conversion::Lint)
        } else {
            let (one, other) = codes_named(words)?;
            Some(Conversion::Common { one, other })
        }
    }

    /// What the command writes for the input, or why the input isn't accepted; `OutOfMemory` comes
    /// where no memory was found.
    pub fn output_for(self, alloc: Global, input: &[u8]) -> Result<Bytes, Refusal>
        ensures output { IfOk result (GivesOutput self input.now) }
        ensures cause { IfErr result (IsConversionRefusal self input.now) }
    {
        match self {
            Conversion::Compile => compiled(alloc, input),
            Conversion::Decompile => decompiled(alloc, input),
            Conversion::Check => counted(alloc, input),
            Conversion::Lint => linted(alloc, input),
            Conversion::Common { one, other } => shared(alloc, input, one, other),
        }
    }
}

/// The file of the database that the text stands for.
fn compiled(alloc: Global, text: &[u8]) -> Result<Bytes, Refusal>
    ensures output { IfOk result (GivesOutput Conversion.Compile text.now) }
    ensures cause { IfErr result (IsConversionRefusal Conversion.Compile text.now) }
{
    let db = match parse(alloc, text) {
        Ok(db) => db,
        Err(ParseFault::Text(fault)) => return Err(Refusal::Fault(InputFault::Text(fault))),
        Err(ParseFault::OutOfMemory) => return Err(Refusal::OutOfMemory),
    };
    match layout(alloc, &db) {
        Ok(bytes) => Ok(bytes),
        Err(WriteFault::TooLarge { words }) => Err(Refusal::Fault(InputFault::Layout { words })),
        Err(WriteFault::OutOfMemory) => Err(Refusal::OutOfMemory),
    }
}

/// The database that the bytes say.
fn database_in(alloc: Global, bytes: &[u8]) -> Result<Db, Refusal>
    ensures database { IfOk result (ReadsAs bytes.now) }
    ensures decompile { IfErr result (IsConversionRefusal Conversion.Decompile bytes.now) }
    ensures check { IfErr result (IsConversionRefusal Conversion.Check bytes.now) }
    ensures lint { IfErr result (IsConversionRefusal Conversion.Lint bytes.now) }
    ensures common { (one : Alpha2) (other : Alpha2) → IfErr result (IsConversionRefusal (Conversion.Common one other) bytes.now) }
{
    match read_db(alloc, bytes) {
        Ok(db) => Ok(db),
        Err(ReadFault::Bad(fault)) => Err(Refusal::Fault(InputFault::Database(fault))),
        Err(ReadFault::OutOfMemory) => Err(Refusal::OutOfMemory),
    }
}

/// The text of the database that the bytes say.
fn decompiled(alloc: Global, bytes: &[u8]) -> Result<Bytes, Refusal>
    ensures output { IfOk result (GivesOutput Conversion.Decompile bytes.now) }
    ensures cause { IfErr result (IsConversionRefusal Conversion.Decompile bytes.now) }
{
    let db = database_in(alloc, bytes)?;
    match print(alloc, &db) {
        Ok(text) => Ok(text),
        Err(PrintFault::CacTime { country, rule }) => {
            Err(Refusal::Fault(InputFault::CacTime { country, rule }))
        }
        Err(PrintFault::OutOfMemory) => Err(Refusal::OutOfMemory),
    }
}

/// The line that tells how many countries and rules the database has that the bytes say.
fn counted(alloc: Global, bytes: &[u8]) -> Result<Bytes, Refusal>
    ensures output { IfOk result (GivesOutput Conversion.Check bytes.now) }
    ensures cause { IfErr result (IsConversionRefusal Conversion.Check bytes.now) }
{
    let db = database_in(alloc, bytes)?;
    match count_line(alloc, db.as_slice()) {
        Ok(line) => Ok(line),
        Err(OutOfMemory) => Err(Refusal::OutOfMemory),
    }
}

/// The notes on the rules of the database that the bytes say.
fn linted(alloc: Global, bytes: &[u8]) -> Result<Bytes, Refusal>
    ensures output { IfOk result (GivesOutput Conversion.Lint bytes.now) }
    ensures cause { IfErr result (IsConversionRefusal Conversion.Lint bytes.now) }
{
    let db = database_in(alloc, bytes)?;
    match lint_report(alloc, &db) {
        Ok(text) => Ok(text),
        Err(OutOfMemory) => Err(Refusal::OutOfMemory),
    }
}

/// What the two countries of the database that the bytes say allow together.
fn shared(alloc: Global, bytes: &[u8], one: Alpha2, other: Alpha2) -> Result<Bytes, Refusal>
    ensures output { IfOk result (GivesOutput (Conversion.Common one other) bytes.now) }
    ensures cause { IfErr result (IsConversionRefusal (Conversion.Common one other) bytes.now) }
{
    let db = database_in(alloc, bytes)?;
    let Some(a) = db.find(one) else {
        return Err(Refusal::Fault(InputFault::NoCountry(one)));
    };
    let Some(b) = db.find(other) else {
        return Err(Refusal::Fault(InputFault::NoCountry(other)));
    };
    match common_report(alloc, a, b) {
        Ok(text) => Ok(text),
        Err(OutOfMemory) => Err(Refusal::OutOfMemory),
    }
}
