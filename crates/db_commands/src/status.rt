//! What a call of the program ends with.

ghost use Rattle.std.specs.Prelude.{◌≡◌, IfOk};
ghost use Rattle.reg_base.specs.Texts.{line_of};
ghost use Rattle.db_commands.specs.Status.{check_time_text, database_fault_name, fault_text, kind_name, no_country_text, status_number, text_of};

use crate::line::line_of;
use crate::stream_faults::{message_fault_name, script_fault_line};
use db_text::{TextFault, TextKind};
use line_forms::LineFault;
use nl_attrs::AttrFault;
use reg_base::Bytes;
use reg_lists::OutOfMemory;
use rule_tables::{Alpha2, DbFault};
use std::alloc::Global;

/// Why the input isn't accepted.
#[derive(Clone, Copy, Debug, PartialEq, Eq)]
pub enum InputFault {
    /// The rule text stands for no database.
    Text(TextFault),
    /// The bytes are no database file.
    Database(DbFault),
    /// The last collection of the database would stand at this place, in words of 4 bytes: above
    /// 65,535.
    Layout { words: u64 },
    /// The rule of that number of this country, counted from 0, is the first with a check time, which
    /// a rule text can't say.
    CacTime { country: Alpha2, rule: usize },
    /// The first of the two codes of `common` that no country of the database has.
    NoCountry(Alpha2),
    /// The first line of the script that has a fault, counted from 1.
    Line { number: u64, fault: LineFault },
    /// The first fault of a stream of messages, and where its message begins, in bytes.
    Wire { place: u64, fault: AttrFault },
}

/// What a call of the program ends with.
#[derive(Clone, Copy, Debug, PartialEq, Eq)]
pub enum Status {
    /// All output was written.
    Done,
    /// The words are none that the program knows.
    Usage,
    /// The input isn't accepted.
    Refused(InputFault),
    /// The input could not be read.
    ReadFault,
    /// The output could not be written.
    WriteFault,
    /// No memory was found.
    NoMemory,
    /// The input has more bytes than the limit.
    TooLong,
}

impl Status {
    /// The status that the process ends with.
    pub fn number(&self) -> u8
        ensures { result ≡ status_number self.now }
    {
        match self {
            Status::Done => 0,
            Status::Usage => 1,
            Status::Refused(_) => 2,
            Status::ReadFault => 3,
            Status::WriteFault => 4,
            Status::NoMemory => 5,
            Status::TooLong => 6,
        }
    }
}

/// What is written to standard error: a line that ends with a newline, and no bytes for `Done`.
pub fn status_text(alloc: Global, status: &Status) -> Result<Bytes, OutOfMemory>
    ensures { IfOk result (λ text. text ≡ text_of status.now) }
{
    match status {
        Status::Done => Ok(Bytes::new(alloc)),
        Status::Usage => line_of(alloc, b"usage"),
        Status::Refused(fault) => fault_line(alloc, fault),
        Status::ReadFault => line_of(alloc, b"read fault"),
        Status::WriteFault => line_of(alloc, b"write fault"),
        Status::NoMemory => line_of(alloc, b"no memory"),
        Status::TooLong => line_of(alloc, b"input too long"),
    }
}

/// The line that tells the fault.
fn fault_line(alloc: Global, fault: &InputFault) -> Result<Bytes, OutOfMemory>
    ensures { IfOk result (λ text. text ≡ line_of (fault_text fault.now)) }
{
    let text = match fault {
        InputFault::Text(fault) => {
            let kind = kind_name(fault.kind);
            format!(in alloc; "line {}: {kind}", fault.line)?
        }
        InputFault::Database(fault) => {
            let name = database_fault_name(fault);
            format!(in alloc; "database: {name}")?
        }
        InputFault::Layout { words } => format!(in alloc; "too large: {words} words")?,
        InputFault::CacTime { country, rule } => return check_time_line(alloc, country, *rule),
        InputFault::NoCountry(code) => return no_country_line(alloc, code),
        InputFault::Line { number, fault } => return script_fault_line(alloc, *number, fault),
        InputFault::Wire { place, fault } => {
            let name = message_fault_name(fault);
            format!(in alloc; "message at byte {place}: {name}")?
        }
    };
    line_of(alloc, text.as_bytes())
}

/// The line that tells the rule with a check time.
fn check_time_line(alloc: Global, country: &Alpha2, rule: usize) -> Result<Bytes, OutOfMemory>
    ensures { IfOk result (λ text. text ≡ line_of (check_time_text country.now rule)) }
{
    let number = format!(in alloc; " rule {rule}")?;
    let mut text = Bytes::new(alloc);
    text.append(b"check time in ")?;
    text.append(&[country.a, country.b])?;
    text.append(number.as_bytes())?;
    line_of(alloc, text.as_slice())
}

/// The line that tells the code that no country of the database has.
fn no_country_line(alloc: Global, code: &Alpha2) -> Result<Bytes, OutOfMemory>
    ensures { IfOk result (λ text. text ≡ line_of (no_country_text code.now)) }
{
    let mut text = Bytes::new(alloc);
    text.append(b"no country ")?;
    text.append(&[code.a, code.b])?;
    line_of(alloc, text.as_slice())
}

/// The name of the kind.
fn kind_name(kind: TextKind) -> &'static str
    ensures { result.now ≡ kind_name kind }
{
    match kind {
        TextKind::LineTooLong => "LineTooLong",
        TextKind::NotUtf8 => "NotUtf8",
        TextKind::BadLine => "BadLine",
        TextKind::NoBlock => "NoBlock",
        TextKind::BadCountry => "BadCountry",
        TextKind::BadRegion => "BadRegion",
        TextKind::RegionDiffers => "RegionDiffers",
        TextKind::BadBand => "BadBand",
        TextKind::BadPower => "BadPower",
        TextKind::BadFlag => "BadFlag",
        TextKind::FlagNotInVersion => "FlagNotInVersion",
        TextKind::NoWmm => "NoWmm",
        TextKind::BadWmm => "BadWmm",
        TextKind::WmmTwice => "WmmTwice",
        TextKind::TooManyRules => "TooManyRules",
        TextKind::WmmShort => "WmmShort",
        TextKind::NoRules => "NoRules",
    }
}

/// The name of the fault, without its values.
fn database_fault_name(fault: &DbFault) -> &'static str
    ensures { result.now ≡ database_fault_name fault.now }
{
    match fault {
        DbFault::Short(_) => "Short",
        DbFault::BadMagic(_) => "BadMagic",
        DbFault::BadVersion(_) => "BadVersion",
        DbFault::BadAlpha2(_, _) => "BadAlpha2",
        DbFault::CountryTwice(_) => "CountryTwice",
        DbFault::BadCollection(_) => "BadCollection",
        DbFault::BadRegion(_, _) => "BadRegion",
        DbFault::BadRule(_, _) => "BadRule",
        DbFault::BadWmm(_, _) => "BadWmm",
    }
}
