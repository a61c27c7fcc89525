//! Faults of lines.

use reg_lists::OutOfMemory;

/// What is wrong with a line. Places of words are counted from 1.
#[derive(Clone, Copy, Debug, PartialEq, Eq)]
pub enum LineFault {
    /// It has more than 4,096 bytes.
    TooLong,
    /// A byte is neither a tab nor one of ASCII from 0x20 to 0x7e.
    NotAscii,
    /// At this place only a fixed word or the end can stand, and another word stands there.
    Unknown(u64),
    /// At this place a number can stand, and the word is none.
    BadNumber(u64),
    /// The word at this place isn't of its form, or its value isn't accepted.
    BadForm(u64),
    /// The line ends early.
    Missing,
}

/// Why a line isn't read.
#[derive(Clone, Copy, Debug, PartialEq, Eq)]
pub enum ReadLineFault {
    /// The line has this fault.
    Line(LineFault),
    /// No memory was found.
    OutOfMemory,
}

impl From<OutOfMemory> for ReadLineFault {
    ghost use Rattle.std.specs.Prelude.{◌≡◌};
    ghost use Rattle.line_forms.specs.declared.fault.ReadLineFault.TheVariants.{OutOfMemory};

    ghost from_gives = { λ _ fault. fault ≡ OutOfMemory };

    fn from(_error: OutOfMemory) -> ReadLineFault {
        ReadLineFault::OutOfMemory
    }
}
