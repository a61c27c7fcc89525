//! Why a rule text isn't accepted.

ghost use Rattle.std.specs.Prelude.{◌≡◌};
ghost use Rattle.rule_text.specs.declared.fault.ParseFault.TheVariants.{OutOfMemory as ParseOutOfMemory};

use text_lines::TextKind;
use thiserror::Error;

/// Which line of a text is at fault, counted from 1, and what is wrong with it.
#[derive(Clone, Copy, Debug, PartialEq, Eq, Error)]
#[error("line {line}: {kind}")]
pub struct TextFault {
    pub line: u64,
    pub kind: TextKind,
}

/// Why a text gives no database.
#[derive(Clone, Copy, Debug, PartialEq, Eq, Error)]
pub enum ParseFault {
    /// The text isn't accepted.
    #[error("{0}")]
    Text(TextFault),
    /// No memory was found.
    #[error("no memory")]
    OutOfMemory,
}

impl From<reg_lists::OutOfMemory> for ParseFault {
    ghost from_gives = { λ _ e. e ≡ ParseOutOfMemory };

    fn from(_error: reg_lists::OutOfMemory) -> ParseFault {
        ParseFault::OutOfMemory
    }
}
