//! What is wrong with a line.

ghost use Rattle.std.specs.Prelude.{◌≡◌};
ghost use Rattle.text_lines.specs.declared.fault.LineStop.TheVariants.{OutOfMemory};
ghost use Rattle.text_lines.specs.declared.fault.RuleTextFault.TheVariants.{Kind, OutOfMemory as NoMemory};

use std::alloc::{AllocError, AllocFailed};
use thiserror::Error;

/// What is wrong with a line, in the order in which a line is judged.
#[derive(Clone, Copy, Debug, PartialEq, Eq, Error)]
pub enum TextKind {
    /// The line has more than 4,096 bytes.
    #[error("LineTooLong")]
    LineTooLong,
    /// The line isn't UTF-8.
    #[error("NotUtf8")]
    NotUtf8,
    /// The line begins as none that there is.
    #[error("BadLine")]
    BadLine,
    /// A rule where the last header isn't a country's, or an item where it isn't a WMM rule's.
    #[error("NoBlock")]
    NoBlock,
    /// What stands up to the colon of a `country` line isn't the word and codes.
    #[error("BadCountry")]
    BadCountry,
    /// What follows the colon of a `country` line is neither a region nor nothing.
    #[error("BadRegion")]
    BadRegion,
    /// An earlier header of one of the countries has another region.
    #[error("RegionDiffers")]
    RegionDiffers,
    /// No valid band stands first in the line of a rule.
    #[error("BadBand")]
    BadBand,
    /// No comma and power follow the band.
    #[error("BadPower")]
    BadPower,
    /// What follows the power isn't a list of flags.
    #[error("BadFlag")]
    BadFlag,
    /// A flag is there that a file of version 20 has no bit for.
    #[error("FlagNotInVersion")]
    FlagNotInVersion,
    /// The WMM rule that is named has no header above.
    #[error("NoWmm")]
    NoWmm,
    /// The header or an item of a WMM rule isn't of its form, or the item was there before.
    #[error("BadWmm")]
    BadWmm,
    /// The name of the WMM rule has a header above.
    #[error("WmmTwice")]
    WmmTwice,
    /// Some country would have 129 rules.
    #[error("TooManyRules")]
    TooManyRules,
    /// The header of a WMM rule without all eight items.
    #[error("WmmShort")]
    WmmShort,
    /// The first header that names a country without rules.
    #[error("NoRules")]
    NoRules,
}

/// Why a text isn't the line of a rule.
#[derive(Clone, Copy, Debug, PartialEq, Eq, Error)]
pub enum RuleTextFault {
    /// The text isn't accepted.
    #[error("{0}")]
    Kind(TextKind),
    /// No memory was found.
    #[error("no memory")]
    OutOfMemory,
}

impl From<TextKind> for RuleTextFault {
    ghost from_gives = { λ kind fault. fault ≡ Kind kind };

    fn from(kind: TextKind) -> RuleTextFault {
        RuleTextFault::Kind(kind)
    }
}

impl From<reg_lists::OutOfMemory> for RuleTextFault {
    ghost from_gives = { λ _ fault. fault ≡ NoMemory };

    fn from(_error: reg_lists::OutOfMemory) -> RuleTextFault {
        RuleTextFault::OutOfMemory
    }
}

/// Why a line isn't taken.
#[derive(Clone, Copy, Debug, PartialEq, Eq)]
pub enum LineStop {
    /// It isn't accepted there.
    Kind(TextKind),
    /// No memory was found.
    OutOfMemory,
}

impl From<AllocError> for LineStop {
    ghost from_gives = { λ _ e. e ≡ OutOfMemory };

    fn from(_error: AllocError) -> LineStop {
        LineStop::OutOfMemory
    }
}

impl<T: Drop> From<AllocFailed<T>> for LineStop {
    ghost from_gives = { λ _ e. e ≡ OutOfMemory };

    fn from(_error: AllocFailed<T>) -> LineStop {
        LineStop::OutOfMemory
    }
}

impl From<reg_lists::OutOfMemory> for LineStop {
    ghost from_gives = { λ _ e. e ≡ OutOfMemory };

    fn from(_error: reg_lists::OutOfMemory) -> LineStop {
        LineStop::OutOfMemory
    }
}
