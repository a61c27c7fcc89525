//! Refusals by their codes. The last of each kind stands for a code that is none of the kind.

ghost use Rattle.std.specs.Prelude.{◌≡◌};
ghost use Rattle.reply_reading.specs.inner.Refusals.{bare_refusal, number_refusal, refusal_told, subchannel_refusal};

use crate::narrow::{khz_of, narrow8, narrow16};
use crate::payloads::radio_of;
use radio_drv::Name;
use reg_journal::Refusal;
use rule_tables::Alpha2;

/// A refusal that carries nothing.
fn bare_refusal(code: u32) -> Refusal
    ensures { result ≡ bare_refusal code }
{
    match code {
        26 => Refusal::Full,
        27 => Refusal::WrongType,
        28 => Refusal::Busy,
        29 => Refusal::BadChannel,
        42 => Refusal::DriverFailed,
        43 => Refusal::NothingToCheck,
        44 => Refusal::NotRunning,
        46 => Refusal::TooManyDomains,
        48 => Refusal::NoRules,
        _ => Refusal::ElementNotLetters,
    }
}

/// A refusal that carries a subchannel, in kHz.
fn subchannel_refusal(code: u32, khz: u32) -> Refusal
    ensures { result ≡ subchannel_refusal code khz }
{
    match code {
        30 => Refusal::RadioLacks(khz),
        33 => Refusal::NoRule(khz),
        34 => Refusal::Width(khz),
        35 => Refusal::NoOfdm(khz),
        36 => Refusal::NoIr(khz),
        37 => Refusal::NoOutdoor(khz),
        40 => Refusal::Radar(khz),
        _ => Refusal::Unchecked(khz),
    }
}

/// A refusal that carries another number.
fn number_refusal(code: u32, number: u64) -> Refusal
    ensures { result ≡ number_refusal code number }
{
    match code {
        20 => Refusal::MomentBack(number),
        21 => Refusal::MomentTooLarge(number),
        22 => Refusal::NoRadio(radio_of(number)),
        23 => Refusal::SlotUsed(radio_of(number)),
        31 => Refusal::RadioLacksWidth(narrow16(number)),
        32 => Refusal::RadioLacksContext(narrow8(number)),
        38 => Refusal::Power(narrow16(number)),
        39 => Refusal::RadioLacksRadarWidth(narrow16(number)),
        47 => Refusal::TooManyRows(number as usize),
        49 => Refusal::TooManyRules(number as usize),
        50 => Refusal::BadRule(number as usize),
        51 => Refusal::ElementShort(number as usize),
        _ => Refusal::ElementOdd(number as usize),
    }
}

/// The refusal with this code, which carries the number, the name, the code of a country or nothing.
pub fn refusal_told(code: u32, number: u64, name: Name, alpha2: Alpha2) -> Refusal
    ensures { result ≡ refusal_told code number name alpha2 }
{
    match code {
        24 => Refusal::NoInterface(name),
        25 => Refusal::NameTaken(name),
        45 => Refusal::NoCountry(alpha2),
        20..=23 | 31 | 32 | 38 | 39 | 47 | 49..=52 => number_refusal(code, number),
        30 | 33..=37 | 40 | 41 => subchannel_refusal(code, khz_of(number)),
        _ => bare_refusal(code),
    }
}
