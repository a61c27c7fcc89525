//! Prints refusals.

ghost use Rattle.std.specs.Prelude.{◌≡◌, ◌++◌, OnOk};
ghost use Rattle.iw_commands.specs.Printed.{KeepsFront, refusal_text};

use crate::pieces_printer::{put_code, put_labelled, put_mhz, put_number, put_radio, put_text};
use reg_base::Bytes;
use reg_journal::Refusal;
use reg_lists::OutOfMemory;

/// Appends the text of a refusal.
#[tactic(auto, using(crate::proofs::Kept::steps))]
pub fn put_refusal(out: &mut Bytes, refusal: &Refusal) -> Result<(), OutOfMemory>
    ensures text { OnOk result (out.new ≡ out.old ++ refusal_text refusal.now) }
    ensures kept { KeepsFront out.old out.new }
{
    match refusal {
        Refusal::MomentBack(now) => put_number(out, b"moment back ", *now),
        Refusal::MomentTooLarge(asked) => put_number(out, b"moment too large ", *asked),
        Refusal::NoRadio(radio) => put_radio(out, b"no radio ", *radio),
        Refusal::SlotUsed(radio) => put_radio(out, b"slot used ", *radio),
        Refusal::NoInterface(name) => put_labelled(out, b"no interface ", name.as_bytes()),
        Refusal::NameTaken(name) => put_labelled(out, b"name taken ", name.as_bytes()),
        Refusal::Full => put_text(out, b"full"),
        Refusal::WrongType => put_text(out, b"wrong type"),
        Refusal::Busy => put_text(out, b"busy"),
        Refusal::BadChannel => put_text(out, b"bad channel"),
        Refusal::RadioLacks(khz) => put_mhz(out, b"radio lacks ", *khz),
        Refusal::RadioLacksWidth(mhz) => put_number(out, b"radio lacks width ", u64::from(*mhz)),
        Refusal::RadioLacksContext(most) => {
            put_number(out, b"radio lacks context ", u64::from(*most))
        }
        Refusal::NoRule(khz) => put_mhz(out, b"no rule ", *khz),
        Refusal::Width(khz) => put_mhz(out, b"width ", *khz),
        Refusal::NoOfdm(khz) => put_mhz(out, b"NO-OFDM ", *khz),
        Refusal::NoIr(khz) => put_mhz(out, b"NO-IR ", *khz),
        Refusal::NoOutdoor(khz) => put_mhz(out, b"NO-OUTDOOR ", *khz),
        Refusal::Power(limit) => put_number(out, b"power ", u64::from(*limit)),
        Refusal::RadioLacksRadarWidth(mhz) => {
            put_number(out, b"radio lacks radar width ", u64::from(*mhz))
        }
        Refusal::Radar(khz) => put_mhz(out, b"radar ", *khz),
        Refusal::Unchecked(khz) => put_mhz(out, b"unchecked ", *khz),
        Refusal::DriverFailed => put_text(out, b"driver failed"),
        Refusal::NothingToCheck => put_text(out, b"nothing to check"),
        Refusal::NotRunning => put_text(out, b"not running"),
        Refusal::NoCountry(code) => put_code(out, b"no country ", *code),
        Refusal::TooManyDomains => put_text(out, b"too many domains"),
        Refusal::TooManyRows(rows) => put_number(out, b"too many rows ", *rows as u64),
        Refusal::NoRules => put_text(out, b"no rules"),
        Refusal::TooManyRules(rules) => put_number(out, b"too many rules ", *rules as u64),
        Refusal::BadRule(place) => put_number(out, b"bad rule ", *place as u64),
        Refusal::ElementShort(bytes) => put_number(out, b"element short ", *bytes as u64),
        Refusal::ElementOdd(bytes) => put_number(out, b"element odd ", *bytes as u64),
        Refusal::ElementNotLetters => put_text(out, b"element not letters"),
    }
}
