//! Prints the word at a slot.

ghost use Rattle.std.specs.Prelude.{◌≡◌, ◌++◌, All, OnOk};
ghost use Rattle.line_printing.specs.Printed.{IsPlainLineRule, text_at};

use crate::rules_printer::put_rules;
use freq_range::Rule;
use iw_dumps::{bands_text, kind_text, put_code, put_mhz, put_number, put_radio};
use line_forms::{Draft, Slot, text};
use reg_base::Bytes;
use reg_lists::OutOfMemory;

/// Appends the word that is printed at the slot where the line tells this and has these rules.
pub fn put_slot(
    out: &mut Bytes,
    slot: Slot,
    d: &Draft<'_>,
    rules: &[Rule],
) -> Result<(), OutOfMemory>
    requires { All IsPlainLineRule rules.now }
    ensures { OnOk result (out.new ≡ out.old ++ text_at rules.now d.now slot) }
{
    match slot {
        Slot::Fixed(word) => out.append(text(word)),
        Slot::Moment => put_number(out, d.moment()),
        Slot::Radio => put_radio(out, d.radio()),
        Slot::Bands => out.append(bands_text(d.profile().bands())),
        Slot::Width => put_number(out, u64::from(d.profile().width_mhz())),
        Slot::RadarWidth => put_number(out, u64::from(d.profile().radar_mhz())),
        Slot::MostPower => put_number(out, u64::from(d.profile().power_mbm())),
        Slot::Contexts => put_number(out, u64::from(d.profile().contexts())),
        Slot::Rules => put_rules(out, rules),
        Slot::Hex => out.append(d.digits()),
        Slot::Code => put_code(out, d.code()),
        Slot::Mhz => put_mhz(out, d.chan().control_khz),
        // Lines have frequencies in place of the numbers of channels.
        Slot::ChannelNo => Ok(()),
        Slot::WordForm => out.append(b"NOHT"),
        Slot::Twenty => out.append(b"20"),
        Slot::Wide => put_number(out, u64::from(d.chan().width.mhz())),
        Slot::Centre => put_mhz(out, d.chan().centre_khz),
        Slot::Name => out.append(d.name().as_bytes()),
        Slot::OfKind => out.append(kind_text(d.kind())),
        Slot::Power => put_number(out, u64::from(d.power())),
        Slot::Ssid => out.append(b"net"),
        Slot::Interval => out.append(b"100"),
        Slot::Dtim => out.append(b"2"),
    }
}
