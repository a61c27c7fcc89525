//! Writes the attributes of a command.

ghost use Rattle.std.specs.Prelude.{◌≡◌, ◌/◌, ◌≤◌, ◌++◌, ◌∷◌, [], length, OnOk};
ghost use Rattle.nl_attrs.specs.Attributes.{attrs_bytes};
ghost use Rattle.nl_attrs.specs.Nesting.{nested_with};
ghost use Rattle.nl80211_cmds.specs.Rules.{nested_rules};
ghost use Rattle.nl80211_cmds.specs.Fields.{chan_attrs, field_attrs, fields_attrs, power_attrs, profile_attrs, text_attr};
ghost use Rattle.nl80211_cmds.specs.Values.{band_bits, iftype_number, number_attr, plain_attr, profile_bits};
ghost use Rattle.nl_attrs.specs.Payloads.{attr_with};

use crate::attribute::{BANDS, CONTEXTS, POWER, PROFILE_FLAGS, RADAR_MHZ, WIDTH_MHZ};
use crate::draft::Draft;
use crate::field::Field;
use crate::rule_writer::rules_bytes;
use chan_def::{ChanDef, Kind};
use chan_flags::{Bands, PowerSetting, Profile};
use freq_range::Rule;
use nl_attrs::{Attr, AttrList, Payload};
use reg_lists::OutOfMemory;

/// Appends an attribute that holds no others.
pub fn push_plain(out: &mut AttrList, kind: u16, payload: Payload<'_>) -> Result<(), OutOfMemory>
    ensures { OnOk result (out.new ≡ out.old ++ attr_with kind payload.entry ∷ []) }
{
    let attr = Attr::new(out.allocator(), kind, payload)?;
    out.push(attr)?;
    Ok(())
}

/// Appends a number.
pub fn push_number(out: &mut AttrList, kind: u16, number: u32) -> Result<(), OutOfMemory>
    ensures { OnOk result (out.new ≡ out.old ++ number_attr kind number ∷ []) }
{
    push_plain(out, kind, Payload::U32(number))
}

/// Appends a text.
pub fn push_text(out: &mut AttrList, kind: u16, text: &[u8]) -> Result<(), OutOfMemory>
    ensures { OnOk result (out.new ≡ out.old ++ text_attr kind text.now ∷ []) }
{
    push_plain(out, kind, Payload::Text(text))
}

/// Appends a channel: its control frequency and its centre in MHz, and its width, under these kinds.
/// After `OutOfMemory` a part of it may be there, as with the calls below.
pub fn push_chan(
    out: &mut AttrList,
    frequency: u16,
    width: u16,
    centre: u16,
    c: ChanDef,
) -> Result<(), OutOfMemory>
    ensures { OnOk result (out.new ≡ out.old ++ chan_attrs frequency width centre c) }
{
    push_number(out, frequency, c.control_khz / 1_000)?;
    push_number(out, width, c.width.number())?;
    push_number(out, centre, c.centre_khz / 1_000)
}

/// Appends how power is set, and to what power, in mBm.
pub fn push_power(
    out: &mut AttrList,
    setting: u16,
    level: u16,
    power: PowerSetting,
) -> Result<(), OutOfMemory>
    ensures { OnOk result (out.new ≡ out.old ++ power_attrs setting level power) }
{
    match power {
        PowerSetting::Auto => push_number(out, setting, 0),
        PowerSetting::Limit(power) => {
            push_number(out, setting, 1)?;
            push_number(out, level, u32::from(power))
        }
        PowerSetting::Fixed(power) => {
            push_number(out, setting, 2)?;
            push_number(out, level, u32::from(power))
        }
    }
}

/// A bit for each band.
fn band_bits(bands: Bands) -> u32
    ensures { result ≡ band_bits bands }
{
    u32::from(bands.ghz2) + 2 * u32::from(bands.ghz5) + 4 * u32::from(bands.ghz6)
}

/// Appends the attributes of a profile.
pub fn push_profile(out: &mut AttrList, p: &Profile) -> Result<(), OutOfMemory>
    ensures { OnOk result (out.new ≡ out.old ++ profile_attrs p.now) }
{
    let flags = u32::from(p.self_managed()) + 2 * u32::from(p.deaf());
    push_number(out, BANDS, band_bits(p.bands()))?;
    push_number(out, WIDTH_MHZ, u32::from(p.width_mhz()))?;
    push_number(out, RADAR_MHZ, u32::from(p.radar_mhz()))?;
    push_number(out, POWER, u32::from(p.power_mbm()))?;
    push_number(out, CONTEXTS, u32::from(p.contexts()))?;
    push_number(out, PROFILE_FLAGS, flags)
}

/// The number of a kind of interfaces (`enum nl80211_iftype`).
pub fn iftype_number(kind: Kind) -> u32
    ensures { result ≡ iftype_number kind }
{
    match kind {
        Kind::Ibss => 1,
        Kind::Station => 2,
        Kind::Ap => 3,
        Kind::Monitor => 6,
        Kind::Mesh => 7,
    }
}

/// Appends a list of rules, at most 32.
fn push_rules(out: &mut AttrList, kind: u16, rules: &[Rule]) -> Result<(), OutOfMemory>
    requires { length rules.now ≤ 32 }
    ensures { OnOk result (out.new ≡ out.old ++ nested_with kind (attrs_bytes (nested_rules 0 rules.now)) ∷ []) }
{
    let payload = rules_bytes(out.allocator(), rules)?;
    out.push(Attr {
        kind,
        nested: true,
        payload,
    })
}

/// Appends the attributes that tell a field. After `OutOfMemory` a part of them may be there.
fn push_field(out: &mut AttrList, field: Field, d: &Draft) -> Result<(), OutOfMemory>
    requires { length d.now.rules ≤ 32 }
    ensures { OnOk result (out.new ≡ out.old ++ field_attrs field d.now) }
{
    match field {
        Field::Radio(kind) => push_number(out, kind, d.radio.get()),
        Field::Name(kind) => push_text(out, kind, d.name.as_bytes()),
        Field::Kind(kind) => push_number(out, kind, iftype_number(d.kind)),
        Field::Code(kind) => push_text(out, kind, &[d.alpha2.a, d.alpha2.b]),
        Field::Chan(frequency, width, centre) => push_chan(out, frequency, width, centre, d.chan),
        Field::PlainChan(frequency, width, centre) => {
            push_chan(out, frequency, width, centre, d.chan)
        }
        Field::Power(setting, level) => push_power(out, setting, level, d.setting),
        Field::Moment(kind) => push_plain(out, kind, Payload::U64(d.moment)),
        Field::Switch(kind) => push_plain(out, kind, Payload::U8(u8::from(d.on))),
        Field::Profile => push_profile(out, &d.profile),
        Field::Rules(kind) => push_rules(out, kind, d.rules.as_slice()),
        Field::Body(kind) => push_plain(out, kind, Payload::Raw(d.body.as_slice())),
    }
}

/// Appends the attributes that tell fields, in their order. After `OutOfMemory` a part of them may be
/// there.
pub fn push_fields(out: &mut AttrList, fields: &[Field], d: &Draft) -> Result<(), OutOfMemory>
    requires { length d.now.rules ≤ 32 }
    ensures { OnOk result (out.new ≡ out.old ++ fields_attrs fields.now d.now) }
{
    for field in fields {
        push_field(out, *field, d)?;
    }
    Ok(())
}
