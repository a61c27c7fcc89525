//! Interfaces by what messages say of them.

ghost use Rattle.std.specs.Prelude.{◌≡◌, ◌∷◌, ◌++◌, [], List, IfOk};
ghost use Rattle.nl_attrs.specs.declared.attr.Attr.{Attr};
ghost use Rattle.chan_def.specs.declared.definition.ChanDef.{ChanDef};
ghost use Rattle.chan_flags.specs.declared.verdict.PowerSetting.{PowerSetting};
ghost use Rattle.reg_journal.specs.Requests.{FitsPowerField};
ghost use Rattle.nl80211_cmds.specs.Fields.{chan_attrs, power_attrs};
ghost use Rattle.nl80211_cmds.specs.declared.attribute.TheConstants.{CENTRE, FREQ, TX_POWER_LEVEL, TX_POWER_SETTING, WIDTH};
ghost use Rattle.nl80211_replies.specs.Dumps.{iface_attrs, state_attrs};
ghost use Rattle.reply_reading.specs.inner.Reading.{IsToldDef, IsToldReport, IsToldState, Undoes};
ghost use Rattle.reply_reading.specs.inner.Values.{setting_numbered, state_numbered};

use crate::narrow::{khz_of, narrow16};
use crate::payloads::{attrs_from, held_in, name_at, number_at, payload_at, radio_of, wide_at};
use crate::values::{kind_numbered, width_numbered};
use chan_def::ChanDef;
use chan_flags::PowerSetting;
use nl_attrs::Attr;
use radio_drv::IfIndex;
use reg_journal::{IfaceReport, IfaceState};
use reg_lists::OutOfMemory;
use std::alloc::Global;

/// The channel that the attributes behind the first tell.
fn chan_in(held: &[Attr]) -> ChanDef
    ensures { (chan : ChanDef) (a : Attr) (more : List Attr) → IsToldDef chan
        → held.now ≡ a ∷ chan_attrs FREQ WIDTH CENTRE chan ++ more → result ≡ chan }
{
    ChanDef {
        control_khz: khz_of(u64::from(number_at(held, 1))),
        width: width_numbered(number_at(held, 2)),
        centre_khz: khz_of(u64::from(number_at(held, 3))),
    }
}

/// What an interface does, by its number, and the channel and the number that go with it.
fn state_numbered(number: u32, chan: ChanDef, told: u64) -> IfaceState
    ensures { result ≡ state_numbered number chan told }
{
    match number {
        0 => IfaceState::Idle,
        1 => IfaceState::Checking { chan, until: told },
        _ => IfaceState::Running {
            chan,
            power_mbm: narrow16(told),
        },
    }
}

/// What an interface does, as the attributes tell it.
fn state_in(held: &[Attr]) -> IfaceState
    ensures { Undoes IsToldState state_attrs held.now result }
{
    state_numbered(number_at(held, 0), chan_in(held), wide_at(held, 4))
}

/// How power is set, by its number and the power that goes with it, in mBm.
fn setting_numbered(number: u32, power: u64) -> PowerSetting
    ensures { result ≡ setting_numbered number power }
{
    match number {
        0 => PowerSetting::Auto,
        1 => PowerSetting::Limit(narrow16(power)),
        _ => PowerSetting::Fixed(narrow16(power)),
    }
}

/// How power is set, by the first attribute and, where there is a power, the second.
fn setting_in(attrs: &[Attr]) -> PowerSetting
    ensures { (setting : PowerSetting) (more : List Attr) → FitsPowerField setting
        → attrs.now ≡ power_attrs TX_POWER_SETTING TX_POWER_LEVEL setting ++ more → result ≡ setting }
{
    setting_numbered(number_at(attrs, 0), u64::from(number_at(attrs, 1)))
}

/// The payload that tells what the interface does: that of the last of two or three attributes.
fn state_payload(attrs: &[Attr]) -> &[u8]
    ensures { (setting : PowerSetting) (a : Attr) → attrs.now ≡ power_attrs TX_POWER_SETTING TX_POWER_LEVEL setting ++ a ∷ []
        → result.now ≡ a.payload }
{
    if attrs.len() == 2 {
        payload_at(attrs, 1)
    } else {
        payload_at(attrs, 2)
    }
}

/// The interface that the attributes tell.
pub fn iface_in(alloc: Global, attrs: &[Attr]) -> Result<IfaceReport, OutOfMemory>
    ensures { IfOk result (Undoes IsToldReport iface_attrs attrs.now) }
{
    let more = attrs_from(attrs, 4);
    let held = held_in(alloc, state_payload(more))?;
    Ok(IfaceReport {
        name: name_at(attrs, 2),
        index: IfIndex(number_at(attrs, 1)),
        radio: radio_of(u64::from(number_at(attrs, 0))),
        kind: kind_numbered(number_at(attrs, 3)),
        setting: setting_in(more),
        state: state_in(held.as_slice()),
    })
}
