//! Prints interfaces.

ghost use Rattle.std.specs.Prelude.{◌≡◌, ◌++◌, decimal, IfOk, OnOk};
ghost use Rattle.iw_dumps.specs.DumpTexts.{checking_text, doing_text, iface_line_text, iface_report_text, running_text, setting_text};

use crate::pieces::{put_channel, put_labelled, put_number, put_radio, put_u32};
use crate::words::{kind_text, operating_text};
use chan_def::{ChanDef, Kind};
use chan_flags::PowerSetting;
use reg_base::Bytes;
use reg_journal::{IfaceReport, IfaceState};
use reg_lists::OutOfMemory;
use std::alloc::Global;

/// Appends the name, index, radio and kind of an interface.
#[tactic(auto, unfolding(crate::specs::DumpTexts::iface_line_text))]
fn put_iface_line(out: &mut Bytes, r: &IfaceReport) -> Result<(), OutOfMemory>
    ensures { OnOk result (out.new ≡ out.old ++ iface_line_text r.now) }
{
    out.append(r.name.as_bytes())?;
    out.append(b" ")?;
    put_u32(out, r.index.0)?;
    out.append(b" ")?;
    put_radio(out, r.radio)?;
    out.append(b" ")?;
    out.append(kind_text(r.kind))?;
    Ok(())
}

/// Appends a label and a power, in mBm.
fn put_power(out: &mut Bytes, label: &[u8], power_mbm: u16) -> Result<(), OutOfMemory>
    ensures { OnOk result (out.new ≡ out.old ++ (label.now ++ decimal power_mbm)) }
{
    put_labelled(out, label, u64::from(power_mbm))?;
    Ok(())
}

/// Appends the setting of its power, in mBm.
fn put_setting(out: &mut Bytes, setting: PowerSetting) -> Result<(), OutOfMemory>
    ensures { OnOk result (out.new ≡ out.old ++ setting_text setting) }
{
    match setting {
        PowerSetting::Auto => out.append(b"\ttxpower auto"),
        PowerSetting::Limit(power) => put_power(out, b"\ttxpower limit ", power),
        PowerSetting::Fixed(power) => put_power(out, b"\ttxpower fixed ", power),
    }
}

/// Appends a check that runs up to a moment, in ms.
#[tactic(auto, unfolding(crate::specs::DumpTexts::checking_text))]
fn put_checking(out: &mut Bytes, chan: &ChanDef, until: u64) -> Result<(), OutOfMemory>
    ensures { OnOk result (out.new ≡ out.old ++ checking_text chan.now until) }
{
    out.append(b"\tcheck ")?;
    put_channel(out, chan)?;
    out.append(b" until ")?;
    put_number(out, until)?;
    Ok(())
}

/// Appends an operation of this kind, with its power in mBm.
#[tactic(auto, unfolding(crate::specs::DumpTexts::running_text))]
fn put_running(
    out: &mut Bytes,
    kind: Kind,
    chan: &ChanDef,
    power_mbm: u16,
) -> Result<(), OutOfMemory>
    ensures { OnOk result (out.new ≡ out.old ++ running_text kind chan.now power_mbm) }
{
    out.append(b"\t")?;
    out.append(operating_text(kind))?;
    out.append(b" ")?;
    put_channel(out, chan)?;
    put_power(out, b" ", power_mbm)?;
    Ok(())
}

/// Appends what an interface of this kind does.
fn put_doing(out: &mut Bytes, kind: Kind, state: &IfaceState) -> Result<(), OutOfMemory>
    ensures { OnOk result (out.new ≡ out.old ++ doing_text kind state.now) }
{
    match state {
        IfaceState::Idle => out.append(b"\tidle"),
        IfaceState::Checking { chan, until } => put_checking(out, chan, *until),
        IfaceState::Running { chan, power_mbm } => put_running(out, kind, chan, *power_mbm),
    }
}

/// The text of an interface (`iw dev info`): a line with its name, index, radio and kind, one with the
/// setting of its power in mBm, and one with what it does, on which channel in MHz, with moments in ms and
/// powers in mBm. `OutOfMemory` is its one error.
pub fn iface_report_text(alloc: Global, report: &IfaceReport) -> Result<Bytes, OutOfMemory>
    ensures text { IfOk result (λ text. text ≡ iface_report_text report.now) }
{
    let mut out = Bytes::new(alloc);
    put_iface_line(&mut out, report)?;
    out.push(b'\n')?;
    put_setting(&mut out, report.setting)?;
    out.push(b'\n')?;
    put_doing(&mut out, report.kind, &report.state)?;
    out.push(b'\n')?;
    Ok(out)
}
