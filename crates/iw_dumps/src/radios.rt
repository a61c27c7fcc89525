//! Prints radios.

ghost use Rattle.std.specs.Prelude.{◌≡◌, ◌++◌, IfOk, OnOk};
ghost use Rattle.std.specs.List.{flat_map};
ghost use Rattle.reg_base.specs.Texts.{line_of};
ghost use Rattle.iw_dumps.specs.DumpTexts.{profile_limits_text, profile_range_text, radio_line_text, radio_report_text, shown_iface_text};

use crate::pieces::{put_if, put_number, put_radio, put_u32};
use crate::words::{bands_text, kind_text};
use chan_def::Kind;
use chan_flags::Profile;
use radio_drv::{IfIndex, Name};
use reg_base::Bytes;
use reg_journal::RadioReport;
use reg_lists::OutOfMemory;
use std::alloc::Global;

/// Appends the bands of a radio, and its widths in MHz.
#[tactic(auto, unfolding(crate::specs::DumpTexts::profile_range_text))]
fn put_profile_range(out: &mut Bytes, p: &Profile) -> Result<(), OutOfMemory>
    ensures { OnOk result (out.new ≡ out.old ++ profile_range_text p.now) }
{
    out.append(b" bands ")?;
    out.append(bands_text(p.bands()))?;
    out.append(b" width ")?;
    put_number(out, u64::from(p.width_mhz()))?;
    out.append(b" radar ")?;
    put_number(out, u64::from(p.radar_mhz()))?;
    Ok(())
}

/// Appends its power in mBm, its contexts, and what is special about it.
#[tactic(auto, unfolding(crate::specs::DumpTexts::profile_limits_text))]
fn put_profile_limits(out: &mut Bytes, p: &Profile) -> Result<(), OutOfMemory>
    ensures { OnOk result (out.new ≡ out.old ++ profile_limits_text p.now) }
{
    out.append(b" power ")?;
    put_number(out, u64::from(p.power_mbm()))?;
    out.append(b" contexts ")?;
    put_number(out, u64::from(p.contexts()))?;
    put_if(out, p.self_managed(), b" self")?;
    put_if(out, p.deaf(), b" noie")?;
    Ok(())
}

/// Appends a radio and what it can do.
#[tactic(auto, unfolding(crate::specs::DumpTexts::radio_line_text))]
fn put_radio_line(out: &mut Bytes, report: &RadioReport) -> Result<(), OutOfMemory>
    ensures { OnOk result (out.new ≡ out.old ++ radio_line_text report.now) }
{
    put_radio(out, report.radio)?;
    put_profile_range(out, &report.profile)?;
    put_profile_limits(out, &report.profile)?;
    Ok(())
}

/// Appends an interface of a radio: its name, index and kind.
#[tactic(auto, unfolding(crate::specs::DumpTexts::shown_iface_text))]
fn put_iface(out: &mut Bytes, shown: &(Name, IfIndex, Kind)) -> Result<(), OutOfMemory>
    ensures { OnOk result (out.new ≡ out.old ++ shown_iface_text shown.now) }
{
    let (name, index, kind) = *shown;
    out.append(b"\t")?;
    out.append(name.as_bytes())?;
    out.append(b" ")?;
    put_u32(out, index.0)?;
    out.append(b" ")?;
    out.append(kind_text(kind))?;
    Ok(())
}

/// Appends the line of an interface.
fn put_iface_line(out: &mut Bytes, shown: &(Name, IfIndex, Kind)) -> Result<(), OutOfMemory>
    ensures { OnOk result (out.new ≡ out.old ++ line_of (shown_iface_text shown.now)) }
{
    put_iface(out, shown)?;
    out.push(b'\n')?;
    Ok(())
}

/// Appends a line for each interface.
fn put_ifaces(out: &mut Bytes, ifaces: &[(Name, IfIndex, Kind)]) -> Result<(), OutOfMemory>
    ensures { OnOk result (out.new ≡ out.old ++ flat_map (λ x. line_of (shown_iface_text x)) ifaces.now) }
{
    for shown in ifaces {
        put_iface_line(out, shown)?;
    }
    Ok(())
}

/// The text of a radio (`iw phy info`): a line with its bands, its widths in MHz, its power in mBm and its
/// contexts, and a line for each of its interfaces. `OutOfMemory` is its one error.
pub fn radio_report_text(alloc: Global, report: &RadioReport) -> Result<Bytes, OutOfMemory>
    ensures text { IfOk result (λ text. text ≡ radio_report_text report.now) }
{
    let mut out = Bytes::new(alloc);
    put_radio_line(&mut out, report)?;
    out.push(b'\n')?;
    put_ifaces(&mut out, report.ifaces.as_slice())?;
    Ok(out)
}
