//! Prints dumps. Each is made whole, and then appended.

ghost use Rattle.std.specs.Prelude.{◌≡◌, ◌++◌, OnOk};
ghost use Rattle.iw_dumps.specs.DumpTexts.{channels_text, iface_report_text, radio_report_text, sections_text};
ghost use Rattle.iw_commands.specs.Printed.{KeepsFront};

use crate::pieces_printer::put_text;
use chan_flags::Chan;
use dfs_states::Dfs;
use iw_dumps::{channels_text, iface_report_text, radio_report_text, sections_text};
use reg_base::Bytes;
use reg_journal::{IfaceReport, RadioReport, Section};
use reg_lists::OutOfMemory;

/// Appends the text of the sections.
#[tactic(auto, using(crate::proofs::Kept::steps))]
pub fn put_sections(out: &mut Bytes, sections: &[Section]) -> Result<(), OutOfMemory>
    ensures text { OnOk result (out.new ≡ out.old ++ sections_text sections.now) }
    ensures kept { KeepsFront out.old out.new }
{
    let text = sections_text(out.allocator(), sections)?;
    put_text(out, text.as_slice())
}

/// Appends the text of a radio's channels.
#[tactic(auto, using(crate::proofs::Kept::steps))]
pub fn put_channels(out: &mut Bytes, list: &[(Chan, Dfs)]) -> Result<(), OutOfMemory>
    ensures text { OnOk result (out.new ≡ out.old ++ channels_text list.now) }
    ensures kept { KeepsFront out.old out.new }
{
    let text = channels_text(out.allocator(), list)?;
    put_text(out, text.as_slice())
}

/// Appends the text of a radio.
#[tactic(auto, using(crate::proofs::Kept::steps))]
pub fn put_radio_report(out: &mut Bytes, report: &RadioReport) -> Result<(), OutOfMemory>
    ensures text { OnOk result (out.new ≡ out.old ++ radio_report_text report.now) }
    ensures kept { KeepsFront out.old out.new }
{
    let text = radio_report_text(out.allocator(), report)?;
    put_text(out, text.as_slice())
}

/// Appends the text of an interface.
#[tactic(auto, using(crate::proofs::Kept::steps))]
pub fn put_iface_report(out: &mut Bytes, report: &IfaceReport) -> Result<(), OutOfMemory>
    ensures text { OnOk result (out.new ≡ out.old ++ iface_report_text report.now) }
    ensures kept { KeepsFront out.old out.new }
{
    let text = iface_report_text(out.allocator(), report)?;
    put_text(out, text.as_slice())
}
