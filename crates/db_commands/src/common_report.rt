//! What two countries allow together, a line for each channel.

ghost use Rattle.std.specs.Prelude.{◌≡◌, ◌++◌, IfOk, OnOk, map};
ghost use Rattle.db_text.specs.Printed.{ended, text_of_lines};
ghost use Rattle.db_commands.specs.Reports.{IsCommonReport, common_line};

use crate::pieces::{put_number, put_whole_mhz};
use db_lint::{Common, common};
use db_text::put_flags;
use reg_base::Bytes;
use reg_lists::OutOfMemory;
use rule_tables::Domain;
use std::alloc::Global;

/// Appends the line of a channel.
#[tactic(auto, unfolding(crate::specs::Reports::common_line))]
fn put_entry(out: &mut Bytes, entry: &Common) -> Result<(), OutOfMemory>
    ensures { OnOk result (out.new ≡ out.old ++ ended (common_line entry.now)) }
{
    out.push(b'\t')?;
    put_whole_mhz(out, entry.khz)?;
    out.push(b' ')?;
    put_whole_mhz(out, entry.width_khz)?;
    out.append(b" MHz ")?;
    put_number(out, u64::from(entry.eirp_mbm))?;
    out.append(b" mBm")?;
    put_flags(out, &entry.flags)?;
    out.push(b'\n')?;
    Ok(())
}

/// Appends the lines of channels.
fn put_entries(out: &mut Bytes, list: &[Common]) -> Result<(), OutOfMemory>
    ensures { OnOk result (out.new ≡ out.old ++ text_of_lines (map common_line list.now)) }
{
    for entry in list {
        put_entry(out, entry)?;
    }
    Ok(())
}

/// What both domains allow on each channel for which both have a rule, a line for each, and a last
/// line with their number.
pub fn common_report(alloc: Global, a: &Domain, b: &Domain) -> Result<Bytes, OutOfMemory>
    ensures { IfOk result (IsCommonReport a.now b.now) }
{
    let list = common(alloc, a, b)?;
    let mut out = Bytes::new(alloc);
    put_entries(&mut out, list.as_slice())?;
    put_number(&mut out, list.len() as u64)?;
    out.append(b" channels\n")?;
    Ok(out)
}
