//! Sections of rules as messages.

ghost use Rattle.std.specs.Prelude.{◌≡◌, ◌≤◌, ◌++◌, ◌∷◌, [], All, IfOk, OnOk, length, map};
ghost use Rattle.nl_attrs.specs.Attributes.{attrs_bytes};
ghost use Rattle.rule_tables.specs.Regions.{region_number};
ghost use Rattle.reg_journal.specs.declared.report.Section.{Section};
ghost use Rattle.rule_intersect.specs.declared.table.TheConstants.{MOST_ROWS};
ghost use Rattle.nl80211_cmds.specs.Commands.{command_number, family_number};
ghost use Rattle.nl80211_cmds.specs.Rules.{nested_limits};
ghost use Rattle.nl80211_cmds.specs.declared.command.Command.TheVariants.{GetReg};
ghost use Rattle.nl80211_cmds.specs.declared.family.Family.TheVariants.{Nl80211};
ghost use Rattle.nl80211_replies.specs.Dumps.{dump_message, limits_of_row, radio_part, section_attrs};

use crate::attribute::{DFS_REGION, REG_RULES};
use crate::dump::push_shown;
use nl_attrs::{Attr, AttrList, Msg, MsgList, Payload};
use nl80211_cmds::attribute::{REG_ALPHA2, WIPHY};
use nl80211_cmds::{Command, Family, Limits, push_number, push_plain, push_text, put_limits};
use reg_base::Bytes;
use reg_hints::RadioNo;
use reg_journal::Section;
use reg_lists::OutOfMemory;
use rule_intersect::Row;
use rule_tables::Region;
use std::alloc::Global;

/// What a row allows, with the check time that its rules say.
fn limits_of_row(row: &Row) -> Limits
    ensures { result ≡ limits_of_row row.now }
{
    Limits {
        flags: row.flags,
        start_khz: row.start_khz,
        end_khz: row.end_khz,
        width_khz: row.width_khz,
        eirp_mbm: row.eirp_mbm,
        cac_ms: row.cac_ms,
    }
}

/// The bytes of rows, at most 1,024.
fn rows_bytes(alloc: Global, rows: &[Row]) -> Result<Bytes, OutOfMemory>
    requires { length rows.now ≤ MOST_ROWS }
    ensures { IfOk result (λ bytes. bytes ≡ attrs_bytes (nested_limits 0 (map limits_of_row rows.now))) }
{
    let mut bytes = Bytes::new(alloc);
    for (place, row) in rows.iter().enumerate() {
        put_limits(&mut bytes, place as u16, &limits_of_row(row))?;
    }
    Ok(bytes)
}

/// The number of a region (`enum nl80211_dfs_regions`).
fn region_number(region: Region) -> u8
    ensures { result ≡ region_number region }
{
    match region {
        Region::Unset => 0,
        Region::Fcc => 1,
        Region::Etsi => 2,
        Region::Jp => 3,
    }
}

/// Appends the radio of a section that is a radio's.
fn push_radio(out: &mut AttrList, radio: Option<RadioNo>) -> Result<(), OutOfMemory>
    ensures { OnOk result (out.new ≡ out.old ++ radio_part radio) }
{
    match radio {
        None => Ok(()),
        Some(radio) => push_number(out, WIPHY, radio.get()),
    }
}

/// The attributes of a section.
fn section_attrs(alloc: Global, section: &Section) -> Result<AttrList, OutOfMemory>
    requires { length section.now.rows ≤ MOST_ROWS }
    ensures { IfOk result (λ attrs. attrs ≡ section_attrs section.now) }
{
    let mut out = AttrList::new(alloc);
    let region = region_number(section.region);
    push_radio(&mut out, section.radio)?;
    push_text(&mut out, REG_ALPHA2, &[section.alpha2.a, section.alpha2.b])?;
    push_plain(&mut out, DFS_REGION, Payload::U8(region))?;
    out.push(Attr {
        kind: REG_RULES,
        nested: true,
        payload: rows_bytes(alloc, section.rows.as_slice())?,
    })?;
    Ok(out)
}

/// Appends a message for each section. After `OutOfMemory` a part of them may be there.
pub fn push_sections(
    alloc: Global,
    msgs: &mut MsgList,
    request: &Msg,
    sections: &[Section],
) -> Result<(), OutOfMemory>
    requires { All (λ (section : Section). length section.rows ≤ MOST_ROWS) sections.now }
    ensures { OnOk result (msgs.new ≡ msgs.old
        ++ map (dump_message request.now (family_number Nl80211) (command_number GetReg)) (map section_attrs sections.now)) }
{
    for section in sections {
        let attrs = section_attrs(alloc, section)?;
        push_shown(
            msgs,
            request,
            Family::Nl80211,
            Command::GetReg.number(),
            attrs,
        )?;
    }
    Ok(())
}
