//! Prints the rules that hold.

ghost use Rattle.std.specs.Prelude.{◌≡◌, ◌++◌, IfOk, OnOk};
ghost use Rattle.std.specs.List.{flat_map};
ghost use Rattle.reg_base.specs.Texts.{line_of};
ghost use Rattle.iw_dumps.specs.DumpTexts.{check_text, country_text, owner_text, row_limits_text, row_range_text, row_text, section_text, sections_text};

use crate::pieces::{put_code, put_mhz, put_number, put_u32};
use crate::words::region_text;
use db_text::put_flags;
use reg_base::Bytes;
use reg_hints::RadioNo;
use reg_journal::Section;
use reg_lists::OutOfMemory;
use rule_intersect::Row;
use std::alloc::Global;

/// Appends which list a section is of.
fn put_owner(out: &mut Bytes, radio: Option<RadioNo>) -> Result<(), OutOfMemory>
    ensures { OnOk result (out.new ≡ out.old ++ owner_text radio) }
{
    match radio {
        None => out.append(b"global"),
        Some(radio) => {
            out.append(b"phy#")?;
            put_u32(out, radio.get())
        }
    }
}

/// Appends the code and the region of a section.
#[tactic(auto, unfolding(crate::specs::DumpTexts::country_text))]
fn put_country(out: &mut Bytes, section: &Section) -> Result<(), OutOfMemory>
    ensures { OnOk result (out.new ≡ out.old ++ country_text section.now) }
{
    out.append(b"country ")?;
    put_code(out, section.alpha2)?;
    out.append(b": ")?;
    out.append(region_text(section.region))?;
    Ok(())
}

/// Appends the length of a check (CAC), in ms, where the row's channels are checked for radar.
fn put_check(out: &mut Bytes, row: &Row) -> Result<(), OutOfMemory>
    ensures { OnOk result (out.new ≡ out.old ++ check_text row.now) }
{
    if !row.flags.dfs {
        return out.append(b"N/A");
    }
    put_u32(out, row.cac_ms)?;
    out.append(b" ms")?;
    Ok(())
}

/// Appends the range of a row and its width, in whole MHz.
#[tactic(auto, unfolding(crate::specs::DumpTexts::row_range_text))]
fn put_range(out: &mut Bytes, row: &Row) -> Result<(), OutOfMemory>
    ensures { OnOk result (out.new ≡ out.old ++ row_range_text row.now) }
{
    out.append(b"\t(")?;
    put_mhz(out, row.start_khz)?;
    out.append(b" - ")?;
    put_mhz(out, row.end_khz)?;
    out.append(b" @ ")?;
    put_mhz(out, row.width_khz)?;
    out.append(b")")?;
    Ok(())
}

/// Appends its power in whole dBm, and the length of its check.
#[tactic(auto, unfolding(crate::specs::DumpTexts::row_limits_text))]
fn put_limits(out: &mut Bytes, row: &Row) -> Result<(), OutOfMemory>
    ensures { OnOk result (out.new ≡ out.old ++ row_limits_text row.now) }
{
    out.append(b", (N/A, ")?;
    put_number(out, u64::from(row.eirp_mbm / 100))?;
    out.append(b"), (")?;
    put_check(out, row)?;
    out.append(b")")?;
    Ok(())
}

/// Appends a row.
#[tactic(auto, unfolding(crate::specs::DumpTexts::row_text))]
fn put_row(out: &mut Bytes, row: &Row) -> Result<(), OutOfMemory>
    ensures { OnOk result (out.new ≡ out.old ++ row_text row.now) }
{
    put_range(out, row)?;
    put_limits(out, row)?;
    put_flags(out, &row.flags)?;
    Ok(())
}

/// Appends the line of a row.
fn put_row_line(out: &mut Bytes, row: &Row) -> Result<(), OutOfMemory>
    ensures { OnOk result (out.new ≡ out.old ++ line_of (row_text row.now)) }
{
    put_row(out, row)?;
    out.push(b'\n')?;
    Ok(())
}

/// Appends a line for each row.
fn put_rows(out: &mut Bytes, rows: &[Row]) -> Result<(), OutOfMemory>
    ensures { OnOk result (out.new ≡ out.old ++ flat_map (λ row. line_of (row_text row)) rows.now) }
{
    for row in rows {
        put_row_line(out, row)?;
    }
    Ok(())
}

/// Appends a section: whose list it is, its code and region, and its rows.
#[tactic(auto, unfolding(crate::specs::DumpTexts::section_text))]
fn put_section(out: &mut Bytes, section: &Section) -> Result<(), OutOfMemory>
    ensures { OnOk result (out.new ≡ out.old ++ section_text section.now) }
{
    put_owner(out, section.radio)?;
    out.push(b'\n')?;
    put_country(out, section)?;
    out.push(b'\n')?;
    put_rows(out, section.rows.as_slice())?;
    Ok(())
}

/// The text of the sections (`iw reg get`): for each the line of its radio or of the global list, the
/// line of its code and region, and a line for each row, with frequencies in whole MHz, the power in whole
/// dBm and the length of a check (CAC) in ms. `OutOfMemory` is its one error.
pub fn sections_text(alloc: Global, sections: &[Section]) -> Result<Bytes, OutOfMemory>
    ensures text { IfOk result (λ text. text ≡ sections_text sections.now) }
{
    let mut out = Bytes::new(alloc);
    for section in sections {
        put_section(&mut out, section)?;
    }
    Ok(out)
}
