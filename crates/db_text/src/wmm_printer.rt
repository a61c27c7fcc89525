//! Prints WMM rules.

ghost use Rattle.std.specs.Prelude.{◌≡◌, ◌-◌, ◌^◌, ◌≤◌, ◌++◌, All, OnOk, codes, decimal};
ghost use Rattle.freq_range.specs.Valid.{IsValidEntry, IsValidWmm};
ghost use Rattle.db_text.specs.Printed.{ended, item_line, text_of_lines, wmm_lines, wmm_lines_from, wmm_name};

use crate::number_printer::put_number;
use freq_range::{Wmm, WmmEntry};
use reg_base::Bytes;
use reg_lists::OutOfMemory;
use text_lines::{Item, item_name};

/// Appends a contention window: 2 to this power, less 1.
fn put_window(out: &mut Bytes, exponent: u8) -> Result<(), OutOfMemory>
    requires { exponent ≤ 15 }
    ensures { OnOk result (out.new ≡ out.old ++ decimal (2 ^ exponent - 1)) }
{
    put_number(out, (1u64 << exponent) - 1)?;
    Ok(())
}

/// Appends the line of an item.
#[tactic(auto, unfolding(crate::specs::Printed::item_line))]
fn put_item(out: &mut Bytes, item: Item, entry: &WmmEntry) -> Result<(), OutOfMemory>
    requires { IsValidEntry entry.now }
    ensures { OnOk result (out.new ≡ out.old ++ ended (item_line item entry.now)) }
{
    out.push(b'\t')?;
    out.append(item_name(item))?;
    out.append(b": cw_min=")?;
    put_window(out, entry.min_exp)?;
    out.append(b", cw_max=")?;
    put_window(out, entry.max_exp)?;
    out.append(b", aifsn=")?;
    put_number(out, u64::from(entry.aifsn))?;
    out.append(b", cot=")?;
    put_number(out, u64::from(entry.cot_ms))?;
    out.push(b'\n')?;
    Ok(())
}

/// Appends the name of the WMM rule of this number.
#[tactic(auto, unfolding(crate::specs::Printed::wmm_name))]
pub fn put_wmm_name(out: &mut Bytes, number: usize) -> Result<(), OutOfMemory>
    ensures { OnOk result (out.new ≡ out.old ++ wmm_name number) }
{
    out.push(b'w')?;
    put_number(out, number as u64)?;
    Ok(())
}

/// Appends the header of the WMM rule of this number.
fn put_wmm_header(out: &mut Bytes, number: usize) -> Result<(), OutOfMemory>
    ensures { OnOk result (out.new ≡ out.old ++ ended (codes "wmmrule " ++ wmm_name number ++ codes ":")) }
{
    out.append(b"wmmrule ")?;
    put_wmm_name(out, number)?;
    out.append(b":\n")?;
    Ok(())
}

/// Appends the lines of a WMM rule of this number.
#[tactic(auto, unfolding(crate::specs::Printed::wmm_lines))]
fn put_wmm(out: &mut Bytes, number: usize, wmm: &Wmm) -> Result<(), OutOfMemory>
    requires { IsValidWmm wmm.now }
    ensures { OnOk result (out.new ≡ out.old ++ text_of_lines (wmm_lines number wmm.now)) }
{
    put_wmm_header(out, number)?;
    put_item(out, Item::VoC, &wmm.vo_c)?;
    put_item(out, Item::ViC, &wmm.vi_c)?;
    put_item(out, Item::BeC, &wmm.be_c)?;
    put_item(out, Item::BkC, &wmm.bk_c)?;
    put_item(out, Item::VoAp, &wmm.vo_ap)?;
    put_item(out, Item::ViAp, &wmm.vi_ap)?;
    put_item(out, Item::BeAp, &wmm.be_ap)?;
    put_item(out, Item::BkAp, &wmm.bk_ap)?;
    Ok(())
}

/// Appends the lines of WMM rules, of which the first has number 0.
pub fn put_wmm_rules(out: &mut Bytes, rules: &[Wmm]) -> Result<(), OutOfMemory>
    requires { All IsValidWmm rules.now }
    ensures { OnOk result (out.new ≡ out.old ++ text_of_lines (wmm_lines_from 0 rules.now)) }
{
    for (number, wmm) in rules.iter().enumerate() {
        put_wmm(out, number, wmm)?;
    }
    Ok(())
}
