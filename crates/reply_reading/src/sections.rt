//! Sections of rules by what messages say of them.

ghost use Rattle.std.specs.Prelude.{◌≡◌, ◌∷◌, ◌++◌, [], ℕ, All, IfOk, IfSome, Option, map};
ghost use Rattle.nl_attrs.specs.Messages.{attrs_in};
ghost use Rattle.nl_attrs.specs.declared.attr.Attr.{Attr};
ghost use Rattle.reg_journal.specs.Requests.{IsRadioNo};
ghost use Rattle.nl80211_replies.specs.Dumps.{radio_part, section_attrs};
ghost use Rattle.reply_reading.specs.inner.Reading.{IsToldRow, IsToldSection, Undoes, payload_in, row_attrs, row_payload};

use crate::narrow::narrow16;
use crate::payloads::{
    attrs_from, attrs_in, byte_at, code_at, held_in, number_at, payload_at, radio_of,
};
use crate::values::{flags_numbered, region_numbered};
use nl_attrs::{Attr, Msg};
use reg_hints::RadioNo;
use reg_journal::{RowList, Section, SectionList};
use reg_lists::OutOfMemory;
use rule_intersect::Row;
use std::alloc::Global;

/// The row that the seven attributes tell.
fn row_in(held: &[Attr]) -> Row
    ensures { Undoes IsToldRow row_attrs held.now result }
{
    Row {
        start_khz: number_at(held, 1),
        end_khz: number_at(held, 2),
        width_khz: number_at(held, 3),
        flags: flags_numbered(number_at(held, 0)),
        eirp_mbm: narrow16(u64::from(number_at(held, 5))),
        cac_ms: number_at(held, 6),
        check_ms: 0,
    }
}

/// The rows that the attributes hold.
fn rows_in(alloc: Global, attrs: &[Attr]) -> Result<RowList, OutOfMemory>
    ensures { IfOk result (Undoes (All IsToldRow) (map row_payload) (map payload_in attrs.now)) }
{
    let mut rows = RowList::new(alloc);
    for attr in attrs {
        let held = held_in(alloc, attr.payload.as_slice())?;
        rows.push(row_in(held.as_slice()))?;
    }
    Ok(rows)
}

/// The radio of a section, which has one attribute more where there is one.
fn section_radio(attrs: &[Attr]) -> Option<RadioNo>
    ensures { (radio : Option ℕ) (a b d : Attr) → IfSome radio IsRadioNo
        → attrs.now ≡ radio_part radio ++ a ∷ b ∷ d ∷ [] → result ≡ radio }
{
    if attrs.len() < 4 {
        None
    } else {
        Some(radio_of(u64::from(number_at(attrs, 0))))
    }
}

/// The attributes of a section behind its radio.
fn behind_radio(attrs: &[Attr]) -> &[Attr]
    ensures { (radio : Option ℕ) (a b d : Attr) → attrs.now ≡ radio_part radio ++ a ∷ b ∷ d ∷ [] → result.now ≡ a ∷ b ∷ d ∷ [] }
{
    if attrs.len() < 4 {
        attrs
    } else {
        attrs_from(attrs, 1)
    }
}

/// The section that the attributes tell.
fn section_in(alloc: Global, attrs: &[Attr]) -> Result<Section, OutOfMemory>
    ensures { IfOk result (Undoes IsToldSection section_attrs attrs.now) }
{
    let more = behind_radio(attrs);
    let held = held_in(alloc, payload_at(more, 2))?;
    let rows = rows_in(alloc, held.as_slice())?;
    Ok(Section {
        radio: section_radio(attrs),
        alpha2: code_at(more, 0),
        region: region_numbered(byte_at(more, 1)),
        rows,
    })
}

/// The sections that messages tell, one each.
pub fn sections_in(alloc: Global, msgs: &[Msg]) -> Result<SectionList, OutOfMemory>
    ensures { IfOk result (Undoes (All IsToldSection) (map section_attrs) (map attrs_in msgs.now)) }
{
    let mut sections = SectionList::new(alloc);
    for msg in msgs {
        sections.push(section_in(alloc, attrs_in(msg))?)?;
    }
    Ok(sections)
}
