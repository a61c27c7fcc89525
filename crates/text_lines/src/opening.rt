//! How a line begins.

ghost use Rattle.std.specs.Prelude.{◌≡◌, MatchOption};
ghost use Rattle.text_lines.specs.declared.form.Opening.{Opening};
ghost use Rattle.text_lines.specs.inner.Reading.{item_at, opening_at};
ghost use Rattle.text_lines.specs.Spelling.{Opens};

use crate::form::{Item, Opening};
use crate::scanner::begins_with;

/// The item whose name and a colon stand first.
#[tactic(auto, unfolding(crate::specs::inner::Reading::item_at))]
fn item_at(line: &[u8]) -> Option<Item>
    ensures { MatchOption result (item_at line.now ≡ None) (λ item. item_at line.now ≡ Some item) }
{
    if begins_with(line, b"vo_c:") {
        Some(Item::VoC)
    } else if begins_with(line, b"vi_c:") {
        Some(Item::ViC)
    } else if begins_with(line, b"be_c:") {
        Some(Item::BeC)
    } else if begins_with(line, b"bk_c:") {
        Some(Item::BkC)
    } else if begins_with(line, b"vo_ap:") {
        Some(Item::VoAp)
    } else if begins_with(line, b"vi_ap:") {
        Some(Item::ViAp)
    } else if begins_with(line, b"be_ap:") {
        Some(Item::BeAp)
    } else if begins_with(line, b"bk_ap:") {
        Some(Item::BkAp)
    } else {
        None
    }
}

/// The opening that is read first.
#[tactic(auto, unfolding(crate::specs::inner::Reading::opening_at))]
fn opening_at(line: &[u8]) -> Option<Opening>
    ensures { MatchOption result (opening_at line.now ≡ None) (λ opening. opening_at line.now ≡ Some opening) }
{
    if begins_with(line, b"country") {
        Some(Opening::Country)
    } else if begins_with(line, b"wmmrule") {
        Some(Opening::Wmm)
    } else if begins_with(line, b"(") {
        Some(Opening::Rule)
    } else {
        let item = item_at(line)?;
        Some(Opening::Item(item))
    }
}

/// The opening of a line, or `None` where it begins as none.
pub fn opening_of(line: &[u8]) -> Option<Opening>
    ensures opening { MatchOption result ((opening : Opening) → Opens line.now opening → ⊥) (λ opening. Opens line.now opening) }
{
    opening_at(line)
}
