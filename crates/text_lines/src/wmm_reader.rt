//! Reads the header and the items of a WMM rule.

ghost use Rattle.std.specs.Prelude.{◌≡◌, ◌+◌, ◌^◌, ◌≤◌, ℕ, List, IfSome, MatchOption};
ghost use Rattle.freq_range.specs.declared.wmm.WmmEntry.{WmmEntry};
ghost use Rattle.text_lines.specs.inner.Reading.{FitEntry, IsEntryOf, field_at, item_numbers, numbers_of, titled_at, wmm_name_at};
ghost use Rattle.text_lines.specs.Spelling.{IsItemLine, IsWmmHeader, item_name};

use crate::form::Item;
use crate::numbers::value_within;
use crate::rule_words::is_name;
use crate::scanner::{after_word, number_at, titled_at};
use freq_range::WmmEntry;

/// The greatest contention window, 2^15 - 1.
const MOST_WINDOW: u32 = 32_767;

/// The greatest AIFSN.
const MOST_AIFSN: u32 = 255;

/// The greatest COT, in ms.
const MOST_COT_MS: u32 = 65_535;

/// The four numbers of an item, `cot` in ms.
#[derive(Clone, Copy)]
struct ItemNumbers {
    cw_min: u32,
    cw_max: u32,
    aifsn: u32,
    cot: u32,
}

/// The name between `wmmrule` and the colon that ends the line.
#[tactic(auto, unfolding(crate::specs::inner::Reading::wmm_name_at))]
fn wmm_name_at(line: &[u8]) -> Option<&[u8]>
    ensures { MatchOption result (wmm_name_at line.now ≡ None) (λ name. wmm_name_at line.now ≡ Some name.now) }
{
    let (name, rest) = titled_at(line, b"wmmrule")?;
    if is_name(name) && rest.is_empty() {
        Some(name)
    } else {
        None
    }
}

/// The name in the header of a WMM rule, or `None` where the line is no such header.
pub fn wmm_name_of(line: &[u8]) -> Option<&[u8]>
    ensures name { MatchOption result ((name : List ℕ) → IsWmmHeader line.now name → ⊥) (λ name. IsWmmHeader line.now name.now) }
{
    wmm_name_at(line)
}

/// The number behind the word, and what is behind it.
#[tactic(auto, unfolding(crate::specs::inner::Reading::field_at))]
fn field_at<'a>(bytes: &'a [u8], word: &[u8], most: u32) -> Option<(u32, &'a [u8])>
    ensures found { MatchOption result (field_at word.now most bytes.now ≡ None) (λ x. field_at word.now most bytes.now ≡ Some (x.0, x.1.now)) }
    ensures small { IfSome result (λ x. x.0 ≤ most) }
{
    let rest = after_word(bytes, word)?;
    let (digits, rest) = number_at(rest)?;
    let value = value_within(digits, most)?;
    Some((value, rest))
}

/// The four numbers behind the name of an item, which are all that is left.
#[tactic(auto, unfolding(crate::specs::inner::Reading::numbers_of))]
fn numbers_of(bytes: &[u8]) -> Option<ItemNumbers>
    ensures found { MatchOption result (numbers_of bytes.now ≡ None) (λ numbers. numbers_of bytes.now ≡ Some numbers) }
    ensures small { IfSome result FitEntry }
{
    let (cw_min, rest) = field_at(bytes, b":cw_min=", MOST_WINDOW)?;
    let (cw_max, rest) = field_at(rest, b",cw_max=", MOST_WINDOW)?;
    let (aifsn, rest) = field_at(rest, b",aifsn=", MOST_AIFSN)?;
    let (cot, rest) = field_at(rest, b",cot=", MOST_COT_MS)?;
    if rest.is_empty() {
        Some(ItemNumbers {
            cw_min,
            cw_max,
            aifsn,
            cot,
        })
    } else {
        None
    }
}

/// The name of an item.
pub fn item_name(item: Item) -> &'static [u8]
    ensures name { result.now ≡ item_name item }
{
    match item {
        Item::VoC => b"vo_c",
        Item::ViC => b"vi_c",
        Item::BeC => b"be_c",
        Item::BkC => b"bk_c",
        Item::VoAp => b"vo_ap",
        Item::ViAp => b"vi_ap",
        Item::BeAp => b"be_ap",
        Item::BkAp => b"bk_ap",
    }
}

/// The four numbers of the item.
#[tactic(auto, unfolding(crate::specs::inner::Reading::item_numbers))]
fn item_numbers(line: &[u8], item: Item) -> Option<ItemNumbers>
    ensures found { MatchOption result (item_numbers item line.now ≡ None) (λ numbers. item_numbers item line.now ≡ Some numbers) }
    ensures small { IfSome result FitEntry }
{
    let rest = after_word(line, item_name(item))?;
    numbers_of(rest)
}

/// The number to whose power of 2 the window is one less.
fn exponent_of(window: u32) -> Option<u8>
    requires { window ≤ 32767 }
    ensures exponent { MatchOption result ((exponent : ℕ) → window + 1 ≡ 2 ^ exponent → exponent ≤ 15 → ⊥) (λ exponent. window + 1 ≡ 2 ^ exponent) }
    ensures small { IfSome result (λ exponent. exponent ≤ 15) }
{
    for exponent in 0..16u8 {
        if window + 1 == 2u32.pow(u32::from(exponent)) {
            return Some(exponent);
        }
    }
    None
}

/// The valid entry of the numbers, if there is one.
fn entry_from(numbers: ItemNumbers) -> Option<WmmEntry>
    requires { FitEntry numbers }
    ensures { MatchOption result ((entry : WmmEntry) → IsEntryOf numbers entry → ⊥) (λ entry. IsEntryOf numbers entry) }
{
    let entry = WmmEntry {
        min_exp: exponent_of(numbers.cw_min)?,
        max_exp: exponent_of(numbers.cw_max)?,
        aifsn: numbers.aifsn as u8,
        cot_ms: numbers.cot as u16,
    };
    if entry.check() { Some(entry) } else { None }
}

/// What the line says of the item, or `None` where it isn't the item's line.
pub fn entry_of(line: &[u8], item: Item) -> Option<WmmEntry>
    ensures entry { MatchOption result ((entry : WmmEntry) → IsItemLine line.now item entry → ⊥) (λ entry. IsItemLine line.now item entry) }
{
    let numbers = item_numbers(line, item)?;
    entry_from(numbers)
}
