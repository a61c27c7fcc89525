//! The WMM rules of a text, as far as its lines were read.

ghost use Rattle.std.specs.Prelude.{◌≡◌, ◌↔◌, IsTrue, List, MatchResult, OnOk};
ghost use Rattle.std.specs.Option.{option_copied};
ghost use Rattle.rule_text.specs.Forms.{item_entry, with_entry};
ghost use Rattle.rule_text.specs.inner.State.{AddsItem, AddsItemTo, IsAddItemStop, IsAddItemToStop, IsOpenWmmStop, OpensWmm, block_named};

use freq_range::{Wmm, WmmEntry};
use std::alloc::Global;
use std::collections::BTreeMap;
use text_lines::{Item, LineStop, TextKind};

/// A WMM rule, as far as its items were read.
#[derive(Clone, Copy, Debug, PartialEq, Eq)]
pub struct WmmBlock {
    /// The line of its header, counted from 1.
    pub line: u64,
    pub wmm: Wmm,
}

/// An item that isn't named yet.
const UNNAMED: WmmEntry = WmmEntry {
    min_exp: 0,
    max_exp: 0,
    aifsn: 0,
    cot_ms: 0,
};

/// A WMM rule of which no item is named yet.
const NO_ITEMS: Wmm = Wmm {
    vo_c: UNNAMED,
    vi_c: UNNAMED,
    be_c: UNNAMED,
    bk_c: UNNAMED,
    vo_ap: UNNAMED,
    vi_ap: UNNAMED,
    be_ap: UNNAMED,
    bk_ap: UNNAMED,
};

/// The entry of an item.
fn entry_of(wmm: &Wmm, item: Item) -> WmmEntry
    ensures { result ≡ item_entry item wmm.now }
{
    match item {
        Item::VoC => wmm.vo_c,
        Item::ViC => wmm.vi_c,
        Item::BeC => wmm.be_c,
        Item::BkC => wmm.bk_c,
        Item::VoAp => wmm.vo_ap,
        Item::ViAp => wmm.vi_ap,
        Item::BeAp => wmm.be_ap,
        Item::BkAp => wmm.bk_ap,
    }
}

/// Names an item.
fn set_entry(wmm: &mut Wmm, item: Item, entry: WmmEntry)
    ensures { wmm.new ≡ with_entry item entry wmm.old }
{
    match item {
        Item::VoC => wmm.vo_c = entry,
        Item::ViC => wmm.vi_c = entry,
        Item::BeC => wmm.be_c = entry,
        Item::BkC => wmm.bk_c = entry,
        Item::VoAp => wmm.vo_ap = entry,
        Item::ViAp => wmm.vi_ap = entry,
        Item::BeAp => wmm.be_ap = entry,
        Item::BkAp => wmm.bk_ap = entry,
    }
}

impl WmmBlock {
    /// Names an item that isn't named yet.
    fn add(&mut self, item: Item, entry: WmmEntry) -> Result<(), LineStop>
        ensures { MatchResult result (λ _. AddsItem item entry self.old self.new) (IsAddItemStop item self.old) }
    {
        if entry_of(&self.wmm, item).check() {
            return Err(LineStop::Kind(TextKind::BadWmm));
        }
        set_entry(&mut self.wmm, item, entry);
        Ok(())
    }
}

/// Opens a WMM rule at the header on this line.
pub fn open_wmm(
    alloc: Global,
    blocks: &mut BTreeMap<Vec<u8>, WmmBlock>,
    name: &[u8],
    line: u64,
) -> Result<(), LineStop>
    ensures { MatchResult result
        (λ _. OpensWmm name.now line blocks.old blocks.new)
        (IsOpenWmmStop name.now blocks.old) }
{
    if blocks.contains_key(name) {
        return Err(LineStop::Kind(TextKind::WmmTwice));
    }
    let block = WmmBlock {
        line,
        wmm: NO_ITEMS,
    };
    blocks.insert(name.to_vec(alloc)?, block)?;
    Ok(())
}

/// Names an item of the WMM rule of this name.
pub fn add_item(
    blocks: &mut BTreeMap<Vec<u8>, WmmBlock>,
    name: &[u8],
    item: Item,
    entry: WmmEntry,
) -> Result<(), LineStop>
    ensures { MatchResult result
        (λ _. AddsItemTo name.now item entry blocks.old blocks.new)
        (IsAddItemToStop name.now item blocks.old) }
{
    match blocks.get_mut(name) {
        Some(block) => block.add(item, entry),
        None => Ok(()),
    }
}
