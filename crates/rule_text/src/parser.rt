//! The parser of a text: what it keeps of the lines so far, and how it takes one more.

ghost use Rattle.std.specs.Prelude.{◌≡◌, ℕ, ◌+◌, List, [], length, MatchResult, option_map};
ghost use Rattle.text_lines.specs.declared.form.Opening.TheVariants.{Country as OfCountry, Wmm as OfWmm, Rule as OfRule, Item as OfItem};
ghost use Rattle.rule_text.specs.Forms.{Form};
ghost use Rattle.text_lines.specs.Spelling.{Opens};
ghost use Rattle.rule_text.specs.inner.State.{AreSound, IsBareStop, IsNameStop, BlocksNameWmm, ParserStands, TakesBare};

use crate::countries::{Country, add_rules, open_countries};
use crate::wmm_rules::{WmmBlock, add_item, open_wmm};
use freq_range::{Rule, Wmm};
use rule_tables::Alpha2;
use std::alloc::Global;
use std::collections::BTreeMap;
use text_lines::{
    Item, KnownPowers, LineStop, Opening, TextKind, entry_of, header_of, opening_of, rule_of,
    wmm_name_of,
};

/// What the last header opened.
#[derive(Clone, Copy, Debug, PartialEq, Eq)]
pub enum Open {
    Nothing,
    Countries,
    Wmm,
}

/// What is kept of the lines so far.
#[derive(Drop)]
pub struct Parser {
    /// The countries by the keys of their codes.
    pub countries: BTreeMap<u16, Country>,
    /// The WMM rules by their names.
    pub blocks: BTreeMap<Vec<u8>, WmmBlock>,
    pub open: Open,
    /// The codes of the open countries.
    pub codes: Vec<Alpha2>,
    /// The name of the open WMM rule.
    pub name: Vec<u8>,
}

/// The WMM rule that is named, which some line above has to be the header of.
fn named(blocks: &BTreeMap<Vec<u8>, WmmBlock>, name: Option<&[u8]>) -> Result<Option<Wmm>, LineStop>
    ensures { MatchResult result (λ wmm. BlocksNameWmm blocks.now (option_map (λ n. n.now) name.entry) wmm)
        (IsNameStop blocks.now (option_map (λ n. n.now) name.entry)) }
{
    match name {
        None => Ok(None),
        Some(name) => match blocks.get(name) {
            Some(block) => Ok(Some(block.wmm)),
            None => Err(LineStop::Kind(TextKind::NoWmm)),
        },
    }
}

impl Parser {
    /// A parser before the first line.
    pub fn new(alloc: Global) -> Parser
        ensures { ParserStands [] result }
    {
        Parser {
            countries: BTreeMap::new(alloc),
            blocks: BTreeMap::new(alloc),
            open: Open::Nothing,
            codes: Vec::new(alloc),
            name: Vec::new(alloc),
        }
    }

    /// Takes the header of countries.
    fn take_header(&mut self, alloc: Global, line: &[u8], number: u64) -> Result<(), LineStop>
        ensures { (above : List Form) → number ≡ length above + 1 → AreSound above → ParserStands above self.old → Opens line.now OfCountry
            → MatchResult result (λ _. TakesBare above line.now self.new) (IsBareStop above line.now) }
    {
        let region = header_of(line, &mut self.codes)?;
        open_countries(
            alloc,
            &mut self.countries,
            self.codes.as_slice(),
            region,
            number,
        )?;
        self.open = Open::Countries;
        Ok(())
    }

    /// Takes the header of a WMM rule.
    fn take_wmm_header(&mut self, alloc: Global, line: &[u8], number: u64) -> Result<(), LineStop>
        ensures { (above : List Form) → number ≡ length above + 1 → AreSound above → ParserStands above self.old → Opens line.now OfWmm
            → MatchResult result (λ _. TakesBare above line.now self.new) (IsBareStop above line.now) }
    {
        match wmm_name_of(line) {
            None => Err(LineStop::Kind(TextKind::BadWmm)),
            Some(name) => {
                open_wmm(alloc, &mut self.blocks, name, number)?;
                self.name.clear();
                self.name.extend_from_slice(name)?;
                self.open = Open::Wmm;
                Ok(())
            }
        }
    }

    /// Takes an item of a WMM rule.
    fn take_item(&mut self, line: &[u8], item: Item) -> Result<(), LineStop>
        ensures { (above : List Form) → AreSound above → ParserStands above self.old → Opens line.now (OfItem item)
            → MatchResult result (λ _. TakesBare above line.now self.new) (IsBareStop above line.now) }
    {
        match self.open {
            Open::Nothing | Open::Countries => Err(LineStop::Kind(TextKind::NoBlock)),
            Open::Wmm => match entry_of(line, item) {
                None => Err(LineStop::Kind(TextKind::BadWmm)),
                Some(entry) => {
                    add_item(&mut self.blocks, self.name.as_slice(), item, entry)?;
                    Ok(())
                }
            },
        }
    }

    /// Takes a rule.
    fn take_rule(&mut self, line: &[u8], known: &mut KnownPowers) -> Result<(), LineStop>
        ensures { (above : List Form) → AreSound above → ParserStands above self.old → Opens line.now OfRule
            → MatchResult result (λ _. TakesBare above line.now self.new) (IsBareStop above line.now) }
    {
        match self.open {
            Open::Nothing | Open::Wmm => Err(LineStop::Kind(TextKind::NoBlock)),
            Open::Countries => match rule_of(line, known) {
                Err(kind) => Err(LineStop::Kind(kind)),
                Ok((rule, name)) => {
                    let wmm = named(&self.blocks, name)?;
                    let rule = Rule { wmm, ..rule };
                    add_rules(&mut self.countries, self.codes.as_slice(), &rule)?;
                    Ok(())
                }
            },
        }
    }

    /// Takes what counts of the line of that number, counted from 1. Powers that were read before are
    /// known.
    pub fn take(
        &mut self,
        alloc: Global,
        line: &[u8],
        number: u64,
        known: &mut KnownPowers,
    ) -> Result<(), LineStop>
        ensures { (above : List Form) → number ≡ length above + 1 → AreSound above → ParserStands above self.old
            → MatchResult result (λ _. TakesBare above line.now self.new) (IsBareStop above line.now) }
    {
        if line.is_empty() {
            return Ok(());
        }
        match opening_of(line) {
            None => Err(LineStop::Kind(TextKind::BadLine)),
            Some(Opening::Country) => self.take_header(alloc, line, number),
            Some(Opening::Wmm) => self.take_wmm_header(alloc, line, number),
            Some(Opening::Item(item)) => self.take_item(line, item),
            Some(Opening::Rule) => self.take_rule(line, known),
        }
    }
}
