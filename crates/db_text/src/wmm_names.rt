//! The WMM rules that a database uses, and their names.

ghost use Rattle.std.specs.Prelude.{◌≡◌, [], IfOk, OnOk, flat_map};
ghost use Rattle.std.specs.List.{position_or_len};
ghost use Rattle.db_text.specs.inner.Naming.{IsNumbered, all_noted, noted};
ghost use Rattle.db_text.specs.Printed.{entry_numbers, first_uses, same_wmm, wmm_in, wmm_in_rule, wmm_in_rules, wmm_numbers};

use freq_range::{Rule, Wmm, WmmEntry};
use reg_lists::OutOfMemory;
use rule_tables::Domain;
use std::alloc::Global;
use std::collections::BTreeMap;

/// The 32 numbers of a WMM rule.
type WmmKey = [u16; 32];

/// WMM rules, each once, in order of their first use, and the place of each.
#[derive(Drop)]
pub struct WmmNames {
    pub rules: Vec<Wmm>,
    pub numbers: BTreeMap<WmmKey, usize>,
}

/// The numbers of an entry.
fn entry_numbers(entry: &WmmEntry) -> [u16; 4]
    ensures { result ≡ entry_numbers entry.now }
{
    [
        u16::from(entry.min_exp),
        u16::from(entry.max_exp),
        u16::from(entry.aifsn),
        entry.cot_ms,
    ]
}

/// The numbers of all eight entries.
fn joined(entries: &[WmmEntry; 8]) -> WmmKey
    ensures { result ≡ flat_map entry_numbers entries.now }
{
    let mut key = [0u16; 32];
    for (k, entry) in entries.iter().enumerate() {
        key[4 * k..4 * k + 4].copy_from_slice(&entry_numbers(entry));
    }
    key
}

/// The numbers of a WMM rule.
#[tactic(auto, unfolding(crate::specs::Printed::wmm_numbers))]
fn key_of(wmm: &Wmm) -> WmmKey
    ensures { result ≡ wmm_numbers wmm.now }
{
    joined(&[
        wmm.vo_c, wmm.vi_c, wmm.be_c, wmm.bk_c, wmm.vo_ap, wmm.vi_ap, wmm.be_ap, wmm.bk_ap,
    ])
}

impl WmmNames {
    /// No WMM rules.
    fn new(alloc: Global) -> WmmNames
        ensures rules { result.rules.items ≡ [] }
        ensures numbered { IsNumbered result }
    {
        WmmNames {
            rules: Vec::new(alloc),
            numbers: BTreeMap::new(alloc),
        }
    }

    /// Adds a WMM rule, unless it is there.
    fn add(&mut self, wmm: &Wmm) -> Result<(), OutOfMemory>
        requires { IsNumbered self.old }
        ensures rules { OnOk result (self.new.rules.items ≡ noted self.old.rules.items wmm.now) }
        ensures numbered { OnOk result (IsNumbered self.new) }
    {
        let key = key_of(wmm);
        if self.numbers.contains_key(&key) {
            return Ok(());
        }
        self.numbers.insert(key, self.rules.len())?;
        self.rules.push(*wmm)?;
        Ok(())
    }

    /// The place of a WMM rule, or the number of WMM rules where it isn't there.
    pub fn place_of(&self, wmm: &Wmm) -> usize
        requires { IsNumbered self.now }
        ensures { result ≡ position_or_len (same_wmm wmm.now) self.now.rules.items }
    {
        match self.numbers.get(&key_of(wmm)) {
            Some(place) => *place,
            None => self.rules.len(),
        }
    }
}

/// Adds the WMM rule of a rule, if it has one.
fn add_rule(names: &mut WmmNames, rule: &Rule) -> Result<(), OutOfMemory>
    requires { IsNumbered names.old }
    ensures rules { OnOk result (names.new.rules.items ≡ all_noted names.old.rules.items (wmm_in_rule rule.now)) }
    ensures numbered { OnOk result (IsNumbered names.new) }
{
    if let Some(wmm) = &rule.wmm {
        names.add(wmm)?;
    }
    Ok(())
}

/// Adds the WMM rules of the rules.
fn add_rules(names: &mut WmmNames, rules: &[Rule]) -> Result<(), OutOfMemory>
    requires { IsNumbered names.old }
    ensures rules { OnOk result (names.new.rules.items ≡ all_noted names.old.rules.items (wmm_in_rules rules.now)) }
    ensures numbered { OnOk result (IsNumbered names.new) }
{
    for rule in rules {
        add_rule(names, rule)?;
    }
    Ok(())
}

/// The WMM rules of all domains.
pub fn wmm_names(alloc: Global, domains: &[Domain]) -> Result<WmmNames, OutOfMemory>
    ensures rules { IfOk result (λ names. names.rules.items ≡ first_uses (wmm_in domains.now)) }
    ensures numbered { IfOk result IsNumbered }
{
    let mut names = WmmNames::new(alloc);
    for domain in domains {
        add_rules(&mut names, domain.rules.as_slice())?;
    }
    Ok(names)
}
