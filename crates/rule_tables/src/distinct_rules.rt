//! Rules that are gathered, each once.

ghost use Rattle.std.specs.Prelude.{◌≡◌, ◌↔◌, ◌<◌, ◌++◌, ◌∷◌, [], Contains, IfOk, IsTrue, OnErr, OnOk, length};
ghost use Rattle.rule_tables.specs.Distinct.{IsPushedNew};
ghost use Rattle.rule_tables.specs.inner.Marks.{mark_of};

use freq_range::{Rule, RuleList, contains_rule};
use reg_lists::OutOfMemory;
use std::alloc::Global;
use std::marker::Model;

/// The place of a rule's mark. There are 1,021 of them, a prime, so that ranges in whole MHz take
/// all of them alike.
fn mark_of(rule: &Rule) -> usize
    ensures place { result ≡ mark_of rule.now }
    ensures small { result < 1021 }
{
    let start = rule.start_khz as usize;
    let end = rule.end_khz as usize;
    (start + 3 * end + 7 * usize::from(rule.eirp_mbm)) % 1021
}

/// Rules, each once, in the order in which they came. Each has a mark: where that of a rule isn't
/// set, the rule isn't there, and no rule has to be compared with it.
#[derive(Drop)]
pub struct DistinctRules {
    rules: RuleList,
    marks: [bool; 1021],
}

impl Model for DistinctRules {
    ghost use Rattle.std.specs.Prelude.{List};
    ghost use Rattle.freq_range.specs.declared.rule.Rule.{Rule};

    ghost Value = { List Rule };

    ghost view = { λ d. d.rules };

    ghost use Rattle.rule_tables.specs.inner.Marks.{AreMarked};

    ghost invariant = { λ d. AreMarked d.marks d.rules };
}

impl DistinctRules {
    /// No rules, with room for so many.
    pub fn with_capacity(alloc: Global, room: usize) -> Result<DistinctRules, OutOfMemory>
        ensures empty { IfOk result (λ d. d ≡ []) }
    {
        let rules = RuleList::with_capacity(alloc, room)?;
        Ok(DistinctRules {
            rules,
            marks: [false; 1021],
        })
    }

    /// Whether the rule is there.
    pub fn holds(&self, rule: &Rule) -> bool
        ensures { IsTrue result ↔ Contains self.now rule.now }
    {
        self.marks[mark_of(rule)] && contains_rule(self.rules.as_slice(), rule)
    }

    /// Appends the rule. `OutOfMemory` changes nothing.
    pub fn push(&mut self, rule: Rule) -> Result<(), OutOfMemory>
        ensures ok { OnOk result (self.new ≡ self.old ++ rule ∷ []) }
        ensures err { OnErr result (self.new ≡ self.old) }
    {
        self.marks[mark_of(&rule)] = true;
        self.rules.push(rule)?;
        Ok(())
    }

    /// Appends the rule, unless it is there. `OutOfMemory` changes nothing.
    pub fn push_new(&mut self, rule: Rule) -> Result<(), OutOfMemory>
        ensures ok { OnOk result (IsPushedNew self.old self.new rule) }
        ensures err { OnErr result (self.new ≡ self.old) }
    {
        if self.holds(&rule) {
            return Ok(());
        }
        self.push(rule)?;
        Ok(())
    }

    /// The rules in the order in which they came.
    pub fn into_list(self) -> RuleList
        ensures { result ≡ self }
    {
        self.rules
    }
}
