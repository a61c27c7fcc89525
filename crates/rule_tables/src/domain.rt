//! A domain: what one country allows.

ghost use Rattle.std.specs.Prelude.{All, MatchOption, MatchResult};
ghost use Rattle.freq_range.specs.First.{IsFirst};
ghost use Rattle.freq_range.specs.Valid.{IsValidRule};
ghost use Rattle.rule_tables.specs.Domains.{AreRules, IsDomainFault, IsInvalidAt};

use crate::code::{Alpha2, Region};
use freq_range::{Rule, RuleList};
use thiserror::Error;

/// What a country allows (`struct ieee80211_regdomain`).
#[derive(Debug, Drop)]
pub struct Domain {
    pub alpha2: Alpha2,
    pub region: Region,
    pub rules: RuleList,
}

/// What is wrong with the rules of a domain.
#[derive(Clone, Copy, Debug, PartialEq, Eq, Error)]
pub enum DomainFault {
    /// There is no rule.
    #[error("no rules")]
    NoRules,
    /// There are so many rules, more than 128.
    #[error("{0} rules")]
    TooMany(usize),
    /// The first rule that isn't valid, counted from 0.
    #[error("rule {0} isn't valid")]
    BadRule(usize),
}

/// The first rule that isn't valid.
fn first_invalid(rules: &[Rule]) -> Option<usize>
    ensures { MatchOption result (All IsValidRule rules.now) (IsFirst (IsInvalidAt rules.now)) }
{
    for (k, rule) in rules.iter().enumerate() {
        if !rule.is_valid() {
            return Some(k);
        }
    }
    None
}

impl Domain {
    /// Whether there are 1 to 128 rules and each is valid, or the first of `NoRules`, `TooMany`,
    /// `BadRule` that applies.
    pub fn check(&self) -> Result<(), DomainFault>
        ensures { MatchResult result (λ _. AreRules self.now.rules) (IsDomainFault self.now.rules) }
    {
        let rules = self.rules.as_slice();
        if rules.is_empty() {
            return Err(DomainFault::NoRules);
        }
        if rules.len() > 128 {
            return Err(DomainFault::TooMany(rules.len()));
        }
        match first_invalid(rules) {
            Some(k) => Err(DomainFault::BadRule(k)),
            None => Ok(()),
        }
    }
}
