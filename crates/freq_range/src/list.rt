//! A list of rules that grows.

ghost use Rattle.std.specs.Prelude.{◌↔◌, Contains, IsTrue};

use crate::rule::Rule;
use reg_lists::Seq;

/// A list of rules.
pub type RuleList = Seq<Rule>;

/// Whether some rule of the list is this one.
pub fn contains_rule(rules: &[Rule], rule: &Rule) -> bool
    ensures contains { IsTrue result ↔ Contains rules.now rule.now }
{
    rules.iter().any(|other| other.is_same(rule))
}
