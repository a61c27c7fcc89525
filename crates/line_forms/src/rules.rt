//! Reads the lines of radios' rules.

ghost use Rattle.std.specs.Prelude.{◌≡◌, ◌<◌, ◌≤◌, [], ◌∷◌, ℕ, IfOk, IfSome, List, MatchOption, OnErr, length};
ghost use Rattle.freq_range.specs.declared.rule.Rule.{Rule};
ghost use Rattle.reg_journal.specs.Requests.{IsAskable};
ghost use Rattle.reg_journal.specs.declared.request.Request.{Request};
ghost use Rattle.line_forms.specs.Forms.{AreRulesOfText, BeginsRuleLine, BeginsRules, RulesOf, rule_parts, rules_text};
ghost use Rattle.line_forms.specs.declared.rules.TheConstants.{MOST_RULES};
ghost use Rattle.line_forms.specs.Words.{words_of};

use crate::pieces::radio_of;
use crate::words::{Words, is_word};
use freq_range::RuleList;
use memchr::memchr;
use reg_base::Bytes;
use reg_hints::RadioNo;
use reg_journal::Request;
use reg_lists::OutOfMemory;
use std::alloc::Global;
use text_lines::{RuleTextFault, parse_rule};

/// The most rules that a line can give a radio.
pub const MOST_RULES: usize = 32;

/// Takes the first three words, where they are `radio rules` and a radio.
fn rules_radio(words: &mut Words<'_>) -> Option<RadioNo>
    ensures { MatchOption result ((radio : ℕ) (rest : List (List ℕ)) → BeginsRules words.old radio rest → ⊥) (λ radio. BeginsRules words.old radio words.new) }
{
    let first = words.next_word()?;
    if !is_word(first, b"radio") {
        return None;
    }
    let second = words.next_word()?;
    let third = words.next_word()?;
    if !is_word(second, b"rules") {
        return None;
    }
    let radio = radio_of(third)?;
    Some(radio)
}

/// The words that are left, each behind a blank.
fn rules_text(alloc: Global, words: &mut Words<'_>) -> Result<Bytes, OutOfMemory>
    ensures { IfOk result (λ text. text ≡ rules_text words.old) }
{
    let mut text = Bytes::new(alloc);
    'words: while let Some(word) = words.next_word() {
        text.push(b' ')?;
        text.append(word)?;
    }
    Ok(text)
}

/// What stands before the first `;`, and what is behind it, if there is one.
#[tactic(auto, using(crate::proofs::RuleParts::part_steps))]
fn cut_part(text: &[u8]) -> (&[u8], Option<&[u8]>)
    ensures parts { MatchOption result.1 (rule_parts text.now ≡ result.0.now ∷ []) (λ rest. rule_parts text.now ≡ result.0.now ∷ rule_parts rest.now) }
    ensures shorter { IfSome result.1 (λ rest. length rest.now < length text.now) }
{
    match memchr(b';', text) {
        Some(place) => (&text[..place], Some(&text[place + 1..])),
        None => (text, None),
    }
}

/// These rules, where they are at most 32.
fn few_rules(rules: RuleList) -> Option<RuleList>
    ensures { MatchOption result (MOST_RULES < length rules) (λ few. (few ≡ rules) × (length rules ≤ MOST_RULES)) }
{
    if rules.len() <= MOST_RULES {
        Some(rules)
    } else {
        None
    }
}

/// The rules that the parts of the text say, at most 32. `None` where a part says no rule, or there
/// are more.
fn rules_of_text(alloc: Global, text: &[u8]) -> Result<Option<RuleList>, OutOfMemory>
    ensures { IfOk result (λ found. MatchOption found ((rules : List Rule) → AreRulesOfText text.now rules → ⊥) (AreRulesOfText text.now)) }
{
    let mut rules = RuleList::new(alloc);
    let mut left = text;
    'parts: loop {
        let (part, behind) = cut_part(left);
        match parse_rule(alloc, part) {
            Ok(rule) => rules.push(rule)?,
            Err(RuleTextFault::Kind(_)) => return Ok(None),
            Err(RuleTextFault::OutOfMemory) => return Err(OutOfMemory),
        }
        let Some(rest) = behind else {
            return Ok(few_rules(rules));
        };
        left = rest;
    }
}

/// The request of a line of rules. `None` exactly where it is none.
pub fn rules_request(alloc: Global, line: &[u8]) -> Result<Option<Request>, OutOfMemory>
    ensures asked { IfOk result (λ found. MatchOption found ((q : Request) → RulesOf (words_of line.now) q → ⊥) (RulesOf (words_of line.now))) }
    ensures memory { OnErr result (BeginsRuleLine (words_of line.now)) }
    ensures askable { IfOk result (λ found. IfSome found IsAskable) }
{
    let mut words = Words::new(line);
    let Some(radio) = rules_radio(&mut words) else {
        return Ok(None);
    };
    if words.is_over() {
        return Ok(None);
    }
    let text = rules_text(alloc, &mut words)?;
    match rules_of_text(alloc, text.as_slice())? {
        Some(rules) => Ok(Some(Request::RadioRules { radio, rules })),
        None => Ok(None),
    }
}
