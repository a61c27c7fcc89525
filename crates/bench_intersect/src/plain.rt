//! A plain loop over the rules of neighbouring domains.

use crate::count::Count;
use crate::joined::ROUNDS;
use freq_range::Rule;
use rule_tables::Domain;

/// How many of the rules have a frequency from `least` on in common with this one.
fn count_common(one: &Rule, others: &[Rule], least: u32) -> u64 {
    let start = one.start_khz.max(least);
    let mut common = 0u64;
    for other in others {
        if start.max(other.start_khz) < one.end_khz.min(other.end_khz) {
            common = common.wrapping_add(1);
        }
    }
    common
}

/// Compares each rule with each of the others.
fn compare_pairs(rules: &[Rule], others: &[Rule], least: u32) -> Count {
    let mut found = 0u64;
    for rule in rules {
        found = found.wrapping_add(count_common(rule, others, least));
    }
    Count {
        pairs: (rules.len() as u64).wrapping_mul(others.len() as u64),
        found,
    }
}

/// Compares the rules of each two neighbouring domains.
fn compare_all(domains: &[Domain], least: u32) -> Count {
    let mut count = Count::NONE;
    for two in domains.windows(2) {
        if let [one, other] = two {
            let of_two = compare_pairs(one.rules.as_slice(), other.rules.as_slice(), least);
            count = count.and(&of_two);
        }
    }
    count
}

/// Compares the rules of neighbouring domains many times.
pub(crate) fn compare_often(domains: &[Domain]) -> Count {
    let mut count = Count::NONE;
    // A round stands for a frequency below all rules, so that a compiler can't tell the rounds to be one.
    for round in 0..ROUNDS {
        count = count.and(&compare_all(domains, round));
    }
    count
}
