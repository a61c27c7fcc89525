//! How wide a channel may be under a rule.

ghost use Rattle.std.specs.Prelude.{◌≡◌, ◌+◌, ◌<◌, ◌≤◌, ◌↔◌, IsTrue, length};
ghost use Rattle.rule_tables.specs.Width.{IsAllowedWidth, IsRunEnd, IsRunStart, IsRunWidth, TouchesNext};

use crate::domain::Domain;
use freq_range::Rule;

/// Whether rule `i` ends at or above the start of the next one.
fn touches_next(rules: &[Rule], i: usize) -> bool
    requires { i + 1 < length rules.now }
    ensures { IsTrue result ↔ TouchesNext rules.now i }
{
    rules[i + 1].start_khz <= rules[i].end_khz
}

/// The first rule of the run of touching rules that has rule `k`.
fn run_start(rules: &[Rule], k: usize) -> usize
    requires { k < length rules.now }
    ensures start { IsRunStart rules.now k result }
{
    let mut first = k;
    'left: while first > 0 && touches_next(rules, first - 1) {
        first -= 1;
    }
    first
}

/// The last rule of the run of touching rules that has rule `k`.
pub(crate) fn run_end(rules: &[Rule], k: usize) -> usize
    requires { k < length rules.now }
    ensures end { IsRunEnd rules.now k result }
{
    let mut last = k;
    'right: while last + 1 < rules.len() && touches_next(rules, last) {
        last += 1;
    }
    last
}

/// The width of the run of touching rules that has rule `k`, in kHz.
fn run_width(rules: &[Rule], k: usize) -> u32
    requires { k < length rules.now }
    ensures { IsRunWidth rules.now k result }
{
    let first = run_start(rules, k);
    let last = run_end(rules, k);
    rules[last].end_khz.saturating_sub(rules[first].start_khz)
}

/// The width that rule `k` of the list allows, in kHz: its own, and with AUTO-BW that of the run of
/// touching rules that has it (`reg_get_max_bandwidth`).
pub fn width_among(rules: &[Rule], k: usize) -> u32
    requires in_range { k < length rules.now }
    ensures width { IsAllowedWidth rules.now k result }
{
    if rules[k].flags.auto_bw {
        run_width(rules, k)
    } else {
        rules[k].max_bw_khz
    }
}

/// The width that rule `k` of the domain allows, in kHz: its own, and with AUTO-BW that of the run
/// of touching rules that has it (`reg_get_max_bandwidth`).
pub fn allowed_width(d: &Domain, k: usize) -> u32
    requires in_range { k < length d.now.rules }
    ensures width { IsAllowedWidth d.now.rules k result }
{
    width_among(d.rules.as_slice(), k)
}
