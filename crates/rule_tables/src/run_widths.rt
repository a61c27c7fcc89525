//! How wide channels may be under the rules of a domain, all at once.

ghost use Rattle.std.specs.Prelude.{◌≡◌, ◌<◌, IfOk, length};
ghost use Rattle.rule_tables.specs.Width.{AreAllowedWidths, IsAllowedWidth, IsRunEnd, IsRunWidth};
ghost use Rattle.rule_tables.specs.inner.Runs.{IsRunBefore, IsRunOf};

use crate::domain::Domain;
use crate::width::run_end;
use freq_range::Rule;
use reg_lists::{OutOfMemory, Seq};
use std::alloc::Global;

/// A run of touching rules, by its first rule and its last one.
#[derive(Clone, Copy)]
struct Run {
    first: usize,
    last: usize,
}

/// The run that begins with rule `k`.
fn run_from(rules: &[Rule], k: usize) -> Run
    requires { k < length rules.now }
    ensures first { result.first ≡ k }
    ensures last { IsRunEnd rules.now k result.last }
{
    Run {
        first: k,
        last: run_end(rules, k),
    }
}

/// The run that has rule `k`, from that of the rule before it.
fn run_behind(rules: &[Rule], before: Option<Run>, k: usize) -> Run
    requires in_range { k < length rules.now }
    requires before { IsRunBefore rules.now k before }
    ensures run { IsRunOf rules.now k result }
{
    match before {
        None => run_from(rules, k),
        Some(run) => {
            if k <= run.last {
                run
            } else {
                run_from(rules, k)
            }
        }
    }
}

/// The width of the run that has rule `k`, in kHz.
fn span(rules: &[Rule], k: usize, run: Run) -> u32
    requires run { IsRunOf rules.now k run }
    ensures width { IsRunWidth rules.now k result }
{
    rules[run.last]
        .end_khz
        .saturating_sub(rules[run.first].start_khz)
}

/// The width that rule `k` allows, in kHz, which stands in this run.
fn width_in(rules: &[Rule], k: usize, run: Run) -> u32
    requires in_range { k < length rules.now }
    requires run { IsRunOf rules.now k run }
    ensures width { IsAllowedWidth rules.now k result }
{
    if rules[k].flags.auto_bw {
        span(rules, k, run)
    } else {
        rules[k].max_bw_khz
    }
}

/// The widths that the rules allow, in their order, in kHz.
fn widths_of(alloc: Global, rules: &[Rule]) -> Result<Seq<u32>, OutOfMemory>
    ensures widths { IfOk result (AreAllowedWidths rules.now) }
{
    let mut widths = Seq::new(alloc);
    let mut before = None;
    for k in 0..rules.len() {
        let run = run_behind(rules, before, k);
        widths.push(width_in(rules, k, run))?;
        before = Some(run);
    }
    Ok(widths)
}

/// The widths that the rules of the domain allow, in their order, in kHz: for each what
/// `allowed_width` answers. `OutOfMemory` is its one error.
pub fn allowed_widths(alloc: Global, d: &Domain) -> Result<Seq<u32>, OutOfMemory>
    ensures widths { IfOk result (AreAllowedWidths d.now.rules) }
{
    widths_of(alloc, d.rules.as_slice())
}
