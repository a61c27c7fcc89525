//! Making the rows of a list of domains, over slices.

ghost use Rattle.std.specs.Prelude.{◌≡◌, ℕ, ◌<◌, ◌≤◌, ◌*◌, ◌++◌, All, IfErr, IfOk, MatchOption, OnOk, length};
ghost use Rattle.rule_intersect.specs.inner.Pairs.{met_one};
ghost use Rattle.rule_intersect.specs.inner.Pairs.{met_all};
ghost use Rattle.rule_intersect.specs.inner.Pairs.{join_one};
ghost use Rattle.rule_intersect.specs.inner.Pairs.{join_all};
ghost use Rattle.rule_intersect.specs.inner.Own.{AreOwnRows};
ghost use Rattle.rule_intersect.specs.Subchannels.{IsFirstRow, NoRowHolds};
ghost use Rattle.rule_intersect.specs.declared.fault.ResolveFault.TheVariants.{OutOfMemory};

use crate::fault::ResolveFault;
use crate::row::Row;
use crate::table::MOST_ROWS;
use freq_range::Rule;
use rule_tables::width_among;
use std::alloc::Global;

/// The rows of the rules, each alone, with the widths that they allow.
pub fn own_rows(alloc: Global, rules: &[Rule]) -> Result<Vec<Row>, ResolveFault>
    ensures rows { IfOk result (λ v. AreOwnRows rules.now (length rules.now) v.items) }
    ensures err { IfErr result (λ e. e ≡ OutOfMemory) }
{
    let mut rows = Vec::with_capacity(alloc, rules.len())?;
    for (k, rule) in rules.iter().enumerate() {
        rows.push(Row::of_rule(rule, width_among(rules, k)))?;
    }
    Ok(rows)
}

/// How many of the rules the row meets.
fn count_one(row: &Row, rules: &[Rule]) -> usize
    ensures count { result ≡ met_one row.now rules.now }
    ensures small { result ≤ length rules.now }
{
    let mut count = 0;
    for rule in rules {
        if row.meets_rule(rule) {
            count += 1;
        }
    }
    count
}

/// How many pairs of a row and a rule meet.
pub fn count_all(rows: &[Row], rules: &[Rule]) -> usize
    requires few_rows { length rows.now ≤ MOST_ROWS }
    requires few_rules { length rules.now ≤ 128 }
    ensures count { result ≡ met_all rows.now rules.now }
{
    let mut count = 0;
    for row in rows {
        count += count_one(row, rules);
    }
    count
}

/// Appends the row joined with each of the others that it meets.
fn push_joined(out: &mut Vec<Row>, row: &Row, others: &[Row]) -> Result<(), ResolveFault>
    ensures rows { OnOk result (out.new.items ≡ out.old.items ++ join_one row.now others.now) }
    ensures err { IfErr result (λ e. e ≡ OutOfMemory) }
{
    for other in others {
        if row.meets(other) {
            out.push(row.joined(other))?;
        }
    }
    Ok(())
}

/// Each row joined with each of the others that it meets, `count` rows in all.
pub fn join_rows(
    alloc: Global,
    count: usize,
    rows: &[Row],
    others: &[Row],
) -> Result<Vec<Row>, ResolveFault>
    ensures rows { IfOk result (λ v. v.items ≡ join_all rows.now others.now) }
    ensures err { IfErr result (λ e. e ≡ OutOfMemory) }
{
    let mut joined = Vec::with_capacity(alloc, count)?;
    for row in rows {
        push_joined(&mut joined, row, others)?;
    }
    Ok(joined)
}

/// The first row whose range holds the channel round this centre, in kHz.
pub fn first_holding(rows: &[Row], centre_khz: u32) -> Option<usize>
    ensures { MatchOption result (NoRowHolds rows.now centre_khz) (IsFirstRow rows.now centre_khz) }
{
    for (k, row) in rows.iter().enumerate() {
        if row.range().holds(centre_khz) {
            return Some(k);
        }
    }
    None
}
