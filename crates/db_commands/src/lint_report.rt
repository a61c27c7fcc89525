//! Notes on the rules of a database, a line for each.

ghost use Rattle.std.specs.Prelude.{◌≡◌, ◌≤◌, ◌++◌, All, IfOk, OnOk, length, map};
ghost use Rattle.freq_range.specs.Ascending.{AreAllAscending};
ghost use Rattle.freq_range.specs.Channels.{IsCentre};
ghost use Rattle.rule_tables.specs.Databases.{IsDb};
ghost use Rattle.db_text.specs.Printed.{ended, text_of_lines};
ghost use Rattle.db_commands.specs.Reports.{IsLintReport, note_line, reach_text, rule_count, silent_count, totals_text};
ghost use Rattle.db_commands.specs.inner.Noted.{AreNotedLines};
ghost use Rattle.reg_base.specs.Texts.{line_of};

use crate::count_report::count_rules;
use crate::line::line_of;
use crate::pieces::{put_if, put_number, put_whole_mhz};
use db_lint::{RuleNote, lint_domain};
use freq_range::all_channels;
use reg_base::Bytes;
use reg_lists::{OutOfMemory, Seq};
use rule_tables::{Db, Domain};
use std::alloc::Global;

/// Appends `governs F MHz`.
fn put_governs(out: &mut Bytes, khz: u32) -> Result<(), OutOfMemory>
    ensures { OnOk result (out.new ≡ out.old ++ reach_text (Some khz) None None) }
{
    out.append(b"governs ")?;
    put_whole_mhz(out, khz)?;
    out.append(b" MHz")?;
    Ok(())
}

/// Appends `hidden by J at F`.
fn put_hidden(out: &mut Bytes, rule: usize, khz: u32) -> Result<(), OutOfMemory>
    ensures { OnOk result (out.new ≡ out.old ++ reach_text None (Some khz) (Some rule)) }
{
    out.append(b"hidden by ")?;
    put_number(out, rule as u64)?;
    out.append(b" at ")?;
    put_whole_mhz(out, khz)?;
    Ok(())
}

/// Appends which channel the rule governs first, or why it governs none.
fn put_reach(out: &mut Bytes, note: &RuleNote) -> Result<(), OutOfMemory>
    ensures { OnOk result (out.new ≡ out.old ++ reach_text note.now.least note.now.held note.now.by) }
{
    match (note.least, note.held, note.by) {
        (Some(khz), _, _) => put_governs(out, khz),
        (None, Some(khz), Some(rule)) => put_hidden(out, rule, khz),
        (None, None, _) => out.append(b"no channel"),
        (None, Some(_), None) => out.append(b"no channel"),
    }
}

/// Appends the line of a note.
#[tactic(auto, unfolding(crate::specs::Reports::note_line))]
fn put_note(out: &mut Bytes, note: &RuleNote) -> Result<(), OutOfMemory>
    ensures { OnOk result (out.new ≡ out.old ++ ended (note_line note.now)) }
{
    out.append(&[note.alpha2.a, note.alpha2.b])?;
    out.append(b" rule ")?;
    put_number(out, note.rule as u64)?;
    out.append(b": ")?;
    put_reach(out, note)?;
    put_if(out, note.narrow, b", narrow")?;
    put_if(out, note.idle_auto, b", idle AUTO-BW")?;
    out.push(b'\n')?;
    Ok(())
}

/// Appends the lines of notes.
fn put_notes(out: &mut Bytes, notes: &[RuleNote]) -> Result<(), OutOfMemory>
    ensures { OnOk result (out.new ≡ out.old ++ text_of_lines (map note_line notes.now)) }
{
    for note in notes {
        put_note(out, note)?;
    }
    Ok(())
}

/// How many notes are on rules that govern no channel.
fn count_silent(notes: &[RuleNote]) -> usize
    ensures exact { result ≡ silent_count notes.now }
    ensures small { result ≤ length notes.now }
{
    let mut count = 0;
    for note in notes {
        if note.least.is_none() {
            count += 1;
        }
    }
    count
}

/// Appends the lines of the notes on the domains' rules, a domain at a time, and gives how many are on
/// rules that govern no channel.
fn put_domains(
    alloc: Global,
    out: &mut Bytes,
    domains: &[Domain],
    channels: &[u32],
) -> Result<usize, OutOfMemory>
    requires few { length domains.now ≤ 65536 }
    requires short { All (λ d. length d.rules ≤ 128) domains.now }
    requires channels { AreAllAscending IsCentre channels.now }
    ensures noted { IfOk result (AreNotedLines domains.now out.old out.new) }
{
    let mut notes = Seq::new(alloc);
    let mut silent = 0;
    for domain in domains {
        notes.clear();
        lint_domain(alloc, &mut notes, domain, channels)?;
        put_notes(out, notes.as_slice())?;
        silent += count_silent(notes.as_slice());
    }
    Ok(silent)
}

/// `C countries, R rules, H without a channel` and a newline.
fn totals_line(alloc: Global, domains: &[Domain], silent: usize) -> Result<Bytes, OutOfMemory>
    requires { IsDb domains.now }
    ensures { IfOk result (λ line. line ≡ line_of (totals_text (length domains.now) (rule_count domains.now) silent)) }
{
    let countries = domains.len();
    let rules = count_rules(domains);
    let text = format!(in alloc;
        "{countries} countries, {rules} rules, {silent} without a channel"
    )?;
    line_of(alloc, text.as_bytes())
}

/// The notes on the database's rules, a line for each, and a last line with their numbers.
pub fn lint_report(alloc: Global, db: &Db) -> Result<Bytes, OutOfMemory>
    ensures { IfOk result (IsLintReport db.now) }
{
    let channels = all_channels(alloc)?;
    let mut out = Bytes::new(alloc);
    let silent = put_domains(alloc, &mut out, db.as_slice(), channels.as_slice())?;
    let totals = totals_line(alloc, db.as_slice(), silent)?;
    out.append(totals.as_slice())?;
    Ok(out)
}
