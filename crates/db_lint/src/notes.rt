//! Notes on the rules of a database.

ghost use Rattle.std.specs.Prelude.{◌≡◌, ◌<◌, ◌≤◌, ◌↔◌, ◌++◌, IfOk, IsTrue, List, OnOk, length};
ghost use Rattle.freq_range.specs.Ascending.{AreAllAscending};
ghost use Rattle.freq_range.specs.Channels.{IsCentre};
ghost use Rattle.rule_tables.specs.Governing.{Governs};
ghost use Rattle.rule_tables.specs.Width.{AreAllowedWidths, IsAllowedWidth};
ghost use Rattle.db_lint.specs.Notes.{AreFirstNotes, AreNotes, IsHiddenBy, IsLeastChannel, IsNote};
ghost use Rattle.db_lint.specs.inner.Held.{HeldByOne};
ghost use Rattle.db_lint.specs.inner.Leasts.{AreLeasts};
ghost use Rattle.db_lint.specs.declared.notes.RuleNote.{RuleNote};

use crate::least::{least_held, leasts_governed};
use crate::rule_at::rule_of;
use freq_range::{Rule, all_channels};
use reg_lists::{OutOfMemory, Seq};
use rule_tables::{Alpha2, Db, Domain, allowed_widths, governing};
use std::alloc::Global;

/// What stands out in a rule. Nothing of it need be a mistake.
#[derive(Clone, Copy, Debug, PartialEq, Eq)]
pub struct RuleNote {
    /// The country.
    pub alpha2: Alpha2,
    /// The rule, counted from 0.
    pub rule: usize,
    /// The least channel that it governs, by its centre in kHz, or `None` where it governs none.
    pub least: Option<u32>,
    /// The least channel that its range holds, by its centre in kHz, or `None` where it holds none.
    pub held: Option<u32>,
    /// The rule that governs the channel `held` where this one governs none, else `None`.
    pub by: Option<usize>,
    /// Whether it allows less than 20 MHz.
    pub narrow: bool,
    /// Whether it has AUTO-BW, and allows no more for it than its own width.
    pub idle_auto: bool,
}

/// A list of notes.
pub type NoteList = Seq<RuleNote>;

/// Whether AUTO-BW is set and the width that it allows, in kHz, is at most the rule's own.
fn is_idle_auto(rule: &Rule, width_khz: u32) -> bool
    ensures idle { IsTrue result ↔ (IsTrue rule.now.flags.auto_bw × (width_khz ≤ rule.now.max_bw_khz)) }
{
    rule.flags.auto_bw && width_khz <= rule.max_bw_khz
}

/// The rule that governs the least channel that a rule of the domain holds, where that rule governs
/// none.
fn hidden_by(domain: &Domain, least: Option<u32>, held: Option<u32>) -> Option<usize>
    requires held { HeldByOne domain.now.rules held }
    ensures hidden { IsHiddenBy domain.now.rules least held result }
{
    match (least, held) {
        (None, Some(khz)) => governing(domain, khz),
        (None, None) => None,
        (Some(_), _) => None,
    }
}

/// The note on rule `k` of the domain, which allows this width, in kHz, and governs this channel
/// first, by its centre in kHz.
fn note_on(
    domain: &Domain,
    k: usize,
    width_khz: u32,
    least: Option<u32>,
    channels: &[u32],
) -> RuleNote
    requires in_range { k < length domain.now.rules }
    requires width { IsAllowedWidth domain.now.rules k width_khz }
    requires least { IsLeastChannel (λ khz. Governs domain.now.rules khz k) least }
    requires channels { AreAllAscending IsCentre channels.now }
    ensures note { IsNote domain.now k result }
{
    let rule = rule_of(domain, k);
    let held = least_held(&rule, channels);
    RuleNote {
        alpha2: domain.alpha2,
        rule: k,
        least,
        held,
        by: hidden_by(domain, least, held),
        narrow: width_khz < 20_000,
        idle_auto: is_idle_auto(&rule, width_khz),
    }
}

/// Appends the notes on the domain's rules, in their order, which allow these widths, in kHz, and
/// govern these channels first.
fn push_notes(
    notes: &mut NoteList,
    domain: &Domain,
    widths: &[u32],
    leasts: &[Option<u32>],
    channels: &[u32],
) -> Result<(), OutOfMemory>
    requires widths { AreAllowedWidths domain.now.rules widths.now }
    requires leasts { AreLeasts domain.now.rules leasts.now }
    requires channels { AreAllAscending IsCentre channels.now }
    ensures notes { OnOk result ((own : List RuleNote) × (notes.new ≡ notes.old ++ own) × AreFirstNotes domain.now (length domain.now.rules) own) }
{
    for k in 0..domain.rules.len() {
        notes.push(note_on(domain, k, widths[k], leasts[k], channels))?;
    }
    Ok(())
}

/// Appends the notes on the domain's rules, in their order. `channels` are all channels, as
/// `freq_range::all_channels` gives them: each is asked once, and each run of touching rules is walked
/// once. `OutOfMemory` is its one error.
pub fn lint_domain(
    alloc: Global,
    notes: &mut NoteList,
    domain: &Domain,
    channels: &[u32],
) -> Result<(), OutOfMemory>
    requires channels { AreAllAscending IsCentre channels.now }
    ensures notes { OnOk result ((own : List RuleNote) × (notes.new ≡ notes.old ++ own) × AreFirstNotes domain.now (length domain.now.rules) own) }
{
    let widths = allowed_widths(alloc, domain)?;
    let leasts = leasts_governed(alloc, domain, channels)?;
    push_notes(
        notes,
        domain,
        widths.as_slice(),
        leasts.as_slice(),
        channels,
    )
}

/// A note on each rule of the database, countries and rules in their order. The rules without a least
/// channel are exactly those that govern none.
pub fn lint(alloc: Global, db: &Db) -> Result<NoteList, OutOfMemory>
    ensures notes { IfOk result (AreNotes db.now) }
{
    let channels = all_channels(alloc)?;
    let mut notes = Seq::new(alloc);
    for domain in db.as_slice() {
        lint_domain(alloc, &mut notes, domain, channels.as_slice())?;
    }
    Ok(notes)
}
