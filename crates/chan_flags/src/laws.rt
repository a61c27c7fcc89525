//! Laws over all records and verdicts.

ghost use Rattle.std.specs.Prelude.{◌≡◌, ◌↔◌, ℕ, List, Option};
ghost use Rattle.rule_tables.specs.declared.domain.Domain.{Domain};
ghost use Rattle.chan_flags.specs.ByRecords.{IsVerdictBy};
ghost use Rattle.chan_flags.specs.Fits.{IsGranting};
ghost use Rattle.chan_flags.specs.Records.{IsRecord};
ghost use Rattle.chan_flags.specs.Verdicts.{IsVerdict};
ghost use Rattle.chan_flags.specs.declared.asked.Asked.{Asked};
ghost use Rattle.chan_flags.specs.declared.record.Chan.{Chan};
ghost use Rattle.chan_flags.specs.declared.record.Fit.{Fit};
ghost use Rattle.chan_flags.specs.declared.verdict.Verdict.{Verdict};
ghost use Rattle.chan_flags.specs.declared.verdict.Verdict.TheVariants.{Fits};

/// A channel has at most one record over a list of domains.
pub fn one_record()
    ensures { (ds : List Domain) (khz : ℕ) (one other : Option Fit) → IsRecord ds khz one → IsRecord ds khz other → one ≡ other }
{}

/// There is at most one verdict of a list of domains on what is asked, and one of the records of a
/// radio's channels.
pub fn one_verdict()
    ensures domains { (ds : List Domain) (q : Asked) (one other : Verdict) → IsVerdict ds q one → IsVerdict ds q other → one ≡ other }
    ensures records { (chans : List Chan) (q : Asked) (one other : Verdict) → IsVerdictBy chans q one → IsVerdictBy chans q other → one ≡ other }
{}

/// There is a verdict of each list of domains on whatever is asked.
pub fn some_verdict()
    ensures { (ds : List Domain) (q : Asked) → (verdict : Verdict) × IsVerdict ds q verdict }
{}

/// A channel is allowed exactly where the radio has its subchannels and its width, each subchannel
/// fits the governing rule of each domain, and a fixed power is within the limit.
pub fn allowed_where_it_fits()
    ensures { (ds : List Domain) (q : Asked) (mbm ms : ℕ) → IsVerdict ds q (Fits mbm ms) ↔ IsGranting ds q mbm ms }
{}
