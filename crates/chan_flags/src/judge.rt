//! The verdict of the records of a radio's channels.

ghost use Rattle.std.specs.Prelude.{◌≡◌, [], ◌∷◌, MatchOption};
ghost use Rattle.chan_def.specs.Covered.{IsValidDef};
ghost use Rattle.chan_flags.specs.inner.Listing.{AreAscending};
ghost use Rattle.chan_flags.specs.ByRecords.{BarsBy, IsLimitBy, IsVerdictBy};
ghost use Rattle.chan_flags.specs.Verdicts.{power_of, HasWidth, IsAbove, IsChanRefusal, IsWithinLimit, NoneBars};
ghost use Rattle.chan_flags.specs.declared.asked.Obstacle.TheVariants.{Missing, Unruled, Narrow, OfdmBarred, IrBarred, OutdoorBarred};

use crate::asked::{Asked, Obstacle};
use crate::barred::lowest_barred;
use crate::limits::{check_ms_by, limit_mbm_by};
use crate::record::Chan;
use crate::verdict::{ChanRefusal, PowerSetting, Verdict};

/// The refusal for what the radio lacks.
fn radio_refusal(chans: &[Chan], asked: &Asked) -> Option<ChanRefusal>
    requires valid { IsValidDef asked.now.chan }
    requires ascending { AreAscending chans.now }
    ensures { MatchOption result
        (HasWidth asked.now × NoneBars (BarsBy chans.now asked.now) asked.now.chan (Missing ∷ []))
        (IsChanRefusal (BarsBy chans.now asked.now) (IsLimitBy chans.now asked.now) asked.now) }
{
    if let Some(khz) = lowest_barred(chans, asked, Obstacle::Missing) {
        return Some(ChanRefusal::LacksChannel(khz));
    }
    if asked.chan.width.khz() > u32::from(asked.profile.width_mhz()) * 1000 {
        return Some(ChanRefusal::LacksWidth(asked.chan.width.mhz()));
    }
    None
}

/// The refusal for rules that are missing or too narrow, where the radio lacks nothing.
fn width_refusal(chans: &[Chan], asked: &Asked) -> Option<ChanRefusal>
    requires valid { IsValidDef asked.now.chan }
    requires ascending { AreAscending chans.now }
    requires width { HasWidth asked.now }
    requires none_bars { NoneBars (BarsBy chans.now asked.now) asked.now.chan (Missing ∷ []) }
    ensures { MatchOption result
        (NoneBars (BarsBy chans.now asked.now) asked.now.chan (Missing ∷ Unruled ∷ Narrow ∷ []))
        (IsChanRefusal (BarsBy chans.now asked.now) (IsLimitBy chans.now asked.now) asked.now) }
{
    if let Some(khz) = lowest_barred(chans, asked, Obstacle::Unruled) {
        return Some(ChanRefusal::NoRule(khz));
    }
    if let Some(khz) = lowest_barred(chans, asked, Obstacle::Narrow) {
        return Some(ChanRefusal::TooNarrow(khz));
    }
    None
}

/// The refusal for a flag, where the rules are there and wide enough.
fn flag_refusal(chans: &[Chan], asked: &Asked) -> Option<ChanRefusal>
    requires valid { IsValidDef asked.now.chan }
    requires ascending { AreAscending chans.now }
    requires width { HasWidth asked.now }
    requires none_bars { NoneBars (BarsBy chans.now asked.now) asked.now.chan (Missing ∷ Unruled ∷ Narrow ∷ []) }
    ensures { MatchOption result
        (NoneBars (BarsBy chans.now asked.now) asked.now.chan (Missing ∷ Unruled ∷ Narrow ∷ OfdmBarred ∷ IrBarred ∷ OutdoorBarred ∷ []))
        (IsChanRefusal (BarsBy chans.now asked.now) (IsLimitBy chans.now asked.now) asked.now) }
{
    if let Some(khz) = lowest_barred(chans, asked, Obstacle::OfdmBarred) {
        return Some(ChanRefusal::NoOfdm(khz));
    }
    if let Some(khz) = lowest_barred(chans, asked, Obstacle::IrBarred) {
        return Some(ChanRefusal::NoIr(khz));
    }
    if let Some(khz) = lowest_barred(chans, asked, Obstacle::OutdoorBarred) {
        return Some(ChanRefusal::NoOutdoor(khz));
    }
    None
}

/// The power, in mBm, that the setting gives under the limit. `None` where a fixed power is above it.
fn power_under(setting: PowerSetting, limit_mbm: u16) -> Option<u16>
    ensures { MatchOption result (IsAbove setting limit_mbm)
        (λ power. IsWithinLimit setting limit_mbm × (power ≡ power_of setting limit_mbm)) }
{
    match setting {
        PowerSetting::Auto => Some(limit_mbm),
        PowerSetting::Limit(power_mbm) => Some(limit_mbm.min(power_mbm)),
        PowerSetting::Fixed(power_mbm) if power_mbm <= limit_mbm => Some(power_mbm),
        PowerSetting::Fixed(_) => None,
    }
}

/// The verdict where no obstacle bars a subchannel: a fixed power may be too much.
fn power_verdict(chans: &[Chan], asked: &Asked) -> Verdict
    requires valid { IsValidDef asked.now.chan }
    requires ascending { AreAscending chans.now }
    requires width { HasWidth asked.now }
    requires none_bars { NoneBars (BarsBy chans.now asked.now) asked.now.chan (Missing ∷ Unruled ∷ Narrow ∷ OfdmBarred ∷ IrBarred ∷ OutdoorBarred ∷ []) }
    ensures { IsVerdictBy chans.now asked.now result }
{
    let limit_mbm = limit_mbm_by(chans, asked);
    match power_under(asked.setting, limit_mbm) {
        Some(power_mbm) => Verdict::Fits {
            power_mbm,
            check_ms: check_ms_by(chans, asked),
        },
        None => Verdict::Refused(ChanRefusal::AboveLimit(limit_mbm)),
    }
}

/// The verdict of the records.
pub fn verdict_by(chans: &[Chan], asked: &Asked) -> Verdict
    requires valid { IsValidDef asked.now.chan }
    requires ascending { AreAscending chans.now }
    ensures { IsVerdictBy chans.now asked.now result }
{
    if let Some(refusal) = radio_refusal(chans, asked) {
        return Verdict::Refused(refusal);
    }
    if let Some(refusal) = width_refusal(chans, asked) {
        return Verdict::Refused(refusal);
    }
    if let Some(refusal) = flag_refusal(chans, asked) {
        return Verdict::Refused(refusal);
    }
    power_verdict(chans, asked)
}
