//! The greatest power and the longest check for radar (CAC, channel availability check), by the
//! records of a radio's channels.

ghost use Rattle.std.specs.Prelude.{◌≡◌, ◌≤◌, ◌⊎◌, ◌↔◌, IsTrue};
ghost use Rattle.std.specs.Option.{option_copied};
ghost use Rattle.chan_def.specs.Covered.{IsValidDef};
ghost use Rattle.chan_flags.specs.inner.Listing.{AreAscending};
ghost use Rattle.chan_flags.specs.ByRecords.{FitHas, IfFit, IsBoundBy, IsCheckLengthBy, IsLimitBy};

use crate::asked::Asked;
use crate::barred::channel_at;
use crate::record::Chan;
use chan_def::{MOST_SUBCHANNELS, subchannels};

/// The lesser of the limit and that of the channel's record, if there is one, in mBm.
fn lesser_limit(limit_mbm: u16, chan: Option<&Chan>) -> u16
    ensures most { result ≤ limit_mbm }
    ensures record { IfFit (λ fit. result ≤ fit.limit_mbm) (option_copied chan.entry) }
    ensures one { (result ≡ limit_mbm) ⊎ FitHas (λ fit. result ≡ fit.limit_mbm) (option_copied chan.entry) }
{
    match chan {
        Some(Chan { fit: Some(fit), .. }) => limit_mbm.min(fit.limit_mbm),
        _ => limit_mbm,
    }
}

/// The greater of the length and that of the channel's record, if there is one with DFS, in ms.
fn greater_length(length_ms: u32, chan: Option<&Chan>) -> u32
    ensures least { length_ms ≤ result }
    ensures record { IfFit (λ fit. IsTrue fit.flags.dfs → fit.check_ms ≤ result) (option_copied chan.entry) }
    ensures one { (result ≡ length_ms)
        ⊎ FitHas (λ fit. IsTrue fit.flags.dfs × (result ≡ fit.check_ms)) (option_copied chan.entry) }
{
    match chan {
        Some(Chan { fit: Some(fit), .. }) if fit.flags.dfs => length_ms.max(fit.check_ms),
        _ => length_ms,
    }
}

/// The greatest power, in mBm (EIRP), that the radio and the records of all subchannels allow.
pub fn limit_mbm_by(chans: &[Chan], asked: &Asked) -> u16
    requires valid { IsValidDef asked.now.chan }
    requires ascending { AreAscending chans.now }
    ensures { IsLimitBy chans.now asked.now result }
{
    let mut limit_mbm = asked.profile.power_mbm();
    for i in 0..MOST_SUBCHANNELS {
        let Some(khz) = subchannels(&asked.chan, i) else {
            return limit_mbm;
        };
        limit_mbm = lesser_limit(limit_mbm, channel_at(chans, khz));
    }
    limit_mbm
}

/// The longest check for radar, in ms, among the records with DFS of all subchannels, or 0 where
/// none has it.
pub fn check_ms_by(chans: &[Chan], asked: &Asked) -> u32
    requires valid { IsValidDef asked.now.chan }
    requires ascending { AreAscending chans.now }
    ensures { IsCheckLengthBy chans.now asked.now result }
{
    let mut length_ms = 0;
    for i in 0..MOST_SUBCHANNELS {
        let Some(khz) = subchannels(&asked.chan, i) else {
            return length_ms;
        };
        length_ms = greater_length(length_ms, channel_at(chans, khz));
    }
    length_ms
}

/// Whether the channel has a record with DFS.
pub fn is_bound_by(chans: &[Chan], khz: u32) -> bool
    requires { AreAscending chans.now }
    ensures { IsTrue result ↔ IsBoundBy chans.now khz }
{
    match channel_at(chans, khz) {
        Some(Chan { fit: Some(fit), .. }) => fit.flags.dfs,
        _ => false,
    }
}
