//! Moments, in ms.

ghost use Rattle.std.specs.Prelude.{◌≡◌, ◌⊎◌, ◌↔◌, Some, IsTrue};
ghost use Rattle.dfs_states.specs.Greatest.{IsMost};
ghost use Rattle.dfs_states.specs.StandsFor.{IsLongAgo};

/// The last moment, in ms.
pub const LAST_MOMENT_MS: u64 = 1_000_000_000_000_000;

/// How long a channel isn't used after radar, in ms: its NOP, the non-occupancy period
/// (`IEEE80211_DFS_MIN_NOP_TIME_MS`).
pub const NONOCCUPANCY_MS: u64 = 1_800_000;

/// How long a check that is done stands on a channel that isn't used, in ms, where it can lapse.
pub const UNUSED_CHECK_MS: u64 = 2_000;

/// The later of two moments, either of which there may not be.
pub(crate) fn later(one: Option<u64>, other: Option<u64>) -> Option<u64>
    ensures { IsMost (λ moment. (one ≡ Some moment) ⊎ (other ≡ Some moment)) result }
{
    match (one, other) {
        (Some(one), Some(other)) => Some(one.max(other)),
        (None, _) => other,
        (_, None) => one,
    }
}

/// Whether the check that ended at `end` and the last use, if there was one, are 2,000 ms past.
pub(crate) fn is_long_ago(now: u64, end: u64, used: Option<u64>) -> bool
    ensures { IsTrue result ↔ IsLongAgo now end used }
{
    let last = match used {
        Some(moment) => end.max(moment),
        None => end,
    };
    now.saturating_sub(last) >= UNUSED_CHECK_MS
}
